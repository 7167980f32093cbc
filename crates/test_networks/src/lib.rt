//! Tests of the program where it reaches others, over a machine in memory: what no clause says.
//!
//! - `servers`: a server over a host in memory. `controls`: commands that go to a server, over a network in memory.
#![tactic(auto)]

#[cfg(test)]
mod controls;
#[cfg(test)]
mod servers;
