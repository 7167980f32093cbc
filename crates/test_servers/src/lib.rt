//! Tests of servers: that workers serve at once, and what becomes of a host's listeners. What no clause says.
//!
//! - `gate`: objects that wait until a gate opens, and a listener that opens it.
//! - `workers`: two workers, of whom the one waits for the other.
//! - `hosts`: a server over a host in memory.
#![tactic(auto)]

#[cfg(test)]
mod gate;
#[cfg(test)]
mod hosts;
#[cfg(test)]
mod workers;
