//! Tests of commands that go to servers: what they come to over a connection. What no clause says.
//!
//! - `clients`: a command over a network in memory.
//! - `loopback`: a server and a client over sockets, in two threads. `patient`: a network that tries again.
//! - `words`: words of commands.
#![tactic(auto)]

#[cfg(test)]
mod clients;
#[cfg(test)]
mod loopback;
#[cfg(test)]
mod patient;
#[cfg(test)]
mod words;
