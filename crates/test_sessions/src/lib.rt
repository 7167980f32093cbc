//! Tests of sessions over a lake in memory: what no clause says.
//!
//! - `sessions`: requests, and what is written then, to the byte, however they are cut.
#![tactic(auto)]

#[cfg(test)]
mod sessions;
