//! Tests of a lake that seats share: what no clause says.
//!
//! - `seats`: two seats of one lake stage and look in turn.
#![tactic(auto)]

#[cfg(test)]
mod seats;
