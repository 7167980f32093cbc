//! Laws of calls whose seat is alone: what two runs of one call have in common.
//!
//! - `replies`: the same call at the same moment, behind the same history, is told the same and adds the same, whatever
//!   it met, where it is told of no trouble.
//! - `troubles`: where it is told of none; and that no call lets a commit expire.
//!
//! The promise to the layer above: each law is the contract of a function that does nothing, and is cited by its name.
#![tactic(auto)]

pub mod replies;
pub mod troubles;
