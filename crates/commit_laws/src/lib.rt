//! Laws of calls that make a new head of a branch: commits, merges, reverts and cherry-picks, as many seats make them.
//! Each has two points, its own seal and the new head.
//!
//! - `written_paths`: what becomes of a change that isn't committed, along a history in which others are staged at its
//!   path.
//! - `commits`: a commit that is done; and of any new head what its own seal seals and what goes into it.
//! - `merges`: a merge, a revert and a cherry-pick that are done.
//! - `refusals`: those that are refused, before their seal or behind it.
//!
//! The promise to the layer above: each law is the contract of a function that does nothing, and is cited by its name.
#![tactic(auto)]

pub mod commits;
pub mod merges;
pub mod refusals;
pub mod written_paths;
