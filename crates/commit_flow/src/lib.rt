//! New heads of a branch that other seats change too: commits, merges, reverts and cherry-picks, each several steps of
//! a lake that seats share.
//!
//! - `answer`: why a flow is refused.
//! - `tries`: a new head, tried at most ten times; `heads`: the seal before that.
//! - `merges`, `picks`: what a merge, a revert or a cherry-pick is made of; `flows`: the four calls.
//!
//! The promise to the layer above: each flow serves its call, and adds no entry but its seal and its new head.
#![tactic(auto)]

mod answer;
mod flows;
mod heads;
mod merges;
mod picks;
mod tries;

pub use answer::CommitFault;
pub use flow_steps::FlowAnswer;
pub use flows::{cherry_pick, commit, merge, revert};
