//! Calls that make a new head of a branch, answered over a lake that seats share: commits, merges, reverts and
//! cherry-picks, each by its flow.
//!
//! - `heads`: a function a call; `remarks`: what is said of a new commit; `replies`: what a client is told.
//!
//! Calls of objects and calls that only read are handed on.
//!
//! The promise to the layer above: each function serves its call.
#![tactic(auto)]

mod heads;
mod remarks;
mod replies;

pub use call_objects::{
    Answered, Client, LakeSeat, NoPause, Pause, Shared, copy, delete, get_branch, get_commit,
    get_hooks, get_protection, get_tag, link, list_branches, list_objects, list_repositories,
    list_tags, log, read, reset, stat_object, upload,
};
pub use heads::{cherry_pick, commit, merge, revert};
