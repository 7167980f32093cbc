//! Calls that only read, answered over a lake that seats share, each by one reading of it.
//!
//! - `answers`: what a call is answered, and where; `refusals`: what a client is told of a step's refusal.
//! - `references`: repositories, branches and tags; `objects`; `commits`; `settings`: a function a call.
//! - `starved`: a call at which memory ran out before its step.
//!
//! The promise to the layer above: each function serves its call, by what the lake was when it was read, and adds
//! nothing.
#![tactic(auto)]

mod answers;
mod commits;
mod objects;
mod references;
pub mod refusals;
mod settings;
mod starved;

pub use answers::{Answered, answer};
pub use commits::{get_commit, log};
pub use objects::{list_objects, stat_object};
pub use references::{get_branch, get_tag, list_branches, list_repositories, list_tags};
pub use refusals::{Names, head_refusal_reply, refusal_reply};
pub use settings::{get_hooks, get_protection};
pub use starved::out_of_memory;
