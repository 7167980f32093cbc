//! Calls of objects that take several steps, and resets, answered over a lake that seats share: each by its flow.
//!
//! - `writes`: an object is uploaded, linked, copied or deleted, and changes are dropped; `reads`: its bytes are read.
//! - `refusals`: what a client is told of a flow that was refused.
//! - `specs/AnsweredCalls`: what each call is promised, whatever it is.
//! - Calls that only read, and what callers need of seats, are handed on.
//!
//! The promise to the layer above: each function serves its call, and bodies that fit what its seat had seen stay so.
#![tactic(auto)]

mod reads;
mod refusals;
mod writes;

pub use call_readings::{
    Answered, Names, get_branch, get_commit, get_hooks, get_protection, get_tag,
    head_refusal_reply, list_branches, list_objects, list_repositories, list_tags, log,
    out_of_memory, refusal_reply, stat_object,
};
pub use read_flow::{Client, LakeSeat, NoPause, Pause, Shared};
pub use reads::read;
pub use writes::{copy, delete, link, reset, upload};
