//! Replies: what a client is told becomes the reply that is sent.
//!
//! - `reply`: the reply that is printed, by what was told; `refusals`: each refusal with its status and its text.
//! - `forms`, `metadata`: what clients are told, as JSON, by the fields of `object`; `lists`: pages of it.
//! - `bodies`: replies by what their body is.
//!
//! The promise to the layer above: a reply is a function of what was told, and can be written as it is.
#![tactic(auto)]

mod bodies;
mod forms;
mod lists;
mod metadata;
mod object;
mod refusals;
pub mod reply;

pub use reply::print;
