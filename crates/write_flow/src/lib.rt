//! Calls of objects, each several steps of a lake that seats share, with other seats' entries anywhere between them: an
//! object is put, linked, copied or deleted, and changes are dropped.
//!
//! - `answer`: what a flow tells, and why it is refused.
//! - `tries`: a change that is guarded by its branch's version, tried at most ten times.
//! - `changes`: deletions, links, copies and resets; `upload`: a body is put.
//!
//! The promise to the layer above: each flow serves its call, and adds no entry but the call's own.
#![tactic(auto)]

mod answer;
mod changes;
mod tries;
mod upload;

pub use answer::{Done, FlowFault};
pub use changes::{copy_object, delete_object, link_object, reset_branch};
pub use flow_steps::FlowAnswer;
pub use upload::put_object;
