//! Requests of objects become calls.
//!
//! - `objects`: the calls of objects, a function a kind.
//!
//! The promise to the layer above: what a route of objects asks of its segments, its query, its fields and its body is
//! its call, or has the first refusal of its form, as the one definition `object_call` says, unless memory runs out.
#![tactic(auto)]

pub mod objects;

pub use objects::object_call;
