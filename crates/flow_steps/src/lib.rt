//! What the steps of a flow tell of the call that it serves, whatever other seats do between them.
//!
//! - `specs/FlowSeats`: what a flow knows of its seat; `specs/FlowChanges`: a change made by one step;
//!   `specs/FlowTries`: a change that is guarded by a version, tried once; `specs/Retries`: tries that found other
//!   versions, one after the other, and pauses; `specs/Flows`: a flow, and the call that it serves;
//!   `specs/FlowAnswers`: what it is asked, and what it meets.
//! - `answer`: what a flow answers, and which version its first try found; `laws`: what a flow that served a call
//!   brings its session.
//!
//! The promise to the layer above: a flow that goes its course step by step serves its call.
#![tactic(auto)]

mod answer;
pub mod laws;

pub use answer::{FlowAnswer, first_found};
