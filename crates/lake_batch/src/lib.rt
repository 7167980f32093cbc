//! A batch of commands on a fresh lake in memory.
//!
//! - `batch`: its lines are served, at the clock's readings or all at one moment.
//! - `lines`: what serves a line: a command of `lakectl` on one seat of a lake.
//!
//! The promise to the layer above: what the sink gets is what the lines show, each of which is a command that a session
//! of its own serves, however the source is cut and whatever fails.
#![tactic(auto)]

mod batch;
mod lines;

pub use batch::serve_batch;
pub use lakectl_session::{serve_command, serve_line};
pub use lines::LakeLines;
