//! An object's bytes are read from a lake that seats share, with other seats' entries anywhere between its looks.
//!
//! - `looks`: what stands at the path, and whether its bytes are to be got.
//! - `rounds`: its bytes are asked for, at most ten times, with a look after each miss.
//! - `objects`: the call.
//! - What callers need of seats, and of flows that write, is handed on.
//!
//! The promise to the layer above: the call is served, by the bytes of the object that its last look found; each other
//! answer has its cause; and nothing is changed.
#![tactic(auto)]

mod looks;
mod objects;
mod rounds;

pub use objects::{ObjectRead, ReadAnswer, read_object};
pub use shared_lake::{Client, LakeSeat, NoPause, Pause, Shared};
pub use write_flow::{
    Done, FlowFault, copy_object, delete_object, link_object, put_object, reset_branch,
};
