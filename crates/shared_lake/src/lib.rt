//! A lake that many seats share: its steps, each made under one turn.
//!
//! - `shared`: the lake behind a turn, opened to seats and closed again; `threads`: threads may share it.
//! - `readings`, `preparing`: the readings; `tickets`, `paths`, `branches`, `tags`, `notes`, `repositories`, `heads`:
//!   the changes. Each is the step of one lake under its name.
//! - `client`: what a flow of several steps is given beside the lake and its seat.
//!
//! The promise to the layer above: a step answers what the step of one lake answers whose history begins with all that
//! the seat had seen, with entries of others behind that, none where the seat is alone; what it adds is its own.
#![tactic(auto)]

mod branches;
mod client;
mod heads;
mod notes;
mod paths;
mod preparing;
mod readings;
mod repositories;
mod shared;
mod tags;
pub mod threads;
mod tickets;

pub use client::{Client, NoPause, Pause};
pub use shared::{LakeSeat, Shared};
