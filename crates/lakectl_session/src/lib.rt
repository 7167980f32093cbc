//! A command of `lakectl` is served by a session of its own, over memory.
//!
//! - `exchange`: a session serves the bytes of a request, and its reply is read.
//! - `command`: a command is sent, served and shown; and so is a line of a batch.
//!
//! The promise to the layer above: what a command shows is what is shown of the reply that a session gives to what its
//! words send, and nothing but that session changes the lake.
#![tactic(auto)]

pub mod command;
mod exchange;

pub use command::{serve_command, serve_line};
pub use lakectl_commands::Files;
