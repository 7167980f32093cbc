//! A command of `lakectl` is sent to a server.
//!
//! - `connect`: the trait of what gives connections. `asking`: bytes are sent over one, and the reply is read.
//! - `command`: a command is sent, and shown.
//!
//! The promise to the layer above: what is sent is the text of what the words send to that address, over one connection
//! that is hung up; and what is shown is what is shown of the reply that came back.
#![tactic(auto)]

mod asking;
mod command;
mod connect;

pub use command::send_command;
pub use connect::Connect;
