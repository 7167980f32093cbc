//! HTTP messages: bytes become a request or a reply, and a reply becomes bytes.
//!
//! - `message`, `fault`: requests and replies, and why a message isn't read. `buffer`: bytes that were read ahead.
//! - `request`, `response`: requests and replies are read. `heads`, `fields`, `body`: where a head ends, what its
//!   fields say, and its body.
//! - `reply`, `parts`, `write`: replies are written, and the one of want of memory; parts by few writes; all of some
//!   bytes.
//!
//! The promise to the layer above: what is read is the message at the front of the bytes, or its first fault, however
//! the reads are cut; and what is written is the reply's text, or a front of it before a failure.
#![tactic(auto)]

mod body;
pub mod buffer;
pub mod fault;
mod fields;
mod heads;
pub mod laws;
pub mod message;
mod parts;
pub mod reply;
pub mod request;
pub mod response;
pub mod write;

pub use buffer::Buffer;
pub use fault::WireFault;
pub use message::{Field, Reply, Request};
pub use reply::{write_no_memory, write_reply};
pub use request::read_request;
pub use response::read_reply;
