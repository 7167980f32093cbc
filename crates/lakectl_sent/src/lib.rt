//! What a command of `lakectl` sends.
//!
//! - `place`, `uris`: the URIs of a command. `number`, `metadata`, `check`: the values that aren't texts.
//! - `path`, `query`, `target`: where a request goes. `fields`, `body`: what it carries. `message`: all of it.
//!
//! The promise to the layer above: what is sent is the definition's line of the command's verb, and the first fault of
//! its URIs and values comes exactly where the definition says.
#![tactic(auto)]

pub mod body;
mod check;
mod fields;
pub mod message;
mod metadata;
mod number;
mod path;
pub mod place;
mod query;
mod target;
pub mod uris;

pub use message::{Message, message_of};
