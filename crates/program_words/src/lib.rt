//! What the words ask for that the program was started with.
//!
//! - `batch`, `service`, `control`, `generator`: the words of a batch, of a server, of a command that goes to a server,
//!   and of the generator. `local`: those of a batch, a command and a server over a lake in a folder.
//!   `numbers`: numbers among them.
//!
//! The promise to the layer above: what words ask for is a function of them, and words that ask for nothing are told
//! apart.
#![tactic(auto)]

mod batch;
mod control;
mod generator;
mod local;
mod numbers;
mod service;

pub use batch::{Timing, batch_timing};
pub use control::control_words;
pub use generator::{Generator, generator_words};
pub use local::{local_batch_words, local_command_words, local_service_words};
pub use service::{Service, service_words};
