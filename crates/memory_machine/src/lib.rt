//! The outside in memory, for tests: it tells contracts what it holds.
//!
//! - `host`: a host of listeners, whose connections are made of bytes.
//! - `network`: a network whose connections give bytes, and keep what is sent.
//! - `files`: files, of which some can't be written. `names`: their names.
//! - `folders`: a folder with keepers of pairs and stores of objects.
//!
//! The promise to the layer above: each is what the trait of its kind promises, of what it was made of; what it gave
//! and was given back is told, in order; and it fails just where it was made to fail, or for memory.
#![tactic(auto)]

mod files;
mod folders;
mod host;
mod names;
mod network;

pub use files::MemoryFiles;
pub use folders::MemoryFolders;
pub use host::MemoryHost;
pub use network::{MemoryConnection, MemoryNetwork};
