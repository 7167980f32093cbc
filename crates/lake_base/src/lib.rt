//! The words of the lake: texts and names, digests, and the traits of the outside.
//!
//! - `text`, `names`: texts, paths and the names of repositories, branches and tags, each read from bytes;
//!   `order`: they are ordered by their bytes; `limits`: how long they may be.
//! - `digest`: SHA-256.
//! - `sequence`: a vector that contracts see as a list; `copying`: copies, which take memory.
//! - `outside`: sources, sinks and clocks, whose failures are counted; `memory`, `clocks`: those of tests and of
//!   runs in memory.
//!
//! The promise to the layer above: what a reader accepts is what it was given, and it refuses exactly what
//! breaks the stated limits; an object of the outside fails only with a count that rose.
#![tactic(auto)]

pub mod clocks;
pub mod copying;
pub mod digest;
pub mod limits;
pub mod memory;
pub mod names;
mod order;
pub mod outside;
pub mod sequence;
pub mod text;

pub use clocks::{FixedClock, ScriptClock};
pub use copying::TryCopy;
pub use digest::Digest;
pub use memory::{MemorySink, MemorySource};
pub use names::{NameFault, Path, RefName, RepoName};
pub use outside::{Clock, Failed, NoMemory, Sink, Source, Trouble};
pub use sequence::Sequence;
pub use text::{Text, is_utf8};
