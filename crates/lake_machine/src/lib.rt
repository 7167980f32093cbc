//! The machine, as the program sees it: streams, the clock and files, each as thin as can be.
//!
//! - `streams`: `StdSource` and `StdSink`, a reader and a writer. `clock`: `SystemClock`. `files`: `StdFiles`.
//!
//! The promise to the layer above: a failed call is counted. No contract can say what a file or a terminal gives, and
//! so none is told.
#![tactic(auto)]

pub mod clock;
pub mod files;
pub mod streams;

pub use clock::SystemClock;
pub use files::StdFiles;
pub use streams::{StdSink, StdSource};
