//! Runs of the program over a machine in memory, for the crates of tests.
//!
//! - `streams`: streams in memory, which give and take pieces and fail where they are told to.
//! - `runs`: a run of the program over such streams, over the files, the host, the network and the folders of
//!   `memory_machine`, and what it comes to.
//!
//! No clause says what a run comes to here: the program's own does.
#![tactic(auto)]

pub mod runs;
pub mod streams;

pub use lake_program::status::number_of;
pub use runs::{Came, run_among, run_in, run_over, run_with};
pub use streams::{SURE, Streams, sink_of, source_of, texts_of};
