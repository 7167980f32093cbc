//! Laws of batches: what two runs of the same lines have in common.
//!
//! - `lines`: the same lines, served on a fresh lake from the same files at the same readings of the clock, come to the
//!   same, where nothing failed.
//!
//! The promise to the layer above: the output of a batch is one function of its lines, its files and the clock. Each law
//! is the contract of a function that does nothing, and is cited by its name.
#![tactic(auto)]

pub mod lines;
