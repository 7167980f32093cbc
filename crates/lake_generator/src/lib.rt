//! The generator: lines of its own, made of a number, are run as commands on a fresh lake in memory.
//!
//! - `lines`: the lines. `serving`: they are served one after the other, and what was done is counted.
//! - `files`: no files, which the lines name none of. `heads`: the map of main's head. `report`: what is told of it all.
//! - `run`: the generator as one call.
//!
//! The promise to the layer above: what is told of the lines is what they came to, each a command that a session of
//! its own serves; and nothing is told where one failed.
#![tactic(auto)]

mod files;
mod heads;
mod lines;
mod report;
mod run;
mod serving;

pub use run::generate;
