//! A lake in memory is read from the pairs of a keeper.
//!
//! - `fault`: why it isn't.
//! - `reading`: the pairs are tested, and the lake is filled with what they spell.
//!
//! The promise to the layer above: the lake is the one for which the pairs stand; else the first broken pair is named,
//! or the first commit whose tree isn't read.
#![tactic(auto)]

pub mod fault;
mod reading;

pub use fault::OpeningFault;
pub use opening_laws::law_of_read_lakes;
pub use reading::read_lake;
