//! Files of ranges: the rows of a range as bytes.
//!
//! - `rows`: rows, and the rows of a range.
//! - `encoding`: the file of a range.
//! - `decoding`, `fault`: its rows, or the first fault from the left.
//! - `laws`: what holds of every range and its file.
//! - `threads`: ranges may go from thread to thread.
//!
//! The promise to the layer above: a range has one spelling, which is read as the rows that it spells; all other
//! bytes are refused, with the first fault from the left.
#![tactic(auto)]

mod decoding;
mod encoding;
mod fault;
mod laws;
mod rows;
pub mod threads;

pub use decoding::decode;
pub use encoding::encode;
pub use fault::RangeFault;
pub use lake_format::cut::is_break;
pub use lake_format::{Cut, USUAL_CUT};
pub use laws::{laws_of_faults, laws_of_ranges};
pub use rows::{Range, Row, are_rows};
