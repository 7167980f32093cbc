//! The pairs of a lake in memory can be read again.
//!
//! - `reading`: none of them is broken, and the tree of each commit is read.
//! - `same`: what is read from them is that lake, put to rest.
//! - `numbers`, `parts`: the own numbers of a lake go on to have been given out, and its maps and settings to be
//!   readable.
#![tactic(auto)]

pub mod numbers;
pub mod parts;
pub mod reading;
pub mod same;

pub use numbers::{law_of_read_numbers, laws_of_given_numbers};
pub use parts::laws_of_readable_parts;
pub use reading::{law_of_order, law_of_tied_lakes, laws_of_reading_again};
pub use same::laws_of_same_lakes;
