//! Values as bytes: the project's own format of fields, entries and rows, and where a tree is cut into ranges.
//!
//! - `fields`: numbers, digests, texts, paths and metadata, read with the place of the first fault.
//! - `encoding`: entries and rows.
//! - `cut`, `range_line`: where a tree is cut, and what is said of each of its ranges.
//!
//! The promise to the layer above: a value has one spelling; a reader takes it from the front of any bytes, and
//! its fault is the first from the left; a writer that is refused leaves its buffer as it was.
#![tactic(auto)]

pub mod cut;
pub mod encoding;
pub mod fields;
pub mod range_line;

pub use cut::{Cut, USUAL_CUT};
pub use encoding::{entry_bytes, entry_read, own_address};
pub use fields::{EntryFault, FieldFault};
pub use range_line::RangeLine;
