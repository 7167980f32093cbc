//! Trees: a key map cut into ranges, each a file that is known by its SHA-256, so that two trees share every range that
//! is the same in both.
//!
//! - `tree`, `tree_files`, `shared_range`, `limits`: the tree of a map, what stands in it, and its files.
//! - `trio`, `named_ranges`, `places`: three trees of a merge, and their ranges by name.
//! - `cursor`: its rows, one after the other; `ends`: where its ranges begin and end.
//! - `metarange`: the file that says of a tree's ranges which they are, written and read.
//! - `reading`, `given_files`, `file`, `fault`: a tree from its files, or the first fault; `reader`, `shelf`: trees from the
//!   same files, of which each range is read once.
//! - `provenance`: what a map was made from, and which ranges of its tree are known, without a look at their rows, to
//!   be ranges of these trees; `searching`: a range by its ends, and changes between two paths.
//! - `threads`: trees may go from thread to thread.
//!
//! The promise to the layer above: a tree is its key map, and has exactly the files that the cut gives; it is read just
//! where these files are given; a range that is told to be one of other trees' is one.
#![tactic(auto)]

mod cursor;
mod ends;
mod fault;
mod file;
mod given_files;
mod limits;
mod metarange;
mod named_ranges;
mod places;
mod provenance;
mod reader;
mod reading;
mod searching;
mod shared_range;
mod shelf;
mod threads;
mod tree;
mod tree_files;
mod trio;

pub use cursor::Cursor;
pub use ends::law_of_ends;
pub use fault::{MetaFault, TreeFault};
pub use file::File;
pub use given_files::LentFile;
pub use lake_values::cursor::EntryCursor;
pub use limits::{law_of_files, law_of_limits};
pub use metarange::{laws_of_metaranges, read_metarange};
pub use provenance::Provenance;
pub use reader::TreeReader;
pub use threads::trees_cross;
pub use tree::{Tree, law_of_names};
pub use trio::{Trio, law_of_agreement};
