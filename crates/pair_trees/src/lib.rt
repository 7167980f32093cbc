//! What the pairs of a lake spell, and the trees of the commits among them.
//!
//! - `spelled`: pairs in order of their keys, what each spells, and what is there under a key.
//! - `found`: what is found of one kind.
//! - `trees`: the trees of the commits that they spell.
//! - `texts`: the settings that texts spell.
//! - `tables`: what is told of all pairs, so that each is tested by searches.
//!
//! The promise to the layer above: what is found under a key is all that is there under it; what is read of the tree of
//! each commit is its tree, or its first fault.
#![tactic(auto)]

mod found;
mod spelled;
mod tables;
mod texts;
mod trees;

pub use found::{commit_of, counts_of, range_of};
pub use spelled::SpelledPairs;
pub use tables::Tables;
pub use texts::read_note;
pub use trees::{ReadTree, first_unread, read_trees};
