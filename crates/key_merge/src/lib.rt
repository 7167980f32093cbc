//! The three-way merge of key maps, over the rows of three trees.
//!
//! - `walk`: the merge.
//! - `front`, `rows`: the three sides path by path, and the rows of one that are still to come.
//! - `fault`: why a merge gives no changes.
//! - `laws`: what the changes come to.
//!
//! The promise to the layer above: a merge gives exactly the changes by which the merged map differs from the
//! destination's, or the least 100 of the paths that conflict, and their number.
#![tactic(auto)]

mod fault;
mod front;
mod laws;
mod rows;
mod walk;

pub use fault::MergeFault;
pub use lake_values::commit::Strategy;
pub use laws::law_of_merges;
pub use meta_range::Trio;
pub use walk::merge;
