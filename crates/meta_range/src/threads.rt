//! Trees, and trees of a merge, may go from thread to thread. The function is proved only where its bounds hold.
use crate::tree::Tree;
use crate::trio::Trio;

fn may_move<T: Send>() {}

fn may_be_shared<T: Sync>() {}

/// Threads may share a tree, and hand it over; and so the trees of a merge.
pub fn trees_cross() {
    may_move::<Tree>();
    may_be_shared::<Tree>();
    may_move::<Trio>();
    may_be_shared::<Trio>();
}
