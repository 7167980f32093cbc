//! A folder's keeper and its store may go from thread to thread. A function is proved only where its bounds hold.
use crate::objects::FolderObjects;
use crate::pairs::FolderPairs;

fn may_move<T: Send>() {}

/// Threads may hand a folder's keeper over.
pub fn keepers_cross() {
    may_move::<FolderPairs>();
}

/// Threads may hand a folder's store of objects over.
pub fn stores_cross() {
    may_move::<FolderObjects>();
}
