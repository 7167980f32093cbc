//! The store may go from thread to thread. The function is proved only where its bounds hold.
use crate::folder::FolderBlocks;
use std::rt::HostRuntime;

fn may_move<T: Send>() {}

/// Threads may hand the store over.
pub fn blocks_cross() {
    may_move::<FolderBlocks<HostRuntime>>();
}
