//! Stores may go from thread to thread. The function is proved only where its bounds hold.
use crate::memory::MemoryBlocks;
use crate::sure::SureBlocks;

fn may_move<T: Send>() {}

/// Threads may hand stores over.
pub fn blocks_cross() {
    may_move::<SureBlocks>();
    may_move::<MemoryBlocks>();
}
