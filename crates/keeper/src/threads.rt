//! Keepers may go from thread to thread. The function is proved only where its bounds hold.
use crate::memory::MemoryKeeper;
use crate::sure::SureKeeper;

fn may_move<T: Send>() {}

/// Threads may hand keepers over.
pub fn keepers_cross() {
    may_move::<SureKeeper>();
    may_move::<MemoryKeeper>();
}
