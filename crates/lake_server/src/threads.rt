//! Workers and listeners may go from thread to thread. The functions are proved only where their bounds hold.
use crate::memory::MemoryListener;
use crate::worker::Worker;

fn may_move<T: Send>() {}

/// Threads may hand a worker over, where they may hand over its parts.
pub fn workers_cross<B: Send, C: Send, L: Send>() {
    may_move::<Worker<B, C, L>>();
}

/// Threads may hand a listener in memory over.
pub fn listeners_cross() {
    may_move::<MemoryListener>();
}
