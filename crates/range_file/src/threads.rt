//! Ranges may go from thread to thread. The function is proved only where its bounds hold.
use crate::rows::Range;

fn may_move<T: Send>() {}

fn may_be_shared<T: Sync>() {}

/// Threads may share a range, and hand it over.
pub fn ranges_cross() {
    may_move::<Range>();
    may_be_shared::<Range>();
}
