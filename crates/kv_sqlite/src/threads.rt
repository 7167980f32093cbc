//! The keeper may go from thread to thread. The function is proved only where its bounds hold.
use crate::folder::KvSqlite;

fn may_move<T: Send>() {}

/// Threads may hand the keeper over.
pub fn keepers_cross() {
    may_move::<KvSqlite>();
}
