//! A lake may go from thread to thread where its keeper may. The function is proved only where its bound holds.
use crate::lake::Lake;
use keeper::Keeper;

fn may_move<T: Send>() {}

/// Threads may hand a lake over, where they may hand over its keeper.
pub fn lakes_cross<K: Keeper + Send>() {
    may_move::<Lake<K>>();
}
