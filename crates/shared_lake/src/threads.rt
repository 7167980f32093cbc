//! A shared lake may be shared by threads where its keeper may go from one to another. The function is proved only
//! where its bound holds.
use crate::shared::Shared;
use keeper::Keeper;

fn may_move<T: Send>() {}

fn may_be_shared<T: Sync>() {}

/// Threads may share a shared lake, and hand it over, where they may hand over its keeper.
pub fn shared_lakes_cross<K: Keeper + Send>() {
    may_move::<Shared<K>>();
    may_be_shared::<Shared<K>>();
}
