//! Which values may go from thread to thread. Each function is proved only where its bound holds.
use crate::settings::HookRules;

fn may_move<T: Send>() {}

fn may_be_shared<T: Sync>() {}

/// Threads may share hook rules, and hand them over.
pub fn hooks_cross() {
    may_move::<HookRules>();
    may_be_shared::<HookRules>();
}
