//! Records and tokens may go from thread to thread. The function is proved only where its bounds hold.
use crate::record::BranchRecord;
use crate::tokens::Tokens;

fn may_move<T: Send>() {}

fn may_be_shared<T: Sync>() {}

/// Threads may share a record and tokens, and hand them over.
pub fn tokens_cross() {
    may_move::<BranchRecord>();
    may_be_shared::<BranchRecord>();
    may_move::<Tokens>();
    may_be_shared::<Tokens>();
}
