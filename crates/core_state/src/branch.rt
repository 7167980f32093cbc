//! A branch in memory.
use branch_record::{BranchRecord, Tokens};

/// A branch: its record, and the changes under its tokens.
#[derive(Debug, Drop)]
pub struct BranchState {
    pub record: BranchRecord,
    pub tokens: Tokens,
}
