//! What a new head of a branch is made from.

use lake_format::Cut;
use lake_values::{Changes, CommitId, HookRules};
use meta_range::{Tree, Trio};
use std::alloc::Global;
use std::sync::Arc;

/// What a commit, a merge or a pick on a branch is made from, with the versions by which it is guarded.
#[derive(Debug, Drop)]
pub struct Prepared {
    /// How many entries the history had.
    pub at: u64,
    /// The branch's version.
    pub version: u64,
    /// The version of the repository's settings.
    pub settings: u64,
    pub head: CommitId,
    pub sealed: Changes,
    /// The head's tree.
    pub tree: Arc<Tree, Global>,
    /// The hooks; no rules where none are set.
    pub rules: Arc<HookRules, Global>,
    /// The trees of a merge or a pick, of which the destination is the head's.
    pub trio: Option<Trio>,
    /// By which maps are cut into ranges.
    pub cut: Cut,
}
