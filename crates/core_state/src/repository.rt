//! A repository in memory.
ghost use Rattle.std.specs.Prelude.{◌≡◌, option_copied, option_map};
ghost use Rattle.std.specs.FinMap.{get};
ghost use Rattle.core_state.specs.BranchStates.{branch_value};
ghost use Rattle.core_state.specs.RepositoryStates.{repository_value};

use crate::branch::BranchState;
use byte_map::ByteMap;
use commit_graph::Graph;
use lake_base::RefName;
use lake_values::{CommitId, HookRules, Protection, Rules};
use meta_range::Tree;
use std::alloc::Global;
use std::sync::Arc;

/// A repository: its commits with the tree of each, what names them, and its settings.
///
/// A name under which nothing stands is room for a branch or a tag that is about to be made.
#[derive(Debug, Drop)]
pub struct RepositoryState {
    /// Seconds since 1970.
    pub created: u64,
    pub default_branch: RefName,
    /// The version of the settings.
    pub settings: u64,
    pub branches: ByteMap<RefName, Option<BranchState>>,
    pub tags: ByteMap<RefName, Option<CommitId>>,
    pub graph: Graph,
    pub trees: ByteMap<CommitId, Arc<Tree, Global>>,
    pub expired: ByteMap<CommitId, ()>,
    pub retention: Option<Rules>,
    pub protection: Option<Protection>,
    pub hooks: Option<HookRules>,
}

impl RepositoryState {
    /// The branch of a name. It takes no memory.
    pub fn branch(&self, name: &RefName) -> Option<&BranchState>
        ensures { option_map branch_value (option_copied result)
            ≡ get (repository_value self.now).branches name.now }
    {
        match self.branches.get(name) {
            Some(place) => place.as_ref(),
            None => None,
        }
    }

    /// The commit of the tag of a name. It takes no memory.
    pub fn tag(&self, name: &RefName) -> Option<CommitId>
        ensures { result ≡ get (repository_value self.now).tags name.now }
    {
        match self.tags.get(name) {
            Some(tag) => *tag,
            None => None,
        }
    }

    /// The tree of a commit. It takes no memory.
    pub fn tree(&self, id: &CommitId) -> Option<&Arc<Tree, Global>>
        ensures { option_map (λ tree. tree.value) (option_copied result)
            ≡ get (repository_value self.now).trees id.now.0 }
    {
        self.trees.get(id)
    }
}
