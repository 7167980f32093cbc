//! Commits, merges and picks, by which a branch has a new head.
ghost use Rattle.std.specs.Prelude.{◌≡◌};
ghost use Rattle.lake_model.specs.Steps.{IsSwapReply, swap_rule};
ghost use Rattle.core_commits.specs.Making.{head_answer, head_making};
ghost use Rattle.lake_core.specs.HeadConditions.{IsReadyFor};
ghost use Rattle.lake_core.specs.Lakes.{state, versions};
ghost use Rattle.lake_core.specs.Leaving.{Leaves};

use crate::lake::Lake;
use core_commits::Guard;
use core_keeping::laws_of_followed_heads;
use core_standing::{law_of_new_heads, law_of_present};
use keeper::Keeper;
use lake_base::{RefName, RepoName};
use lake_model::{By, StepFault, SwapKind};
use lake_values::{About, CommitId, CommitRecord};
use meta_range::Tree;

impl<K: Keeper> Lake<K> {
    /// Makes a commit, a merge or a pick the head of a branch, by the versions of the branch and of the settings: the
    /// place of the entry, the head and what it says. Nothing is sealed then, and the staged changes stay. Stopped,
    /// HistoryFull, NoRepo, NoRef, Protected for a commit, Changed exactly where one of both versions differs, Expired
    /// for the source or the new commit, NameClash.
    ///
    /// Where both versions are those now, the new head is worth making, hooks allow it, and the tree is that of its map
    /// by the lake's cut. Where one differs, nothing of the tree is looked at.
    pub fn swap(
        &mut self,
        by: By,
        repo: &RepoName,
        branch: &RefName,
        version: u64,
        settings: u64,
        kind: SwapKind,
        about: About,
        tree: Tree,
    ) -> Result<(u64, CommitId, CommitRecord), StepFault>
        requires { IsReadyFor (state self.old)
            (versions self.old) repo.now branch.now version settings kind about tree }
        ensures reply { IsSwapReply (state self.old) (versions self.old) repo.now branch.now version settings
            (swap_rule kind about) (head_answer result) }
        ensures leaves { Leaves (record { kept = K.kept; faults = K.faults; calls = K.calls; successes = K.successes })
            by (head_making repo.now branch.now kind about self.old.present) result self.old self.new }
    {
        law_of_present();
        law_of_new_heads();
        laws_of_followed_heads();
        core_commits::swap(
            self.alloc,
            &mut self.keeper,
            &mut self.history,
            &mut self.present,
            by,
            repo,
            branch,
            Guard { version, settings },
            kind,
            about,
            tree,
        )
    }
}
