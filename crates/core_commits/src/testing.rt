//! What refuses a new head, in the one order.
ghost use Rattle.std.specs.Prelude.{◌≡◌, ◌<◌, IfOk, OnOk};
ghost use Rattle.lake_values.specs.Commit.{AboutValue};
ghost use Rattle.lake_format.specs.Spelling.{IsSpelledCommit};
ghost use Rattle.lake_model.specs.Soundness.{IsSound};
ghost use Rattle.lake_model.specs.Steps.{swap_rule};
ghost use Rattle.lake_model.specs.Versions.{VersionsGiven};
ghost use Rattle.core_state.specs.Counts.{HasVersions};
ghost use Rattle.core_state.specs.Index.{HasIndex};
ghost use Rattle.core_state.specs.LakeStates.{lake_value, state_of};
ghost use Rattle.core_commits.specs.Testing.{AsksForHead, HasTreeFor, IsNewHead};

use crate::commits::{NewHead, new_head};
use crate::provenance::provenance_of;
use crate::standing::law_of_standing;
use core_causes::{test_guard, test_live_head, test_new_commit};
use core_state::{LakeState, law_of_versions};
use lake_base::{RefName, RepoName, TryCopy};
use lake_model::{StepFault, SwapKind};
use lake_values::{About, CommitId};
use meta_range::Tree;
use std::alloc::Global;

/// The versions by which a new head is guarded.
#[derive(Clone, Copy, Debug, PartialEq, Eq)]
pub struct Guard {
    /// The branch's.
    pub version: u64,
    /// That of the repository's settings.
    pub settings: u64,
}

/// The commit that is to become the head of a branch, with this tree. Where both versions are those now, the tree is
/// that of what is drafted. Stopped, HistoryFull, NoRepo, NoRef, Protected for a commit, Changed, Expired, NameClash,
/// NoMemory.
///
/// Nothing of the tree is looked at where a version isn't the one now.
pub fn test_head(
    alloc: Global,
    lake: &LakeState,
    repo: &RepoName,
    branch: &RefName,
    guard: Guard,
    kind: SwapKind,
    about: &About,
    tree: Tree,
) -> Result<NewHead, StepFault>
    requires sound { IsSound (state_of (lake_value lake.now)) }
    requires index { HasIndex (lake_value lake.now) }
    requires tree { HasTreeFor (lake_value lake.now) repo.now branch.now guard.version guard.settings kind
        about.now tree }
    ensures asks { (given : VersionsGiven) → HasVersions given (lake_value lake.now)
        → AsksForHead (lake_value lake.now) given repo.now branch.now guard.version guard.settings kind
        about.now result }
    ensures found { IfOk result (IsNewHead (lake_value lake.now) repo.now branch.now kind about.now) }
    ensures limits { IfOk result (λ new. IsSpelledCommit new.commit) }
    ensures room { OnOk result ((lake_value lake.now).entries < 4194304) }
{
    law_of_versions();
    let (repository, found) = test_guard(
        lake,
        repo,
        branch,
        asks_protection(kind),
        guard.version,
        guard.settings,
    )?;
    let new = new_head(alloc, repository, found, kind, about.copy(alloc)?, tree)?;
    test_live_head(repository, source_of(kind), new.content.name)?;
    let sealed = found.record.overlay(alloc, &found.tokens, true)?;
    let provenance = provenance_of(alloc, repository, found, kind, &sealed)?;
    test_new_commit(alloc, lake, &new.content, &new.tree, &provenance)?;
    law_of_standing(repository, &new);
    Ok(new)
}

// Whether protection refuses a new head: that of a commit.
fn asks_protection(kind: SwapKind) -> bool
    ensures { (about : AboutValue) → result ≡ (swap_rule kind about).protects }
{
    match kind {
        SwapKind::Commit => true,
        SwapKind::Merge { .. } | SwapKind::Pick { .. } => false,
    }
}

// The commit that is merged or picked.
fn source_of(kind: SwapKind) -> Option<CommitId>
    ensures { (about : AboutValue) → result ≡ (swap_rule kind about).source }
{
    match kind {
        SwapKind::Commit => None,
        SwapKind::Merge { source, .. } | SwapKind::Pick { source, .. } => Some(source),
    }
}
