//! Drafts of a branch of a lake.
ghost use Rattle.std.specs.Prelude.{◌≡◌, ◌↔◌, IfOk, IfSome, IsTrue, false};
ghost use Rattle.lake_values.specs.Commit.{AboutValue};
ghost use Rattle.lake_model.specs.declared.reply.SwapKind.{SwapKind as AnyKind};
ghost use Rattle.lake_model.specs.HeadRefusals.{reading_refusal};
ghost use Rattle.lake_model.specs.Preparing.{prepare_reply};
ghost use Rattle.lake_model.specs.Steps.{is_current};
ghost use Rattle.meta_range.specs.Ranges.{TreeValue};
ghost use Rattle.lake_laws.specs.Prepared.{WhereThere};
ghost use Rattle.core_readings.specs.Preparations.{HasSides};
ghost use Rattle.lake_core.specs.HeadConditions.{IsReadyFor};
ghost use Rattle.lake_core.specs.Lakes.{state, versions};
ghost use Rattle.head_drafts.specs.Drafts.{drafted_map};
ghost use Rattle.head_drafts.specs.HeadDrafts.{IsHeadReply, IsReadingReply, Waits};
ghost use Rattle.head_drafts.specs.HeadDrafts.{sides_of, strategy_of};

use crate::drafting::draft;
use crate::fault::HeadFault;
use crate::waiting::{law_of_readings, law_of_waiting};
use keeper::Keeper;
use lake_base::{RefName, RepoName};
use lake_core::Lake;
use lake_model::{Sides, SwapKind};
use lake_values::{About, Strategy};
use meta_range::Tree;
use std::alloc::Global;

/// A draft of a branch's new head: its tree, and the versions by which it is guarded.
#[derive(Debug, Drop)]
pub struct HeadDraft {
    /// The branch's version.
    pub version: u64,
    /// The version of the repository's settings.
    pub settings: u64,
    pub tree: Tree,
}

/// Drafts a new head of a branch: what the lake hands out for it is asked, and its tree is made. The condition of
/// `swap` holds of it by these versions; what `swap` refuses besides (a stopped lake, a full history, a protected
/// branch, a commit that expired, a clash) isn't asked. What it gives waits: whatever legal entries follow, the
/// condition holds. NoRepo; NoRef; Expired for a source that is; and the faults of `draft`.
pub fn draft_head<K: Keeper>(
    alloc: Global,
    lake: &Lake<K>,
    repo: &RepoName,
    branch: &RefName,
    kind: SwapKind,
    about: &About,
) -> Result<HeadDraft, HeadFault>
    requires { IfSome (sides_of kind) (HasSides (state lake.now) repo.now) }
    ensures reply { IsHeadReply (prepare_reply (state lake.now) (versions lake.now) repo.now branch.now (sides_of kind))
        (λ p. drafted_map (strategy_of kind) p branch.now about.now.metadata) result }
    ensures ready { IfOk result (λ head. IsReadyFor (state lake.now) (versions lake.now) repo.now branch.now
        head.version head.settings kind about.now head.tree) }
    ensures refusal { IsReadingReply
        (reading_refusal (state lake.now) repo.now branch.now kind about.now) result }
    ensures waits { IfOk result
        (λ head. Waits (state lake.now) (versions lake.now) repo.now branch.now kind about.now head) }
{
    law_of_readings();
    law_of_waiting();
    let _ = lake.entries();
    let sides = sides_of(&kind);
    let prepared = lake.prepare(repo, branch, sides.as_ref())?;
    let tree = draft(
        alloc,
        &prepared,
        strategy_of(&kind),
        branch,
        &about.metadata,
    )?;
    Ok(HeadDraft {
        version: prepared.version,
        settings: prepared.settings,
        tree,
    })
}

/// Whether a branch or its repository isn't there, or its version or that of the settings isn't this. `swap` refuses
/// any tree then, and its condition asks nothing. It takes no memory.
pub fn is_outdated<K: Keeper>(
    lake: &Lake<K>,
    repo: &RepoName,
    branch: &RefName,
    version: u64,
    settings: u64,
) -> bool
    ensures exact { IsTrue result ↔ WhereThere (state lake.now) repo.now branch.now
        (λ r b. is_current (versions lake.now) repo.now branch.now version settings ≡ false) }
    ensures ready { IsTrue result → (kind : AnyKind) (about : AboutValue) (tree : TreeValue)
        → IsReadyFor (state lake.now) (versions lake.now) repo.now branch.now version settings kind about tree }
{
    match lake.versions(repo, branch) {
        Ok(now) => now.version != version || now.settings != settings,
        Err(_) => true,
    }
}

/// The commits of a merge or a pick. It takes no memory.
pub fn sides_of(kind: &SwapKind) -> Option<Sides>
    ensures { result ≡ sides_of kind.now }
{
    match kind {
        SwapKind::Commit => None,
        SwapKind::Merge { source, .. } => Some(Sides::Merge { source: *source }),
        SwapKind::Pick { base, source, .. } => Some(Sides::Pick {
            base: *base,
            source: *source,
        }),
    }
}

/// What a merge or a pick does at conflicts; a commit has none. It takes no memory.
pub fn strategy_of(kind: &SwapKind) -> Strategy
    ensures { result ≡ strategy_of kind.now }
{
    match kind {
        SwapKind::Commit => Strategy::Refuse,
        SwapKind::Merge { strategy, .. } => *strategy,
        SwapKind::Pick { strategy, .. } => *strategy,
    }
}
