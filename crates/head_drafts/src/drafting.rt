//! The tree of a draft.
ghost use Rattle.std.specs.Prelude.{◌≡◌, ◌<◌, IfOk, IfSome, option_map};
ghost use Rattle.std.specs.FinMap.{keys};
ghost use Rattle.lake_values.specs.HookDecisions.{denying_rule};
ghost use Rattle.lake_values.specs.KeyMap.{apply, differences};
ghost use Rattle.lake_values.specs.Merging.{merged_map};
ghost use Rattle.lake_model.specs.HeadRefusals.{conflicts_refusal, first_path, no_changes};
ghost use Rattle.lake_model.specs.declared.fault.HeadRefusal.TheVariants.{Dirty, HookDenied};
ghost use Rattle.core_readings.specs.Preparations.{prepared_value};
ghost use Rattle.head_drafts.specs.Drafts.{IsDraft, IsTest, drafted_commit, drafted_map, drafted_merge, sides_by};

use crate::fault::DraftFault;
use crate::maps::{differences_of, first_path, map_of};
use hook_rules::{Decision, Event, decide};
use key_merge::merge;
use lake_base::{RefName, TryCopy};
use lake_core::Prepared;
use lake_model::HeadRefusal;
use lake_values::{Changes, CommitId, HookRules, KeyMap, Pairs, Strategy};
use meta_range::{Tree, Trio};
use std::alloc::Global;

/// The tree of a new head, of what a lake handed out for it: of the merge or the pick whose trees it has, by a
/// strategy; and else of the sealed changes. Of a merge or a pick Dirty, NoChanges, Conflicts, HookDenied; of a commit
/// NoChanges, HookDenied: the first that holds. It takes time by the maps' paths.
pub fn draft(
    alloc: Global,
    prepared: &Prepared,
    strategy: Strategy,
    branch: &RefName,
    metadata: &Pairs,
) -> Result<Tree, DraftFault>
    requires dest { IfSome prepared.now.trio (λ trio. trio.dest ≡ prepared.now.tree.value) }
    requires modulus { 0 < prepared.now.cut.modulus }
    ensures { IsDraft prepared.now.cut
        (drafted_map strategy (prepared_value prepared.now) branch.now metadata.now) result }
{
    let head = map_of(alloc, &prepared.tree)?;
    let sealed = head.apply(alloc, &prepared.sealed)?;
    let uncommitted = sealed.differences(alloc, &head)?;
    match &prepared.trio {
        None => draft_commit(alloc, prepared, branch, metadata, &sealed, &uncommitted),
        Some(trio) => {
            draft_merge(
                alloc,
                prepared,
                trio,
                strategy,
                branch,
                metadata,
                &head,
                &uncommitted,
            )
        }
    }
}

// The tree of the sealed changes, which make this map, and these changes of the head's.
fn draft_commit(
    alloc: Global,
    prepared: &Prepared,
    branch: &RefName,
    metadata: &Pairs,
    sealed: &KeyMap,
    uncommitted: &Changes,
) -> Result<Tree, DraftFault>
    requires sealed { sealed.now ≡ apply prepared.now.sealed prepared.now.tree.value.map }
    requires uncommitted { uncommitted.now ≡ differences sealed.now prepared.now.tree.value.map }
    requires modulus { 0 < prepared.now.cut.modulus }
    ensures { IsDraft prepared.now.cut (drafted_commit (prepared_value prepared.now) branch.now metadata.now) result }
{
    test_changed(uncommitted, prepared.head)?;
    test_hooks(&prepared.rules, branch, metadata, uncommitted)?;
    Ok(Tree::build(alloc, sealed, &prepared.cut)?)
}

// The tree of a merge or a pick into the head, whose map is this and which the sealed changes change so.
fn draft_merge(
    alloc: Global,
    prepared: &Prepared,
    trio: &Trio,
    strategy: Strategy,
    branch: &RefName,
    metadata: &Pairs,
    head: &KeyMap,
    uncommitted: &Changes,
) -> Result<Tree, DraftFault>
    requires dest { trio.now.dest ≡ prepared.now.tree.value }
    requires head { head.now ≡ prepared.now.tree.value.map }
    requires uncommitted { uncommitted.now ≡ differences
        (apply prepared.now.sealed prepared.now.tree.value.map) prepared.now.tree.value.map }
    requires modulus { 0 < prepared.now.cut.modulus }
    ensures { IsDraft prepared.now.cut
        (drafted_merge strategy (trio.now.base.map, trio.now.source.map)
        (prepared_value prepared.now) branch.now metadata.now) result }
{
    test_clean(alloc, uncommitted)?;
    let taken = differences_of(alloc, trio.source(), trio.base())?;
    test_changed(&taken, prepared.head)?;
    let changes = merged(alloc, trio, strategy)?;
    test_hooks(&prepared.rules, branch, metadata, &changes)?;
    let objects = head.apply(alloc, &changes)?;
    Ok(Tree::build(alloc, &objects, &prepared.cut)?)
}

// The changes by which a merge makes the destination's map the merged one. Conflicts.
fn merged(alloc: Global, trio: &Trio, strategy: Strategy) -> Result<Changes, DraftFault>
    ensures changes { IfOk result (λ changes. changes ≡ differences
        (merged_map strategy trio.now.base.map trio.now.source.map trio.now.dest.map) trio.now.dest.map) }
    ensures test { IsTest
        (conflicts_refusal (sides_by strategy (trio.now.base.map, trio.now.source.map)) trio.now.dest.map) result }
{
    Ok(merge(alloc, trio, strategy)?)
}

// Refuses changes that aren't committed: the least path of theirs. Dirty.
fn test_clean(alloc: Global, uncommitted: &Changes) -> Result<(), DraftFault>
    ensures { IsTest (option_map Dirty (first_path (keys uncommitted.now))) result }
{
    match first_path(uncommitted) {
        Some(path) => Err(DraftFault::Refused(HeadRefusal::Dirty(path.copy(alloc)?))),
        None => Ok(()),
    }
}

// Refuses what changes nothing over a head. NoChanges. It takes no memory.
fn test_changed(changes: &Changes, head: CommitId) -> Result<(), DraftFault>
    ensures { IsTest (no_changes head (first_path (keys changes.now))) result }
{
    match first_path(changes) {
        Some(_) => Ok(()),
        None => Err(DraftFault::Refused(HeadRefusal::NoChanges(head))),
    }
}

// Refuses changes that a hook denies. HookDenied. It takes no memory.
fn test_hooks(
    rules: &HookRules,
    branch: &RefName,
    metadata: &Pairs,
    changes: &Changes,
) -> Result<(), DraftFault>
    ensures { IsTest (option_map HookDenied (denying_rule rules.now branch.now metadata.now changes.now)) result }
{
    let event = Event {
        branch,
        metadata,
        changes,
    };
    match decide(rules, &event) {
        Decision::Allow => Ok(()),
        Decision::Deny(rule) => Err(DraftFault::Refused(HeadRefusal::HookDenied(rule))),
    }
}
