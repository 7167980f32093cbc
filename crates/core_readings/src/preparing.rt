//! What a new head of a branch is made from is gathered.
ghost use Rattle.std.specs.Prelude.{◌≡◌, [], ℕ, List, IfOk, IfSome, option_copied};
ghost use Rattle.std.specs.Option.{unwrap_or};
ghost use Rattle.lake_format.specs.Cutting.{files};
ghost use Rattle.lake_model.specs.Preparing.{preparation, prepare_reply};
ghost use Rattle.lake_model.specs.Refusals.{Gives};
ghost use Rattle.lake_model.specs.Soundness.{IsSound};
ghost use Rattle.lake_model.specs.State.{HasCommit};
ghost use Rattle.lake_model.specs.Versions.{VersionsGiven, branch_version, settings_version};
ghost use Rattle.core_state.specs.BranchStates.{branch_of, branch_value};
ghost use Rattle.core_state.specs.Counts.{HasVersions};
ghost use Rattle.core_state.specs.Index.{HasIndex};
ghost use Rattle.core_state.specs.LakeStates.{lake_value, state_of};
ghost use Rattle.core_state.specs.RepositoryStates.{repository_of, repository_value};
ghost use Rattle.core_readings.specs.Preparations.{AreCommits, HasCutSides, HasSides, prepared_answer, prepared_value};
ghost use Rattle.core_readings.specs.Trees.{HasTrees, IsCutBy};

use crate::prepared::Prepared;
use crate::sides::{test_source, tree_of, trio_of};
use core_state::{BranchState, LakeState, RepositoryState};
use lake_base::{NoMemory, RefName, RepoName, Sequence, TryCopy};
use lake_model::{Reference, Sides, StepFault};
use lake_values::HookRules;
use std::alloc::Global;
use std::sync::Arc;

/// What a new head of a branch is made from: the versions, the head with its tree, the sealed changes, the hooks, and
/// for a merge or a pick its three trees, which are shared. The base of a merge is the merge base of the head and the
/// source. NoRepo; NoRef; Expired exactly where the source is expired.
pub fn prepare(
    alloc: Global,
    lake: &LakeState,
    repo: &RepoName,
    branch: &RefName,
    sides: Option<&Sides>,
) -> Result<Prepared, StepFault>
    requires sound { IsSound (state_of (lake_value lake.now)) }
    requires index { HasIndex (lake_value lake.now) }
    requires sides { IfSome (option_copied sides) (HasSides (state_of (lake_value lake.now)) repo.now) }
    ensures reply { (given : VersionsGiven) → HasVersions given (lake_value lake.now)
        → Gives (prepared_answer result) (prepare_reply (state_of (lake_value lake.now)) given repo.now branch.now
        (option_copied sides.entry)) }

    // The head's tree is the destination of the three, and each is cut by the lake's cut.
    ensures dest { IfOk result (λ p. IfSome p.trio (λ trio. trio.dest ≡ p.tree.value)) }
    ensures tree { IfOk result (λ p. p.tree.value.files ≡ files p.cut p.tree.value.map) }
    ensures sides { IfOk result (λ p. IfSome p.trio (HasCutSides p.cut)) }
    ensures cut { IfOk result (λ p. p.cut ≡ (lake_value lake.now).cut) }
{
    let Some(repository) = lake.repository(repo) else {
        return Err(StepFault::NoRepo);
    };
    let Some(found) = repository.branch(branch) else {
        return Err(StepFault::NoRef(Reference::Named));
    };
    test_source(repository, sides)?;
    let prepared = gathered(alloc, lake, repository, found, sides)?;
    Ok(prepared)
}

// What is handed out of a branch, by the versions that it and its repository have.
fn gathered(
    alloc: Global,
    lake: &LakeState,
    repository: &RepositoryState,
    branch: &BranchState,
    sides: Option<&Sides>,
) -> Result<Prepared, NoMemory>
    requires trees { HasTrees (repository_value repository.now) }
    requires cut { IsCutBy (lake_value lake.now).cut (repository_value repository.now) }
    requires head { HasCommit (repository_of (repository_value repository.now)) branch.now.record.head }
    requires sides { IfSome (option_copied sides) (AreCommits (repository_of (repository_value repository.now))) }
    ensures value { IfOk result (λ p. (given : VersionsGiven) (repo name : List ℕ)
        → branch_version given repo name ≡ (branch_value branch.now).version
        → settings_version given repo ≡ (repository_value repository.now).settings
        → prepared_value p ≡ preparation (state_of (lake_value lake.now)) given repo name (option_copied sides.entry)
        (repository_of (repository_value repository.now)) (branch_of (branch_value branch.now))) }
    ensures dest { IfOk result (λ p. IfSome p.trio (λ trio. trio.dest ≡ p.tree.value)) }
    ensures tree { IfOk result (λ p. p.tree.value.files ≡ files p.cut p.tree.value.map) }
    ensures sides { IfOk result (λ p. IfSome p.trio (HasCutSides p.cut)) }
    ensures cut { IfOk result (λ p. p.cut ≡ (lake_value lake.now).cut) }
{
    let head = branch.record.head();
    let tree = tree_of(repository, &head)?;
    let trio = trio_of(alloc, repository, branch, &tree, sides)?;
    let sealed = branch.record.overlay(alloc, &branch.tokens, true)?;
    let rules = rules_of(alloc, repository)?;
    Ok(Prepared {
        at: lake.entries,
        version: branch.record.version(),
        settings: repository.settings,
        head,
        sealed,
        tree,
        rules,
        trio,
        cut: lake.cut,
    })
}

// A copy of the hooks; no rules where none are set.
fn rules_of(alloc: Global, repository: &RepositoryState) -> Result<Arc<HookRules, Global>, NoMemory>
    ensures { IfOk result (λ rules. rules.value ≡ unwrap_or (repository_value repository.now).notes.hooks []) }
{
    match &repository.hooks {
        Some(rules) => Ok(Arc::new(alloc, rules.copy(alloc)?)?),
        None => {
            let rules = HookRules {
                rules: Sequence::of(Vec::new(alloc)),
            };
            Ok(Arc::new(alloc, rules)?)
        }
    }
}
