//! What happens in a lake, entry by entry. Each history begins with a fresh lake.
ghost use Rattle.std.specs.Prelude.{◌≡◌, false, Option, Some, None, Ok, Err};
ghost use Rattle.std.specs.FinMap.{empty, get};
ghost use Rattle.lake_base.specs.declared.digest.Digest.{Digest};
ghost use Rattle.lake_format.specs.declared.cut.Cut.{Cut};
ghost use Rattle.lake_values.specs.Commit.{AboutValue};
ghost use Rattle.lake_model.specs.declared.fault.StepFault.TheVariants.{Changed};
ghost use Rattle.lake_model.specs.State.{HasBranch, head_map, sealed_map};
ghost use Rattle.lake_model.specs.History.{IsLegal};
ghost use Rattle.lake_model.specs.Soundness.{fresh};
ghost use Rattle.lake_model.specs.Commits.{MayCommit};
ghost use Rattle.lake_model.specs.Naming.{IsGarbage, IsNamed};
ghost use Rattle.lake_model.specs.Readings.{look_reply};
ghost use Rattle.lake_model.specs.Refusals.{Clash, first_cause};
ghost use Rattle.lake_model.specs.Steps.{swap_causes, stage_reply};
ghost use Rattle.lake_model.specs.Versions.{count_versions, fresh_versions, settings_version};
ghost use Rattle.law_examples.specs.HistoryWords.{quickstart, main, at_main, outside, read_at, main_version};
ghost use Rattle.law_examples.specs.HistoryWords.{a, b, until_seal, IsCommitAdmissible};
ghost use Rattle.law_examples.specs.Nothing.{empty_seal, lake_of_nothing};
ghost use Rattle.law_examples.specs.TakenBack.{lake_of_deletion, lake_of_sealed_deletion, lake_of_upload};
ghost use Rattle.law_examples.specs.TakenBack.{sealed_deletion};
ghost use Rattle.law_examples.specs.Guard.{lake_of_seal, lake_of_write, seal_and_write, versions_of_seal};
ghost use Rattle.law_examples.specs.StaysStaged.{commit_beside_staged, lake_before_commit, lake_beside_staged};
ghost use Rattle.law_examples.specs.TwoSeals.{commit_of_two_seals, commit_rule, lake_of_their_commit};
ghost use Rattle.law_examples.specs.TwoSeals.{lake_of_two_seals, until_second_seal, versions};

/// A branch is sealed where nothing was staged: its next commit would have the head's map, so none is possible.
pub fn commit_of_nothing()
    ensures legal { (cut : Cut) → IsLegal (fresh cut) empty_seal }
    ensures same { (cut : Cut)
        → HasBranch (lake_of_nothing cut) quickstart main (λ r b. sealed_map r b ≡ head_map r b) }
    ensures refused { (cut : Cut) (about : AboutValue) → MayCommit (lake_of_nothing cut) quickstart main about → ⊥ }
{}

/// An upload is deleted before it was committed: nothing is read there, no commit is possible, and its number, which
/// was named by what was staged, is garbage.
pub fn upload_taken_back()
    ensures legal { (cut : Cut) (digest : Digest) → IsLegal (fresh cut) (sealed_deletion digest) }
    ensures reads { (cut : Cut) (digest : Digest) → read_at (lake_of_sealed_deletion cut digest) a ≡ None }
    ensures same { (cut : Cut) (digest : Digest)
        → HasBranch (lake_of_sealed_deletion cut digest) quickstart main (λ r b. sealed_map r b ≡ head_map r b) }
    ensures refused { (cut : Cut) (digest : Digest) (about : AboutValue)
        → MayCommit (lake_of_sealed_deletion cut digest) quickstart main about → ⊥ }
    ensures named { (cut : Cut) (digest : Digest) → IsNamed (lake_of_upload cut digest) 0 }
    ensures garbage { (cut : Cut) (digest : Digest) → IsGarbage (lake_of_deletion cut digest) 0 }
{}

/// A seal of another seat gives the branch its version 2: a write by version 1 is refused, and one by version 2 stands.
pub fn guarded_write()
    ensures first { main_version fresh_versions ≡ 1 }
    ensures settings { settings_version fresh_versions quickstart ≡ 0 }
    ensures legal { (cut : Cut) → IsLegal (fresh cut) seal_and_write }
    ensures second { main_version versions_of_seal ≡ 2 }
    ensures late { (cut : Cut)
        → stage_reply (lake_of_seal cut) versions_of_seal quickstart main 1 ≡ Err (Changed 2 0) }
    ensures current { (cut : Cut)
        → stage_reply (lake_of_seal cut) versions_of_seal quickstart main 2 ≡ Ok 2 }
    ensures before { (cut : Cut)
        → look_reply (lake_of_seal cut) quickstart at_main a
        ≡ Ok (record { at = 1; found = None; gone = false }) }
    ensures after { (cut : Cut)
        → look_reply (lake_of_write cut) quickstart at_main a
        ≡ Ok (record { at = 2; found = Some outside; gone = false }) }
{}

/// What is staged after a seal isn't in the commit, and is read as before. The premise is that no file of the commit
/// shares its name with other bytes.
pub fn staged_after_seal()
    ensures legal { (cut : Cut) (about : AboutValue) → IsCommitAdmissible (lake_before_commit cut) about
        → IsLegal (fresh cut) (commit_beside_staged about) }
    ensures second { main_version (count_versions fresh_versions until_seal) ≡ 2 }
    ensures third { (about : AboutValue)
        → main_version (count_versions fresh_versions (commit_beside_staged about)) ≡ 3 }
    ensures in_commit { (cut : Cut) (about : AboutValue)
        → HasBranch (lake_beside_staged cut about) quickstart main (λ r x. get (head_map r x) a ≡ Some outside) }
    ensures not_in_commit { (cut : Cut) (about : AboutValue)
        → HasBranch (lake_beside_staged cut about) quickstart main (λ r x. get (head_map r x) b ≡ None) }
    ensures reads_a { (cut : Cut) (about : AboutValue) → read_at (lake_beside_staged cut about) a ≡ Some outside }
    ensures reads_b { (cut : Cut) (about : AboutValue) → read_at (lake_beside_staged cut about) b ≡ Some outside }
{}

/// Two seats seal, and one of them commits: the other's commit is answered by the new version, and nothing is left to
/// commit.
pub fn two_seals()
    ensures legal { (cut : Cut) (about : AboutValue) → IsCommitAdmissible (lake_of_two_seals cut) about
        → IsLegal (fresh cut) (commit_of_two_seals about) }
    ensures second { main_version (count_versions fresh_versions until_seal) ≡ 2 }
    ensures third { main_version (count_versions fresh_versions until_second_seal) ≡ 3 }
    ensures fourth { (about : AboutValue) → main_version (versions about) ≡ 4 }
    ensures late { (cut : Cut) (about other : AboutValue) (clash : Option Clash)
        → first_cause
        (swap_causes (lake_of_their_commit cut about) (versions about) quickstart main 3 0 (commit_rule other) clash)
        ≡ Some (Changed 4 0) }
    ensures unsealed { (cut : Cut) (about : AboutValue)
        → HasBranch (lake_of_their_commit cut about) quickstart main (λ r b. b.sealed ≡ empty) }
    ensures refused { (cut : Cut) (about other : AboutValue)
        → MayCommit (lake_of_their_commit cut about) quickstart main other → ⊥ }
{}
