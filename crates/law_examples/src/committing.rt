//! Commits, merges and picks.
ghost use Rattle.std.specs.Prelude.{◌≡◌, true, List, Some, ℕ};
ghost use Rattle.std.specs.List.{Contains};
ghost use Rattle.lake_base.specs.declared.digest.Digest.{Digest};
ghost use Rattle.lake_values.specs.Ancestry.{commit_of};
ghost use Rattle.lake_values.specs.Commit.{AboutValue, CommitRecordValue};
ghost use Rattle.lake_values.specs.declared.commit.Strategy.{Strategy};
ghost use Rattle.lake_values.specs.declared.commit.Strategy.TheVariants as strategy;
ghost use Rattle.lake_format.specs.Cutting.{files};
ghost use Rattle.lake_format.specs.Spelling.{commit_id, file_name};
ghost use Rattle.lake_format.specs.declared.cut.Cut.{Cut};
ghost use Rattle.lake_model.specs.declared.history.Operation.TheVariants.{RepoCreate};
ghost use Rattle.lake_model.specs.State.{HasBranch, Repository, State, is_expired, map_of};
ghost use Rattle.lake_model.specs.Branches.{IsUnprotected};
ghost use Rattle.lake_model.specs.Commits.{AreKept, Draft, IsAdmissible, MayBecomeHead, StandsBefore, bare_repository};
ghost use Rattle.lake_model.specs.Commits.{bytes_of, commit_draft, first_draft, record_of};
ghost use Rattle.lake_model.specs.History.{Allows};
ghost use Rattle.law_examples.specs.HistoryWords.{a, b};
ghost use Rattle.law_examples.specs.HistoryWords.{quickstart, main, first, commit_entry, entry_of, IsCommitAdmissible};
ghost use Rattle.law_examples.specs.Nothing.{lake_of_nothing};
ghost use Rattle.law_examples.specs.RefusedLakes.{ready_lake};
ghost use Rattle.law_examples.specs.Picks.{AreThree, IsPickAdmissible, asking_lake, barred_lake, barred_pick_lake};
ghost use Rattle.law_examples.specs.Picks.{committed_lake, copy_entry, expired_head_lake, limited_lake, new_commit};
ghost use Rattle.law_examples.specs.Picks.{new_pick, pick_entry, sealed_lake, twice_committed_lake, with_reason};
ghost use Rattle.law_examples.specs.Picks.{without_metadata};

/// Nothing is sealed that changes the head's map, though all else that a commit asks holds. The premise is that no file
/// of it shares its name with other bytes.
pub fn nothing_to_commit()
    ensures others { (cut : Cut) (about : AboutValue) → IsCommitAdmissible (lake_of_nothing cut) about
        → HasBranch (lake_of_nothing cut) quickstart main
        (λ r b. IsUnprotected r main × MayBecomeHead (lake_of_nothing cut) main r b (commit_draft r b about)) }
    ensures refused { (cut : Cut) (about : AboutValue) → Allows (lake_of_nothing cut) (commit_entry about) → ⊥ }
{}

/// A hook denies the commit: it changes one path, and may change none.
pub fn hook_that_denies()
    ensures allowed { (cut : Cut) (about : AboutValue) → IsCommitAdmissible (ready_lake cut) about
        → Allows (ready_lake cut) (commit_entry about) }
    ensures refused { (cut : Cut) (about : AboutValue) → Allows (limited_lake cut) (commit_entry about) → ⊥ }
{}

/// A commit isn't admissible whose id is expired, or is another commit's or that of another map, or which has bytes
/// that share their name with others. But for the first these want two contents of one SHA-256, so none is shown.
pub fn inadmissible_commit()
    ensures expired { (state : State) (r : Repository) (draft : Draft)
        → is_expired r (commit_id (record_of state.cut r.commits draft)) ≡ true → IsAdmissible state r draft → ⊥ }
    ensures other_commit { (state : State) (r : Repository) (draft : Draft) (old : CommitRecordValue)
        → commit_of r.commits (commit_id (record_of state.cut r.commits draft)) ≡ Some old
        → (old ≡ record_of state.cut r.commits draft → ⊥) → IsAdmissible state r draft → ⊥ }
    ensures other_map { (state : State) (r : Repository) (draft : Draft) (old : CommitRecordValue)
        → commit_of r.commits (commit_id (record_of state.cut r.commits draft)) ≡ Some old
        → (map_of r (commit_id (record_of state.cut r.commits draft)) ≡ draft.objects → ⊥)
        → IsAdmissible state r draft → ⊥ }
    ensures clash { (state : State) (r : Repository) (draft : Draft) (new kept : List ℕ)
        → Contains (bytes_of state.cut r.commits draft) new → AreKept state kept → file_name new ≡ file_name kept
        → (new ≡ kept → ⊥) → IsAdmissible state r draft → ⊥ }
    ensures clash_of_new { (state : State) (r : Repository) (draft : Draft) (new kept : List ℕ)
        → StandsBefore (files state.cut draft.objects) kept new → file_name new ≡ file_name kept
        → (new ≡ kept → ⊥) → IsAdmissible state r draft → ⊥ }
{}

/// An entry whose new commit isn't admissible, in any state: a new repository, a commit and a pick; and a commit and a
/// pick whose ids are expired. (Where they are admissible the same entries are allowed: `name_that_stands` of
/// law_examples, `hook_that_denies` and `pick_of_commit`.)
pub fn inadmissible_entry()
    ensures repository { (state : State) (repo branch : List ℕ) (date : ℕ)
        → (IsAdmissible state (bare_repository date branch) (first_draft date) → ⊥)
        → Allows state (entry_of (RepoCreate repo branch date)) → ⊥ }
    ensures commit { (state : State) (about : AboutValue) → (IsCommitAdmissible state about → ⊥)
        → Allows state (commit_entry about) → ⊥ }
    ensures expired_commit { (cut : Cut) (about : AboutValue)
        → Allows (barred_lake cut about) (commit_entry about) → ⊥ }
    ensures pick { (state : State) (base source : Digest) (strategy : Strategy) (about : AboutValue)
        → (IsPickAdmissible state base source strategy about → ⊥)
        → Allows state (pick_entry base source strategy about) → ⊥ }
    ensures expired_pick { (cut : Cut) (about other : AboutValue)
        → Allows (barred_pick_lake cut about other) (new_pick cut about other) → ⊥ }
{}

/// A copy from a commit that is expired, from what is no commit, and from a path at which the commit has nothing.
pub fn copy_of_commit()
    ensures allowed { (cut : Cut) (about : AboutValue)
        → Allows (committed_lake cut about) (copy_entry (new_commit cut about) a) }
    ensures expired { (cut : Cut) (about : AboutValue)
        → Allows (expired_head_lake cut about) (copy_entry (new_commit cut about) a) → ⊥ }
    ensures no_commit { (cut : Cut) (about : AboutValue) (id : Digest)
        → (first cut ≡ id → ⊥) → (new_commit cut about ≡ id → ⊥)
        → Allows (committed_lake cut about) (copy_entry id a) → ⊥ }
    ensures nothing_there { (cut : Cut) (about : AboutValue)
        → Allows (committed_lake cut about) (copy_entry (new_commit cut about) b) → ⊥ }
{}

/// A pick of what a commit has over the first one. It is allowed, and isn't with a base or a source that is no commit,
/// with an expired source, with a source whose map is the base's, and while changes are sealed. The premises are that
/// the ids differ, and that no file of the new commit shares its name with other bytes.
pub fn pick_of_commit()
    ensures allowed { (cut : Cut) (about other : AboutValue) → (first cut ≡ new_commit cut about → ⊥)
        → IsPickAdmissible (committed_lake cut about) (first cut) (new_commit cut about) strategy.Refuse other
        → Allows (committed_lake cut about) (pick_entry (first cut) (new_commit cut about) strategy.Refuse other) }
    ensures no_base { (cut : Cut) (about other : AboutValue) (id : Digest)
        → (first cut ≡ id → ⊥) → (new_commit cut about ≡ id → ⊥)
        → Allows (committed_lake cut about) (pick_entry id (new_commit cut about) strategy.Refuse other) → ⊥ }
    ensures no_source { (cut : Cut) (about other : AboutValue) (id : Digest)
        → (first cut ≡ id → ⊥) → (new_commit cut about ≡ id → ⊥)
        → Allows (committed_lake cut about) (pick_entry (first cut) id strategy.Refuse other) → ⊥ }
    ensures expired_source { (cut : Cut) (about other : AboutValue)
        → Allows (expired_head_lake cut about) (pick_entry (first cut) (new_commit cut about) strategy.Refuse other)
        → ⊥ }
    ensures same_map { (cut : Cut) (about other : AboutValue)
        → Allows (committed_lake cut about) (pick_entry (first cut) (first cut) strategy.Refuse other) → ⊥ }
    ensures over_sealed { (cut : Cut) (about other : AboutValue)
        → Allows (sealed_lake cut about) (pick_entry (first cut) (new_commit cut about) strategy.Refuse other) → ⊥ }
{}

/// A hook wants a reason of each commit: a pick is allowed with one, and denied without. The premises are those of
/// `pick_of_commit`.
pub fn hook_that_denies_pick()
    ensures allowed { (cut : Cut) (about other : AboutValue) → (first cut ≡ new_commit cut about → ⊥)
        → IsPickAdmissible (asking_lake cut about)
        (first cut) (new_commit cut about) strategy.Refuse (with_reason other)
        → Allows (asking_lake cut about)
        (pick_entry (first cut) (new_commit cut about) strategy.Refuse (with_reason other)) }
    ensures refused { (cut : Cut) (about other : AboutValue)
        → Allows (asking_lake cut about)
        (pick_entry (first cut) (new_commit cut about) strategy.Refuse (without_metadata other)) → ⊥ }
{}

/// Where a path conflicts, a pick wants a strategy: what went between the second commit and the first is picked into
/// the third, which has another object there. The premises are those of `pick_of_commit`.
pub fn pick_in_conflict()
    ensures allowed { (cut : Cut) (about other third : AboutValue) → AreThree cut about other
        → IsPickAdmissible (twice_committed_lake cut about other)
        (new_commit cut about) (first cut) strategy.SourceWins third
        → Allows (twice_committed_lake cut about other)
        (pick_entry (new_commit cut about) (first cut) strategy.SourceWins third) }
    ensures refused { (cut : Cut) (about other third : AboutValue) → AreThree cut about other
        → Allows (twice_committed_lake cut about other)
        (pick_entry (new_commit cut about) (first cut) strategy.Refuse third) → ⊥ }
{}
