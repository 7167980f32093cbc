//! Merges of `dev` into `main`.
ghost use Rattle.std.specs.Prelude.{◌≡◌, [], ◌∷◌, Some};
ghost use Rattle.std.specs.FinMap.{get};
ghost use Rattle.std.specs.List.{Contains};
ghost use Rattle.lake_base.specs.declared.digest.Digest.{Digest};
ghost use Rattle.lake_values.specs.Ancestry.{parents};
ghost use Rattle.lake_values.specs.Commit.{AboutValue};
ghost use Rattle.lake_values.specs.declared.commit.Strategy.{Strategy};
ghost use Rattle.lake_values.specs.declared.commit.Strategy.TheVariants as strategy;
ghost use Rattle.lake_model.specs.State.{HasBranch, State, head_map};
ghost use Rattle.lake_model.specs.History.{Allows, IsLegal, after};
ghost use Rattle.lake_model.specs.Removal.{AreDistinct};
ghost use Rattle.lake_model.specs.Soundness.{fresh};
ghost use Rattle.law_examples.specs.HistoryWords.{quickstart, main, first, outside, head_of, a, b};
ghost use Rattle.law_examples.specs.Picks.{larger_object};
ghost use Rattle.law_examples.specs.Merges.{AreChangesAdmissible, Fork, IsMergeAdmissible, ahead_lake, dev_head};
ghost use Rattle.law_examples.specs.Merges.{dev_merge, diverged_lake, fork_entries, hooked_lake, lake_of_expired};
ghost use Rattle.law_examples.specs.Merges.{merge_commit, merge_entry, resealed_lake, rival_lake, three_commits};

/// `main` is still at the first commit, at which `dev` began, and the head of `dev` is merged: a commit of two parents
/// is made all the same. The premises are that the ids differ, and that no file of the new commit shares its name with
/// other bytes.
pub fn merge_of_ahead()
    ensures allowed { (fork : Fork) (about : AboutValue) → (first fork.cut ≡ dev_head (ahead_lake fork) → ⊥)
        → IsMergeAdmissible (ahead_lake fork) (dev_head (ahead_lake fork)) strategy.Refuse about
        → Allows (ahead_lake fork) (dev_merge (ahead_lake fork) strategy.Refuse about) }
    ensures parents { (fork : Fork) (about : AboutValue) → (first fork.cut ≡ dev_head (ahead_lake fork) → ⊥)
        → HasBranch (after (ahead_lake fork) (dev_merge (ahead_lake fork) strategy.Refuse about)) quickstart main
        (λ r x. parents r.commits x.head ≡ first fork.cut ∷ dev_head (ahead_lake fork) ∷ []) }
{}

/// `dev` and `main` diverged, and changed different paths: the merge commit has both, and its parents are the old head
/// and the source. The premises are those of `merge_of_ahead`; where the two commits are admissible too, the entries
/// that lead there are legal.
pub fn merge_of_diverged()
    ensures legal { (fork : Fork) → AreDistinct (three_commits fork.cut (diverged_lake fork))
        → AreChangesAdmissible b outside fork → IsLegal (fresh fork.cut) (fork_entries b outside fork) }
    ensures allowed { (fork : Fork) (about : AboutValue) → AreDistinct (three_commits fork.cut (diverged_lake fork))
        → IsMergeAdmissible (diverged_lake fork) (dev_head (diverged_lake fork)) strategy.Refuse about
        → Allows (diverged_lake fork) (dev_merge (diverged_lake fork) strategy.Refuse about) }
    ensures at_a { (fork : Fork) (about : AboutValue) → AreDistinct (three_commits fork.cut (diverged_lake fork))
        → HasBranch (after (diverged_lake fork) (dev_merge (diverged_lake fork) strategy.Refuse about))
        quickstart main (λ r x. get (head_map r x) a ≡ Some outside) }
    ensures at_b { (fork : Fork) (about : AboutValue) → AreDistinct (three_commits fork.cut (diverged_lake fork))
        → HasBranch (after (diverged_lake fork) (dev_merge (diverged_lake fork) strategy.Refuse about))
        quickstart main (λ r x. get (head_map r x) b ≡ Some outside) }
    ensures parents { (fork : Fork) (about : AboutValue) → AreDistinct (three_commits fork.cut (diverged_lake fork))
        → HasBranch (after (diverged_lake fork) (dev_merge (diverged_lake fork) strategy.Refuse about)) quickstart main
        (λ r x. parents r.commits x.head ≡ head_of (diverged_lake fork) ∷ dev_head (diverged_lake fork) ∷ []) }
{}

/// A merge whose base is expired: no entry comes from the base alone, so it is allowed. The premises are those of
/// `merge_of_ahead`.
pub fn base_that_expired()
    ensures { (fork : Fork) (about : AboutValue) → AreDistinct (three_commits fork.cut (diverged_lake fork))
        → IsMergeAdmissible (lake_of_expired (first fork.cut) fork)
        (dev_head (diverged_lake fork)) strategy.Refuse about
        → Allows (lake_of_expired (first fork.cut) fork) (dev_merge (diverged_lake fork) strategy.Refuse about) }
{}

/// A merge of what can't be a source: of what is no commit, of an expired commit, and of the first one, which is the
/// base itself, so that its map is the base's.
pub fn source_of_merge()
    ensures no_commit { (fork : Fork) (about : AboutValue) (id : Digest)
        → (Contains (three_commits fork.cut (diverged_lake fork)) id → ⊥)
        → Allows (diverged_lake fork) (merge_entry id strategy.Refuse about) → ⊥ }
    ensures expired { (fork : Fork) (about : AboutValue)
        → Allows (lake_of_expired (dev_head (diverged_lake fork)) fork)
        (dev_merge (diverged_lake fork) strategy.Refuse about) → ⊥ }
    ensures same_map { (fork : Fork) (about : AboutValue) → AreDistinct (three_commits fork.cut (diverged_lake fork))
        → Allows (diverged_lake fork) (merge_entry (first fork.cut) strategy.Refuse about) → ⊥ }
{}

/// A merge while changes are sealed on `main`: it is allowed where they leave the head's map as it is, and not where
/// they alter it.
pub fn merge_over_sealed()
    ensures allowed { (fork : Fork) (about : AboutValue) → AreDistinct (three_commits fork.cut (diverged_lake fork))
        → IsMergeAdmissible (resealed_lake a fork) (dev_head (diverged_lake fork)) strategy.Refuse about
        → Allows (resealed_lake a fork) (dev_merge (diverged_lake fork) strategy.Refuse about) }
    ensures refused { (fork : Fork) (about : AboutValue) → AreDistinct (three_commits fork.cut (diverged_lake fork))
        → Allows (resealed_lake b fork) (dev_merge (diverged_lake fork) strategy.Refuse about) → ⊥ }
{}

/// `dev` and `main` have different objects at `a`: a merge wants a strategy, which says whose stands there afterwards.
pub fn merge_in_conflict()
    ensures legal { (fork : Fork) → AreDistinct (three_commits fork.cut (rival_lake fork))
        → AreChangesAdmissible a larger_object fork → IsLegal (fresh fork.cut) (fork_entries a larger_object fork) }
    ensures source_wins { (fork : Fork) (about : AboutValue) → AreDistinct (three_commits fork.cut (rival_lake fork))
        → IsMergeAdmissible (rival_lake fork) (dev_head (rival_lake fork)) strategy.SourceWins about
        → Allows (rival_lake fork) (dev_merge (rival_lake fork) strategy.SourceWins about) }
    ensures of_source { (fork : Fork) (about : AboutValue) → AreDistinct (three_commits fork.cut (rival_lake fork))
        → HasBranch (after (rival_lake fork) (dev_merge (rival_lake fork) strategy.SourceWins about))
        quickstart main (λ r x. get (head_map r x) a ≡ Some larger_object) }
    ensures dest_wins { (fork : Fork) (about : AboutValue) → AreDistinct (three_commits fork.cut (rival_lake fork))
        → IsMergeAdmissible (rival_lake fork) (dev_head (rival_lake fork)) strategy.DestWins about
        → Allows (rival_lake fork) (dev_merge (rival_lake fork) strategy.DestWins about) }
    ensures of_dest { (fork : Fork) (about : AboutValue) → AreDistinct (three_commits fork.cut (rival_lake fork))
        → HasBranch (after (rival_lake fork) (dev_merge (rival_lake fork) strategy.DestWins about))
        quickstart main (λ r x. get (head_map r x) a ≡ Some outside) }
    ensures refused { (fork : Fork) (about : AboutValue) → AreDistinct (three_commits fork.cut (rival_lake fork))
        → Allows (rival_lake fork) (dev_merge (rival_lake fork) strategy.Refuse about) → ⊥ }
{}

/// A hook limits the paths that a commit of `main` may change. The merge changes one: it is allowed where the limit is
/// one, and denied where it is none.
pub fn hook_that_denies_merge()
    ensures allowed { (fork : Fork) (about : AboutValue) → AreDistinct (three_commits fork.cut (diverged_lake fork))
        → IsMergeAdmissible (hooked_lake 1 fork) (dev_head (diverged_lake fork)) strategy.Refuse about
        → Allows (hooked_lake 1 fork) (dev_merge (diverged_lake fork) strategy.Refuse about) }
    ensures refused { (fork : Fork) (about : AboutValue) → AreDistinct (three_commits fork.cut (diverged_lake fork))
        → Allows (hooked_lake 0 fork) (dev_merge (diverged_lake fork) strategy.Refuse about) → ⊥ }
{}

/// A merge whose commit isn't admissible, in any state; and one whose commit is expired. What else isn't admissible is
/// said of any new commit.
pub fn inadmissible_merge()
    ensures refused { (state : State) (source : Digest) (strategy : Strategy) (about : AboutValue)
        → (IsMergeAdmissible state source strategy about → ⊥) → Allows state (merge_entry source strategy about) → ⊥ }
    ensures expired { (fork : Fork) (about : AboutValue) → AreDistinct (three_commits fork.cut (diverged_lake fork))
        → Allows (lake_of_expired (merge_commit about fork) fork)
        (dev_merge (diverged_lake fork) strategy.Refuse about) → ⊥ }
{}
