//! New heads of a branch, and new repositories: these put files.
ghost use Rattle.std.specs.Prelude.{◌≡◌, ◌<◌, ◌^◌, ℕ, List, Option, None};
ghost use Rattle.lake_base.specs.Maps.{ByteMap};
ghost use Rattle.lake_base.specs.Names.{repo_fault};
ghost use Rattle.lake_values.specs.Commit.{AboutValue};
ghost use Rattle.lake_model.specs.declared.history.By.{By};
ghost use Rattle.lake_model.specs.declared.history.HistoryEntry.{HistoryEntry};
ghost use Rattle.lake_model.specs.declared.history.Operation.TheVariants.{RepoCreate};
ghost use Rattle.lake_model.specs.declared.reply.SwapKind.{SwapKind};
ghost use Rattle.lake_model.specs.Steps.{swap_operation};
ghost use Rattle.pair_format.specs.PairSpelling.{IsRefName};
ghost use Rattle.keeper.specs.Keepers.{KeptPairs, pairs_after};
ghost use Rattle.core_state.specs.FirstStates.{first_tree};
ghost use Rattle.core_state.specs.LakeStates.{LakeStateValue};
ghost use Rattle.core_state.specs.NewCommits.{NewCommit};
ghost use Rattle.core_state.specs.declared.file_place.FilePlace.{FilePlace as AnyFilePlace};
ghost use Rattle.core_changes.specs.LakeChanges.{after_new_head, after_repository_create};
ghost use Rattle.core_changes.specs.NewPlaces.{HasNewPlaces};
ghost use Rattle.core_head_pairs.specs.PairWords.{create_repository_puts};
ghost use Rattle.core_head_pairs.specs.PairWords.{MayMake, Stands};
ghost use Rattle.core_keeping.specs.Following.{FollowLake, FollowsHead, IsHeadOf, KeepLake, KeepsHead};

use core_head_pairs::{
    law_of_kept_heads, law_of_kept_repositories, law_of_present, laws_of_places,
    laws_of_tokens_apart,
};

/// A commit, a merge or a pick that may be made, where its commit and its map are within their limits: after its puts
/// pairs keep the lake; and they follow it, with an index to which places of files of its tree came.
pub fn laws_of_followed_heads()
    ensures kept { (opened : LakeStateValue) (history : List HistoryEntry) (l : LakeStateValue) (by : By)
        (repo branch : List ℕ) (swap : SwapKind) (about : AboutValue) (new : NewCommit)
        → Stands opened history l
        → MayMake opened history l by (swap_operation repo branch swap about) (after_new_head repo branch new)
        → IsHeadOf l repo branch swap about new → KeepsHead l repo branch new }
    ensures followed { (opened : LakeStateValue) (history : List HistoryEntry) (l : LakeStateValue) (by : By)
        (repo branch : List ℕ) (swap : SwapKind) (about : AboutValue) (new : NewCommit)
        → Stands opened history l
        → MayMake opened history l by (swap_operation repo branch swap about) (after_new_head repo branch new)
        → IsHeadOf l repo branch swap about new → FollowsHead l repo branch new }
{
    law_of_kept_heads();
    law_of_present();
    laws_of_tokens_apart();
    laws_of_places();
}

/// A repository that may be made, where it was spelled, in the same way.
pub fn laws_of_followed_repositories()
    ensures kept { (opened : LakeStateValue) (history : List HistoryEntry) (l : LakeStateValue) (by : By)
        (repo branch : List ℕ) (date : ℕ)
        → Stands opened history l
        → MayMake opened history l by (RepoCreate repo branch date) (after_repository_create repo branch date)
        → (repo_fault repo ≡ None) × (IsRefName branch × (date < 2 ^ 64))
        → (pairs : KeptPairs) → KeepLake pairs l
        → KeepLake (pairs_after (create_repository_puts repo branch date l) pairs)
        (after_repository_create repo branch date l) }
    ensures followed { (opened : LakeStateValue) (history : List HistoryEntry) (l : LakeStateValue) (by : By)
        (repo branch : List ℕ) (date : ℕ)
        → Stands opened history l
        → MayMake opened history l by (RepoCreate repo branch date) (after_repository_create repo branch date)
        → (repo_fault repo ≡ None) × (IsRefName branch × (date < 2 ^ 64))
        → (pairs : KeptPairs) (before after : ByteMap (Option AnyFilePlace)) → FollowLake pairs before l
        → HasNewPlaces before after (first_tree l.cut)
        → FollowLake (pairs_after (create_repository_puts repo branch date l) pairs) after
        (after_repository_create repo branch date l) }
{
    law_of_kept_repositories();
    law_of_present();
    laws_of_tokens_apart();
    laws_of_places();
}
