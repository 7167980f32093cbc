//! A lake that is opened again.
ghost use Rattle.std.specs.Prelude.{◌≡◌, ◌⊎◌, ◌<◌, ℕ, List, Option, Some};
ghost use Rattle.std.specs.FinMap.{get};
ghost use Rattle.lake_base.specs.declared.digest.Digest.{Digest as AnyDigest};
ghost use Rattle.lake_base.specs.Maps.{ByteMap};
ghost use Rattle.lake_values.specs.Ancestry.{commit_of};
ghost use Rattle.lake_values.specs.Commit.{CommitRecordValue};
ghost use Rattle.lake_format.specs.declared.cut.Cut.{Cut as AnyCut};
ghost use Rattle.lake_model.specs.declared.history.HistoryEntry.{HistoryEntry};
ghost use Rattle.lake_model.specs.History.{replay};
ghost use Rattle.lake_model.specs.Naming.{IsGarbage, IsNamedIn};
ghost use Rattle.lake_model.specs.State.{HasRepository, Repository, map_of};
ghost use Rattle.core_puts.specs.KeeperViews.{KeeperView};
ghost use Rattle.core_state.specs.LakeStates.{LakeStateValue, lake_value, state_of};
ghost use Rattle.core_state.specs.declared.file_place.FilePlace.{FilePlace as AnyFilePlace};
ghost use Rattle.core_state.specs.declared.lake.LakeState.{LakeState as AnyLake};
ghost use Rattle.reading_again.specs.ReadableLakes.{HasReadableParts};
ghost use Rattle.lake_core.specs.Faults.{HasFault};
ghost use Rattle.lake_core.specs.Lakes.{Holds, LakeValue, state};
ghost use Rattle.restart_laws.specs.Restarts.{CanTriedBeRead, IsOpenedAgain, IsReadAgain, IsTriedAgain, rested};

use lake_core::law_of_kept_pairs;
use lake_laws::identity::law_of_identity;
use reading_again::{law_of_order, law_of_tied_lakes};

/// A lake that was read of the pairs that another left is that one put to rest, where its maps and its settings can be
/// read: the replay of its history, so that every change which was answered is in it, and nothing else. After a fault
/// of the store it is that, without the entry that was tried, or the replay in which that entry was accepted.
pub fn law_of_left_pairs()
    ensures same { (opened : LakeStateValue) (history : List HistoryEntry) (files : ByteMap (Option AnyFilePlace))
        (present : LakeStateValue) (cut : AnyCut) (again : AnyLake)
        → IsReadAgain opened history files present cut again → HasReadableParts present → (HasFault history → ⊥)
        → state_of (lake_value again) ≡ rested (replay (state_of opened) history) }
    ensures tried { (opened : LakeStateValue) (history : List HistoryEntry) (files : ByteMap (Option AnyFilePlace))
        (present : LakeStateValue) (cut : AnyCut) (again : AnyLake)
        → (is : IsReadAgain opened history files present cut again) → HasReadableParts present
        → CanTriedBeRead opened history is.pairs
        → (state_of (lake_value again) ≡ rested (replay (state_of opened) history))
        ⊎ IsTriedAgain opened history is.pairs (lake_value again) }
{
    law_of_order();
    law_of_tied_lakes();
}

/// So it is with a lake that is opened over a keeper which has the pairs that another's keeper had.
pub fn law_of_restarts<K, L>()
    ensures same { (left : KeeperView K) (view : KeeperView L) (cut : AnyCut) (lake : LakeValue K) (keeper : L)
        (again : LakeValue L) → Holds left lake → IsOpenedAgain left view cut lake keeper again
        → HasReadableParts (lake_value lake.present) → (HasFault lake.history → ⊥)
        → state_of (lake_value again.opened) ≡ rested (state lake) }
    ensures tried { (left : KeeperView K) (view : KeeperView L) (cut : AnyCut) (lake : LakeValue K) (keeper : L)
        (again : LakeValue L) → Holds left lake → (is : IsOpenedAgain left view cut lake keeper again)
        → HasReadableParts (lake_value lake.present)
        → CanTriedBeRead (lake_value lake.opened) lake.history is.pairs
        → (state_of (lake_value again.opened) ≡ rested (state lake))
        ⊎ IsTriedAgain (lake_value lake.opened) lake.history is.pairs (lake_value again.opened) }
{
    law_of_left_pairs();
    law_of_kept_pairs::<K>();
}

/// A commit id keeps its record and its key map over a restart, also where the store had failed, whether the change that
/// was tried is there then or not. A number that was given out, and that no commit and no uncommitted change named, is
/// garbage then: so is that of an upload which wasn't finished.
pub fn law_of_ids_over_restarts<K, L>()
    ensures commits { (left : KeeperView K) (view : KeeperView L) (cut : AnyCut) (lake : LakeValue K) (keeper : L)
        (again : LakeValue L) → Holds left lake → (is : IsOpenedAgain left view cut lake keeper again)
        → HasReadableParts (lake_value lake.present)
        → CanTriedBeRead (lake_value lake.opened) lake.history is.pairs
        → (repo : List ℕ) (r : Repository) (id : AnyDigest) (commit : CommitRecordValue)
        → get (state lake).repositories repo ≡ Some r → commit_of r.commits id ≡ Some commit
        → HasRepository (state_of (lake_value again.opened)) repo
        (λ s. (commit_of s.commits id ≡ Some commit) × (map_of s id ≡ map_of r id)) }
    ensures garbage { (left : KeeperView K) (view : KeeperView L) (cut : AnyCut) (lake : LakeValue K) (keeper : L)
        (again : LakeValue L) → Holds left lake → IsOpenedAgain left view cut lake keeper again
        → HasReadableParts (lake_value lake.present) → (HasFault lake.history → ⊥)
        → (number : ℕ) → number < (state lake).next_number
        → (IsNamedIn (λ name r. get (state lake).repositories name ≡ Some r) number → ⊥)
        → IsGarbage (state_of (lake_value again.opened)) number }
{
    law_of_restarts::<K, L>();
    law_of_identity();
}
