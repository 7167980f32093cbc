//! The numbers of objects that a history gives out.
ghost use Rattle.std.specs.Prelude.{◌≡◌, ◌<◌, ◌≤◌, ℕ, List, Ok, IsSome};
ghost use Rattle.std.specs.FinMap.{get};
ghost use Rattle.std.specs.List.{Contains};
ghost use Rattle.std.specs.List.Sorted.{IsStrictlySortedBy};
ghost use Rattle.std.specs.Ordering.{nat_cmp};
ghost use Rattle.lake_model.specs.declared.history.HistoryEntry.{HistoryEntry};
ghost use Rattle.lake_model.specs.State.{State};
ghost use Rattle.lake_model.specs.History.{IsLegal, replay};
ghost use Rattle.lake_model.specs.Naming.{IsNamed};
ghost use Rattle.lake_model.specs.Steps.{take_ticket_reply};
ghost use Rattle.core_state.specs.LakeStates.{lake_value};
ghost use Rattle.core_standing.specs.Standing.{Stands};
ghost use Rattle.lake_core.specs.Lakes.{LakeValue, state};
ghost use Rattle.lake_core.specs.Numbers.{numbers_of};

use lake_laws::soundness::law_of_soundness;

/// The numbers that a legal history gives out strictly ascend, so each is given out once. None is below the next number
/// at its start, and each is below the next one at its end.
pub fn law_of_numbers()
    ensures ascend { (state : State) (entries : List HistoryEntry)
        → IsLegal state entries → IsStrictlySortedBy nat_cmp (numbers_of entries) }
    ensures start { (state : State) (entries : List HistoryEntry) (number : ℕ)
        → IsLegal state entries → Contains (numbers_of entries) number → state.next_number ≤ number }
    ensures end { (state : State) (entries : List HistoryEntry) (number : ℕ)
        → IsLegal state entries → Contains (numbers_of entries) number → number < (replay state entries).next_number }
{}

/// The number that `take_ticket` gives was never given out before: not since the lake was opened, and it is neither
/// named nor gone.
pub fn law_of_new_numbers<K>()
    ensures given { (lake : LakeValue K) (repo branch : List ℕ) (place number : ℕ)
        → Stands (lake_value lake.opened) lake.history (lake_value lake.present)
        → take_ticket_reply (state lake) repo branch ≡ Ok (place, number)
        → Contains (numbers_of lake.history) number → ⊥ }
    ensures named { (lake : LakeValue K) (repo branch : List ℕ) (place number : ℕ)
        → Stands (lake_value lake.opened) lake.history (lake_value lake.present)
        → take_ticket_reply (state lake) repo branch ≡ Ok (place, number)
        → IsNamed (state lake) number → ⊥ }
    ensures gone { (lake : LakeValue K) (repo branch : List ℕ) (place number : ℕ)
        → Stands (lake_value lake.opened) lake.history (lake_value lake.present)
        → take_ticket_reply (state lake) repo branch ≡ Ok (place, number)
        → IsSome (get (state lake).gone number) → ⊥ }
{
    law_of_soundness();
}
