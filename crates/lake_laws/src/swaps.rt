//! New heads of a branch: where no cause of the step holds, and the caller keeps the rest, its entry may come next.
ghost use Rattle.std.specs.Prelude.{◌≡◌, List, ℕ, None};
ghost use Rattle.lake_values.specs.Commit.{AboutValue};
ghost use Rattle.lake_model.specs.declared.history.By.{By};
ghost use Rattle.lake_model.specs.declared.reply.SwapKind.{SwapKind};
ghost use Rattle.lake_model.specs.State.{State};
ghost use Rattle.lake_model.specs.History.{Allows, accepted_entry};
ghost use Rattle.lake_model.specs.Refusals.{first_cause};
ghost use Rattle.lake_model.specs.Steps.{IsSwapClash, swap_causes, swap_operation, swap_rule};
ghost use Rattle.lake_model.specs.Versions.{VersionsGiven};
ghost use Rattle.lake_laws.specs.Prepared.{IsPrepared, WhereThere};

/// Where no cause holds, nothing clashes, and the new head is prepared, it may be made: by a commit, a merge or a
/// pick.
pub fn law_of_swap_steps()
    ensures swap { (state : State) (given : VersionsGiven) (by : By) (repo branch : List ℕ)
        (version settings : ℕ) (swap : SwapKind) (about : AboutValue)
        → first_cause (swap_causes state given repo branch version settings (swap_rule swap about) None) ≡ None
        → IsSwapClash state repo branch (swap_rule swap about) None
        → WhereThere state repo branch (IsPrepared state branch swap about)
        → Allows state (accepted_entry by (swap_operation repo branch swap about)) }
{}
