//! New heads of a branch.
ghost use Rattle.std.specs.Prelude.{◌≡◌, List, ℕ, None};
ghost use Rattle.lake_values.specs.Commit.{AboutValue};
ghost use Rattle.lake_model.specs.declared.history.By.{By};
ghost use Rattle.lake_model.specs.declared.history.HistoryEntry.{HistoryEntry};
ghost use Rattle.lake_model.specs.declared.reply.SwapKind.{SwapKind};
ghost use Rattle.lake_model.specs.Refusals.{first_cause};
ghost use Rattle.lake_model.specs.Steps.{IsSwapClash, swap_causes, swap_operation, swap_rule};
ghost use Rattle.lake_laws.specs.Prepared.{IsPrepared, WhereThere};
ghost use Rattle.core_state.specs.LakeStates.{LakeStateValue, state_of};
ghost use Rattle.core_standing.specs.Standing.{MayMake, Stands, versions_since};
ghost use Rattle.core_state.specs.NewCommits.{NewCommit, commit_of_draft};
ghost use Rattle.core_changes.specs.LakeChanges.{after_new_head};

use core_changes::{laws_of_few, laws_of_indexes};
use lake_laws::soundness::law_of_soundness;
use lake_laws::swaps::law_of_swap_steps;

/// Where no cause holds, nothing clashes and the new head is prepared, a commit of its draft may become the head of the
/// branch: by a commit, a merge or a pick.
pub fn law_of_new_heads()
    ensures { (opened : LakeStateValue) (history : List HistoryEntry) (present : LakeStateValue)
        (by : By) (repo branch : List ℕ) (version settings : ℕ) (swap : SwapKind) (about : AboutValue) (new : NewCommit)
        → Stands opened history present
        → first_cause (swap_causes (state_of present) (versions_since opened history) repo branch version settings
        (swap_rule swap about) None) ≡ None
        → IsSwapClash (state_of present) repo branch (swap_rule swap about) None
        → WhereThere (state_of present) repo branch (IsPrepared (state_of present) branch swap about)
        → WhereThere (state_of present) repo branch
        (λ r b. new ≡ commit_of_draft present.cut r.commits ((swap_rule swap about).draft r b))
        → MayMake opened history present by (swap_operation repo branch swap about) (after_new_head repo branch new) }
{
    law_of_swap_steps();
    law_of_soundness();
    laws_of_few();
    laws_of_indexes();
}
