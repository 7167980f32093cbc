//! New repositories.
ghost use Rattle.std.specs.Prelude.{◌≡◌, List, ℕ, Option, None, false};
ghost use Rattle.lake_base.specs.Names.{is_like_id};
ghost use Rattle.lake_model.specs.declared.history.By.{By};
ghost use Rattle.lake_model.specs.declared.history.HistoryEntry.{HistoryEntry};
ghost use Rattle.lake_model.specs.declared.history.Operation.TheVariants.{RepoCreate};
ghost use Rattle.lake_model.specs.Commits.{bare_repository, first_draft};
ghost use Rattle.lake_model.specs.Refusals.{Clash, IsClashOrNone, first_cause};
ghost use Rattle.lake_model.specs.Steps.{create_repository_causes};
ghost use Rattle.core_state.specs.LakeStates.{LakeStateValue, state_of};
ghost use Rattle.core_changes.specs.LakeChanges.{after_repository_create};
ghost use Rattle.core_standing.specs.Standing.{MayMake, Stands};

use core_changes::{laws_of_counts, laws_of_few, laws_of_indexes, laws_of_states, laws_of_tokens};
use lake_laws::repositories::law_of_repository_steps;
use lake_laws::soundness::law_of_soundness;

/// Where no cause holds, of which one is a clash of the first commit, a repository may be made whose default branch has
/// a name like no id.
pub fn law_of_repository()
    ensures { (opened : LakeStateValue) (history : List HistoryEntry) (present : LakeStateValue)
        (by : By) (repo branch : List ℕ) (date : ℕ) (clash : Option Clash)
        → Stands opened history present
        → first_cause (create_repository_causes (state_of present) repo clash) ≡ None
        → IsClashOrNone (state_of present) (bare_repository date branch) (first_draft date) clash
        → is_like_id branch ≡ false
        → MayMake opened history present by (RepoCreate repo branch date)
        (after_repository_create repo branch date) }
{
    law_of_repository_steps();
    law_of_soundness();
    laws_of_states();
    laws_of_counts();
    laws_of_tokens();
    laws_of_few();
    laws_of_indexes();
}
