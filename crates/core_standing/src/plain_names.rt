//! Names of branches and tags that are like no id.
ghost use Rattle.std.specs.Prelude.{◌≡◌, List, ℕ, None, false};
ghost use Rattle.std.specs.FinMap.{get};
ghost use Rattle.std.specs.Option.{ForSome};
ghost use Rattle.lake_base.specs.Names.{is_like_id};
ghost use Rattle.lake_model.specs.declared.history.By.{By};
ghost use Rattle.lake_model.specs.declared.history.HistoryEntry.{HistoryEntry};
ghost use Rattle.lake_model.specs.declared.history.SealFor.{SealFor};
ghost use Rattle.lake_model.specs.Refusals.{first_cause};
ghost use Rattle.lake_model.specs.Steps.{delete_branch_causes, delete_tag_causes, seal_causes, write_causes};
ghost use Rattle.core_state.specs.LakeStates.{LakeStateValue, state_of};
ghost use Rattle.core_standing.specs.Standing.{Stands};

use lake_laws::soundness::law_of_soundness;
use lake_laws::step_names::law_of_name_steps;
use lake_laws::writes::law_of_write_steps;

/// In a lake that stands for its history the name of a branch or a tag to which something may be done is like no id,
/// and so is that of each default branch.
pub fn laws_of_plain_names()
    ensures write { (opened : LakeStateValue) (history : List HistoryEntry) (present : LakeStateValue)
        (by : By) (repo branch : List ℕ)
        → Stands opened history present
        → first_cause (write_causes (state_of present) repo branch) ≡ None
        → is_like_id branch ≡ false }
    ensures seal { (opened : LakeStateValue) (history : List HistoryEntry) (present : LakeStateValue)
        (by : By) (repo branch : List ℕ) (why : SealFor)
        → Stands opened history present
        → first_cause (seal_causes why (state_of present) repo branch) ≡ None
        → is_like_id branch ≡ false }
    ensures delete_branch { (opened : LakeStateValue) (history : List HistoryEntry) (present : LakeStateValue)
        (by : By) (repo name : List ℕ)
        → Stands opened history present
        → first_cause (delete_branch_causes (state_of present) repo name) ≡ None
        → is_like_id name ≡ false }
    ensures delete_tag { (opened : LakeStateValue) (history : List HistoryEntry) (present : LakeStateValue)
        (by : By) (repo name : List ℕ)
        → Stands opened history present
        → first_cause (delete_tag_causes (state_of present) repo name) ≡ None
        → is_like_id name ≡ false }
    ensures default_branch { (opened : LakeStateValue) (history : List HistoryEntry) (present : LakeStateValue)
        (repo : List ℕ)
        → Stands opened history present
        → ForSome (get present.repositories repo) (λ r. is_like_id r.default_branch ≡ false) }
{
    law_of_write_steps();
    law_of_name_steps();
    law_of_soundness();
}
