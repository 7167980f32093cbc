//! New repositories: where no cause of the step holds, its entry may come next.
ghost use Rattle.std.specs.Prelude.{◌≡◌, List, ℕ, None, false};
ghost use Rattle.lake_base.specs.Names.{is_like_id};
ghost use Rattle.lake_model.specs.declared.history.By.{By};
ghost use Rattle.lake_model.specs.declared.history.Operation.TheVariants.{RepoCreate};
ghost use Rattle.lake_model.specs.State.{State};
ghost use Rattle.lake_model.specs.Commits.{bare_repository, first_draft};
ghost use Rattle.lake_model.specs.History.{Allows, accepted_entry};
ghost use Rattle.lake_model.specs.Refusals.{IsClashOrNone, first_cause};
ghost use Rattle.lake_model.specs.Steps.{create_repository_causes};

/// Where no cause holds, and the first commit doesn't clash, a repository may be made whose default branch has a name
/// like no id. Where one may be made, no cause holds, and nothing clashes.
pub fn law_of_repository_steps()
    ensures create_repository { (state : State) (by : By) (repo branch : List ℕ) (date : ℕ)
        → is_like_id branch ≡ false
        → first_cause (create_repository_causes state repo None) ≡ None
        → IsClashOrNone state (bare_repository date branch) (first_draft date) None
        → Allows state (accepted_entry by (RepoCreate repo branch date)) }
    ensures causes { (state : State) (by : By) (repo branch : List ℕ) (date : ℕ)
        → Allows state (accepted_entry by (RepoCreate repo branch date))
        → first_cause (create_repository_causes state repo None) ≡ None }
    ensures clash { (state : State) (by : By) (repo branch : List ℕ) (date : ℕ)
        → Allows state (accepted_entry by (RepoCreate repo branch date))
        → IsClashOrNone state (bare_repository date branch) (first_draft date) None }
{}
