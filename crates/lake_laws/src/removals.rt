//! Commits that expire, and numbers that are condemned: where no cause of the step holds, its entry may come next.
ghost use Rattle.std.specs.Prelude.{◌≡◌, List, ℕ, None};
ghost use Rattle.lake_model.specs.declared.history.By.{By};
ghost use Rattle.lake_model.specs.declared.history.Operation.TheVariants.{Condemn, Expire};
ghost use Rattle.lake_model.specs.declared.history.RepositoryCommit.{RepositoryCommit};
ghost use Rattle.lake_model.specs.State.{State};
ghost use Rattle.lake_model.specs.History.{Allows, accepted_entry};
ghost use Rattle.lake_model.specs.Refusals.{causes_of_change, first_cause};
ghost use Rattle.lake_model.specs.Removal.{MayCondemn, MayExpire};
ghost use Rattle.lake_model.specs.Steps.{expire_causes};
ghost use Rattle.lake_model.specs.Versions.{VersionsGiven};

/// Where no cause holds, the commits may expire that can, and numbers may be condemned that are garbage. Where they
/// may, no cause holds, by the version now of the references.
pub fn law_of_removal_steps()
    ensures expire { (state : State) (given : VersionsGiven) (by : By) (version now : ℕ)
        (commits : List RepositoryCommit)
        → first_cause (expire_causes state given version) ≡ None
        → MayExpire state now commits
        → Allows state (accepted_entry by (Expire now commits)) }
    ensures condemn { (state : State) (by : By) (numbers : List ℕ)
        → first_cause (causes_of_change state) ≡ None
        → MayCondemn state numbers
        → Allows state (accepted_entry by (Condemn numbers)) }
    ensures expire_causes { (state : State) (given : VersionsGiven) (by : By) (now : ℕ)
        (commits : List RepositoryCommit)
        → Allows state (accepted_entry by (Expire now commits))
        → first_cause (expire_causes state given given.references) ≡ None }
    ensures condemn_causes { (state : State) (by : By) (numbers : List ℕ)
        → Allows state (accepted_entry by (Condemn numbers))
        → first_cause (causes_of_change state) ≡ None }
{}
