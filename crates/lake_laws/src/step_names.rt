//! Branches and tags that come and go: where no cause of the step holds, its entry may come next.
ghost use Rattle.std.specs.Prelude.{◌≡◌, List, ℕ, None, Some, false};
ghost use Rattle.lake_base.specs.Names.{is_like_id};
ghost use Rattle.lake_base.specs.declared.digest.Digest.{Digest};
ghost use Rattle.commit_graph.specs.Expressions.{RefExprValue};
ghost use Rattle.lake_model.specs.declared.history.By.{By};
ghost use Rattle.lake_model.specs.declared.history.Operation.TheVariants.{BranchCreate, BranchDelete, TagCreate};
ghost use Rattle.lake_model.specs.declared.history.Operation.TheVariants.{TagDelete};
ghost use Rattle.lake_model.specs.State.{State};
ghost use Rattle.lake_model.specs.History.{Allows, accepted_entry};
ghost use Rattle.lake_model.specs.Soundness.{IsSound};
ghost use Rattle.lake_model.specs.Refusals.{first_cause};
ghost use Rattle.lake_model.specs.Steps.{create_branch_causes, create_tag_causes, delete_branch_causes};
ghost use Rattle.lake_model.specs.Steps.{delete_tag_causes, in_it, target_in};

/// Where no cause holds: in a sound lake a branch and a tag may be made, under a name that is like no id, at the
/// commit of an expression; and a branch and a tag may go.
pub fn law_of_name_steps()
    ensures create_branch { (state : State) (by : By) (repo name : List ℕ) (e : RefExprValue) (id : Digest)
        → IsSound state → is_like_id name ≡ false
        → first_cause (create_branch_causes state repo name e) ≡ None
        → in_it state repo (λ r. target_in r e) ≡ Some id
        → Allows state (accepted_entry by (BranchCreate repo name id)) }
    ensures delete_branch { (state : State) (by : By) (repo name : List ℕ)
        → first_cause (delete_branch_causes state repo name) ≡ None
        → Allows state (accepted_entry by (BranchDelete repo name)) }
    ensures create_tag { (state : State) (by : By) (repo name : List ℕ) (e : RefExprValue) (id : Digest)
        → IsSound state → is_like_id name ≡ false
        → first_cause (create_tag_causes state repo name e) ≡ None
        → in_it state repo (λ r. target_in r e) ≡ Some id
        → Allows state (accepted_entry by (TagCreate repo name id)) }
    ensures delete_tag { (state : State) (by : By) (repo name : List ℕ)
        → first_cause (delete_tag_causes state repo name) ≡ None
        → Allows state (accepted_entry by (TagDelete repo name)) }
{}
