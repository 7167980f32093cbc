//! What a step is refused for is a refusal: no lack of memory, and no fault of the store.
ghost use Rattle.std.specs.Prelude.{◌≡◌, List, ℕ, Option, Some};
ghost use Rattle.lake_values.specs.declared.settings.Note.{Note};
ghost use Rattle.lake_values.specs.declared.settings.NoteName.{NoteName};
ghost use Rattle.commit_graph.specs.Expressions.{RefExprValue};
ghost use Rattle.lake_model.specs.declared.fault.StepFault.{StepFault};
ghost use Rattle.lake_model.specs.declared.history.SealFor.{SealFor};
ghost use Rattle.lake_model.specs.State.{State};
ghost use Rattle.lake_model.specs.Refusals.{Clash, IsRefusal, causes_of_change, first_cause};
ghost use Rattle.lake_model.specs.Steps.{SwapRule, copy_causes, create_branch_causes, create_repository_causes};
ghost use Rattle.lake_model.specs.Steps.{create_tag_causes, delete_branch_causes, delete_tag_causes, expire_causes};
ghost use Rattle.lake_model.specs.Steps.{seal_causes, set_note_causes, stage_causes, swap_causes, write_causes};
ghost use Rattle.lake_model.specs.Versions.{VersionsGiven};

/// The first cause of a step is a refusal.
pub fn laws_of_causes()
    ensures change { (state : State) (fault : StepFault)
        → first_cause (causes_of_change state) ≡ Some fault → IsRefusal fault }
    ensures write { (state : State) (repo branch : List ℕ) (fault : StepFault)
        → first_cause (write_causes state repo branch) ≡ Some fault → IsRefusal fault }
    ensures stage { (state : State) (given : VersionsGiven) (repo branch : List ℕ) (version : ℕ) (fault : StepFault)
        → first_cause (stage_causes state given repo branch version) ≡ Some fault → IsRefusal fault }
    ensures copy { (state : State) (given : VersionsGiven) (repo branch : List ℕ) (version : ℕ)
        (e : RefExprValue) (from : List ℕ) (fault : StepFault)
        → first_cause (copy_causes state given repo branch version e from) ≡ Some fault → IsRefusal fault }
    ensures seal { (why : SealFor) (state : State) (repo branch : List ℕ) (fault : StepFault)
        → first_cause (seal_causes why state repo branch) ≡ Some fault → IsRefusal fault }
    ensures create_branch { (state : State) (repo name : List ℕ) (e : RefExprValue) (fault : StepFault)
        → first_cause (create_branch_causes state repo name e) ≡ Some fault → IsRefusal fault }
    ensures delete_branch { (state : State) (repo name : List ℕ) (fault : StepFault)
        → first_cause (delete_branch_causes state repo name) ≡ Some fault → IsRefusal fault }
    ensures create_tag { (state : State) (repo name : List ℕ) (e : RefExprValue) (fault : StepFault)
        → first_cause (create_tag_causes state repo name e) ≡ Some fault → IsRefusal fault }
    ensures delete_tag { (state : State) (repo name : List ℕ) (fault : StepFault)
        → first_cause (delete_tag_causes state repo name) ≡ Some fault → IsRefusal fault }
    ensures set_note { (state : State) (given : VersionsGiven) (repo : List ℕ) (expected : Option ℕ)
        (name : NoteName) (note : Option Note) (fault : StepFault)
        → first_cause (set_note_causes state given repo expected name note) ≡ Some fault → IsRefusal fault }
    ensures create_repository { (state : State) (repo : List ℕ) (clash : Option Clash) (fault : StepFault)
        → first_cause (create_repository_causes state repo clash) ≡ Some fault → IsRefusal fault }
    ensures swap { (state : State) (given : VersionsGiven) (repo branch : List ℕ) (version settings : ℕ)
        (rule : SwapRule) (clash : Option Clash) (fault : StepFault)
        → first_cause (swap_causes state given repo branch version settings rule clash) ≡ Some fault → IsRefusal fault }
    ensures expire { (state : State) (given : VersionsGiven) (version : ℕ) (fault : StepFault)
        → first_cause (expire_causes state given version) ≡ Some fault → IsRefusal fault }
{}
