//! Where an entry may come next, no cause of its step holds.
ghost use Rattle.std.specs.Prelude.{◌≡◌, List, ℕ, Option, None, Some, true};
ghost use Rattle.lake_base.specs.declared.digest.Digest.{Digest};
ghost use Rattle.lake_values.specs.Commit.{AboutValue};
ghost use Rattle.lake_values.specs.Entry.{EntryValue};
ghost use Rattle.lake_values.specs.declared.commit.ResetWhat.{ResetWhat};
ghost use Rattle.lake_values.specs.declared.entry.Change.{Change};
ghost use Rattle.lake_values.specs.declared.settings.Note.{Note};
ghost use Rattle.lake_values.specs.declared.settings.NoteName.{NoteName};
ghost use Rattle.commit_graph.specs.Expressions.{RefExprValue};
ghost use Rattle.lake_model.specs.declared.history.By.{By};
ghost use Rattle.lake_model.specs.declared.history.CopySource.{CopySource};
ghost use Rattle.lake_model.specs.declared.history.Operation.TheVariants.{BranchCreate, BranchDelete, Copy, NoteSet};
ghost use Rattle.lake_model.specs.declared.history.Operation.TheVariants.{Reset, Seal, Stage, TagCreate, TagDelete};
ghost use Rattle.lake_model.specs.declared.history.Operation.TheVariants.{TicketDrop, TicketTake};
ghost use Rattle.lake_model.specs.declared.history.SealFor.{SealFor};
ghost use Rattle.lake_model.specs.declared.reply.SwapKind.{SwapKind};
ghost use Rattle.lake_model.specs.State.{State};
ghost use Rattle.lake_model.specs.History.{Allows, accepted_entry};
ghost use Rattle.lake_model.specs.Refusals.{causes_of_change, first_cause};
ghost use Rattle.lake_model.specs.Steps.{IsSwapClash, copy_causes, copy_source, create_branch_causes};
ghost use Rattle.lake_model.specs.Steps.{create_tag_causes, delete_branch_causes, delete_tag_causes, in_it};
ghost use Rattle.lake_model.specs.Steps.{is_expected, seal_causes, set_note_causes, stage_causes, swap_causes};
ghost use Rattle.lake_model.specs.Steps.{swap_operation, swap_rule, target_in, write_causes};
ghost use Rattle.lake_model.specs.Versions.{VersionsGiven, branch_version, settings_version};

/// An entry that may come next has no cause against it: of tickets, and of what is written to a branch by its version
/// now.
pub fn laws_of_write_refusals()
    ensures take { (state : State) (by : By) (repo branch : List ℕ) (number : ℕ)
        → Allows state (accepted_entry by (TicketTake repo branch number))
        → first_cause (write_causes state repo branch) ≡ None }
    ensures drop { (state : State) (by : By) (number : ℕ)
        → Allows state (accepted_entry by (TicketDrop number))
        → first_cause (causes_of_change state) ≡ None }
    ensures stage { (state : State) (given : VersionsGiven) (by : By) (repo branch path : List ℕ) (change : Change)
        → Allows state (accepted_entry by (Stage repo branch path change))
        → first_cause (stage_causes state given repo branch (branch_version given repo branch)) ≡ None }
    ensures copy { (state : State) (given : VersionsGiven) (by : By) (repo branch path : List ℕ) (e : RefExprValue)
        (source : CopySource) (from : List ℕ) (entry : EntryValue)
        → Allows state (accepted_entry by (Copy repo branch path source from entry))
        → in_it state repo (λ r. copy_source r e) ≡ Some source
        → first_cause (copy_causes state given repo branch (branch_version given repo branch) e from) ≡ None }
    ensures reset { (state : State) (by : By) (repo branch : List ℕ) (what : ResetWhat)
        → Allows state (accepted_entry by (Reset repo branch what))
        → first_cause (write_causes state repo branch) ≡ None }
    ensures seal { (state : State) (by : By) (repo branch : List ℕ) (why : SealFor)
        → Allows state (accepted_entry by (Seal repo branch why))
        → first_cause (seal_causes why state repo branch) ≡ None }
{}

/// So has none of branches and tags, where the expression leads to the commit, and none of settings, where the version
/// that is asked is the one now.
pub fn laws_of_name_refusals()
    ensures create_branch { (state : State) (by : By) (repo name : List ℕ) (e : RefExprValue) (id : Digest)
        → Allows state (accepted_entry by (BranchCreate repo name id))
        → in_it state repo (λ r. target_in r e) ≡ Some id
        → first_cause (create_branch_causes state repo name e) ≡ None }
    ensures delete_branch { (state : State) (by : By) (repo name : List ℕ)
        → Allows state (accepted_entry by (BranchDelete repo name))
        → first_cause (delete_branch_causes state repo name) ≡ None }
    ensures create_tag { (state : State) (by : By) (repo name : List ℕ) (e : RefExprValue) (id : Digest)
        → Allows state (accepted_entry by (TagCreate repo name id))
        → in_it state repo (λ r. target_in r e) ≡ Some id
        → first_cause (create_tag_causes state repo name e) ≡ None }
    ensures delete_tag { (state : State) (by : By) (repo name : List ℕ)
        → Allows state (accepted_entry by (TagDelete repo name))
        → first_cause (delete_tag_causes state repo name) ≡ None }
    ensures set_note { (state : State) (given : VersionsGiven) (by : By) (repo : List ℕ) (expected : Option ℕ)
        (name : NoteName) (note : Option Note)
        → Allows state (accepted_entry by (NoteSet repo name note))
        → is_expected given repo expected ≡ true
        → first_cause (set_note_causes state given repo expected name note) ≡ None }
{}

/// So has none of new heads, by the versions now of the branch and of the settings, and nothing clashes.
pub fn laws_of_swap_refusals()
    ensures causes { (state : State) (given : VersionsGiven) (by : By) (repo branch : List ℕ)
        (swap : SwapKind) (about : AboutValue)
        → Allows state (accepted_entry by (swap_operation repo branch swap about))
        → first_cause (swap_causes state given repo branch (branch_version given repo branch)
        (settings_version given repo) (swap_rule swap about) None) ≡ None }
    ensures clash { (state : State) (by : By) (repo branch : List ℕ) (swap : SwapKind) (about : AboutValue)
        → Allows state (accepted_entry by (swap_operation repo branch swap about))
        → IsSwapClash state repo branch (swap_rule swap about) None }
{}
