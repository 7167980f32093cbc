//! New heads: what their reading refuses, and what their step does.
ghost use Rattle.std.specs.Prelude.{◌≡◌, ◌↔◌, List, ℕ, None, Some};
ghost use Rattle.std.specs.FinMap.{get};
ghost use Rattle.lake_values.specs.Commit.{AboutValue};
ghost use Rattle.lake_model.specs.declared.history.By.{By};
ghost use Rattle.lake_model.specs.declared.reply.SwapKind.{SwapKind};
ghost use Rattle.lake_model.specs.State.{Branch, Repository, State};
ghost use Rattle.lake_model.specs.HeadRefusals.{reading_refusal};
ghost use Rattle.lake_model.specs.History.{Allows, accepted_entry};
ghost use Rattle.lake_model.specs.Refusals.{first_cause};
ghost use Rattle.lake_model.specs.Steps.{IsSwapClash, new_head_causes, swap_operation, swap_rule};
ghost use Rattle.lake_laws.specs.Prepared.{WhereThere};
ghost use Rattle.lake_laws.specs.Unrefused.{HasCommitsOf, IsTheOnly, IsUnrefused};

/// On a branch that is there, a new head of commits that are there isn't refused at its reading just where its source
/// isn't expired, it is worth making, and no hook denies it. Where its step has no cause either, nothing clashes, and
/// a commit of its id is this one, it may be made; and what may be made isn't refused at its reading.
pub fn law_of_head_refusals()
    ensures unrefused { (state : State) (repo branch : List ℕ) (swap : SwapKind) (about : AboutValue) (r : Repository)
        (b : Branch) → get state.repositories repo ≡ Some r → get r.branches branch ≡ Some b → HasCommitsOf swap r
        → reading_refusal state repo branch swap about ≡ None ↔ IsUnrefused swap branch about r b }
    ensures possible { (state : State) (by : By) (repo branch : List ℕ) (swap : SwapKind) (about : AboutValue)
        → reading_refusal state repo branch swap about ≡ None
        → first_cause (new_head_causes state repo branch (swap_rule swap about) None) ≡ None
        → IsSwapClash state repo branch (swap_rule swap about) None
        → WhereThere state repo branch
        (λ r b. HasCommitsOf swap r × IsTheOnly state r ((swap_rule swap about).draft r b))
        → Allows state (accepted_entry by (swap_operation repo branch swap about)) }
    ensures allowed { (state : State) (by : By) (repo branch : List ℕ) (swap : SwapKind) (about : AboutValue)
        → Allows state (accepted_entry by (swap_operation repo branch swap about))
        → reading_refusal state repo branch swap about ≡ None
        × first_cause (new_head_causes state repo branch (swap_rule swap about) None) ≡ None }
{}
