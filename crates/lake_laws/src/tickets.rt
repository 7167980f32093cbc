//! Tickets of uploads: where no cause of the step holds, its entry may come next.
ghost use Rattle.std.specs.Prelude.{◌≡◌, List, ℕ, None};
ghost use Rattle.lake_model.specs.declared.history.By.{By};
ghost use Rattle.lake_model.specs.declared.history.Operation.TheVariants.{TicketTake, TicketDrop};
ghost use Rattle.lake_model.specs.State.{State};
ghost use Rattle.lake_model.specs.Uncommitted.{HasTicket};
ghost use Rattle.lake_model.specs.History.{Allows, accepted_entry};
ghost use Rattle.lake_model.specs.Refusals.{first_cause, causes_of_change};
ghost use Rattle.lake_model.specs.Steps.{write_causes};

/// Where no cause holds, the next number may be given out on a branch, and a ticket of the seat's own may go.
pub fn law_of_ticket_steps()
    ensures take { (state : State) (by : By) (repo branch : List ℕ)
        → first_cause (write_causes state repo branch) ≡ None
        → Allows state (accepted_entry by (TicketTake repo branch state.next_number)) }
    ensures drop { (state : State) (by : By) (number : ℕ)
        → first_cause (causes_of_change state) ≡ None → HasTicket state by.seat number
        → Allows state (accepted_entry by (TicketDrop number)) }
{}
