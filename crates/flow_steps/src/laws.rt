//! What a flow that served a call brings its session.
ghost use Rattle.std.specs.Prelude.{◌≡◌, ◌++◌, ℕ, true, List, All};
ghost use Rattle.lake_model.specs.declared.history.HistoryEntry.{HistoryEntry};
ghost use Rattle.lake_core.specs.declared.standing.LakeOrigin.{LakeOrigin};
ghost use Rattle.shared_lake.specs.SeatSteps.{LakeSeat};
ghost use Rattle.call_placement.specs.Sessions.{Item, caller, IsOnlyServed};
ghost use Rattle.lake_calls.specs.CallExceptions.{CallMet};
ghost use Rattle.lake_calls.specs.LakeRules.{lake_rules};
ghost use Rattle.lake_calls.specs.Requests.{CallRequest};
ghost use Rattle.lake_calls.specs.declared.reply.CallReply.{CallReply};
ghost use Rattle.flow_steps.specs.FlowSeats.{GoesOn, opened_state};
ghost use Rattle.flow_steps.specs.Flows.{IsFlow};

/// A flow served its call and no other of its seat, as a session asks of each of its calls. Where the seat is alone,
/// what it has seen more then are entries of this call alone.
pub fn law_of_flows()
    ensures only { (old new : LakeSeat) (call : ℕ) (request : CallRequest) (met : CallMet) (told : CallReply)
        (position edge : ℕ) → (flow : IsFlow old new call request met told position edge)
        → IsOnlyServed lake_rules (opened_state flow.origin) (caller old.number call) old.seen new.seen
        (record { request = request; met = met; reply = told; position = position }) edge }
    ensures alone { (old new : LakeSeat) (call : ℕ) (request : CallRequest) (met : CallMet) (told : CallReply)
        (position edge : ℕ) → IsFlow old new call request met told position edge → old.alone ≡ true
        → (added : List HistoryEntry) × (new.seen ≡ old.seen ++ added)
        × All (λ e. (e.by.seat ≡ old.number) × (e.by.call ≡ call)) added }
{}

/// A seat that went on in a call, and then went on in it, went on in it.
pub fn law_of_going_further()
    ensures { (origin : LakeOrigin) (call : ℕ) (old now next : LakeSeat)
        → GoesOn origin call old now → GoesOn origin call now next → GoesOn origin call old next }
{}
