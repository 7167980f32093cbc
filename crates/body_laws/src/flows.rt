//! Bodies that fit what a seat had seen fit what it has seen behind a call, where the seat is alone.
ghost use Rattle.std.specs.Prelude.{◌≡◌, ◌≢◌, ◌++◌, ℕ, true, List, Option};
ghost use Rattle.block_store.specs.Blocks.{HeldObjects};
ghost use Rattle.lake_model.specs.declared.history.HistoryEntry.{HistoryEntry};
ghost use Rattle.shared_lake.specs.SeatSteps.{LakeSeat};
ghost use Rattle.lake_calls.specs.CallExceptions.{CallMet};
ghost use Rattle.lake_calls.specs.Calls.{UploadCall};
ghost use Rattle.lake_calls.specs.HeldBodies.{FitsState};
ghost use Rattle.lake_calls.specs.Requests.{Asks, CallRequest};
ghost use Rattle.lake_calls.specs.declared.call.Call.TheVariants.{Objects};
ghost use Rattle.lake_calls.specs.declared.objects.ObjectCall.TheVariants as object;
ghost use Rattle.lake_calls.specs.declared.reply.CallReply.{CallReply};
ghost use Rattle.flow_steps.specs.FlowSeats.{state_at};
ghost use Rattle.flow_steps.specs.Flows.{IsFlow};
ghost use Rattle.body_laws.specs.BodiesKept.{KeepsFitting};
ghost use Rattle.body_laws.specs.BodyChanges.{Bodies, HoldsUploads, KeepsLive};

/// A flow served a call of a seat that is alone. Where bodies fitted what the seat had seen, and behind the call the
/// same is held under each number that was live, and the call's body under each number that it staged, they fit what
/// the seat has seen then, whatever the call was told. Of a call that uploads nothing it is enough that the same is
/// held.
pub fn law_of_flow_bodies()
    ensures behind { (old new : LakeSeat) (call : ℕ) (request : CallRequest) (met : CallMet) (told : CallReply)
        (position edge : ℕ) (added : List HistoryEntry) (held now : Bodies)
        → (flow : IsFlow old new call request met told position edge) → old.alone ≡ true
        → new.seen ≡ old.seen ++ added
        → FitsState (state_at flow.origin old.seen) held → KeepsLive (state_at flow.origin old.seen) held now
        → HoldsUploads request added now
        → FitsState (state_at flow.origin new.seen) now }
    ensures unchanged { (old new : LakeSeat) (call : ℕ) (request : CallRequest) (met : CallMet) (told : CallReply)
        (position edge : ℕ) (held held_now : Option HeldObjects)
        → IsFlow old new call request met told position edge
        → ((u : UploadCall) → request.asked ≢ Asks (Objects (object.Upload u)))
        → held_now ≡ held → KeepsFitting old new held held_now }
{}
