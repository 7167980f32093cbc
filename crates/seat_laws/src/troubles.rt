//! Of which trouble a call is told whose seat is alone; and that its seat expires nothing.
ghost use Rattle.std.specs.Prelude.{◌≡◌, ◌≢◌, ◌++◌, List, ℕ, false};
ghost use Rattle.std.specs.List.{Contains};
ghost use Rattle.call_placement.specs.Alone.{AreOwn};
ghost use Rattle.call_placement.specs.Placed.{IsPlaced};
ghost use Rattle.call_placement.specs.Rules.{Caller};
ghost use Rattle.call_placement.specs.Served.{IsServed};
ghost use Rattle.lake_model.specs.History.{faulted_entry, replay};
ghost use Rattle.lake_model.specs.State.{State};
ghost use Rattle.lake_model.specs.declared.history.HistoryEntry.{HistoryEntry};
ghost use Rattle.lake_model.specs.declared.history.Operation.{Operation};
ghost use Rattle.lake_calls.specs.CallExceptions.{CallMet, HasRisen};
ghost use Rattle.lake_calls.specs.LakeRules.{by_caller, lake_rules};
ghost use Rattle.lake_calls.specs.Requests.{Asks, CallRequest};
ghost use Rattle.lake_calls.specs.declared.call.Call.{Call};
ghost use Rattle.lake_calls.specs.declared.call.Call.TheVariants.{Objects};
ghost use Rattle.lake_calls.specs.declared.objects.ObjectCall.TheVariants as object;
ghost use Rattle.lake_calls.specs.declared.objects.ReadCall.{ReadCall};
ghost use Rattle.lake_calls.specs.declared.reply.CallReply.{CallReply};
ghost use Rattle.lake_calls.specs.declared.reply.CallReply.TheVariants as reply;
ghost use Rattle.seat_laws.specs.Expiries.{HasNoneExpired, NoneExpires};
ghost use Rattle.seat_laws.specs.Troubles.{is_trouble, is_unread};

/// A call that was served while its seat was alone is told of no trouble, where memory was left, where it added no note
/// that the store failed, where the store of objects counted no fault in it, and where it isn't told that an object's
/// bytes weren't had, if it reads these.
pub fn law_of_no_trouble()
    ensures { (call : Call) (moment : ℕ) (opened : State) (by : Caller) (before added : List HistoryEntry)
        (met : CallMet) (told : CallReply) (position edge : ℕ)
        → IsServed lake_rules opened by before (before ++ added) (record { asked = Asks call; moment = moment }) met
        told position edge
        → AreOwn lake_rules by added
        → told ≢ reply.NoMemory
        → ((operation : Operation) → Contains added (faulted_entry (by_caller by) operation) → ⊥)
        → (HasRisen met.block_faults → ⊥)
        → ((c : ReadCall) → call ≡ Objects (object.Read c) → is_unread told ≡ false)
        → is_trouble told ≡ false }
{}

/// No call lets a commit expire: of the entries that a call added whose seat was alone none does, and where none is
/// expired before such entries, none is behind them.
pub fn law_of_no_expiry()
    ensures added { (call : Call) (moment : ℕ) (opened : State) (by : Caller) (edge next_edge : ℕ)
        (before added : List HistoryEntry) (met : CallMet) (told : CallReply) (position : ℕ)
        → IsPlaced lake_rules opened by edge next_edge before (before ++ added) (record {
          request = record { asked = Asks call; moment = moment };
          met = met;
          reply = told;
          position = position;
        })
        → AreOwn lake_rules by added → NoneExpires added }
    ensures replay { (state : State) (entries : List HistoryEntry)
        → NoneExpires entries → HasNoneExpired state → HasNoneExpired (replay state entries) }
{}
