//! The same call of a seat that is alone is told the same, and adds the same.
ghost use Rattle.std.specs.Prelude.{◌≡◌, ◌++◌, List, ℕ, false};
ghost use Rattle.call_placement.specs.Alone.{AreOwn};
ghost use Rattle.call_placement.specs.Rules.{Caller};
ghost use Rattle.call_placement.specs.Served.{IsServed};
ghost use Rattle.lake_model.specs.State.{State};
ghost use Rattle.lake_model.specs.declared.history.HistoryEntry.{HistoryEntry};
ghost use Rattle.lake_calls.specs.CallExceptions.{CallMet};
ghost use Rattle.lake_calls.specs.LakeRules.{lake_rules};
ghost use Rattle.lake_calls.specs.Requests.{Asks, CallRequest};
ghost use Rattle.lake_calls.specs.declared.call.Call.{Call};
ghost use Rattle.lake_calls.specs.declared.reply.CallReply.{CallReply};
ghost use Rattle.seat_laws.specs.LikeReplies.{AreLikeReplies};
ghost use Rattle.seat_laws.specs.Troubles.{is_trouble};

/// A call that was served twice, at one moment, behind the same history, while its seat was alone, adds the same
/// entries, and is told the same, whatever it met of the outside, where neither time it is told of a trouble. Only
/// contents that clash may differ: the name of a clash, and the bytes of an object of one length and one SHA-256.
pub fn law_of_like_calls()
    ensures { (call : Call) (moment : ℕ) (opened : State) (by : Caller) (before added more : List HistoryEntry)
        (met other_met : CallMet) (told other : CallReply) (position other_position edge other_edge : ℕ)
        → IsServed lake_rules opened by before (before ++ added) (record { asked = Asks call; moment = moment }) met
        told position edge
        → IsServed lake_rules opened by before (before ++ more) (record { asked = Asks call; moment = moment })
        other_met other other_position other_edge
        → AreOwn lake_rules by added → AreOwn lake_rules by more
        → is_trouble told ≡ false → is_trouble other ≡ false
        → AreLikeReplies told other × (added ≡ more) }
{}
