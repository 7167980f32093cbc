//! Bodies that fit a state fit it after entries, and after other bodies were put.
ghost use Rattle.std.specs.Prelude.{◌≡◌, ◌<◌, ◌++◌, All, List, ℕ};
ghost use Rattle.lake_model.specs.declared.history.HistoryEntry.{HistoryEntry};
ghost use Rattle.lake_model.specs.State.{State};
ghost use Rattle.lake_model.specs.History.{Allows, IsLegal, after, replay};
ghost use Rattle.lake_model.specs.Soundness.{IsSound};
ghost use Rattle.call_placement.specs.Alone.{AreOwn};
ghost use Rattle.call_placement.specs.Rules.{Caller};
ghost use Rattle.call_placement.specs.Served.{IsServed};
ghost use Rattle.lake_calls.specs.CallExceptions.{CallMet};
ghost use Rattle.lake_calls.specs.HeldBodies.{FitsState};
ghost use Rattle.lake_calls.specs.LakeRules.{lake_rules};
ghost use Rattle.lake_calls.specs.Requests.{CallRequest};
ghost use Rattle.lake_calls.specs.declared.reply.CallReply.{CallReply};
ghost use Rattle.body_laws.specs.BodyChanges.{Bodies, HoldsUploads, KeepsLive, StagesHeld};

/// Bodies that fit a sound state fit the state after a legal entry, where an entry that stages an own object has its
/// body held; and after entries. Where under each live number the same is held as before they fit as before; and each
/// live number was given out before. So over a legal history in which no body of a live number is taken away or
/// put anew, and each object that is staged has its body, bodies that fit at its beginning fit at its end.
pub fn law_of_kept_bodies()
    ensures after { (state : State) (entry : HistoryEntry) (held : Bodies) → IsSound state → Allows state entry
        → StagesHeld held entry → FitsState state held → FitsState (after state entry) held }
    ensures history { (state : State) (entries : List HistoryEntry) (held : Bodies) → IsSound state
        → IsLegal state entries → All (StagesHeld held) entries → FitsState state held
        → FitsState (replay state entries) held }
    ensures put { (state : State) (held now : Bodies) → KeepsLive state held now
        → FitsState state held → FitsState state now }
    ensures given_out { (state : State) (held now : Bodies) → IsSound state
        → ((number : ℕ) → number < state.next_number → now number ≡ held number) → KeepsLive state held now }
    ensures over { (state : State) (entries : List HistoryEntry) (held now : Bodies) → IsSound state
        → IsLegal state entries → KeepsLive state held now → All (StagesHeld now) entries
        → FitsState state held → FitsState (replay state entries) now }
{}

/// A call stages no own objects but those that it uploads, whatever it is told. So where what came is of this call
/// alone and its body is held under each number that it staged, each object that was staged has its body.
pub fn law_of_staged_bodies()
    ensures { (opened : State) (by : Caller) (before after added : List HistoryEntry) (request : CallRequest)
        (met : CallMet) (told : CallReply) (position edge : ℕ) (now : Bodies)
        → IsServed lake_rules opened by before after request met told position edge
        → after ≡ before ++ added → AreOwn lake_rules by added → HoldsUploads request added now
        → All (StagesHeld now) added }
{}
