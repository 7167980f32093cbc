//! What holds of the replies to calls, and of what calls add.
ghost use Rattle.std.specs.Prelude.{◌≡◌, List, [], Bool, ℕ, All, drop, length};
ghost use Rattle.lake_model.specs.declared.history.HistoryEntry.{HistoryEntry};
ghost use Rattle.lake_model.specs.State.{State};
ghost use Rattle.call_placement.specs.Rules.{Caller};
ghost use Rattle.call_placement.specs.Placed.{ArePlaced, Lawful, TellsDone, TellsFault};
ghost use Rattle.call_placement.specs.Sessions.{Item, AreServed};
ghost use Rattle.call_placement.specs.Alone.{GoesAlone, IsDetermined};
ghost use Rattle.lake_calls.specs.CallExceptions.{CallMet, HasMissedEnough, HasTriedEnough, IsException};
ghost use Rattle.lake_calls.specs.Courses.{CallPoint};
ghost use Rattle.lake_calls.specs.DoneReplies.{MakesNoCommit};
ghost use Rattle.lake_calls.specs.LakeRules.{lake_rules};
ghost use Rattle.lake_calls.specs.NoClashes.{AreOneButForClash, NothingClashes};
ghost use Rattle.lake_calls.specs.NothingMet.{GaveFew, MeetsNothing};
ghost use Rattle.lake_calls.specs.OutsideCounts.{AreMet, AreStill, CountedNothing, OutsideCounts};
ghost use Rattle.lake_calls.specs.Requests.{Asks, CallRequest};
ghost use Rattle.lake_calls.specs.ServedAlone.{IsServedAlone};
ghost use Rattle.lake_calls.specs.declared.call.Call.{Call};
ghost use Rattle.lake_calls.specs.declared.objects.ReadCall.{ReadCall};
ghost use Rattle.lake_calls.specs.declared.reply.CallReply.{CallReply};

use crate::rules::LakeCalls;
use call_placement::laws::law_of_placement;

/// The lake's calls keep what the laws of placement ask of rules: entries are of the call that made them, a lake that
/// takes no more changes stays so, and a cause of an exception that lies behind so many entries lies behind fewer; the
/// reply of a call that was done is told from all others, and such a call owes nothing; and that the store failed is
/// told from every refusal.
pub fn law_of_rules()
    ensures lawful { Lawful lake_rules }
    ensures done { TellsDone lake_rules }
    ensures fault { TellsFault lake_rules }
{}

/// The lake's calls that were served one after the other are placed in the whole of what their seat has seen: by
/// positions in it, and by each call's entries, sought behind what the seat had seen before the first.
pub fn law_of_placed_calls()
    ensures { (opened : State) (seat number last : ℕ) (start after : List HistoryEntry)
        (items : List (Item CallRequest CallMet CallReply))
        → AreServed lake_rules opened seat number (length start) start items after last
        → ArePlaced lake_rules opened seat number (length start) start after items }
{
    law_of_rules();
    law_of_placement::<LakeCalls>();
}

/// The one-seat course of a call that makes no commit has one value: at each point one next point passes or one
/// refusal is told, and it has one reply.
pub fn law_of_one_value()
    ensures { (call : Call) (moment : ℕ) → MakesNoCommit call
        → IsDetermined lake_rules (record { asked = Asks call; moment = moment }) }
{}

/// The one-seat course of each call, also of one that makes a commit, adds one list of entries. It has one reply where
/// no two contents share a name, so that at no step to which the course comes anything clashes with the commit that it
/// makes. Where some do, only which clash is told may differ. Where none do, so a call that was served while its seat
/// was alone, and that was told none of the exceptions, was told one reply and added one list of entries.
pub fn law_of_one_value_with_commits()
    ensures one { (call : Call) (moment : ℕ) (opened : State) (by : Caller) (seen : List HistoryEntry)
        (met : CallMet) (told other : CallReply) (added more : List HistoryEntry)
        → NothingClashes opened by seen (record { asked = Asks call; moment = moment })
        → GoesAlone lake_rules opened by seen (record { asked = Asks call; moment = moment }) met told added
        → GoesAlone lake_rules opened by seen (record { asked = Asks call; moment = moment }) met other more
        → (told ≡ other) × (added ≡ more) }
    ensures but_for_clash { (call : Call) (moment : ℕ) (opened : State) (by : Caller) (seen : List HistoryEntry)
        (met : CallMet) (told other : CallReply) (added more : List HistoryEntry)
        → GoesAlone lake_rules opened by seen (record { asked = Asks call; moment = moment }) met told added
        → GoesAlone lake_rules opened by seen (record { asked = Asks call; moment = moment }) met other more
        → AreOneButForClash told other × (added ≡ more) }
    ensures served { (call : Call) (moment : ℕ) (opened : State) (by : Caller) (before : List HistoryEntry)
        (met : CallMet) (told other : CallReply) (added more : List HistoryEntry)
        → NothingClashes opened by before (record { asked = Asks call; moment = moment })
        → IsServedAlone opened by before (record { asked = Asks call; moment = moment }) met told added
        → IsServedAlone opened by before (record { asked = Asks call; moment = moment }) met other more
        → (told ≡ other) × (added ≡ more) }
{}

/// A call that met nothing has no exception, where other seats gave fewer than ten versions that its last step is
/// guarded by. No call tries too often where all that was seen in it is of its own seat, and none that reads where
/// nothing was seen in it: so on a lake with one seat TooManyTries never comes.
pub fn law_of_no_exception()
    ensures few { (seat : ℕ) (uploads : Bool) (left : List CallPoint) (met : CallMet) (opened : State) (from : ℕ)
        (seen : List HistoryEntry) (told : CallReply)
        → MeetsNothing left met opened seen → GaveFew seat left from seen
        → IsException seat uploads left met opened from seen told → ⊥ }
    ensures alone { (seat : ℕ) (left : List CallPoint) (met : CallMet) (from : ℕ) (seen : List HistoryEntry)
        → All (λ (e : HistoryEntry). e.by.seat ≡ seat) (drop from seen) → HasTriedEnough seat left met from seen → ⊥ }
    ensures read_alone { (c : ReadCall) (met : CallMet) (opened : State) (from : ℕ) (seen : List HistoryEntry)
        → drop from seen ≡ [] → HasMissedEnough c met opened from seen → ⊥ }
{}

/// Where what calls met lies between two moments at which the stores' counts stand the same, no count rose in any of
/// the calls.
pub fn law_of_counts()
    ensures { (old : OutsideCounts) (mets : List CallMet) (new : OutsideCounts)
        → AreMet old mets new → AreStill old new → All CountedNothing mets }
{}
