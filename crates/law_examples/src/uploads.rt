//! An upload by what its steps tell, whatever other seats do between them: it is served, and so a session with it is
//! placed.
ghost use Rattle.std.specs.Prelude.{◌≡◌, ℕ, List, [], ◌∷◌, length};
ghost use Rattle.lake_model.specs.declared.history.HistoryEntry.{HistoryEntry};
ghost use Rattle.lake_model.specs.declared.history.Operation.TheVariants.{TicketDrop};
ghost use Rattle.lake_model.specs.State.{State};
ghost use Rattle.lake_model.specs.History.{replay};
ghost use Rattle.lake_model.specs.Versions.{VersionsGiven};
ghost use Rattle.call_placement.specs.Rules.{Caller};
ghost use Rattle.call_placement.specs.Served.{IsOfFault, IsServed};
ghost use Rattle.call_placement.specs.Sessions.{caller, AddsOnly, AreServed};
ghost use Rattle.call_placement.specs.Placed.{ArePlaced};
ghost use Rattle.lake_calls.specs.Calls.{UploadCall};
ghost use Rattle.lake_calls.specs.CallExceptions.{CallMet};
ghost use Rattle.lake_calls.specs.LakeRules.{lake_rules};
ghost use Rattle.lake_calls.specs.declared.reply.CallReply.{CallReply};
ghost use Rattle.lake_calls.specs.declared.reply.CallReply.TheVariants as reply;
ghost use Rattle.lake_calls.specs.declared.reply.FormRefusal.{FormRefusal};
ghost use Rattle.lake_calls.specs.declared.reply.Refusal.TheVariants as refusal;
ghost use Rattle.law_examples.specs.UploadSteps.{Failed, FoundStopped, GaveBack, Looked, StagedBody, TookNumber};
ghost use Rattle.law_examples.specs.UploadSteps.{Tried, asked, item_of, met_tries, staging, taking, unreadable_item};
ghost use Rattle.law_examples.specs.UploadSteps.{upload_call, uploaded};

use call_placement::laws::{law_of_one_more, law_of_placement};
use lake_calls::laws::law_of_rules;
use lake_calls::rules::LakeCalls;

/// An upload in a loop of tries is served: where a try stages its body, however many added nothing before it; and where
/// ten added nothing, and it gave its number back. That others gave the branch ten versions follows from the tries.
pub fn upload_in_tries()
    ensures staged { (opened : State) (given : VersionsGiven) (by : Caller)
        (before taken found after : List HistoryEntry) (u : UploadCall) (moment number tries : ℕ)
        → TookNumber opened by u before taken number
        → Tried given by u tries taken found
        → StagedBody opened by u moment number found after
        → IsServed lake_rules opened by before after (asked (upload_call u) moment) (met_tries tries)
        (uploaded u moment number) (length after) (length after) }
    ensures gave_up { (opened : State) (given : VersionsGiven) (by : Caller)
        (before taken found after : List HistoryEntry) (u : UploadCall) (moment number : ℕ)
        → TookNumber opened by u before taken number
        → Tried given by u 10 taken found
        → GaveBack opened by u number found after
        → IsServed lake_rules opened by before after (asked (upload_call u) moment) (met_tries 10)
        (reply.Refused refusal.TooManyTries) (length found) (length after) }
{}

/// An upload at which the store failed is served with the note at its position: as it took its number, as it staged its
/// body, and as it gave its number back behind tries that added nothing. The reply says so, or that memory ran out.
pub fn upload_in_faults()
    ensures ticket { (opened : State) (by : Caller) (before after : List HistoryEntry) (u : UploadCall)
        (moment number : ℕ) (met : CallMet) (told : CallReply)
        → (note : Failed opened by u (taking u number) before after)
        → number ≡ (replay opened note.0).next_number → IsOfFault lake_rules met told
        → IsServed lake_rules opened by before after (asked (upload_call u) moment) met told
        (length after) (length after) }
    ensures stage { (opened : State) (given : VersionsGiven) (by : Caller)
        (before taken found read after : List HistoryEntry) (u : UploadCall) (moment number tries : ℕ) (met : CallMet)
        (told : CallReply)
        → TookNumber opened by u before taken number → Tried given by u tries taken found
        → Looked opened by u found read → Failed opened by u (staging u moment number) read after
        → IsOfFault lake_rules met told
        → IsServed lake_rules opened by before after (asked (upload_call u) moment) met told
        (length after) (length after) }
    ensures giving_up { (opened : State) (given : VersionsGiven) (by : Caller)
        (before taken found after : List HistoryEntry) (u : UploadCall) (moment number tries : ℕ) (met : CallMet)
        (told : CallReply)
        → TookNumber opened by u before taken number → Tried given by u tries taken found
        → Failed opened by u (TicketDrop number) found after → IsOfFault lake_rules met told
        → IsServed lake_rules opened by before after (asked (upload_call u) moment) met told
        (length after) (length after) }
{}

/// An upload finds that the store had failed: at its ticket; or behind it, at the step of a try whose reading found the
/// branch, so its number isn't given back. Memory runs out before its ticket, behind it, where it keeps its number or
/// gives it back, or behind its body.
pub fn upload_that_stops()
    ensures early { (opened : State) (by : Caller) (before found : List HistoryEntry) (u : UploadCall) (moment : ℕ)
        (met : CallMet)
        → FoundStopped opened by before found
        → IsServed lake_rules opened by before found (asked (upload_call u) moment) met
        (reply.Refused refusal.Stopped) (length found) (length found) }
    ensures late { (opened : State) (given : VersionsGiven) (by : Caller)
        (before taken tried read found : List HistoryEntry) (u : UploadCall) (moment number tries : ℕ) (met : CallMet)
        → TookNumber opened by u before taken number → Tried given by u tries taken tried
        → Looked opened by u tried read → FoundStopped opened by read found
        → IsServed lake_rules opened by before found (asked (upload_call u) moment) met
        (reply.Refused refusal.Stopped) (length found) (length found) }
    ensures memory { (opened : State) (by : Caller) (before : List HistoryEntry) (u : UploadCall) (moment : ℕ)
        (met : CallMet)
        → IsServed lake_rules opened by before before (asked (upload_call u) moment) met reply.NoMemory
        (length before) (length before) }
    ensures kept { (opened : State) (by : Caller) (before taken : List HistoryEntry) (u : UploadCall)
        (moment number : ℕ) (met : CallMet)
        → TookNumber opened by u before taken number
        → IsServed lake_rules opened by before taken (asked (upload_call u) moment) met reply.NoMemory
        (length taken) (length taken) }
    ensures gave { (opened : State) (by : Caller) (before taken after : List HistoryEntry) (u : UploadCall)
        (moment number : ℕ) (met : CallMet)
        → TookNumber opened by u before taken number → GaveBack opened by u number taken after
        → IsServed lake_rules opened by before after (asked (upload_call u) moment) met reply.NoMemory
        (length taken) (length after) }
    ensures printing { (opened : State) (by : Caller) (before taken after : List HistoryEntry) (u : UploadCall)
        (moment number : ℕ) (met : CallMet)
        → TookNumber opened by u before taken number → StagedBody opened by u moment number taken after
        → IsServed lake_rules opened by before after (asked (upload_call u) moment) met reply.NoMemory
        (length after) (length after) }
{}

/// A session of two calls: what is known of an upload alone, and that the second request couldn't be read, serves both
/// one after the other and places both, by the laws of all rules.
pub fn session_of_upload()
    ensures served { (opened : State) (seat position edge : ℕ) (start after : List HistoryEntry) (u : UploadCall)
        (moment later number : ℕ) (met : CallMet) (refused : FormRefusal)
        → IsServed lake_rules opened (caller seat 1) start after (asked (upload_call u) moment) met
        (uploaded u moment number) position edge
        → AddsOnly lake_rules (caller seat 1) start after
        → AreServed lake_rules opened seat 1 (length start) start
        (item_of (asked (upload_call u) moment) met (uploaded u moment number) position
        ∷ unreadable_item refused later edge ∷ []) after edge }
    ensures placed { (opened : State) (seat position edge : ℕ) (start after : List HistoryEntry) (u : UploadCall)
        (moment later number : ℕ) (met : CallMet) (refused : FormRefusal)
        → IsServed lake_rules opened (caller seat 1) start after (asked (upload_call u) moment) met
        (uploaded u moment number) position edge
        → AddsOnly lake_rules (caller seat 1) start after
        → ArePlaced lake_rules opened seat 1 (length start) start after
        (item_of (asked (upload_call u) moment) met (uploaded u moment number) position
        ∷ unreadable_item refused later edge ∷ []) }
{
    law_of_rules();
    law_of_one_more::<LakeCalls>();
    law_of_placement::<LakeCalls>();
}
