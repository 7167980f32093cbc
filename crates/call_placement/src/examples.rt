//! A toy lake by whose rules the definitions are tried. Each example is the contract of a function that does nothing.
ghost use Rattle.std.specs.Prelude.{◌≡◌, ◌<◌, ℕ, List, [], ◌∷◌, length};
ghost use Rattle.call_placement.specs.Rules.{Caller};
ghost use Rattle.call_placement.specs.Served.{IsOfFault, IsServed};
ghost use Rattle.call_placement.specs.Sessions.{Item, caller, AddsOnly};
ghost use Rattle.call_placement.specs.Placed.{own_entries, IsPlaced, ArePlaced, Lawful, TellsDone, TellsFault};
ghost use Rattle.call_placement.specs.Alone.{IsDetermined};
ghost use Rattle.call_placement.specs.Examples.{ToyState, ToyEntry, ToyRequest, ToyReply, Upload, Stored, Stopped};
ghost use Rattle.call_placement.specs.Examples.{TooManyTries, NoMemory, TakesNumber, PutsBody, GivesBack};
ghost use Rattle.call_placement.specs.Examples.{toy_replay, toy_rules, toy_entry, toy_opened, own_call, shared_history};
ghost use Rattle.call_placement.specs.Examples.{TookNumber, Tried, PutBody, GaveBack, FoundStopped, Failed};
ghost use Rattle.call_placement.specs.Examples.{upload_item, unreadable_item};

/// An upload in a loop of tries is served: where a try puts its body, however many added nothing before it; and where
/// ten added nothing, and it gave its number back.
pub fn example_of_an_upload()
    ensures stored { (opened : ToyState) (by : Caller) (before taken found after : List ToyEntry) (number tries : ℕ)
        → TookNumber opened by before taken number
        → Tried opened by tries taken found
        → PutBody opened by found after number
        → IsServed toy_rules opened by before after Upload 0 (Stored number) (length after) (length after) }
    ensures gave_up { (opened : ToyState) (by : Caller) (before taken found after : List ToyEntry) (number : ℕ)
        → TookNumber opened by before taken number
        → Tried opened by 10 taken found
        → GaveBack opened by found after number
        → IsServed toy_rules opened by before after Upload 0 TooManyTries (length found) (length after) }
{}

/// A session of two calls: what is known of the first alone, and that the second couldn't be read, places both.
pub fn example_of_a_session()
    ensures { (opened : ToyState) (seat position edge : ℕ) (start after : List ToyEntry) (number : ℕ)
        → IsServed toy_rules opened (caller seat 1) start after Upload 0 (Stored number) position edge
        → AddsOnly toy_rules (caller seat 1) start after
        → ArePlaced toy_rules opened seat 1 (length start) start after
        (upload_item (Stored number) position ∷ unreadable_item edge ∷ []) }
{}

/// A history of two seats, in which an upload takes its number behind another's, and is served.
pub fn example_of_two_seats()
    ensures { IsServed toy_rules toy_opened own_call [] shared_history Upload 0 (Stored 1) 4 4 }
{}

/// An upload that met a fault is served with the note at its position: as it took its number, as it put its body, and
/// as it gave its number back behind tries that were too many. The reply says so, or that memory ran out.
pub fn example_of_faults()
    ensures ticket { (opened : ToyState) (by : Caller) (before after : List ToyEntry) (met number : ℕ)
        (reply : ToyReply)
        → (note : Failed opened by (TakesNumber number) before after) → (number ≡ (toy_replay opened note.0).next)
        → IsOfFault toy_rules met reply
        → IsServed toy_rules opened by before after Upload met reply (length after) (length after) }
    ensures put { (opened : ToyState) (by : Caller) (before taken after : List ToyEntry) (met number : ℕ)
        (reply : ToyReply)
        → TookNumber opened by before taken number → Failed opened by (PutsBody number) taken after
        → IsOfFault toy_rules met reply
        → IsServed toy_rules opened by before after Upload met reply (length after) (length after) }
    ensures giving_up { (opened : ToyState) (by : Caller) (before taken found after : List ToyEntry) (met number : ℕ)
        (reply : ToyReply)
        → TookNumber opened by before taken number → Tried opened by 10 taken found
        → Failed opened by (GivesBack number) found after → IsOfFault toy_rules met reply
        → IsServed toy_rules opened by before after Upload met reply (length after) (length after) }
{}

/// An upload is refused at once, or behind its number, where the state takes no more changes, so its number isn't given
/// back. Memory runs out before its number, behind it, which it then keeps or gives back, or behind its body.
pub fn example_of_refusals()
    ensures early { (opened : ToyState) (by : Caller) (before found : List ToyEntry) (met : ℕ)
        → FoundStopped opened by before found
        → IsServed toy_rules opened by before found Upload met Stopped (length found) (length found) }
    ensures late { (opened : ToyState) (by : Caller) (before taken found : List ToyEntry) (met number : ℕ)
        → TookNumber opened by before taken number → FoundStopped opened by taken found
        → IsServed toy_rules opened by before found Upload met Stopped (length found) (length found) }
    ensures memory { (opened : ToyState) (by : Caller) (before : List ToyEntry) (met : ℕ)
        → IsServed toy_rules opened by before before Upload met NoMemory (length before) (length before) }
    ensures kept { (opened : ToyState) (by : Caller) (before taken : List ToyEntry) (met number : ℕ)
        → TookNumber opened by before taken number
        → IsServed toy_rules opened by before taken Upload met NoMemory (length taken) (length taken) }
    ensures gave { (opened : ToyState) (by : Caller) (before taken after : List ToyEntry) (met number : ℕ)
        → TookNumber opened by before taken number → GaveBack opened by taken after number
        → IsServed toy_rules opened by before after Upload met NoMemory (length taken) (length after) }
    ensures printing { (opened : ToyState) (by : Caller) (before taken after : List ToyEntry) (met number : ℕ)
        → TookNumber opened by before taken number → PutBody opened by taken after number
        → IsServed toy_rules opened by before after Upload met NoMemory (length after) (length after) }
{}

/// What no placed or served upload is: it put two bodies; it put its body, and says that its tries were too many; or
/// its position lies before what its seat had seen as it began.
pub fn examples_of_wrong_answers()
    ensures two_puts { (opened : ToyState) (by : Caller) (edge next_edge number other : ℕ)
        (start entries : List ToyEntry)
        (item : Item ToyRequest ℕ ToyReply)
        → own_entries toy_rules by start entries
        ≡ toy_entry by (TakesNumber number) ∷ toy_entry by (PutsBody number) ∷ toy_entry by (PutsBody other) ∷ []
        → IsPlaced toy_rules opened by edge next_edge start entries item → ⊥ }
    ensures put_before { (opened : ToyState) (by : Caller) (edge next_edge number position : ℕ)
        (start entries : List ToyEntry)
        → own_entries toy_rules by start entries ≡ toy_entry by (TakesNumber number) ∷ toy_entry by
        (PutsBody number) ∷ []
        → IsPlaced toy_rules opened by edge next_edge start entries (upload_item TooManyTries position) → ⊥ }
    ensures early { (opened : ToyState) (by : Caller) (position next_edge : ℕ) (before after : List ToyEntry)
        (reply : ToyReply)
        → position < length before
        → IsServed toy_rules opened by before after Upload 0 reply position next_edge → ⊥ }
{}

/// The toy's rules are what the laws ask of rules.
pub fn example_of_rules()
    ensures lawful { Lawful toy_rules }
    ensures done { TellsDone toy_rules }
    ensures fault { TellsFault toy_rules }
    ensures determined { (request : ToyRequest) → IsDetermined toy_rules request }
{}
