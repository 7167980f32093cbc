//! What holds of every call that was served. Each law is the contract of a function that does nothing.
ghost use Rattle.std.specs.Prelude.{◌≡◌, ◌≢◌, ◌⊎◌, ◌+◌, ◌≤◌, ◌++◌, ◌==◌, ℕ, max, true, false};
ghost use Rattle.std.specs.Prelude.{List, [], ◌∷◌, length, take, filter, All};
ghost use Rattle.call_placement.specs.Rules.{Caller};
ghost use Rattle.call_placement.specs.Points.{AreOfOtherSeats, AreOfOtherCalls, Came, entries_of};
ghost use Rattle.call_placement.specs.Points.{HasPassed, HavePassed};
ghost use Rattle.call_placement.specs.Served.{IsServed};
ghost use Rattle.call_placement.specs.Sessions.{Item, caller, IsItemServed, AreServed, AddsNumbered};
ghost use Rattle.call_placement.specs.Placed.{own_entries, StandAt, IsPlaced, ArePlaced, LacksLast};
ghost use Rattle.call_placement.specs.Placed.{Lawful, TellsDone, TellsFault};
ghost use Rattle.call_placement.specs.Alone.{GoesAlone, IsPlain, AreOwn, IsDetermined};

use crate::law::Placing;

/// What a flow of several steps goes by. Entries of which none is the seat's are others'. Where nothing came, others'
/// entries came, and where they came twice, they came once: so a step that added nothing is part of what came before
/// the next. Points that passed, and one more, passed.
pub fn laws_of_intervals<P: Placing>()
    ensures others { (seat : ℕ) (entries : List P.Entry)
        → filter (λ entry. (P.rules.maker entry).seat == seat) entries ≡ [] → AreOfOtherSeats P.rules seat entries }
    ensures none { (by : Caller) (seen : List P.Entry) → Came P.rules by seen seen }
    ensures twice { (by : Caller) (seen between found : List P.Entry)
        → Came P.rules by seen between → Came P.rules by between found → Came P.rules by seen found }
    ensures more { (opened : P.State) (by : Caller) (request : P.Request) (points : List P.Point) (point : P.Point)
        (seen between next : List P.Entry)
        → HavePassed P.rules opened by request points seen between
        → HasPassed P.rules opened by request point between next
        → HavePassed P.rules opened by request (points ++ point ∷ []) seen next }
{}

/// A call that was served stays served in every history that goes on without a further entry of that call: with the
/// same reply, position and edge.
pub fn law_of_going_on<P: Placing>()
    ensures { (opened : P.State) (by : Caller) (before after more : List P.Entry) (request : P.Request) (met : P.Met)
        (reply : P.Reply) (position next_edge : ℕ)
        → IsServed P.rules opened by before after request met reply position next_edge
        → AreOfOtherCalls P.rules by more
        → IsServed P.rules opened by before (after ++ more) request met reply position next_edge }
{}

/// A call that was served is served too where it is told in place of its reply that memory ran out, as it may be when
/// its reply is printed: at the same position and with the same edge, and with the same entries.
pub fn law_of_starving<P: Placing>()
    ensures { TellsDone P.rules → (opened : P.State) (by : Caller) (before after : List P.Entry) (request : P.Request)
        (met : P.Met) (reply starved : P.Reply) (position next_edge : ℕ)
        → P.rules.is_no_memory starved
        → IsServed P.rules opened by before after request met reply position next_edge
        → IsServed P.rules opened by before after request met starved position next_edge }
{}

/// Calls that were served stay served with one more call behind them, which begins with what was seen after them.
pub fn law_of_one_more<P: Placing>()
    ensures { (opened : P.State) (seat number edge last next_edge : ℕ) (before between after : List P.Entry)
        (items : List (Item P.Request P.Met P.Reply)) (item : Item P.Request P.Met P.Reply)
        → AreServed P.rules opened seat number edge before items between last
        → IsItemServed P.rules opened (caller seat (number + length items)) last between after item next_edge
        (P.rules.form item.request)
        → AreServed P.rules opened seat number edge before (items ++ item ∷ []) after (max last next_edge) }
{}

/// Calls that were served one after the other are placed in the whole of what their seat has seen: by positions in it,
/// and by each call's entries, sought behind what the seat had seen before the first. Their seat made no entries but of
/// these calls, and the last edge isn't past the end. A session's calls are numbered from 1, a flow's one call as it
/// is.
pub fn law_of_placement<P: Placing>()
    ensures placed { Lawful P.rules → (opened : P.State) (seat number last : ℕ) (start after : List P.Entry)
        (items : List (Item P.Request P.Met P.Reply))
        → AreServed P.rules opened seat number (length start) start items after last
        → ArePlaced P.rules opened seat number (length start) start after items }
    ensures only { (opened : P.State) (seat number edge last : ℕ) (start after : List P.Entry)
        (items : List (Item P.Request P.Met P.Reply))
        → AreServed P.rules opened seat number edge start items after last
        → AddsNumbered P.rules seat number (length items) start after }
    ensures within { Lawful P.rules → (opened : P.State) (seat number edge last : ℕ) (start after : List P.Entry)
        (items : List (Item P.Request P.Met P.Reply))
        → AreServed P.rules opened seat number edge start items after last
        → edge ≤ length start → (edge ≤ last) × (last ≤ length after) }
{}

/// A placed call that is done made all entries of its course and no other. Where it isn't, the last entry of its course
/// isn't among its own; the only exceptions are want of memory, and one whose cause comes behind them all. The reply
/// that the store failed comes only with a note, which is the call's last own entry and stands at the position; and a
/// note comes with no reply but this one and the one of want of memory.
pub fn laws_of_entries<P: Placing>()
    ensures done { TellsDone P.rules → (opened : P.State) (by : Caller) (edge next_edge : ℕ)
        (start entries : List P.Entry)
        (item : Item P.Request P.Met P.Reply) (placed : IsPlaced P.rules opened by edge next_edge start entries item)
        → P.rules.is_done item.reply ≡ true
        → own_entries P.rules by start entries ≡ entries_of P.rules by (P.rules.course item.request placed.fixed) }
    ensures refused { TellsDone P.rules → (opened : P.State) (by : Caller) (edge next_edge : ℕ)
        (start entries : List P.Entry)
        (item : Item P.Request P.Met P.Reply) (placed : IsPlaced P.rules opened by edge next_edge start entries item)
        → P.rules.is_done item.reply ≡ false
        → LacksLast P.rules by item.request (P.rules.course item.request placed.fixed)
        (own_entries P.rules by start entries)
        ⊎ P.rules.is_no_memory item.reply
        ⊎ P.rules.excepts_behind by item.request item.met opened edge (take item.position entries) item.reply }
    ensures failed { TellsDone P.rules → TellsFault P.rules → (opened : P.State) (by : Caller) (edge next_edge : ℕ)
        (start entries : List P.Entry)
        (item : Item P.Request P.Met P.Reply) (placed : IsPlaced P.rules opened by edge next_edge start entries item)
        → P.rules.store_fails item.met item.reply
        → (operation : P.Operation) × (at : ℕ) × (item.position ≡ at + 1)
        × StandAt P.rules entries at (P.rules.faulted by operation ∷ [])
        × (own_entries P.rules by start entries
        ≡ entries_of P.rules by placed.passed ++ P.rules.faulted by operation ∷ []) }
    ensures no_note { TellsFault P.rules → (opened : P.State) (by : Caller) (edge next_edge : ℕ)
        (start entries : List P.Entry) (item : Item P.Request P.Met P.Reply)
        → IsPlaced P.rules opened by edge next_edge start entries item
        → (P.rules.store_fails item.met item.reply → ⊥) → (P.rules.is_no_memory item.reply → ⊥)
        → (operation : P.Operation)
        → All (λ entry. entry ≢ P.rules.faulted by operation) (own_entries P.rules by start entries) }
{}

/// A call that was served while no other seat added anything, and whose reply is none of the exceptions, went the
/// one-seat course. That has one reply and adds one list of entries, where the rules of the request have one value at
/// each point.
pub fn laws_of_one_seat<P: Placing>()
    ensures goes { Lawful P.rules → (opened : P.State) (by : Caller) (before after added : List P.Entry)
        (request : P.Request) (met : P.Met) (reply : P.Reply) (position next_edge : ℕ)
        → IsServed P.rules opened by before after request met reply position next_edge
        → IsPlain P.rules opened by before request met reply
        → after ≡ before ++ added → AreOwn P.rules by added
        → GoesAlone P.rules opened by before request met reply added }
    ensures one { (request : P.Request) → IsDetermined P.rules request
        → (opened : P.State) (by : Caller) (seen : List P.Entry) (met : P.Met) (reply other : P.Reply)
        (added more : List P.Entry)
        → GoesAlone P.rules opened by seen request met reply added
        → GoesAlone P.rules opened by seen request met other more
        → (reply ≡ other) × (added ≡ more) }
{}
