//! What holds of every step. Each law is the contract of a function that does nothing.
ghost use Rattle.std.specs.Prelude.{◌≡◌, ℕ, List, [], ◌∷◌, ◌++◌, Option, IfSome, Result, MatchResult};
ghost use Rattle.turn_lock.specs.Seats.{SeatValue, Adds, OnlyAdds, seat_after, with_entry};

use crate::standing::Standing;

/// A change adds what its value's list has more, so it adds nothing where that list stays. A step that adds one
/// entry of its seat where it answers Ok, and else nothing, only adds. It leaves the seat with that entry more,
/// and where it is refused with just the entries that the seat had made. So it is with a step that adds one
/// entry of its seat or none, as an option tells: a refusal may add one too. (A law: it does nothing.)
pub fn law_of_steps<S: Standing, T, F>()
    ensures more { (n : ℕ) (x y : S) (added more : List S.Entry)
        → Adds S.origin S.list S.seat_of n x added y
        → S.list y ≡ S.list x ++ more → added ≡ more }
    ensures none { (n : ℕ) (x y : S) (added : List S.Entry)
        → Adds S.origin S.list S.seat_of n x added y
        → S.list y ≡ S.list x → added ≡ [] }
    ensures only { (answer : Result T F) (n : ℕ) (e : S.Entry) (x y : S)
        → S.origin y ≡ S.origin x → S.seat_of e ≡ n
        → MatchResult answer (λ _. S.list y ≡ S.list x ++ e ∷ []) (λ _. S.list y ≡ S.list x)
        → OnlyAdds S.origin S.list S.seat_of n x y }
    ensures one { (answer : Result T F) (x y : S) (e : S.Entry) (added : List S.Entry)
        (s t : SeatValue S.Origin S.Entry)
        → Adds S.origin S.list S.seat_of s.number x added y
        → t ≡ seat_after s (S.list y) (s.mine ++ added)
        → MatchResult answer (λ _. S.list y ≡ S.list x ++ e ∷ []) (λ _. S.list y ≡ S.list x)
        → MatchResult answer
        (λ _. t ≡ seat_after s (S.list x ++ e ∷ []) (s.mine ++ e ∷ []))
        (λ _. t ≡ seat_after s (S.list x) s.mine) }
    ensures entry { (n : ℕ) (e : Option S.Entry) (x y : S)
        → S.origin y ≡ S.origin x → IfSome e (λ a. S.seat_of a ≡ n)
        → S.list y ≡ with_entry (S.list x) e
        → OnlyAdds S.origin S.list S.seat_of n x y }
    ensures after { (e : Option S.Entry) (x y : S) (added : List S.Entry)
        (s t : SeatValue S.Origin S.Entry)
        → Adds S.origin S.list S.seat_of s.number x added y
        → t ≡ seat_after s (S.list y) (s.mine ++ added)
        → S.list y ≡ with_entry (S.list x) e
        → t ≡ seat_after s (with_entry (S.list x) e) (with_entry s.mine e) }
{}
