ghost use Rattle.std.specs.Prelude.{◌≡◌, ℕ, List, length};

/// A value that stands for an origin, which never changes, and for a list of entries, each of one seat.
pub trait Standing: Drop {
    /// What the list starts from. No value of it is made.
    type Origin;

    /// No value of it is made.
    type Entry;

    /// The origin that a value stands for.
    ghost origin: { Self → Self.Origin };

    /// The entries that a value stands for, in order.
    ghost list: { Self → List Self.Entry };

    /// The number of the seat that made an entry.
    ghost seat_of: { Self.Entry → ℕ };

    /// What is true of each value that stands for an origin and a list, beyond these. By default it says
    /// nothing.
    ghost holds: { Self → Type 0 } = { λ _. Unit {0} };

    /// How many entries there are. It also tells that the value holds.
    fn entries(&self) -> u64
        ensures count { result ≡ length (list self.now) }
        ensures stands { holds self.now };
}
