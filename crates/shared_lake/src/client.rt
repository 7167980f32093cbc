//! What a flow of several steps is given beside the lake and its seat.
ghost use Rattle.std.specs.Prelude.{◌≡◌, ℕ, Option, None, option_map};
ghost use Rattle.lake_base.specs.Memory.{next_count};

/// What a flow does outside the turn, between a reading and the step that the reading guards. It may tell contracts how
/// often it did.
pub trait Pause: Drop {
    /// How often it was called, where the pause tells it. A 64-bit count stands still at its end.
    ghost calls: { Self → Option ℕ };

    /// The flow pauses.
    fn between(&mut self)
        ensures called { calls self.new ≡ option_map next_count (calls self.old) };
}

/// A pause that does nothing.
#[derive(Clone, Copy, Debug)]
pub struct NoPause;

impl Pause for NoPause {
    ghost calls = { λ _. None };

    fn between(&mut self) {}
}

/// What a flow needs for a call: where objects' bytes are, what it does between a reading and the step that is guarded
/// by it, the moment of the call in seconds since 1970, and the number of the call among those of its seat. A flow
/// leaves both references where they were.
#[derive(Drop)]
pub struct Client<'a, 'p, B, P> {
    pub blocks: &'a mut B,
    pub pause: &'p mut P,
    pub now: u64,
    pub call: u64,
}
