//! What an instance of the rules is.
ghost use Rattle.call_placement.specs.Rules.{Rules};

/// What has rules by which calls are placed. It is for laws alone: nothing of it is made or run.
pub trait Placing {
    /// An entry of a history.
    type Entry;

    /// What a history's entries make of the opened state.
    type State;

    /// What an entry is about.
    type Operation;

    /// What a client asks.
    type Request;

    /// What the points of a course fix.
    type Fixed;

    /// A point of a course.
    type Point;

    /// What a call met that no history shows, as plain data.
    type Met;

    /// What a client is told.
    type Reply;

    /// The rules.
    ghost rules: { Rules Self.Entry Self.State Self.Operation Self.Request Self.Fixed Self.Point Self.Met Self.Reply };
}
