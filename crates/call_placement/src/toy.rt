//! The toy as an instance of `Placing`, by which a law of all rules is had of the toy's. No value of these types is
//! made: each stands for the values that clauses see.
ghost use Rattle.std.specs.Prelude.{ℕ, List, length};
ghost use Rattle.call_placement.specs.Sessions.{Item, AreServed};
ghost use Rattle.call_placement.specs.Placed.{ArePlaced};
ghost use Rattle.call_placement.specs.Examples.{ToyState, ToyEntry, ToyRequest, ToyReply, toy_rules};

use crate::law::Placing;
use crate::laws::law_of_placement;
use std::marker::Model;

/// Stands for an entry of the toy's history.
pub struct Entries;

impl Model for Entries {
    ghost use Rattle.call_placement.specs.Examples.{ToyEntry, toy_entry, own_call, Seals};

    ghost Value = { ToyEntry };

    ghost view = { λ _. toy_entry own_call Seals };
}

/// Stands for a state.
pub struct States;

impl Model for States {
    ghost use Rattle.call_placement.specs.Examples.{ToyState, toy_opened};

    ghost Value = { ToyState };

    ghost view = { λ _. toy_opened };
}

/// Stands for what an entry is about.
pub struct Operations;

impl Model for Operations {
    ghost use Rattle.call_placement.specs.Examples.{ToyOperation, Seals};

    ghost Value = { ToyOperation };

    ghost view = { λ _. Seals };
}

/// Stands for a request.
pub struct Requests;

impl Model for Requests {
    ghost use Rattle.call_placement.specs.Examples.{ToyRequest, Upload};

    ghost Value = { ToyRequest };

    ghost view = { λ _. Upload };
}

/// Stands for a point of a course.
pub struct Points;

impl Model for Points {
    ghost use Rattle.call_placement.specs.Examples.{ToyPoint, Looks};

    ghost Value = { ToyPoint };

    ghost view = { λ _. Looks };
}

/// Stands for a reply.
pub struct Replies;

impl Model for Replies {
    ghost use Rattle.call_placement.specs.Examples.{ToyReply, NoMemory};

    ghost Value = { ToyReply };

    ghost view = { λ _. NoMemory };
}

/// The toy, whose points fix a number, and whose calls meet how far the store's count of faults rose.
pub struct Toy;

impl Placing for Toy {
    type Entry = Entries;

    type State = States;

    type Operation = Operations;

    type Request = Requests;

    type Fixed = u64;

    type Point = Points;

    type Met = u64;

    type Reply = Replies;

    ghost use Rattle.call_placement.specs.Examples.{toy_rules};

    ghost rules = { toy_rules };
}

/// The law of placement, applied to the toy's rules: its body calls the law at the instance.
pub fn example_of_a_law()
    ensures { (opened : ToyState) (seat number last : ℕ) (start after : List ToyEntry)
        (items : List (Item ToyRequest ℕ ToyReply))
        → AreServed toy_rules opened seat number (length start) start items after last
        → ArePlaced toy_rules opened seat number (length start) start after items }
{
    law_of_placement::<Toy>();
}
