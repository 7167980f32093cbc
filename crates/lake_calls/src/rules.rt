//! The lake's calls as an instance of the rules of placement, by which a law of all rules is had of them. No value of
//! these types is made: each stands for the values that clauses see.

use crate::reply::CallReply;
use call_placement::law::Placing;
use lake_model::{HistoryEntry, Operation};
use std::marker::Model;

/// Stands for a lake's state.
pub struct States;

impl Model for States {
    ghost use Rattle.lake_format.specs.declared.cut.Cut.{Cut};
    ghost use Rattle.lake_model.specs.State.{State};
    ghost use Rattle.lake_model.specs.Soundness.{fresh};
    ghost use Rattle.lake_calls.specs.StateCodes.{state_code};

    ghost Value = { State };

    ghost coded = { state_code };

    ghost view = { λ _. fresh (record { max_bytes = 1048576; modulus = 1024 }) };
}

/// Stands for a request.
pub struct Requests;

impl Model for Requests {
    ghost use Rattle.lake_calls.specs.Requests.{CallRequest, Malformed};
    ghost use Rattle.lake_calls.specs.declared.reply.FormRefusal.TheVariants.{NoRoute};

    ghost Value = { CallRequest };

    ghost view = { λ _. record { asked = Malformed NoRoute; moment = 0 } };
}

/// Stands for what the points of a course fix.
pub struct Fixings;

impl Model for Fixings {
    ghost use Rattle.lake_calls.specs.Courses.{Fixed, nothing_fixed};

    ghost Value = { Fixed };

    ghost view = { λ _. nothing_fixed };
}

/// Stands for a point of a course.
pub struct Points;

impl Model for Points {
    ghost use Rattle.std.specs.Prelude.{[]};
    ghost use Rattle.lake_calls.specs.Courses.{CallPoint, Looks};

    ghost Value = { CallPoint };

    ghost view = { λ _. Looks [] [] };
}

/// Stands for what a call met.
pub struct Meetings;

impl Model for Meetings {
    ghost use Rattle.lake_calls.specs.CallExceptions.{CallMet, nothing_met};

    ghost Value = { CallMet };

    ghost view = { λ _. nothing_met };
}

/// The lake's calls.
pub struct LakeCalls;

impl Placing for LakeCalls {
    type Entry = HistoryEntry;

    type State = States;

    type Operation = Operation;

    type Request = Requests;

    type Fixed = Fixings;

    type Point = Points;

    type Met = Meetings;

    type Reply = CallReply;

    ghost use Rattle.lake_calls.specs.LakeRules.{lake_rules};

    ghost rules = { lake_rules };
}
