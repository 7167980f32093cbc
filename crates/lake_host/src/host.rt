//! What a server asks of the machine.
ghost use Rattle.std.specs.Prelude.{◌≡◌, ◌++◌, ◌∷◌, [], ℕ, List, length, map};
ghost use Rattle.std.specs.Prelude.{Option, Some, is_some, IfOk, IfSome, OnErr};
ghost use Rattle.block_store.specs.Blocks.{FailsByFault};
ghost use Rattle.lake_host.specs.Doors.{AreOut, DoorView, Opened, door_view, opened_at};

use lake_base::{Clock, Text, Trouble};
use lake_server::Listen;

/// What gives listeners and clocks, and takes listeners back. It may tell contracts which it gave and took back. It
/// counts its failures.
pub trait Host: Drop {
    /// What accepts the connections of one worker.
    type Door: Listen + Send;

    /// The clock of one worker.
    type Time: Clock + Send;

    /// The listeners that it was given back, in order, as they were then, where it tells them.
    ghost returned: { Self → Option (List DoorView) };

    /// The listeners that it has given, in order, each with its address and as it was then, where it tells them.
    ghost opened: { Self → Option (List Opened) };

    /// How often it has failed.
    ghost faults: { Self → ℕ };

    /// So many listeners, all at one address, which is a name or a number, a colon, and a port. A call that is
    /// Failed is counted.
    fn listen(&mut self, at: &Text, doors: usize) -> Result<Vec<Self::Door>, Trouble>
        ensures count { IfOk result (λ listeners. length listeners.items ≡ doors) }
        ensures opened { IfOk result (λ listeners. IfSome (opened self.old) (λ before. opened self.new ≡ Some (before
            ++ opened_at at.now
            (map (door_view Self.Door.accepted Self.Door.returned Self.Door.faults) listeners.items)))) }
        ensures none { OnErr result (opened self.new ≡ opened self.old) }
        ensures out { IfOk result (λ _. AreOut doors (opened self.new) (returned self.new)) }
        ensures returned { returned self.new ≡ returned self.old }
        ensures cause { FailsByFault (faults self.old) (faults self.new) result };

    /// A clock. It takes no memory, and can't fail.
    fn clock(&mut self) -> Self::Time
        ensures opened { opened self.new ≡ opened self.old }
        ensures returned { returned self.new ≡ returned self.old }
        ensures faults { faults self.new ≡ faults self.old };

    /// Takes back a listener that it gave. It takes no memory, and can't fail.
    fn shut(&mut self, door: Self::Door)
        requires out { AreOut 1 (opened self.old) (returned self.old) }
        ensures opened { opened self.new ≡ opened self.old }
        ensures told { is_some (returned self.new) ≡ is_some (returned self.old) }
        ensures returned { IfSome (returned self.old) (λ before. returned self.new ≡ Some (before
            ++ door_view Self.Door.accepted Self.Door.returned Self.Door.faults door ∷ [])) }
        ensures faults { faults self.new ≡ faults self.old };
}
