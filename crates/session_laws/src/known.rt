//! What is known of a seat is known of it behind a session.
ghost use Rattle.std.specs.Prelude.{◌≡◌, Some};
ghost use Rattle.lake_core.specs.declared.standing.LakeOrigin.{LakeOrigin as AnyOrigin};
ghost use Rattle.lake_session.specs.WholeSessions.{GoesThrough};
ghost use Rattle.shared_lake.specs.SeatSteps.{LakeSeat as AnySeat};
ghost use Rattle.session_laws.specs.KnownSeats.{IsKnown};

/// Where what a seat had seen was legal, from the sound state that its lake was opened as, and had of its number just
/// its own entries, so is what it has seen behind a session, whatever that brought.
pub fn law_of_known_seats()
    ensures { (origin : AnyOrigin) (old now : AnySeat) → GoesThrough old now → old.origin ≡ Some origin
        → IsKnown origin old → IsKnown origin now }
{}
