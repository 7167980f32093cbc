//! A fresh lake over a keeper in memory is made, and closed.
ghost use Rattle.std.specs.Prelude.{◌≡◌, ◌<◌, true, length, All, IfOk};
ghost use Rattle.lake_core.specs.Faults.{HasFault};
ghost use Rattle.fresh_lakes.specs.FreshLakes.{AreFreshSeats, IsFounded, IsLoneSeat, IsSeatRoom};

use keeper::SureKeeper;
use lake_base::NoMemory;
use lake_core::{Lake, OpenFault, law_of_sure_lakes, laws_of_founding};
use lake_format::USUAL_CUT;
use shared_lake::{LakeSeat, Shared};
use std::alloc::Global;
use std::sync::Wait;

/// A fresh lake in memory, and so many seats at it, numbered from 0.
pub fn fresh_lake(
    alloc: Global,
    seats: u32,
) -> Result<(Shared<SureKeeper>, Vec<LakeSeat>), NoMemory>
    requires { 0 < seats }
    ensures turn { IfOk result (λ r. All (λ seat. seat.turn ≡ r.0) r.1.items) }
    ensures count { IfOk result (λ r. length r.1.items ≡ seats) }
    ensures fresh { IfOk result (λ r. AreFreshSeats r.1.items) }
    ensures alone { IfOk result (λ r. seats ≡ 1 → All (λ seat. seat.alone ≡ true) r.1.items) }
{
    laws_of_founding();
    let lake = match founded(alloc) {
        Ok(lake) => lake,
        Err(starved) => return Err(starved),
    };
    match Shared::new(alloc, lake, seats) {
        Ok(shared) => Ok(shared),
        Err(_) => Err(NoMemory),
    }
}

/// A fresh lake in memory, the only seat at it, and room to put that back among the seats.
pub fn lone_lake(alloc: Global) -> Result<(Shared<SureKeeper>, LakeSeat, Vec<LakeSeat>), NoMemory>
    ensures turn { IfOk result (λ r. r.1.turn ≡ r.0) }
    ensures fresh { IfOk result (λ r. IsLoneSeat r.1) }
    ensures room { IfOk result (λ r. IsSeatRoom r.2) }
{
    let (lake, mut seats) = match fresh_lake(alloc, 1) {
        Ok(fresh) => fresh,
        Err(starved) => return Err(starved),
    };
    match seats.pop() {
        Some(seat) => Ok((lake, seat, seats)),
        None => unreachable!(),
    }
}

/// Joins a seat at a lake in memory, and lets the lake go. Its keeper never fails, and so a seat that is alone has seen
/// no note that it did. It takes no memory, and waits.
pub fn close_lone_lake<W: Wait>(
    rt: &W,
    lake: Shared<SureKeeper>,
    seat: LakeSeat,
    mut room: Vec<LakeSeat>,
)
    requires own { seat.turn ≡ lake }
    requires room { IsSeatRoom room }
    ensures none { seat.alone ≡ true → HasFault seat.seen → ⊥ }
{
    law_of_sure_lakes();
    room.push_reserved(seat);
    lake.close(rt, room);
}

// A fresh lake over a keeper in memory.
fn founded(alloc: Global) -> Result<Lake<SureKeeper>, NoMemory>
    ensures { IfOk result IsFounded }
{
    let keeper = SureKeeper::holding(alloc, Vec::new(alloc));
    match Lake::founded(alloc, keeper, USUAL_CUT) {
        Ok(lake) => Ok(lake),
        Err((fault, _)) => Err(opening_fault(fault)),
    }
}

// A lake over a keeper that never fails isn't founded for lack of memory alone.
fn opening_fault(fault: OpenFault) -> NoMemory
    requires { fault ≡ OpenFault.NoMemory }
{
    match fault {
        OpenFault::NoMemory => NoMemory,
        _ => unreachable!(),
    }
}
