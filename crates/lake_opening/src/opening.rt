//! A lake is opened over a keeper.
ghost use Rattle.std.specs.Prelude.{◌≡◌, ◌<◌, [], IfSome, MatchResult};
ghost use Rattle.std.specs.FinMap.{empty};
ghost use Rattle.lake_opening.specs.Opening.{IsFoundOver, IsOpened, IsReadOver, IsUnopened};

use crate::fault::OpenFault;
use core_opening::{law_of_read_lakes, read_lake};
use core_state::LakeState;
use keeper::Keeper;
use lake_core::Lake;
use lake_format::Cut;
use std::alloc::Global;

/// The lake of a cut over a keeper: that for which its pairs stand; where it has none, a fresh one, whose pairs it puts
/// by one call. Nothing has happened in the lake. A refusal hands the keeper back. The modulus of the cut is above 0.
/// StoreFault, only where the keeper's count of faults rose or stands at its last value; BadPair; Tree; NoMemory.
pub fn open_lake<K: Keeper>(alloc: Global, keeper: K, cut: Cut) -> Result<Lake<K>, (OpenFault, K)>
    requires { 0 < cut.modulus }
    ensures { MatchResult result
        (λ lake. IsOpened (record { kept = K.kept; faults = K.faults; calls = K.calls; successes = K.successes })
        cut keeper lake)
        (λ refusal. IsUnopened
        (record { kept = K.kept; faults = K.faults; calls = K.calls; successes = K.successes })
        cut keeper refusal.0 refusal.1) }
{
    let mut keeper = keeper;
    match read_over(alloc, &mut keeper, cut) {
        Ok(Some(present)) => Ok(Lake::reopened(alloc, keeper, present)),
        Ok(None) => found_over(alloc, keeper, cut),
        Err(fault) => Err((fault, keeper)),
    }
}

// The lake for which a keeper's pairs stand, which stands for no entries. None where it has no pairs. StoreFault,
// BadPair, Tree, NoMemory.
fn read_over<K: Keeper>(
    alloc: Global,
    keeper: &mut K,
    cut: Cut,
) -> Result<Option<LakeState>, OpenFault>
    requires { 0 < cut.modulus }
    ensures { IsReadOver (record { kept = K.kept; faults = K.faults; calls = K.calls; successes = K.successes })
        cut keeper.old keeper.new result }
{
    let pairs = keeper.load()?;
    if pairs.is_empty() {
        return Ok(None);
    }
    law_of_read_lakes();
    let present = read_lake(alloc, pairs.as_slice(), cut)?;
    Ok(Some(present))
}

// A fresh lake over a keeper that has no pairs. StoreFault, NoMemory.
fn found_over<K: Keeper>(alloc: Global, keeper: K, cut: Cut) -> Result<Lake<K>, (OpenFault, K)>
    requires cut { 0 < cut.modulus }
    requires none { IfSome (K.kept keeper) (λ pairs. pairs ≡ empty) }
    ensures { IsFoundOver (record { kept = K.kept; faults = K.faults; calls = K.calls; successes = K.successes })
        cut keeper result }
{
    match Lake::founded(alloc, keeper, cut) {
        Ok(lake) => Ok(lake),
        Err((fault, keeper)) => Err((OpenFault::from(fault), keeper)),
    }
}
