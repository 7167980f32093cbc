//! The pairs of a fresh lake, which a keeper without pairs is given.
ghost use Rattle.std.specs.Prelude.{◌≡◌, IfOk, IfSome, MatchResult};
ghost use Rattle.std.specs.FinMap.{empty};
ghost use Rattle.core_state.specs.LakeStates.{lake_value};
ghost use Rattle.core_state.specs.FirstStates.{first_tree, fresh_lake};
ghost use Rattle.core_changes.specs.NewPlaces.{HasNewPlaces};
ghost use Rattle.lake_core.specs.Opening.{IsFilled, IsUnfounded};

use crate::open_fault::OpenFault;
use core_puts::{fresh_lake, fresh_puts};
use core_state::LakeState;
use keeper::Keeper;
use lake_format::Cut;
use std::alloc::Global;

// The fresh lake of a cut, whose puts a keeper without pairs makes by one call. StoreFault, NoMemory.
pub(crate) fn fill<K: Keeper>(
    alloc: Global,
    keeper: &mut K,
    cut: Cut,
) -> Result<LakeState, OpenFault>
    requires { IfSome (K.kept keeper.old) (λ pairs. pairs ≡ empty) }
    ensures filled { MatchResult result
        (λ lake. (lake_value lake ≡ fresh_lake cut)
        × IsFilled (record { kept = K.kept; faults = K.faults; calls = K.calls; successes = K.successes })
        cut keeper.old keeper.new)
        (λ fault. IsUnfounded (record { kept = K.kept; faults = K.faults; calls = K.calls; successes = K.successes })
        cut keeper.old fault keeper.new) }
    ensures places { IfOk result (λ lake. HasNewPlaces empty lake.names.files (first_tree cut)) }
{
    let lake = fresh_lake(alloc, cut)?;
    let puts = fresh_puts(alloc, cut)?;
    keeper.put_all(puts.as_slice())?;
    Ok(lake)
}
