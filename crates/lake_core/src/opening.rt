//! A lake that is founded, and one that is opened again.
ghost use Rattle.std.specs.Prelude.{◌≡◌, ◌<◌, [], IfSome, MatchResult};
ghost use Rattle.std.specs.FinMap.{empty};
ghost use Rattle.core_standing.specs.Standing.{Stands};
ghost use Rattle.core_state.specs.LakeStates.{lake_value};
ghost use Rattle.core_keeping.specs.Following.{FollowLake};
ghost use Rattle.lake_core.specs.Opening.{IsFounded, IsReopened, IsUnfounded};

use crate::filling::fill;
use crate::lake::Lake;
use crate::open_fault::OpenFault;
use core_keeping::laws_of_followed_lakes;
use core_puts::laws_of_founding;
use core_standing::{law_of_opening, law_of_versions_below};
use core_state::LakeState;
use keeper::Keeper;
use lake_format::Cut;
use lake_laws::soundness::law_of_soundness;
use lake_laws::versions::law_of_next_versions;
use std::alloc::Global;
use std::snapshot::Snapshot;

impl<K: Keeper> Lake<K> {
    /// A fresh lake of a cut over a keeper without pairs, whose pairs it puts by one call. A refusal hands the keeper
    /// back. The modulus of the cut is above 0. StoreFault, only where the keeper's count of faults rose or stands at
    /// its last value; NoMemory.
    pub fn founded(alloc: Global, keeper: K, cut: Cut) -> Result<Lake<K>, (OpenFault, K)>
        requires cut { 0 < cut.modulus }
        requires none { IfSome (K.kept keeper) (λ pairs. pairs ≡ empty) }
        ensures { MatchResult result
            (λ lake. IsFounded (record { kept = K.kept; faults = K.faults; calls = K.calls; successes = K.successes })
            cut keeper lake)
            (λ refusal. IsUnfounded
            (record { kept = K.kept; faults = K.faults; calls = K.calls; successes = K.successes })
            cut keeper refusal.0 refusal.1) }
    {
        let mut keeper = keeper;
        match fill(alloc, &mut keeper, cut) {
            Ok(present) => {
                laws_of_founding();
                law_of_soundness();
                law_of_next_versions();
                law_of_versions_below();
                law_of_opening();
                laws_of_followed_lakes();
                Ok(Lake::reopened(alloc, keeper, present))
            }
            Err(fault) => Err((fault, keeper)),
        }
    }

    /// A lake in memory that stands for no entries, over the keeper of its pairs, which follow the lake where it tells
    /// them: it was opened as that. It takes no memory.
    pub fn reopened(alloc: Global, keeper: K, present: LakeState) -> Lake<K>
        requires stands { Stands (lake_value present) [] (lake_value present) }
        requires pairs { IfSome (K.kept keeper)
            (λ pairs. FollowLake pairs present.names.files (lake_value present)) }
        ensures { IsReopened keeper present result }
    {
        Lake {
            alloc,
            opened: Snapshot::of(&present),
            first: Snapshot::of(&keeper),
            keeper,
            history: Vec::new(alloc),
            present,
        }
    }
}
