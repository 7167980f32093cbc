//! A lake stands behind a turn.
ghost use Rattle.lake_core.specs.Lakes.{Holds};

use crate::lake::Lake;
use core_standing::law_of_entries;
use core_state::LakeState;
use keeper::Keeper;
use lake_model::HistoryEntry;
use turn_lock::Standing;

/// What a lake goes out from: what it was opened as, and how often its keeper had failed by then. No value of it is
/// made.
#[derive(Drop)]
pub struct LakeOrigin {
    pub opened: LakeState,
    pub faults: u64,
}

/// A lake stands for what it was opened as, over a keeper that had failed so often, which no change changes; and for
/// its entries since. Of each lake holds what its type says of all.
impl<K: Keeper> Standing for Lake<K> {
    type Origin = LakeOrigin;

    type Entry = HistoryEntry;

    ghost origin = { λ lake. record { opened = lake.opened; faults = K.faults lake.first } };

    ghost list = { λ lake. lake.history };

    ghost seat_of = { λ entry. entry.by.seat };

    ghost holds = { Holds (record { kept = K.kept; faults = K.faults; calls = K.calls; successes = K.successes }) };

    fn entries(&self) -> u64 {
        law_of_entries();
        Lake::entries(self)
    }
}
