//! The lake.
ghost use Rattle.std.specs.Prelude.{◌≡◌};
ghost use Rattle.lake_core.specs.Lakes.{Holds};

use core_state::LakeState;
use keeper::Keeper;
use lake_model::HistoryEntry;
use std::alloc::Global;
use std::marker::Model;
use std::snapshot::Snapshot;

/// A lake over a keeper of its pairs. Contracts see what it was opened as and its keeper then, the entries since then,
/// and what it is in memory now: the replay of these entries.
#[derive(Drop)]
pub struct Lake<K: Keeper> {
    pub(crate) alloc: Global,
    pub(crate) keeper: K,
    pub(crate) opened: Snapshot<LakeState>,
    pub(crate) first: Snapshot<K>,
    pub(crate) history: Vec<HistoryEntry>,
    pub(crate) present: LakeState,
}

impl<K: Keeper> Model for Lake<K> {
    ghost use Rattle.std.specs.Coded.{codes};
    ghost use Rattle.core_state.specs.contracts.lake.LakeState as in_memory;
    ghost use Rattle.lake_core.specs.Lakes.{Holds, LakeValue};

    ghost Value = { LakeValue K };

    ghost coded = { Prim.hlevel (codes, in_memory.the_row.coded) };

    ghost view = { λ lake. record {
      opened = lake.opened.value;
      first = lake.first.value;
      history = lake.history.items;
      present = lake.present;
      keeper = lake.keeper;
    } };

    ghost invariant = { λ lake.
        Holds (record { kept = K.kept; faults = K.faults; calls = K.calls; successes = K.successes }) (record {
          opened = lake.opened.value;
          first = lake.first.value;
          history = lake.history.items;
          present = lake.present;
          keeper = lake.keeper;
        }) };
}

impl<K: Keeper> Lake<K> {
    ghost use Rattle.core_state.specs.LakeStates.{lake_value};

    /// How many entries its state counts: the place of the last one. It takes no memory.
    #[tactic(auto, unfolding(core_state::specs::LakeStates::lake_value))]
    pub fn entries(&self) -> u64
        ensures count { result ≡ (lake_value self.now.present).entries }
        ensures stands { Holds (record { kept = K.kept; faults = K.faults; calls = K.calls; successes = K.successes })
            self.now }
    {
        self.present.entries
    }

    /// What it is in memory. It takes no memory.
    pub fn present(&self) -> &LakeState
        ensures { result.now ≡ self.now.present }
    {
        &self.present
    }

    /// The entries since it was opened, the first one first. It takes no memory.
    pub fn history(&self) -> &[HistoryEntry]
        ensures { result.now ≡ self.now.history }
    {
        self.history.as_slice()
    }

    /// The keeper. It takes no memory.
    pub fn into_keeper(self) -> K
        ensures { result ≡ self.keeper }
    {
        let Lake { keeper, .. } = self;
        keeper
    }
}
