//! What each change does to its keeper and its history.
ghost use Rattle.std.specs.Prelude.{◌≡◌, ◌<◌, ◌++◌, ◌∷◌, [], vec_capacity, vec_len};
ghost use Rattle.core_state.specs.Counts.{AreFew};
ghost use Rattle.core_state.specs.LakeStates.{lake_value};
ghost use Rattle.core_puts.specs.KeptChanges.{Keeps, Stays, unmade};

use core_changes::lake::stop;
use core_state::LakeState;
use keeper::{Keeper, Put};
use lake_base::Trouble;
use lake_model::{By, EntryKind, HistoryEntry, Operation, StepFault};

/// Makes the puts by one call of the keeper, and then appends the entry of the operation, for which it takes the room
/// before. Where the store fails its fault is appended, and the lake is stopped. StoreFault, NoMemory.
pub fn keep<K: Keeper>(
    keeper: &mut K,
    history: &mut Vec<HistoryEntry>,
    present: &mut LakeState,
    by: By,
    operation: Operation,
    puts: Vec<Put>,
) -> Result<(), StepFault>
    requires few { AreFew (lake_value present.old) }
    ensures kept { Keeps (record { kept = K.kept; faults = K.faults; calls = K.calls; successes = K.successes }) by
        (unmade operation puts.items) result
        (record { keeper = keeper.old; history = history.old.items; present = present.old })
        (record { keeper = keeper.new; history = history.new.items; present = present.new }) }
    ensures room { Stays result present.old present.new }
    ensures names { present.new.names ≡ present.old.names }
{
    history.reserve(1)?;
    match keeper.put_all(puts.as_slice()) {
        Ok(()) => {
            append(history, by, EntryKind::Accepted(operation));
            Ok(())
        }
        Err(Trouble::Failed) => {
            append(history, by, EntryKind::Faulted(operation));
            stop(present);
            Err(StepFault::StoreFault)
        }
        Err(Trouble::NoMemory) => Err(StepFault::NoMemory),
    }
}

// Appends an entry, for which there is room.
fn append(history: &mut Vec<HistoryEntry>, by: By, kind: EntryKind)
    requires { vec_len history.old < vec_capacity history.old }
    ensures { history.new.items ≡ history.old.items ++ record { by = by; kind = kind } ∷ [] }
{
    let _ = history.push(HistoryEntry { by, kind });
}

/// The place of the last entry. It takes no memory.
#[tactic(auto, unfolding(core_state::specs::LakeStates::lake_value))]
pub fn place(lake: &LakeState) -> u64
    ensures { result ≡ (lake_value lake.now).entries }
{
    lake.entries
}
