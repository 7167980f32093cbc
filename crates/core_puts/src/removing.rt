//! The removals of changes that a reset drops.
ghost use Rattle.std.specs.Prelude.{◌≡◌, ◌++◌, OnOk};
ghost use Rattle.std.specs.List.{flat_map};
ghost use Rattle.core_state.specs.BranchStates.{branch_value};
ghost use Rattle.core_puts.specs.Puts.{removals_of, removals_under};
ghost use Rattle.core_puts.specs.Removing.{reset_start};

use crate::pushing::push_removed;
use branch_record::{ResetWhat, Tokens};
use core_state::BranchState;
use keeper::Put;
use lake_base::NoMemory;
use pair_format::StoredKey;
use std::alloc::Global;

// Appends the removal of each change of a branch that a reset drops.
pub(crate) fn push_removals(
    alloc: Global,
    puts: &mut Vec<Put>,
    branch: &BranchState,
    what: &ResetWhat,
) -> Result<(), NoMemory>
    ensures { OnOk result (puts.new.items ≡ puts.old.items ++ removals_of what.now (branch_value branch.now)) }
{
    push_removals_under(alloc, puts, &branch.tokens, branch.record.staging(), what)?;
    push_removals_of(alloc, puts, &branch.tokens, branch.record.sealed(), what)
}

// Appends the removal of each change under these tokens that a reset drops.
pub(crate) fn push_removals_of(
    alloc: Global,
    puts: &mut Vec<Put>,
    tokens: &Tokens,
    named: &[u64],
    what: &ResetWhat,
) -> Result<(), NoMemory>
    ensures { OnOk result (puts.new.items ≡ puts.old.items
        ++ flat_map (removals_under what.now tokens.now.changes) named.now) }
{
    for token in named {
        push_removals_under(alloc, puts, tokens, *token, what)?;
    }
    Ok(())
}

// Appends the removal of each change under a token that a reset drops: a search for the first, and then these alone.
fn push_removals_under(
    alloc: Global,
    puts: &mut Vec<Put>,
    tokens: &Tokens,
    token: u64,
    what: &ResetWhat,
) -> Result<(), NoMemory>
    ensures { OnOk result (puts.new.items ≡ puts.old.items ++ removals_under what.now tokens.now.changes token) }
{
    let mut changes = tokens.changes_of(token);
    changes.seek(reset_start(what));
    while let Some((path, _)) = changes.next() {
        if !what.drops_path(path) {
            return Ok(());
        }
        push_removed(alloc, puts, &StoredKey::Staged { token, path })?;
    }
    Ok(())
}

// The bytes from which on the paths stand that a reset drops.
fn reset_start(what: &ResetWhat) -> &[u8]
    ensures { result.now ≡ reset_start what.now }
{
    match what {
        ResetWhat::All => &[],
        ResetWhat::Object(path) => path.as_slice(),
        ResetWhat::Prefix(prefix) => prefix.as_slice(),
    }
}
