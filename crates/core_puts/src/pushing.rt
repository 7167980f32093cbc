//! Puts that are appended to others.
ghost use Rattle.std.specs.Prelude.{◌≡◌, ◌++◌, ◌∷◌, [], IfOk, OnOk};
ghost use Rattle.pair_format.specs.Keys.{key_value};
ghost use Rattle.pair_format.specs.PairSpelling.{pair_spelling, IsSpelledKey, IsSpelledStored, IsStored, IsStoredKey};
ghost use Rattle.pair_format.specs.declared.stored.Stored.TheVariants as stored;
ghost use Rattle.core_puts.specs.Puts.{removed_put, spelled_put};

use keeper::Put;
use lake_base::NoMemory;
use pair_format::{Pair, Stored, StoredKey, encode_key, encode_pair};
use std::alloc::Global;

// The one put by which something is stored.
pub(crate) fn only_put(alloc: Global, stored: Stored) -> Result<Vec<Put>, NoMemory>
    requires { IsStored stored }
    ensures puts { IfOk result (λ puts. puts.items ≡ spelled_put stored ∷ []) }
    ensures limits { OnOk result (IsSpelledStored stored) }
{
    let mut puts = Vec::new(alloc);
    push_spelled(alloc, &mut puts, stored)?;
    Ok(puts)
}

// Appends the put by which something is stored.
#[tactic(auto, unfolding(crate::specs::Puts::spelled_put))]
pub(crate) fn push_spelled(
    alloc: Global,
    puts: &mut Vec<Put>,
    stored: Stored,
) -> Result<(), NoMemory>
    requires { IsStored stored }
    ensures puts { OnOk result (puts.new.items ≡ puts.old.items ++ spelled_put stored ∷ []) }
    ensures limits { OnOk result (IsSpelledStored stored) }
{
    let Pair { key, value } = pair_of(alloc, stored)?;
    puts.push(Put {
        key,
        value: Some(value),
    })?;
    Ok(())
}

// The pair of what is stored, which is let go: in this one place, since a proof that lets it go is long.
fn pair_of(alloc: Global, stored: Stored) -> Result<Pair, NoMemory>
    requires { IsStored stored }
    ensures spelled { IfOk result (λ pair. pair ≡ pair_spelling stored) }
    ensures limits { OnOk result (IsSpelledStored stored) }
{
    encode_pair(alloc, &stored)
}

// Appends the put by which nothing stands under a key.
#[tactic(auto, unfolding(crate::specs::Puts::removed_put))]
pub(crate) fn push_removed(
    alloc: Global,
    puts: &mut Vec<Put>,
    key: &StoredKey<'_>,
) -> Result<(), NoMemory>
    requires { IsStoredKey (key_value key.now) }
    ensures puts { OnOk result (puts.new.items ≡ puts.old.items ++ removed_put (key_value key.now) ∷ []) }
    ensures limits { OnOk result (IsSpelledKey (key_value key.now)) }
{
    let key = encode_key(alloc, key)?;
    puts.push(Put { key, value: None })?;
    Ok(())
}

// Appends the put of the counts.
pub(crate) fn push_counts(
    alloc: Global,
    puts: &mut Vec<Put>,
    number: u64,
    version: u64,
    token: u64,
) -> Result<(), NoMemory>
    ensures { OnOk result (puts.new.items ≡ puts.old.items ++ spelled_put (stored.Counts number version token) ∷ []) }
{
    let stored = Stored::Counts {
        number,
        version,
        token,
    };
    push_spelled(alloc, puts, stored)
}
