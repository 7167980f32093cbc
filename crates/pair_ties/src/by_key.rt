//! Pairs by their keys.
ghost use Rattle.std.specs.Prelude.{◌↔◌, IfOk, IsTrue, MatchResult};
ghost use Rattle.lake_base.specs.Maps.{HasAscendingKeys, IsAt, IsGap};
ghost use Rattle.keeper.specs.Keepers.{entries_of};
ghost use Rattle.pair_format.specs.Keys.{key_value};
ghost use Rattle.pair_format.specs.PairSpelling.{IsStoredKey};
ghost use Rattle.pair_ties.specs.BrokenPairs.{HasPair};

use lake_base::NoMemory;
use pair_format::{Pair, StoredKey, encode_key};
use std::alloc::Global;

// Whether a pair has a key, whatever it spells, by a search.
pub(crate) fn has_pair(alloc: Global, raw: &[Pair], key: &StoredKey) -> Result<bool, NoMemory>
    requires key { IsStoredKey (key_value key.now) }
    requires ascend { HasAscendingKeys (entries_of raw.now) }
    ensures { IfOk result (λ there. IsTrue there ↔ HasPair raw.now (key_value key.now)) }
{
    let bytes = encode_key(alloc, key)?;
    Ok(search(raw, bytes.as_slice()).is_ok())
}

// Where a key of these bytes is, or where it would go.
fn search(raw: &[Pair], key: &[u8]) -> Result<usize, usize>
    requires { HasAscendingKeys (entries_of raw.now) }
    ensures { MatchResult result (IsAt (entries_of raw.now) key.now) (IsGap (entries_of raw.now) key.now) }
{
    raw.binary_search_by(|pair| pair.key.as_slice().cmp(key))
}
