//! Pairs in order of their keys, and what each spells.
ghost use Rattle.std.specs.Prelude.{◌≡◌, ◌↔◌, ◌<◌, true, ℕ, IfOk, IfSome, IsTrue, MatchOption, MatchResult};
ghost use Rattle.lake_base.specs.Maps.{HasAscendingKeys, IsAt, IsGap};
ghost use Rattle.keeper.specs.Keepers.{entries_of};
ghost use Rattle.pair_format.specs.declared.stored.Stored.{Stored as AnyStored};
ghost use Rattle.pair_format.specs.Keys.{key_value};
ghost use Rattle.pair_format.specs.PairSpelling.{IsSpelledStored, IsStoredKey, key_of, pair_spelling};
ghost use Rattle.pair_trees.specs.Spelled.{AreSpelled, AreSpellings, HasNoKey, IsKeyAt};
ghost use Rattle.pair_trees.specs.Things.{HasKey, IsFound, Spells, is_branch, is_staged, thing_of, things_of};

use lake_base::NoMemory;
use pair_format::{Pair, PairFault, Stored, StoredKey, decode_pair, encode_key};
use std::alloc::Global;
use std::marker::Model;

/// Pairs whose keys strictly ascend, and what each spells, so that things are found by a search over the keys.
/// Contracts see what they spell, in order; a pair that isn't of a form spells nothing.
#[derive(Drop)]
pub struct SpelledPairs<'a> {
    pairs: &'a [Pair],
    things: Vec<Option<Stored>>,
}

impl<'a> Model for SpelledPairs<'a> {
    ghost use Rattle.pair_trees.specs.Spelled.{AreSpelled};
    ghost use Rattle.pair_trees.specs.Things.{Things};

    ghost Value = { Things };

    ghost view = { λ spelled. spelled.things.items };

    ghost invariant = { λ spelled. AreSpelled spelled.pairs.now spelled.things.items };
}

impl<'a> SpelledPairs<'a> {
    /// Reads each of these pairs once.
    pub fn read(alloc: Global, pairs: &'a [Pair]) -> Result<SpelledPairs<'a>, NoMemory>
        requires { HasAscendingKeys (entries_of pairs.now) }
        ensures things { IfOk result (λ spelled. spelled ≡ things_of pairs.now) }
        ensures spelled { IfOk result (λ spelled. AreSpelled pairs.now spelled) }
    {
        let things = read_things(alloc, pairs)?;
        Ok(SpelledPairs { pairs, things })
    }

    /// What they spell, in order. It takes no memory. Each is within its limits, and no two have one key.
    pub fn as_slice(&self) -> &[Option<Stored>]
        ensures things { result.now ≡ self.now }
        ensures limits { (n : ℕ) (s : AnyStored) → Spells self.now n s → IsSpelledStored s }
        ensures apart { (n m : ℕ) (s t : AnyStored) → Spells self.now n s → Spells self.now m t
            → key_of s ≡ key_of t → n ≡ m }
        // A branch stands before a change.
        ensures order { (n m : ℕ) (s t : AnyStored) → Spells self.now n s → Spells self.now m t
            → is_branch s ≡ true → is_staged t ≡ true → n < m }
    {
        let _ = self.pairs;
        self.things.as_slice()
    }

    /// What is there under a key, by a search.
    pub fn find(&self, alloc: Global, key: &StoredKey) -> Result<Option<&Stored>, NoMemory>
        requires { IsStoredKey (key_value key.now) }
        ensures { IfOk result (λ found. MatchOption found (¬ HasKey self.now (key_value key.now))
            (λ s. IsFound self.now (key_value key.now) s.now)) }
    {
        let bytes = encode_key(alloc, key)?;
        match place(self.pairs, bytes.as_slice()) {
            Some(at) => Ok(self.things[at].as_ref()),
            None => Ok(None),
        }
    }

    /// Whether something is there under a key, by a search.
    pub fn has(&self, alloc: Global, key: &StoredKey) -> Result<bool, NoMemory>
        requires { IsStoredKey (key_value key.now) }
        ensures { IfOk result (λ there. IsTrue there ↔ HasKey self.now (key_value key.now)) }
    {
        Ok(self.find(alloc, key)?.is_some())
    }

    /// What they spell, which is no longer found by keys.
    pub fn into_things(self) -> Vec<Option<Stored>>
        ensures { result.items ≡ self.entry }
    {
        self.things
    }
}

// The place of the pair with a key of these bytes, by a search.
fn place(pairs: &[Pair], key: &[u8]) -> Option<usize>
    requires { HasAscendingKeys (entries_of pairs.now) }
    ensures { MatchOption result (HasNoKey pairs.now key.now) (IsKeyAt pairs.now key.now) }
{
    match search(pairs, key) {
        Ok(at) => Some(at),
        Err(_) => None,
    }
}

// Where a key of these bytes is, or where it would go.
fn search(pairs: &[Pair], key: &[u8]) -> Result<usize, usize>
    requires { HasAscendingKeys (entries_of pairs.now) }
    ensures { MatchResult result (IsAt (entries_of pairs.now) key.now) (IsGap (entries_of pairs.now) key.now) }
{
    pairs.binary_search_by(|pair| pair.key.as_slice().cmp(key))
}

// What each of these pairs spells.
fn read_things(alloc: Global, pairs: &[Pair]) -> Result<Vec<Option<Stored>>, NoMemory>
    ensures same { IfOk result (λ things. things.items ≡ things_of pairs.now) }
    ensures each { IfOk result (λ things. AreSpellings pairs.now things.items) }
{
    let mut things = Vec::with_capacity(alloc, pairs.len())?;
    for pair in pairs {
        things.push(read_thing(alloc, pair)?)?;
    }
    Ok(things)
}

// What a pair spells.
fn read_thing(alloc: Global, pair: &Pair) -> Result<Option<Stored>, NoMemory>
    ensures same { IfOk result (λ thing. thing ≡ thing_of pair.now) }
    ensures spelled { IfOk result (λ thing. IfSome thing (λ s. IsSpelledStored s × (pair.now ≡ pair_spelling s))) }
{
    match decode_pair(alloc, pair) {
        Ok(stored) => Ok(Some(stored)),
        Err(PairFault::NoMemory) => Err(NoMemory),
        Err(_) => Ok(None),
    }
}
