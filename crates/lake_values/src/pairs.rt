//! Metadata: pairs of a key and a value.
ghost use Rattle.std.specs.Prelude.{◌≡◌, ◌↔◌, [], All, IsTrue, OnErr, MatchResult};
ghost use Rattle.std.specs.FinMap.{put};
ghost use Rattle.lake_base.specs.Maps.{byte_order, HasAscendingKeys, IsAt, IsGap};
ghost use Rattle.lake_values.specs.Pairs.{IsPair, ArePairs, pair_fault, room_fault, Sets};
ghost use Rattle.lake_values.specs.declared.pairs.PairsFault.TheVariants.{NoMemory as pairs_no_memory};

use crate::sorted::has_ascending_keys;
use lake_base::copying::{TryCopy, copied};
use lake_base::limits::{KEY_LIMIT, PAIRS_LIMIT, VALUE_LIMIT};
use lake_base::outside::NoMemory;
use lake_base::text::Text;
use std::alloc::{AllocFailed, Global};
use std::cmp::Ordering;
use std::marker::Model;
use std::mem;
use thiserror::Error;

/// Why a pair can't be set.
#[derive(Clone, Copy, Debug, PartialEq, Eq, Error)]
pub enum PairsFault {
    /// The key hasn't 1 to 128 bytes.
    #[error("the key has no bytes or too many")]
    Key,
    /// The value has more than 1,024 bytes.
    #[error("the value is too long")]
    Value,
    /// The key is new, and there are 64 pairs.
    #[error("there are 64 pairs")]
    Full,
    /// No memory was left.
    #[error("out of memory")]
    NoMemory,
}

impl From<NoMemory> for PairsFault {
    ghost from_gives = { λ _ e. e ≡ pairs_no_memory };

    fn from(_: NoMemory) -> Self {
        PairsFault::NoMemory
    }
}

impl<T: Drop> From<AllocFailed<T>> for PairsFault {
    ghost from_gives = { λ _ e. e ≡ pairs_no_memory };

    fn from(_: AllocFailed<T>) -> Self {
        PairsFault::NoMemory
    }
}

/// The metadata of an object or a commit: at most 64 pairs, keys strictly ascending as bytes, each key
/// of 1 to 128 bytes and each value of at most 1,024. Contracts see the list.
#[derive(Debug, Drop)]
pub struct Pairs {
    pairs: Vec<(Text, Text)>,
}

impl Model for Pairs {
    ghost use Rattle.std.specs.Prelude.{List, ℕ};
    ghost use Rattle.lake_values.specs.Pairs.{ArePairs};

    ghost Value = { List (List ℕ × List ℕ) };

    ghost view = { λ pairs. pairs.pairs.items };

    ghost invariant = { λ pairs. ArePairs pairs.pairs.items };
}

impl Pairs {
    /// No pairs. It takes no memory.
    pub fn new(alloc: Global) -> Pairs
        ensures { result ≡ [] }
    {
        Pairs {
            pairs: Vec::new(alloc),
        }
    }

    /// The metadata of these pairs: `are_pairs` tells whether they are within the limits. It takes no memory.
    pub fn from_vec(pairs: Vec<(Text, Text)>) -> Pairs
        requires { ArePairs pairs.items }
        ensures { result ≡ pairs.items }
    {
        Pairs { pairs }
    }

    /// The pairs, in order of their keys. It takes no memory.
    pub fn as_slice(&self) -> &[(Text, Text)]
        ensures pairs { result.now ≡ self.now }
        ensures valid { ArePairs self.now }
    {
        self.pairs.as_slice()
    }

    /// Puts the value at the key. Each fault comes exactly where it is the first, in the order of the enum.
    pub fn set(&mut self, key: Text, value: Text) -> Result<(), PairsFault>
        ensures set { Sets result (pair_fault key value self.old) (self.new ≡ put byte_order key value self.old) }
        ensures unchanged { OnErr result (self.new ≡ self.old) }
    {
        if key.as_slice().is_empty() || key.as_slice().len() > KEY_LIMIT {
            return Err(PairsFault::Key);
        }
        if value.as_slice().len() > VALUE_LIMIT {
            return Err(PairsFault::Value);
        }
        put_pair(&mut self.pairs, key, value)
    }

    /// The vector of the pairs. It takes no memory.
    pub fn into_vec(self) -> Vec<(Text, Text)>
        ensures pairs { result.items ≡ self }
        ensures valid { ArePairs result.items }
    {
        self.pairs
    }
}

impl TryCopy for Pairs {
    fn copy(&self, alloc: Global) -> Result<Pairs, NoMemory> {
        let pairs = copied(alloc, self.pairs.as_slice())?;
        Ok(Pairs { pairs })
    }
}

/// Whether these can be the pairs of metadata: at most 64, keys strictly ascending as bytes, each key of 1 to
/// 128 bytes and each value of at most 1,024. It takes no memory.
pub fn are_pairs(pairs: &[(Text, Text)]) -> bool
    ensures { IsTrue result ↔ ArePairs pairs.now }
{
    if pairs.len() > PAIRS_LIMIT {
        return false;
    }
    are_each_pairs(pairs) && has_ascending_keys(pairs)
}

// Whether each pair is within the limits of one.
fn are_each_pairs(pairs: &[(Text, Text)]) -> bool
    ensures { IsTrue result ↔ All IsPair pairs.now }
{
    for pair in pairs {
        if !is_pair(pair) {
            return false;
        }
    }
    true
}

// Whether a pair is within the limits of one.
fn is_pair(pair: &(Text, Text)) -> bool
    ensures { IsTrue result ↔ IsPair pair.now }
{
    let key = pair.0.as_slice();
    !key.is_empty() && key.len() <= KEY_LIMIT && pair.1.as_slice().len() <= VALUE_LIMIT
}

// Where the key is, or where it would go.
fn place(pairs: &[(Text, Text)], key: &Text) -> Result<usize, usize>
    requires { HasAscendingKeys pairs.now }
    ensures { MatchResult result (IsAt pairs.now key.now) (IsGap pairs.now key.now) }
{
    for (at, pair) in pairs.iter().enumerate() {
        match pair.0.as_slice().cmp(key.as_slice()) {
            Ordering::Less => {}
            Ordering::Equal => return Ok(at),
            Ordering::Greater => return Err(at),
        }
    }
    Err(pairs.len())
}

// Puts a pair within the limits of one.
fn put_pair(pairs: &mut Vec<(Text, Text)>, key: Text, value: Text) -> Result<(), PairsFault>
    requires pairs { ArePairs pairs.old.items }
    requires pair { IsPair (key, value) }
    ensures set { Sets result (room_fault key pairs.old.items)
        (pairs.new.items ≡ put byte_order key value pairs.old.items) }
    ensures unchanged { OnErr result (pairs.new.items ≡ pairs.old.items) }
    ensures pairs { ArePairs pairs.new.items }
{
    match place(pairs.as_slice(), &key) {
        Ok(at) => {
            let _old = mem::replace(&mut pairs[at], (key, value));
            Ok(())
        }
        Err(at) => {
            if pairs.as_slice().len() >= PAIRS_LIMIT {
                return Err(PairsFault::Full);
            }
            pairs.insert(at, (key, value))?;
            Ok(())
        }
    }
}
