//! The map.
ghost use Rattle.std.specs.Prelude.{◌≡◌, None, OnOk, OnErr, option_copied};
ghost use Rattle.std.specs.Option.{option_copied_mut};
ghost use Rattle.std.specs.FinMap as map;
ghost use Rattle.std.specs.Borrow.{sem};
ghost use Rattle.std.specs.Map.Iter.{ShowsInOrder, deref_pair};
ghost use Rattle.byte_map.specs.MapRows.{rows_by_bytes, entries_above};

use crate::key::ByteKey;
use lake_base::outside::NoMemory;
use std::alloc::Global;
use std::collections::BTreeMap;
use std::collections::btree_map::{Iter, Range};
use std::marker::Model;
use std::ops::Bound;

/// Values under keys, in byte order of the keys. Contracts see the finite map from the bytes of a key to its value.
#[derive(Debug, Drop)]
pub struct ByteMap<K: ByteKey, V> {
    rows: BTreeMap<K, V>,
}

impl<K: ByteKey, V> Model for ByteMap<K, V> {
    ghost use Rattle.std.specs.FinMap as map;
    ghost use Rattle.std.specs.Coded.{coded_list, coded_ℕ};
    ghost use Rattle.lake_base.specs.Maps.{ByteMap as MapTo};
    ghost use Rattle.byte_map.specs.MapRows.{rows_by_bytes};

    ghost Value = { MapTo V };

    ghost coded = { map.code (coded_list coded_ℕ) V.code };

    ghost view = { λ m. map.from_entries (rows_by_bytes K.bytes m.rows.entries) };
}

impl<K: ByteKey, V> ByteMap<K, V> {
    ghost use Rattle.byte_map.specs.Lends.{LendsValue};

    /// An empty map. It takes no memory.
    pub fn new(alloc: Global) -> Self
        ensures { result ≡ map.empty }
    {
        ByteMap {
            rows: BTreeMap::new(alloc),
        }
    }

    /// How many keys it has. It takes no memory.
    pub fn len(&self) -> usize
        ensures { result ≡ map.len self.now }
    {
        self.rows.len()
    }

    /// The value under a key, by a search. It takes no memory.
    pub fn get(&self, key: &K) -> Option<&V>
        ensures { option_copied result ≡ map.get self.now (K.bytes key.now) }
    {
        self.rows.get(key)
    }

    /// Whether it has a key, by a search. It takes no memory.
    pub fn contains_key(&self, key: &K) -> bool
        ensures { result ≡ map.contains_key self.now (K.bytes key.now) }
    {
        self.rows.contains_key(key)
    }

    /// The value under a key, to be changed in place, by a search. It takes no memory. The map ends with what is left
    /// there under the key, and where it has no such key as it was.
    pub fn get_mut(&mut self, key: &K) -> Option<&mut V>
        ensures* writes_back { sem 𝓛 (LendsValue K.row V.row K.ByteKey self.entry (K.bytes key.now) result) }
        ensures value { option_copied_mut result ≡ map.get self.old (K.bytes key.now) }
    {
        self.rows.get_mut(key)
    }

    /// Puts a value under a key, by a search, and lets go what was there. Where no memory is left for a new key, the
    /// map stays; under a key that is there it can't be refused.
    pub fn insert(&mut self, key: K, value: V) -> Result<(), NoMemory>
    where
        V: Drop,
        ensures inserted { OnOk result (self.new ≡ map.insert self.old (K.bytes key) value) }
        ensures unchanged { OnErr result (self.new ≡ self.old) }
        ensures absent { OnErr result (map.get self.old (K.bytes key) ≡ None) }
    {
        self.rows.insert(key, value)?;
        Ok(())
    }

    /// Takes out the value under a key, by a search. It takes no memory.
    pub fn remove(&mut self, key: &K) -> Option<V>
        ensures removed { self.new ≡ map.remove self.old (K.bytes key.now) }
        ensures value { result ≡ map.get self.old (K.bytes key.now) }
    {
        self.rows.remove(key)
    }

    /// The keys with their values, in order. It takes no memory.
    pub fn iter(&self) -> Iter<'_, K, V>
        ensures rows { rows_by_bytes K.bytes result ≡ map.entries self.now }
        ensures runs { ShowsInOrder (deref_pair {K = K} {X = V}) }
    {
        self.rows.iter()
    }

    /// The keys above a key with their values, in order, from a search on. It takes no memory.
    pub fn above(&self, key: &K) -> Range<'_, K, V>
        ensures rows { rows_by_bytes K.bytes result ≡ entries_above (K.bytes key.now) self.now }
        ensures runs { ShowsInOrder (deref_pair {K = K} {X = V}) }
    {
        self.rows.range((Bound::Excluded(key), Bound::Unbounded))
    }
}
