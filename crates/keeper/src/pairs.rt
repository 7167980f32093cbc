//! Pairs in an ordered map, so that a put costs a search.
ghost use Rattle.std.specs.Prelude.{◌≡◌, Some, refl, IfOk, OnOk, OnErr, IfErr};
ghost use Rattle.std.specs.Cmp.{partial_equiv_from_equiv};
ghost use Rattle.std.specs.Cmp.Lexicographic.{nat_list_cmp_total, nat_list_eq_equiv, texts_po, texts_ties};
ghost use Rattle.std.specs.Str.{bytes_eq};
ghost use Rattle.std.specs.BTreeMap.{IsOrdered};
ghost use Rattle.std.specs.FinMap as map;
ghost use Rattle.lake_base.specs.Maps.{byte_order};
ghost use Rattle.keeper.specs.Keepers.{entries_of, pairs_with};

use crate::put::{Put, copied_bytes};
use lake_base::outside::NoMemory;
use lake_base::sequence::Sequence;
use pair_format::Pair;
use std::alloc::Global;
use std::cmp::Ordering;
use std::collections::BTreeMap;
use std::marker::Model;

// A key, in byte order. Contracts see its bytes.
#[derive(Debug, Drop)]
pub(crate) struct OrderedKey {
    bytes: Sequence<u8>,
}

impl Model for OrderedKey {
    ghost use Rattle.std.specs.Prelude.{List, ℕ};

    ghost Value = { List ℕ };

    ghost view = { λ key. key.bytes };
}

impl PartialEq for OrderedKey {
    ghost eq = { bytes_eq };

    ghost laws = { partial_equiv_from_equiv nat_list_eq_equiv };

    fn eq(&self, other: &OrderedKey) -> bool {
        self.bytes.as_slice() == other.bytes.as_slice()
    }
}

impl Eq for OrderedKey {
    ghost laws = { nat_list_eq_equiv };
}

impl PartialOrd for OrderedKey {
    ghost partial_cmp = { λ key other. Some (byte_order key other) };

    ghost laws = { texts_po };

    fn partial_cmp(&self, other: &OrderedKey) -> Option<Ordering> {
        Some(self.cmp(other))
    }
}

impl Ord for OrderedKey {
    ghost cmp = { byte_order };

    ghost total = { nat_list_cmp_total };

    ghost matches_partial_cmp = { λ _ _. refl };

    ghost matches_eq = { texts_ties };

    fn cmp(&self, other: &OrderedKey) -> Ordering {
        self.bytes.as_slice().cmp(other.bytes.as_slice())
    }
}

// Pairs, at most one of each key. Contracts see the finite map from key to value.
#[derive(Debug, Drop)]
pub(crate) struct OrderedPairs {
    rows: BTreeMap<OrderedKey, Sequence<u8>>,
}

impl Model for OrderedPairs {
    ghost use Rattle.std.specs.FinMap as map;
    ghost use Rattle.std.specs.Coded.{coded_list, coded_ℕ};
    ghost use Rattle.keeper.specs.Keepers.{KeptPairs};

    ghost Value = { KeptPairs };

    ghost coded = { map.code (coded_list coded_ℕ) (coded_list coded_ℕ) };

    ghost view = { λ pairs. map.from_entries pairs.rows.entries };
}

impl OrderedPairs {
    // No pairs. It takes no memory.
    pub(crate) fn new(alloc: Global) -> OrderedPairs
        ensures { result ≡ map.empty }
    {
        OrderedPairs {
            rows: BTreeMap::new(alloc),
        }
    }

    // Makes a put, by a search. Where no memory is left, it comes back.
    pub(crate) fn make(&mut self, put: Put) -> Result<(), Put>
        ensures made { OnOk result (self.new ≡ pairs_with put self.old) }
        ensures unchanged { OnErr result (self.new ≡ self.old) }
        ensures back { IfErr result (λ back. back ≡ put) }
    {
        let Put { key, value } = put;
        let Some(value) = value else {
            self.remove(key);
            return Ok(());
        };
        match self.set(key, value) {
            Ok(()) => Ok(()),
            Err((key, value)) => Err(Put {
                key,
                value: Some(value),
            }),
        }
    }

    // Puts a value under a key. Where no memory is left, both come back.
    pub(crate) fn set(
        &mut self,
        key: Sequence<u8>,
        value: Sequence<u8>,
    ) -> Result<(), (Sequence<u8>, Sequence<u8>)>
        ensures set { OnOk result (self.new ≡ map.insert self.old key value) }
        ensures unchanged { OnErr result (self.new ≡ self.old) }
        ensures back { IfErr result (λ row. row ≡ (key, value)) }
    {
        match self.rows.insert(OrderedKey { bytes: key }, value) {
            Ok(_) => Ok(()),
            Err(failed) => {
                let (key, value) = failed.value;
                Err((key.bytes, value))
            }
        }
    }

    // Takes away what stands under a key.
    fn remove(&mut self, key: Sequence<u8>)
        ensures { self.new ≡ map.remove self.old key }
    {
        let key = OrderedKey { bytes: key };
        let _value = self.rows.remove(&key);
    }

    // All pairs, in byte order of their keys.
    pub(crate) fn all(&self, alloc: Global) -> Result<Vec<Pair>, NoMemory>
        ensures { IfOk result (λ pairs. entries_of pairs.items ≡ map.entries self.now) }
    {
        let pairs = pairs_in(alloc, &self.rows)?;
        Ok(pairs)
    }
}

// The pairs in an ordered map.
fn pairs_in(alloc: Global, rows: &BTreeMap<OrderedKey, Sequence<u8>>) -> Result<Vec<Pair>, NoMemory>
    ensures pairs { IfOk result (λ pairs. entries_of pairs.items ≡ rows.now.entries) }
    ensures ordered { IsOrdered byte_order rows.now }
{
    let mut pairs = Vec::with_capacity(alloc, rows.len())?;
    for (key, value) in rows.iter() {
        pairs.push(pair_of(alloc, &key.bytes, value)?)?;
    }
    Ok(pairs)
}

// A pair of equal bytes.
fn pair_of(alloc: Global, key: &Sequence<u8>, value: &Sequence<u8>) -> Result<Pair, NoMemory>
    ensures { IfOk result (λ pair. pair ≡ record { key = key.now; value = value.now }) }
{
    let key = copied_bytes(alloc, key)?;
    let value = copied_bytes(alloc, value)?;
    Ok(Pair { key, value })
}
