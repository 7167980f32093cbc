//! The first of a map's rows whose names are above some bytes.
ghost use Rattle.std.specs.Prelude.{◌≡◌, ◌∷◌, ℕ, List, [], length, take, nat_lt, IfOk, IfSome, MatchOption};
ghost use Rattle.std.specs.FinMap.{entries};
ghost use Rattle.std.specs.Option.{option_map_or};
ghost use Rattle.byte_map.specs.MapRows.{entries_above, rows_by_bytes};
ghost use Rattle.core_readings.specs.NamedRows.{rows_above, rows_left};

use byte_map::{ByteKey, ByteMap};
use lake_base::{NoMemory, Sequence, Text};
use lake_values::cursor::is_below;
use std::alloc::Global;
use std::collections::btree_map::{Iter, Range};

// A name, whose bytes it is known by.
pub(crate) trait Name: ByteKey {
    // The name that these bytes are, where they are one.
    fn named(alloc: Global, bytes: &[u8]) -> Result<Option<Self>, NoMemory>
        ensures { IfOk result (λ found. IfSome found (λ name. Self.bytes name ≡ bytes.now)) };

    fn text(&self) -> &[u8]
        ensures { result.now ≡ Self.bytes self.now };
}

// What is told of a name and of what stands under it.
pub(crate) trait Tell<K: Name, V> {
    type Row: Drop;

    ghost told: { List ℕ → V → Self.Row };

    fn tell(alloc: Global, name: &K, value: &V) -> Result<Self::Row, NoMemory>
        ensures { IfOk result (λ row. row ≡ told (K.bytes name.now) value.now) };
}

// Rows that are still to come: all of a map, or those above a name.
#[derive(Drop)]
pub(crate) enum Rows<'a, K, V> {
    All(Iter<'a, K, V>),
    Above(Range<'a, K, V>),
}

// The row that comes next, which is passed.
fn next_row<'a, K, V>(rows: &mut Rows<'a, K, V>) -> Option<(&'a K, &'a V)>
    ensures { MatchOption result (rows_left rows.old ≡ [])
        (λ row. rows_left rows.old ≡ (row.0.now, row.1.now) ∷ rows_left rows.new) }
{
    match rows {
        Rows::All(rows) => rows.next(),
        Rows::Above(rows) => rows.next(),
    }
}

// What is told of the rows whose names are above some bytes, so many of them, and whether one is left. A name under
// which nothing stands is passed over. Where the bytes are a name, the search starts there.
pub(crate) fn first_told<K: Name, V, T: Tell<K, V>>(
    alloc: Global,
    map: &ByteMap<K, Option<V>>,
    after: &Text,
    amount: usize,
) -> Result<(Sequence<T::Row>, bool), NoMemory>
    ensures rows { IfOk result (λ found.
        found.0 ≡ take amount (rows_above T.told after.now (entries map.now))) }
    ensures more { IfOk result (λ found.
        found.1 ≡ nat_lt amount (length (rows_above T.told after.now (entries map.now)))) }
{
    let after = after.as_slice();
    let start = K::named(alloc, after)?;
    told_of::<K, V, T>(alloc, rows_from(map, &start), after, amount)
}

// All rows of a map, or those above a name.
fn rows_from<'a, K: Name, V>(map: &'a ByteMap<K, V>, start: &Option<K>) -> Rows<'a, K, V>
    ensures { rows_by_bytes K.bytes (rows_left result)
        ≡ option_map_or (λ name. entries_above (K.bytes name) map.now) start.now (entries map.now) }
{
    match start {
        Some(name) => Rows::Above(map.above(name)),
        None => Rows::All(map.iter()),
    }
}

// The same of rows that are still to come.
fn told_of<K: Name, V, T: Tell<K, V>>(
    alloc: Global,
    mut rows: Rows<K, Option<V>>,
    after: &[u8],
    amount: usize,
) -> Result<(Sequence<T::Row>, bool), NoMemory>
    ensures rows { IfOk result (λ found. found.0
        ≡ take amount (rows_above T.told after.now (rows_by_bytes K.bytes (rows_left rows.entry)))) }
    ensures more { IfOk result (λ found. found.1
        ≡ nat_lt amount (length (rows_above T.told after.now (rows_by_bytes K.bytes (rows_left rows.entry))))) }
{
    let mut told = Vec::new(alloc);
    while let Some((name, place)) = next_row(&mut rows) {
        let Some(value) = place else {
            continue;
        };
        if !is_below(after, name.text()) {
            continue;
        }
        if told.len() >= amount {
            return Ok((Sequence::of(told), true));
        }
        told.push(T::tell(alloc, name, value)?)?;
    }
    Ok((Sequence::of(told), false))
}
