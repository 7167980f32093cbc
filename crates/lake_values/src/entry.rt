//! What stands at a path: an entry, and a change of one.
ghost use Rattle.std.specs.Prelude.{◌≡◌, ◌↔◌, IsTrue, option_copied};
ghost use Rattle.std.specs.Cmp.Lexicographic.{pointwise};
ghost use Rattle.lake_values.specs.Body.{Fits};
ghost use Rattle.lake_values.specs.Entry.{EntryValue as AnyEntry, IsOutside, IsPlace, CanHold};
ghost use Rattle.lake_values.specs.Sameness.{same_place, same_pair, same_entry, same_value};

use crate::pairs::Pairs;
use lake_base::copying::TryCopy;
use lake_base::digest::Digest;
use lake_base::limits::{ADDRESS_LIMIT, CHECKSUM_LIMIT};
use lake_base::outside::NoMemory;
use lake_base::text::Text;
use std::alloc::Global;
use std::marker::Model;

/// Where an object's bytes are.
#[derive(Debug, Drop)]
pub enum Place {
    /// In the lake's own block store, under a number that is never used twice.
    Own { number: u64, digest: Digest },
    /// At an address outside, with the checksum that was given for it. In an entry the address has 1 to
    /// 2,048 bytes and doesn't begin with `lake://`, and the checksum has at most 128 bytes.
    External { at: Text, checksum: Text },
}

/// An object as it stands at a path. Its content type has at most 255 bytes; `Entry::can_hold` is the test.
/// Contracts see its fields.
#[derive(Debug, Drop)]
pub struct Entry {
    pub place: Place,
    /// In bytes.
    pub size: u64,
    /// Seconds since 1970.
    pub mtime: u64,
    pub content_type: Text,
    pub metadata: Pairs,
}

impl Model for Entry {
    ghost use Rattle.lake_values.specs.Entry.{EntryValue, CanHold};

    ghost Value = { EntryValue };

    ghost view = { λ entry. record {
      place = entry.place;
      size = entry.size;
      mtime = entry.mtime;
      content_type = entry.content_type;
      metadata = entry.metadata;
    } };

    ghost invariant = { λ entry. CanHold entry.place entry.content_type };
}

/// What a write does at a path.
#[derive(Debug, Drop)]
pub enum Change {
    /// The entry is put there.
    Put(Entry),
    /// Whatever is there goes.
    Delete,
}

impl TryCopy for Place {
    fn copy(&self, alloc: Global) -> Result<Place, NoMemory> {
        match self {
            Place::Own { number, digest } => Ok(Place::Own {
                number: *number,
                digest: *digest,
            }),
            Place::External { at, checksum } => Ok(Place::External {
                at: at.copy(alloc)?,
                checksum: checksum.copy(alloc)?,
            }),
        }
    }
}

impl Entry {
    /// Whether an entry may hold this place and this content type: an address outside of 1 to 2,048 bytes that
    /// doesn't begin with `lake://`, a checksum of at most 128, a content type of at most 255. It takes no memory.
    pub fn can_hold(place: &Place, content_type: &Text) -> bool
        ensures { IsTrue result ↔ CanHold place.now content_type.now }
    {
        is_place(place) && content_type.as_slice().len() <= 255
    }

    /// Whether the bytes are an own object's body: of its size and its digest. It takes no memory.
    pub fn fits(&self, body: &[u8]) -> bool
        ensures { IsTrue result ↔ Fits self.now body.now }
    {
        match &self.place {
            Place::Own { digest, .. } => body.len() as u64 == self.size
                && Digest::of(body) == *digest,
            Place::External { .. } => false,
        }
    }
}

impl TryCopy for Entry {
    fn copy(&self, alloc: Global) -> Result<Entry, NoMemory> {
        Ok(Entry {
            place: self.place.copy(alloc)?,
            size: self.size,
            mtime: self.mtime,
            content_type: self.content_type.copy(alloc)?,
            metadata: self.metadata.copy(alloc)?,
        })
    }
}

impl TryCopy for Change {
    fn copy(&self, alloc: Global) -> Result<Change, NoMemory> {
        match self {
            Change::Put(entry) => Ok(Change::Put(entry.copy(alloc)?)),
            Change::Delete => Ok(Change::Delete),
        }
    }
}

/// Whether two entries are equal in all fields. It takes no memory.
pub fn same_entry(entry: &Entry, other: &Entry) -> bool
    ensures { result ≡ same_entry entry.now other.now }
{
    same_place(&entry.place, &other.place)
        && entry.size == other.size
        && entry.mtime == other.mtime
        && entry.content_type.as_slice() == other.content_type.as_slice()
        && same_pairs(entry.metadata.as_slice(), other.metadata.as_slice())
}

/// Entries are told the same exactly where they are equal. (A law: it does nothing.)
pub fn law_of_sameness()
    ensures { (entry other : AnyEntry) → IsTrue (same_entry entry other) ↔ (entry ≡ other) }
{}

// Whether two values of a path are equal.
pub(crate) fn same_value(value: Option<&Entry>, other: Option<&Entry>) -> bool
    ensures { result ≡ same_value (option_copied value.entry) (option_copied other.entry) }
{
    match (value, other) {
        (None, None) => true,
        (Some(value), Some(other)) => same_entry(value, other),
        _ => false,
    }
}

// Whether a place is within its limits.
fn is_place(place: &Place) -> bool
    ensures { IsTrue result ↔ IsPlace place.now }
{
    match place {
        Place::Own { .. } => true,
        Place::External { at, checksum } => is_outside(at.as_slice(), checksum.as_slice()),
    }
}

// Whether an address outside and its checksum are within their limits.
fn is_outside(at: &[u8], checksum: &[u8]) -> bool
    ensures { IsTrue result ↔ IsOutside at.now checksum.now }
{
    !at.is_empty()
        && at.len() <= ADDRESS_LIMIT
        && !at.starts_with(b"lake://")
        && checksum.len() <= CHECKSUM_LIMIT
}

// Whether two places are equal.
fn same_place(place: &Place, other: &Place) -> bool
    ensures { result ≡ same_place place.now other.now }
{
    match (place, other) {
        (
            Place::Own { number, digest },
            Place::Own {
                number: n,
                digest: d,
            },
        ) => { *number == *n && digest.0.as_slice() == d.0.as_slice() }
        (Place::External { at, checksum }, Place::External { at: a, checksum: c }) => {
            at.as_slice() == a.as_slice() && checksum.as_slice() == c.as_slice()
        }
        _ => false,
    }
}

// Whether the metadata is equal.
fn same_pairs(pairs: &[(Text, Text)], others: &[(Text, Text)]) -> bool
    ensures { result ≡ pointwise same_pair pairs.now others.now }
{
    if pairs.len() != others.len() {
        return false;
    }
    for (at, pair) in pairs.iter().enumerate() {
        if !same_pair(pair, &others[at]) {
            return false;
        }
    }
    true
}

// Whether a key and its value are equal.
fn same_pair(pair: &(Text, Text), other: &(Text, Text)) -> bool
    ensures { result ≡ same_pair pair.now other.now }
{
    pair.0.as_slice() == other.0.as_slice() && pair.1.as_slice() == other.1.as_slice()
}
