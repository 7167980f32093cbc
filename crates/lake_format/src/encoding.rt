//! Entries and rows as bytes: the project's own format.
//!
//! | field | bytes |
//! |---|---|
//! | place, own | `00`, the number in 8 bytes, 32 bytes of SHA-256 |
//! | place, external | `01`, the address and the checksum, each behind 2 bytes of length |
//! | size, time | 8 bytes each |
//! | content type | behind 2 bytes of length |
//! | metadata | 2 bytes of count, then each key and value behind 2 bytes of length |
//!
//! Numbers have their high byte first. An object of 5 bytes at `s3://x` with no checksum, content type or
//! metadata is `01 0006 73333a2f2f78 0000`, 8 bytes of size, 8 of time, `0000 0000`: 31 bytes. A row is a path
//! behind 2 bytes of length, and its entry.
ghost use Rattle.std.specs.Prelude.{◌≡◌, ◌≢◌, ◌++◌, ◌+◌, ◌-◌, ◌≤◌, ℕ, List, length, drop, Ok, Err, OnOk, OnErr, IfOk};
ghost use Rattle.std.specs.Int.{w64, to_be_bytes};
ghost use Rattle.lake_values.specs.Entry.{EntryValue, IsPlace};
ghost use Rattle.lake_format.specs.Spelling.{place_spelling, pairs_spelling, entry_spelling, row_spelling, own_address};
ghost use Rattle.lake_format.specs.Spelling.{IsOwn, IsSpelledPlace, IsEntry, IsRow, AreBytes};
ghost use Rattle.lake_format.specs.Writing.{HasRoom, Appends};
ghost use Rattle.lake_format.specs.declared.fields.FieldFault.TheVariants.{Short, Bad};
ghost use Rattle.lake_format.specs.Reading.{ReadsAs, ReadsEntry, read_address, read_own, read_external, read_place};
ghost use Rattle.lake_format.specs.Reading.{read_entry, entry_from};

use crate::fields::{
    EntryFault, FieldFault, pairs_len, read_digest, read_metadata, read_text, read_u64,
    write_bytes, write_digest, write_metadata, write_text,
};
use lake_base::names::Path;
use lake_base::outside::NoMemory;
use lake_base::text::Text;
use lake_values::entry::{Entry, Place};
use std::alloc::Global;

/// The one spelling of the entry.
pub fn entry_bytes(alloc: Global, entry: &Entry) -> Result<Vec<u8>, NoMemory>
    ensures spelled { IfOk result (λ bytes. bytes.items ≡ entry_spelling entry.now) }
    ensures limits { OnOk result (IsEntry entry.now) }
{
    let mut out = Vec::new(alloc);
    put_entry(&mut out, entry)?;
    Ok(out)
}

/// Appends the spelling of the entry.
pub fn put_entry(out: &mut Vec<u8>, entry: &Entry) -> Result<(), NoMemory>
    ensures spelled { OnOk result (out.new.items ≡ out.old.items ++ entry_spelling entry.now) }
    ensures unchanged { OnErr result (out.new.items ≡ out.old.items) }
    ensures limits { OnOk result (IsEntry entry.now) }
{
    out.reserve(entry_len(entry))?;
    write_entry(out, entry);
    Ok(())
}

/// Appends a row of a range: a path and its entry.
pub fn put_row(out: &mut Vec<u8>, path: &Path, entry: &Entry) -> Result<(), NoMemory>
    ensures spelled { OnOk result
        (out.new.items ≡ out.old.items ++ row_spelling (path.now, entry.now)) }
    ensures unchanged { OnErr result (out.new.items ≡ out.old.items) }
    ensures limits { OnOk result (IsRow (path.now, entry.now)) }
{
    out.reserve(row_len(path, entry))?;
    write_text(out, path.as_slice());
    write_entry(out, entry);
    Ok(())
}

/// How many bytes the spelling of the entry has: at most 76,440. It takes no memory.
pub fn entry_len(entry: &Entry) -> usize
    ensures bytes { result ≡ length (entry_spelling entry.now) }
    ensures few { result ≤ 76440 }
{
    place_len(&entry.place) + 18 + entry.content_type.as_slice().len() + pairs_len(&entry.metadata)
}

/// How many bytes a row has. It takes no memory.
pub fn row_len(path: &Path, entry: &Entry) -> usize
    ensures bytes { result ≡ length (row_spelling (path.now, entry.now)) }
    ensures few { result ≤ 77466 }
{
    2 + path.as_slice().len() + entry_len(entry)
}

// How many bytes a place has.
fn place_len(place: &Place) -> usize
    requires { IsPlace place.now }
    ensures bytes { result ≡ length (place_spelling place.now) }
    ensures few { result ≤ 2181 }
{
    match place {
        Place::Own { digest, .. } => 9 + digest_len(&digest.0),
        Place::External { at, checksum } => 5 + at.as_slice().len() + checksum.as_slice().len(),
    }
}

// How many bytes a digest has: 32.
fn digest_len(digest: &[u8]) -> usize
    requires { length digest.now ≡ 32 }
    ensures bytes { result ≡ length digest.now }
    ensures few { result ≡ 32 }
{
    digest.len()
}

// Appends the spelling of the entry.
fn write_entry(out: &mut Vec<u8>, entry: &Entry)
    requires { HasRoom out.old (length (entry_spelling entry.now)) }
    ensures spelled { Appends out.old out.new (entry_spelling entry.now) }
    ensures limits { IsEntry entry.now }
{
    write_place(out, &entry.place);
    write_bytes(out, &entry.size.to_be_bytes());
    write_bytes(out, &entry.mtime.to_be_bytes());
    write_text(out, entry.content_type.as_str().as_bytes());
    write_metadata(out, &entry.metadata);
}

// Appends the spelling of the place.
fn write_place(out: &mut Vec<u8>, place: &Place)
    requires limits { IsPlace place.now }
    requires room { HasRoom out.old (length (place_spelling place.now)) }
    ensures spelled { Appends out.old out.new (place_spelling place.now) }
    ensures limits { IsSpelledPlace place.now }
{
    match place {
        Place::Own { number, digest } => {
            write_bytes(out, &[0]);
            write_own(out, *number, &digest.0);
        }
        Place::External { at, checksum } => {
            write_bytes(out, &[1]);
            write_text(out, at.as_str().as_bytes());
            write_text(out, checksum.as_str().as_bytes());
        }
    }
}

// Appends a number and the 32 bytes of a digest.
fn write_own(out: &mut Vec<u8>, number: u64, digest: &[u8])
    requires long { length digest.now ≡ 32 }
    requires room { HasRoom out.old 40 }
    ensures spelled { Appends out.old out.new (to_be_bytes w64 number ++ digest.now) }
    ensures limits { IsOwn number digest.now }
{
    write_bytes(out, &number.to_be_bytes());
    write_digest(out, digest);
}

// An address outside.
#[tactic(auto, unfolding(crate::specs::Reading::read_address))]
fn read_address(alloc: Global, bytes: &[u8]) -> Result<(Text, &[u8]), FieldFault>
    ensures { ReadsAs (λ x. (x.0, x.1.now)) result (read_address bytes.now) }
{
    let (at, rest) = read_text(alloc, bytes, 1, 2048)?;
    if at.as_slice().starts_with(b"lake://") {
        return Err(FieldFault::Bad { left: bytes.len() });
    }
    Ok((at, rest))
}

#[tactic(auto, unfolding(crate::specs::Reading::read_own))]
fn read_own(bytes: &[u8]) -> Result<(Place, &[u8]), FieldFault>
    ensures { ReadsAs (λ x. (x.0, x.1.now)) result (read_own bytes.now) }
{
    let (number, rest) = read_u64(bytes)?;
    let (digest, rest) = read_digest(rest)?;
    Ok((Place::Own { number, digest }, rest))
}

#[tactic(auto, unfolding(crate::specs::Reading::read_external))]
fn read_external(alloc: Global, bytes: &[u8]) -> Result<(Place, &[u8]), FieldFault>
    ensures { ReadsAs (λ x. (x.0, x.1.now)) result (read_external bytes.now) }
{
    let (at, rest) = read_address(alloc, bytes)?;
    let (checksum, rest) = read_text(alloc, rest, 0, 128)?;
    Ok((Place::External { at, checksum }, rest))
}

#[tactic(auto, unfolding(crate::specs::Reading::read_place))]
fn read_place(alloc: Global, bytes: &[u8]) -> Result<(Place, &[u8]), FieldFault>
    ensures { ReadsAs (λ x. (x.0, x.1.now)) result (read_place bytes.now) }
{
    match bytes {
        [] => Err(FieldFault::Short { left: 0 }),
        [0, rest @ ..] => read_own(rest),
        [1, rest @ ..] => read_external(alloc, rest),
        [_, ..] => Err(FieldFault::Bad { left: bytes.len() }),
    }
}

/// The entry at the front of the bytes, and the bytes after it.
#[tactic(auto, unfolding(crate::specs::Reading::read_entry))]
pub fn read_entry(alloc: Global, bytes: &[u8]) -> Result<(Entry, &[u8]), FieldFault>
    ensures { ReadsAs (λ x. (x.0, x.1.now)) result (read_entry bytes.now) }
{
    let (place, rest) = read_place(alloc, bytes)?;
    let (size, rest) = read_u64(rest)?;
    let (mtime, rest) = read_u64(rest)?;
    let (content_type, rest) = read_text(alloc, rest, 0, 255)?;
    let (metadata, rest) = read_metadata(alloc, rest)?;
    let entry = Entry {
        place,
        size,
        mtime,
        content_type,
        metadata,
    };
    Ok((entry, rest))
}

// The bytes from a place on: none where it is past their end.
fn tail(bytes: &[u8], from: usize) -> &[u8]
    ensures { result.now ≡ drop from bytes.now }
{
    if from < bytes.len() {
        &bytes[from..]
    } else {
        &bytes[bytes.len()..]
    }
}

/// The entry that starts at `from`, and its end. Short comes exactly where the input ends inside a field,
/// Bad exactly where a field's value is outside its limits, the first from the left. `read_entry` says where.
pub fn entry_read(alloc: Global, bytes: &[u8], from: usize) -> Result<(Entry, usize), EntryFault>
    // What is read is spelled so.
    ensures found { IfOk result (λ x. IsEntry x.0
        × (drop from bytes.now ≡ entry_spelling x.0 ++ drop x.1 bytes.now)) }
    // What is spelled so is read, unless memory runs out.
    ensures only { (e : EntryValue) (rest : List ℕ) → IsEntry e
        → drop from bytes.now ≡ entry_spelling e ++ rest
        → ReadsEntry result (Ok (e, length bytes.now - length rest)) }
    // Which fault it is.
    ensures exact { ReadsEntry result (entry_from bytes.now from) }
{
    let found = entry_with_end(alloc, bytes, from)?;
    Ok(found)
}

// The entry that starts there, and its end.
#[tactic(auto, unfolding(crate::specs::Reading::entry_from))]
fn entry_with_end(alloc: Global, bytes: &[u8], from: usize) -> Result<(Entry, usize), FieldFault>
    ensures { ReadsAs (λ x. x) result (entry_from bytes.now from) }
{
    let (entry, rest) = read_entry(alloc, tail(bytes, from))?;
    Ok((entry, bytes.len() - rest.len()))
}

/// The address of an own object as it is printed: `lake://objects/` and its number as 16 lower-case hex digits.
#[tactic(auto, unfolding(crate::specs::Spelling::own_address))]
pub fn own_address(alloc: Global, number: u64) -> Result<Text, NoMemory>
    ensures { IfOk result (λ address. address ≡ own_address number) }
{
    let digits = hex::encode(alloc, &number.to_be_bytes())?;
    let mut address = String::from_str(alloc, "lake://objects/")?;
    address.push_str(digits.as_str())?;
    Ok(Text::of(address))
}

/// What is spelled is read again, whatever follows it. So no entry's spelling begins with another's, and
/// none has two. What is read is spelled so. (A law: it does nothing.)
pub fn laws_of_spelling()
    ensures again { (e : EntryValue) (rest : List ℕ) → IsEntry e
        → read_entry (entry_spelling e ++ rest) ≡ Ok (e, rest) }
    ensures apart { (a b : EntryValue) (x y : List ℕ) → IsEntry a → IsEntry b
        → entry_spelling a ++ x ≡ entry_spelling b ++ y → (a ≡ b) × (x ≡ y) }
    ensures found { (bytes : List ℕ) (e : EntryValue) (rest : List ℕ) → AreBytes bytes
        → read_entry bytes ≡ Ok (e, rest) → IsEntry e × (bytes ≡ entry_spelling e ++ rest) }
{}

/// What was read, or refused as Bad, stays so whatever follows, at the same place from the front; and what is Short
/// isn't Short any more once enough bytes follow. A fault's place is within the input. No entry takes more than
/// 76,440 bytes, and that many are never Short. (A law: it does nothing.)
pub fn law_of_reading()
    ensures found { (bytes more : List ℕ) (e : EntryValue) (rest : List ℕ)
        → read_entry bytes ≡ Ok (e, rest) → read_entry (bytes ++ more) ≡ Ok (e, rest ++ more) }
    ensures bad { (bytes more : List ℕ) (left : ℕ) → read_entry bytes ≡ Err (Bad left)
        → read_entry (bytes ++ more) ≡ Err (Bad (left + length more)) }
    ensures bad_place { (bytes : List ℕ) (left : ℕ) → read_entry bytes ≡ Err (Bad left)
        → left ≤ length bytes }
    ensures short_place { (bytes : List ℕ) (left : ℕ) → read_entry bytes ≡ Err (Short left)
        → left ≤ length bytes }
    ensures short { (bytes : List ℕ) (left : ℕ) → 76440 ≤ length bytes
        → read_entry bytes ≢ Err (Short left) }
    ensures most { (bytes : List ℕ) (e : EntryValue) (rest : List ℕ)
        → read_entry bytes ≡ Ok (e, rest) → length bytes ≤ 76440 + length rest }
{}
