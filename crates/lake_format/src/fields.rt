//! Fields of the spelled formats: numbers with their high byte first, digests, texts behind their length, metadata.
//!
//! A reader takes a field from the front of the bytes, and answers its value and the bytes after it. Its fault is
//! the first from the left, and says where the innermost field begins that is short or bad: a number, a digest, a
//! count, a text with its length, a key of metadata that isn't above the one before. A writer reserves room for
//! the whole field first, so that a refused call leaves its buffer as it was.
ghost use Rattle.std.specs.Prelude.{◌≡◌, ◌≢◌, ◌++◌, ◌+◌, ◌<◌, ◌≤◌, ◌^◌, length, None, OnOk, OnErr, IfErr};
ghost use Rattle.std.specs.Prelude.{option_copied};
ghost use Rattle.std.specs.Int.{w16, w32, w64, to_be_bytes};
ghost use Rattle.lake_format.specs.Spelling.{short_text, long_text, pairs_spelling, IsDigest, IsMetadata};
ghost use Rattle.lake_format.specs.Writing.{HasRoom, Appends};
ghost use Rattle.lake_format.specs.Reading.{ReadsAs, fault_place, entry_fault, read_number, read_bytes, read_utf8};
ghost use Rattle.lake_format.specs.Reading.{read_text, read_long_text, read_path, is_next, last_key, read_key};
ghost use Rattle.lake_format.specs.Reading.{read_pair, read_pairs, read_metadata};
ghost use Rattle.lake_format.specs.declared.fields.FieldFault.TheVariants.{NoMemory as field_no_memory};
ghost use Rattle.lake_format.specs.declared.fields.EntryFault.TheVariants.{NoMemory as entry_no_memory};

use lake_base::digest::Digest;
use lake_base::names::{NameFault, Path};
use lake_base::outside::NoMemory;
use lake_base::text::Text;
use lake_values::pairs::Pairs;
use std::alloc::{AllocError, AllocFailed, Global};
use std::cmp::Ordering;
use thiserror::Error;

/// Why a field can't be read: the first fault from the left. `left` is how many bytes are left where the innermost
/// field begins that is short or bad, so that its place in an input of `n` bytes is `n - left`.
#[derive(Clone, Copy, Debug, PartialEq, Eq, Error)]
pub enum FieldFault {
    /// The input ends inside the field.
    #[error("the input ends inside a field that begins {left} bytes before its end")]
    Short { left: usize },
    /// The field's value is outside its limits.
    #[error("a field that begins {left} bytes before the end is outside its limits")]
    Bad { left: usize },
    /// No memory was left.
    #[error("out of memory")]
    NoMemory,
}

impl FieldFault {
    /// Where the field begins that is short or bad, in an input of `len` bytes; nothing where memory ran out. It
    /// takes no memory.
    pub fn place(&self, len: usize) -> Option<usize>
        ensures { result ≡ fault_place len self.now }
    {
        match self {
            FieldFault::Short { left } | FieldFault::Bad { left } => Some(len.saturating_sub(
                *left,
            )),
            FieldFault::NoMemory => None,
        }
    }
}

impl From<AllocError> for FieldFault {
    ghost from_gives = { λ _ e. e ≡ field_no_memory };

    fn from(_: AllocError) -> Self {
        FieldFault::NoMemory
    }
}

impl From<NoMemory> for FieldFault {
    ghost from_gives = { λ _ e. e ≡ field_no_memory };

    fn from(_: NoMemory) -> Self {
        FieldFault::NoMemory
    }
}

impl<T: Drop> From<AllocFailed<T>> for FieldFault {
    ghost from_gives = { λ _ e. e ≡ field_no_memory };

    fn from(_: AllocFailed<T>) -> Self {
        FieldFault::NoMemory
    }
}

/// Why bytes aren't the spelling of an entry: the first fault from the left, without its place.
#[derive(Clone, Copy, Debug, PartialEq, Eq, Error)]
pub enum EntryFault {
    /// The input ends inside a field.
    #[error("the input ends inside a field")]
    Short,
    /// A field's value is outside its limits.
    #[error("a field is outside its limits")]
    Bad,
    /// No memory was left.
    #[error("out of memory")]
    NoMemory,
}

impl From<NoMemory> for EntryFault {
    ghost from_gives = { λ _ e. e ≡ entry_no_memory };

    fn from(_: NoMemory) -> Self {
        EntryFault::NoMemory
    }
}

impl From<FieldFault> for EntryFault {
    ghost from_gives = { λ fault e. e ≡ entry_fault fault };

    fn from(fault: FieldFault) -> Self {
        match fault {
            FieldFault::Short { .. } => EntryFault::Short,
            FieldFault::Bad { .. } => EntryFault::Bad,
            FieldFault::NoMemory => EntryFault::NoMemory,
        }
    }
}

/// A number of two bytes. It takes no memory.
pub fn read_u16(bytes: &[u8]) -> Result<(u16, &[u8]), FieldFault>
    ensures reads { ReadsAs (λ x. (x.0, x.1.now)) result (read_number w16 bytes.now) }
    ensures sure { IfErr result (λ fault. fault ≢ field_no_memory) }
{
    if bytes.len() < 2 {
        return Err(FieldFault::Short { left: bytes.len() });
    }
    let (front, rest) = bytes.split_at(2);
    Ok((u16::from_be_bytes([front[0], front[1]]), rest))
}

/// A number of four bytes. It takes no memory.
pub fn read_u32(bytes: &[u8]) -> Result<(u32, &[u8]), FieldFault>
    ensures reads { ReadsAs (λ x. (x.0, x.1.now)) result (read_number w32 bytes.now) }
    ensures sure { IfErr result (λ fault. fault ≢ field_no_memory) }
{
    if bytes.len() < 4 {
        return Err(FieldFault::Short { left: bytes.len() });
    }
    let (front, rest) = bytes.split_at(4);
    Ok((
        u32::from_be_bytes([front[0], front[1], front[2], front[3]]),
        rest,
    ))
}

/// A number of eight bytes. It takes no memory.
pub fn read_u64(bytes: &[u8]) -> Result<(u64, &[u8]), FieldFault>
    ensures reads { ReadsAs (λ x. (x.0, x.1.now)) result (read_number w64 bytes.now) }
    ensures sure { IfErr result (λ fault. fault ≢ field_no_memory) }
{
    if bytes.len() < 8 {
        return Err(FieldFault::Short { left: bytes.len() });
    }
    let (front, rest) = bytes.split_at(8);
    let number = u64::from_be_bytes([
        front[0], front[1], front[2], front[3], front[4], front[5], front[6], front[7],
    ]);
    Ok((number, rest))
}

/// A digest of 32 bytes. It takes no memory.
pub fn read_digest(bytes: &[u8]) -> Result<(Digest, &[u8]), FieldFault>
    ensures reads { ReadsAs (λ x. (x.0.0, x.1.now)) result (read_bytes 32 bytes.now) }
    ensures sure { IfErr result (λ fault. fault ≢ field_no_memory) }
{
    if bytes.len() < 32 {
        return Err(FieldFault::Short { left: bytes.len() });
    }
    let (front, rest) = bytes.split_at(32);
    let mut digest = [0; 32];
    digest.copy_from_slice(front);
    Ok((Digest(digest), rest))
}

// A text of so many bytes, behind the length of a field that begins where `left` bytes are left.
fn read_utf8(
    alloc: Global,
    bytes: &[u8],
    len: usize,
    left: usize,
) -> Result<(Text, &[u8]), FieldFault>
    ensures { ReadsAs (λ x. (x.0, x.1.now)) result (read_utf8 left len bytes.now) }
{
    if bytes.len() < len {
        return Err(FieldFault::Short { left });
    }
    let (front, rest) = bytes.split_at(len);
    match Text::read(alloc, front, len) {
        Ok(text) => Ok((text, rest)),
        Err(NameFault::NoMemory) => Err(FieldFault::NoMemory),
        Err(_) => Err(FieldFault::Bad { left }),
    }
}

/// A text of `least` to `most` bytes behind two bytes of length.
#[tactic(auto, unfolding(crate::specs::Reading::read_text))]
pub fn read_text(
    alloc: Global,
    bytes: &[u8],
    least: u16,
    most: u16,
) -> Result<(Text, &[u8]), FieldFault>
    ensures { ReadsAs (λ x. (x.0, x.1.now)) result (read_text least most bytes.now) }
{
    let (len, rest) = read_u16(bytes)?;
    if len < least || most < len {
        return Err(FieldFault::Bad { left: bytes.len() });
    }
    read_utf8(alloc, rest, len as usize, bytes.len())
}

/// A text of at most `most` bytes behind four bytes of length.
#[tactic(auto, unfolding(crate::specs::Reading::read_long_text))]
pub fn read_long_text(alloc: Global, bytes: &[u8], most: u32) -> Result<(Text, &[u8]), FieldFault>
    ensures { ReadsAs (λ x. (x.0, x.1.now)) result (read_long_text most bytes.now) }
{
    let (len, rest) = read_u32(bytes)?;
    if most < len {
        return Err(FieldFault::Bad { left: bytes.len() });
    }
    read_utf8(alloc, rest, len as usize, bytes.len())
}

/// A path, of 1 to 1,024 bytes, behind two bytes of length.
#[tactic(auto, unfolding(crate::specs::Reading::read_text))]
pub fn read_path(alloc: Global, bytes: &[u8]) -> Result<(Path, &[u8]), FieldFault>
    ensures { ReadsAs (λ x. (x.0, x.1.now)) result (read_path bytes.now) }
{
    let (len, rest) = read_u16(bytes)?;
    if len < 1 || 1024 < len {
        return Err(FieldFault::Bad { left: bytes.len() });
    }
    path_of(alloc, rest, len as usize, bytes.len())
}

// A path of so many bytes, behind the length of a field that begins where `left` bytes are left.
fn path_of(
    alloc: Global,
    bytes: &[u8],
    len: usize,
    left: usize,
) -> Result<(Path, &[u8]), FieldFault>
    requires some { 1 ≤ len }
    requires short { len ≤ 1024 }
    ensures { ReadsAs (λ x. (x.0, x.1.now)) result (read_utf8 left len bytes.now) }
{
    if bytes.len() < len {
        return Err(FieldFault::Short { left });
    }
    let (front, rest) = bytes.split_at(len);
    match Path::read(alloc, front) {
        Ok(path) => Ok((path, rest)),
        Err(NameFault::NoMemory) => Err(FieldFault::NoMemory),
        Err(_) => Err(FieldFault::Bad { left }),
    }
}

// Whether a key is above the one before it.
fn is_next(last: Option<&Text>, key: &Text) -> bool
    ensures { result ≡ is_next (option_copied last.entry) key.now }
{
    match last {
        None => true,
        Some(last) => last.as_slice().cmp(key.as_slice()) == Ordering::Less,
    }
}

// The key of the last pair.
fn last_key(pairs: &[(Text, Text)]) -> Option<&Text>
    ensures { option_copied result ≡ last_key pairs.now }
{
    match pairs.last() {
        None => None,
        Some(pair) => Some(&pair.0),
    }
}

// A key above the one before it.
#[tactic(auto, unfolding(crate::specs::Reading::read_key))]
fn read_key<'a>(
    alloc: Global,
    last: Option<&Text>,
    bytes: &'a [u8],
) -> Result<(Text, &'a [u8]), FieldFault>
    ensures { ReadsAs (λ x. (x.0, x.1.now)) result
        (read_key (option_copied last.entry) bytes.now) }
{
    let (key, rest) = read_text(alloc, bytes, 1, 128)?;
    if !is_next(last, &key) {
        return Err(FieldFault::Bad { left: bytes.len() });
    }
    Ok((key, rest))
}

// A key above the one before it, and its value.
#[tactic(auto, unfolding(crate::specs::Reading::read_pair))]
fn read_pair<'a>(
    alloc: Global,
    last: Option<&Text>,
    bytes: &'a [u8],
) -> Result<((Text, Text), &'a [u8]), FieldFault>
    ensures { ReadsAs (λ x. (x.0, x.1.now)) result
        (read_pair (option_copied last.entry) bytes.now) }
{
    let (key, rest) = read_key(alloc, last, bytes)?;
    let (value, rest) = read_text(alloc, rest, 0, 1024)?;
    Ok(((key, value), rest))
}

// So many pairs.
fn read_pairs(
    alloc: Global,
    bytes: &[u8],
    count: u16,
) -> Result<(Vec<(Text, Text)>, &[u8]), FieldFault>
    ensures { ReadsAs (λ x. (x.0.items, x.1.now)) result (read_pairs count None bytes.now) }
{
    let mut pairs = Vec::new(alloc);
    let mut rest = bytes;
    for _ in 0..count {
        let (pair, after) = read_pair(alloc, last_key(pairs.as_slice()), rest)?;
        pairs.push(pair)?;
        rest = after;
    }
    Ok((pairs, rest))
}

/// Metadata: at most 64 pairs behind two bytes of count, keys strictly ascending as bytes, each key of 1 to 128
/// bytes and each value of at most 1,024, both behind two bytes of length.
#[tactic(auto, unfolding(crate::specs::Reading::read_metadata))]
pub fn read_metadata(alloc: Global, bytes: &[u8]) -> Result<(Pairs, &[u8]), FieldFault>
    ensures { ReadsAs (λ x. (x.0, x.1.now)) result (read_metadata bytes.now) }
{
    let (count, rest) = read_u16(bytes)?;
    if count > 64 {
        return Err(FieldFault::Bad { left: bytes.len() });
    }
    let (pairs, rest) = read_pairs(alloc, rest, count)?;
    Ok((Pairs::from_vec(pairs), rest))
}

/// Appends a number of two bytes.
pub fn put_u16(out: &mut Vec<u8>, number: u16) -> Result<(), NoMemory>
    ensures spelled { OnOk result (out.new.items ≡ out.old.items ++ to_be_bytes w16 number) }
    ensures unchanged { OnErr result (out.new.items ≡ out.old.items) }
{
    out.extend_from_slice(&number.to_be_bytes())?;
    Ok(())
}

/// Appends a number of four bytes.
pub fn put_u32(out: &mut Vec<u8>, number: u32) -> Result<(), NoMemory>
    ensures spelled { OnOk result (out.new.items ≡ out.old.items ++ to_be_bytes w32 number) }
    ensures unchanged { OnErr result (out.new.items ≡ out.old.items) }
{
    out.extend_from_slice(&number.to_be_bytes())?;
    Ok(())
}

/// Appends a number of eight bytes.
pub fn put_u64(out: &mut Vec<u8>, number: u64) -> Result<(), NoMemory>
    ensures spelled { OnOk result (out.new.items ≡ out.old.items ++ to_be_bytes w64 number) }
    ensures unchanged { OnErr result (out.new.items ≡ out.old.items) }
{
    out.extend_from_slice(&number.to_be_bytes())?;
    Ok(())
}

/// Appends a text behind two bytes of length.
pub fn put_text(out: &mut Vec<u8>, text: &[u8]) -> Result<(), NoMemory>
    requires { length text.now < 2 ^ 16 }
    ensures spelled { OnOk result (out.new.items ≡ out.old.items ++ short_text text.now) }
    ensures unchanged { OnErr result (out.new.items ≡ out.old.items) }
{
    out.reserve(2 + text.len())?;
    write_text(out, text);
    Ok(())
}

/// Appends a text behind four bytes of length.
pub fn put_long_text(out: &mut Vec<u8>, text: &[u8]) -> Result<(), NoMemory>
    requires { length text.now < 2 ^ 32 }
    ensures spelled { OnOk result (out.new.items ≡ out.old.items ++ long_text text.now) }
    ensures unchanged { OnErr result (out.new.items ≡ out.old.items) }
{
    out.reserve(4 + text.len())?;
    write_bytes(out, &(text.len() as u32).to_be_bytes());
    write_bytes(out, text);
    Ok(())
}

/// Appends the 32 bytes of a digest.
pub fn put_digest(out: &mut Vec<u8>, digest: &Digest) -> Result<(), NoMemory>
    ensures spelled { OnOk result (out.new.items ≡ out.old.items ++ digest.now.0) }
    ensures unchanged { OnErr result (out.new.items ≡ out.old.items) }
    ensures limits { OnOk result (IsDigest digest.now.0) }
{
    out.reserve(32)?;
    write_digest(out, &digest.0);
    Ok(())
}

/// Appends metadata behind two bytes of count.
pub fn put_metadata(out: &mut Vec<u8>, pairs: &Pairs) -> Result<(), NoMemory>
    ensures spelled { OnOk result (out.new.items ≡ out.old.items ++ pairs_spelling pairs.now) }
    ensures unchanged { OnErr result (out.new.items ≡ out.old.items) }
    ensures limits { OnOk result (IsMetadata pairs.now) }
{
    out.reserve(pairs_len(pairs))?;
    write_metadata(out, pairs);
    Ok(())
}

/// How many bytes metadata has. It takes no memory.
pub fn pairs_len(pairs: &Pairs) -> usize
    ensures bytes { result ≡ length (pairs_spelling pairs.now) }
    ensures few { result ≤ 73986 }
{
    let pairs = pairs.as_slice();
    let mut len = 2;
    for (key, value) in pairs {
        len += 4 + key.as_slice().len() + value.as_slice().len();
    }
    len
}

// Appends bytes for which there is room.
pub(crate) fn write_bytes(out: &mut Vec<u8>, bytes: &[u8])
    requires { HasRoom out.old (length bytes.now) }
    ensures { Appends out.old out.new bytes.now }
{
    match out.extend_from_slice(bytes) {
        Ok(()) => {}
        Err(_) => unreachable!(),
    }
}

// Appends the 32 bytes of a digest.
pub(crate) fn write_digest(out: &mut Vec<u8>, digest: &[u8])
    requires long { length digest.now ≡ 32 }
    requires room { HasRoom out.old 32 }
    ensures spelled { Appends out.old out.new digest.now }
    ensures limits { IsDigest digest.now }
{
    write_bytes(out, digest);
}

// Appends a text behind two bytes of length.
pub(crate) fn write_text(out: &mut Vec<u8>, text: &[u8])
    requires short { length text.now < 2 ^ 16 }
    requires room { HasRoom out.old (2 + length text.now) }
    ensures { Appends out.old out.new (short_text text.now) }
{
    write_bytes(out, &(text.len() as u16).to_be_bytes());
    write_bytes(out, text);
}

// Appends metadata behind two bytes of count.
pub(crate) fn write_metadata(out: &mut Vec<u8>, pairs: &Pairs)
    requires { HasRoom out.old (length (pairs_spelling pairs.now)) }
    ensures spelled { Appends out.old out.new (pairs_spelling pairs.now) }
    ensures limits { IsMetadata pairs.now }
{
    let pairs = pairs.as_slice();
    write_bytes(out, &(pairs.len() as u16).to_be_bytes());
    for (key, value) in pairs {
        write_text(out, key.as_str().as_bytes());
        write_text(out, value.as_str().as_bytes());
    }
}
