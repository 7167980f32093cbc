//! Entries and their fields, to the byte of the format, and where those that can't be read are at fault.
use lake_base::Digest;
use lake_format::encoding::{entry_bytes, entry_read, own_address, put_row, read_entry};
use lake_format::fields::{
    FieldFault, put_digest, put_long_text, put_metadata, put_text, put_u16, put_u32, put_u64,
    read_long_text, read_path,
};
use lake_format::range_line::{RangeLine, put_range_line};
use lake_values::{Entry, Place};
use std::alloc::Global;
use std::cmp::Ordering;
use std::test::Fail;
use test_values::{pairs, path, text};

// The object of 5 bytes at `s3://x`, with no checksum, content type or metadata.
static EXTERNAL: [u8; 31] = [
    1, 0, 6, 115, 51, 58, 47, 47, 120, 0, 0, 0, 0, 0, 0, 0, 0, 0, 5, 0, 0, 0, 0, 0, 0, 0, 0, 0, 0,
    0, 0,
];

// Where the field begins that ends outside, in each shorter front of it: the place, the address, the checksum, the
// size, the time, the content type, the count of pairs.
static PLACES: [usize; 31] = [
    0, 1, 1, 1, 1, 1, 1, 1, 1, 9, 9, 11, 11, 11, 11, 11, 11, 11, 11, 19, 19, 19, 19, 19, 19, 19,
    19, 27, 27, 29, 29,
];

const SUM: Digest = Digest([
    1, 2, 3, 4, 5, 6, 7, 8, 9, 10, 11, 12, 13, 14, 15, 16, 17, 18, 19, 20, 21, 22, 23, 24, 25, 26,
    27, 28, 29, 30, 31, 32,
]);

// Number 258, that digest, 5 bytes, the moment 1,700,000,000, `a/b`, and two pairs: `k` with `v`, `l` with nothing.
static OWN: [u8; 75] = [
    0, 0, 0, 0, 0, 0, 0, 1, 2, 1, 2, 3, 4, 5, 6, 7, 8, 9, 10, 11, 12, 13, 14, 15, 16, 17, 18, 19,
    20, 21, 22, 23, 24, 25, 26, 27, 28, 29, 30, 31, 32, 0, 0, 0, 0, 0, 0, 0, 5, 0, 0, 0, 0, 101,
    83, 241, 0, 0, 3, 97, 47, 98, 0, 2, 0, 1, 107, 0, 1, 118, 0, 1, 108, 0, 0,
];

// What an entry at the address `a` begins with, up to its content type.
const TO_TYPE: &[u8] =
    b"\x01\x00\x01a\x00\x00\x00\x00\x00\x00\x00\x00\x00\x00\x00\x00\x00\x00\x00\x00\x00\x00";

// What an entry begins with, what follows, and the place of the field that is bad. At the front: another first byte, an
// address of none and of 2,049 bytes, one that isn't UTF-8, one that begins with `lake://`, a checksum of 129 bytes.
// After the time: a content type of 256 bytes, one that isn't UTF-8, 65 pairs, a key of none and of 129 bytes, one that
// isn't UTF-8, a value of 1,025 bytes, keys out of order, a key twice.
static BAD: [(&[u8], &[u8], usize); 15] = [
    (b"", b"\x02", 0),
    (b"", b"\x01\x00\x00", 1),
    (b"", b"\x01\x08\x01", 1),
    (b"", b"\x01\x00\x01\xff", 1),
    (b"", b"\x01\x00\x08lake://x", 1),
    (b"", b"\x01\x00\x01a\x00\x81", 4),
    (TO_TYPE, b"\x01\x00", 22),
    (TO_TYPE, b"\x00\x01\xff\x00\x00", 22),
    (TO_TYPE, b"\x00\x00\x00\x41", 24),
    (TO_TYPE, b"\x00\x00\x00\x01\x00\x00", 26),
    (TO_TYPE, b"\x00\x00\x00\x01\x00\x81", 26),
    (TO_TYPE, b"\x00\x00\x00\x01\x00\x01\x80\x00\x00", 26),
    (TO_TYPE, b"\x00\x00\x00\x01\x00\x01b\x04\x01", 29),
    (
        TO_TYPE,
        b"\x00\x00\x00\x02\x00\x01b\x00\x00\x00\x01a\x00\x00",
        31,
    ),
    (
        TO_TYPE,
        b"\x00\x00\x00\x02\x00\x01b\x00\x00\x00\x01b\x00\x00",
        31,
    ),
];

// Whether a field is short, and its place, where these bytes are no entry.
fn fault(alloc: Global, bytes: &[u8]) -> Option<(bool, usize)> {
    let fault = read_entry(alloc, bytes).err()?;
    let place = fault.place(bytes.len())?;
    Some((matches!(fault, FieldFault::Short { .. }), place))
}

#[test]
fn a_fault_is_where_its_field_begins(rt: HostRuntime) -> Result<(), Fail> {
    for (len, place) in PLACES.iter().enumerate() {
        assert_eq!(rt;
            fault(rt.alloc(), &EXTERNAL[..len]),
            Some((true, *place)),
            "{len}"
        );
    }
    for (front, after, place) in &BAD {
        let mut bytes = Vec::from_slice(rt.alloc(), front)?;
        bytes.extend_from_slice(after)?;
        assert_eq!(rt; fault(rt.alloc(), bytes.as_slice()), Some((false, *place)));
    }
    Ok(())
}

// The spelling of the entry that the bytes hold, behind other bytes and before one, and where it ends.
fn again(alloc: Global, before: &[u8], bytes: &[u8]) -> Result<(Vec<u8>, usize), Fail> {
    let mut framed = Vec::from_slice(alloc, before)?;
    framed.extend_from_slice(bytes)?;
    framed.push(255)?;
    let (entry, end) = entry_read(alloc, framed.as_slice(), before.len())?;
    Ok((entry_bytes(alloc, &entry)?, end))
}

#[test]
fn an_entry_that_is_read_is_spelled_as_it_was(rt: HostRuntime) -> Result<(), Fail> {
    let (external, end) = again(rt.alloc(), b"", &EXTERNAL)?;
    assert!(rt; external.as_slice() == EXTERNAL.as_slice() && end == 31);
    let (own, end) = again(rt.alloc(), b"x", &OWN)?;
    assert!(rt; own.as_slice() == OWN.as_slice() && end == 76);
    Ok(())
}

// Whether it has that number, digest, size, time and content type.
fn is_own(entry: &Entry) -> bool {
    matches!(&entry.place, Place::Own { number: 258, digest } if *digest == SUM)
        && entry.size == 5
        && entry.mtime == 1700000000
        && entry.content_type.as_str() == "a/b"
}

#[test]
fn an_entry_is_read_to_its_fields(rt: HostRuntime) -> Result<(), Fail> {
    let (entry, rest) = read_entry(rt.alloc(), &OWN)?;
    let [first, second] = entry.metadata.as_slice() else {
        return Err("there are two pairs")?;
    };
    assert!(rt; is_own(&entry) && rest.is_empty());
    assert_eq!(rt; (first.0.as_str(), first.1.as_str()), ("k", "v"));
    assert_eq!(rt; (second.0.as_str(), second.1.as_str()), ("l", ""));
    Ok(())
}

// `x`; 258 in two, four and eight bytes; `ab` behind two bytes of length, and `c` behind four; the pairs of `j` with
// nothing and of `k` with `w`; and the digest.
static WRITTEN: [u8; 69] = [
    120, 1, 2, 0, 0, 1, 2, 0, 0, 0, 0, 0, 0, 1, 2, 0, 2, 97, 98, 0, 0, 0, 1, 99, 0, 2, 0, 1, 106,
    0, 0, 0, 1, 107, 0, 1, 119, 1, 2, 3, 4, 5, 6, 7, 8, 9, 10, 11, 12, 13, 14, 15, 16, 17, 18, 19,
    20, 21, 22, 23, 24, 25, 26, 27, 28, 29, 30, 31, 32,
];

#[test]
fn writers_append_to_what_is_there(rt: HostRuntime) -> Result<(), Fail> {
    let alloc = rt.alloc();
    let mut pairs = pairs(alloc, "k", "v")?;
    pairs.set(text(alloc, "k")?, text(alloc, "w")?)?;
    pairs.set(text(alloc, "j")?, text(alloc, "")?)?;
    let mut out = Vec::from_slice(alloc, b"x")?;
    put_u16(&mut out, 258)?;
    put_u32(&mut out, 258)?;
    put_u64(&mut out, 258)?;
    put_text(&mut out, b"ab")?;
    put_long_text(&mut out, b"c")?;
    put_metadata(&mut out, &pairs)?;
    put_digest(&mut out, &SUM)?;
    assert!(rt; out.as_slice() == WRITTEN.as_slice());
    Ok(())
}

// The object at `s3://x` under `a`, as a row.
static ROW: [u8; 34] = [
    0, 1, 97, 1, 0, 6, 115, 51, 58, 47, 47, 120, 0, 0, 0, 0, 0, 0, 0, 0, 0, 5, 0, 0, 0, 0, 0, 0, 0,
    0, 0, 0, 0, 0,
];

#[test]
fn a_row_is_a_path_and_an_entry(rt: HostRuntime) -> Result<(), Fail> {
    let (path, rest) = read_path(rt.alloc(), &ROW)?;
    let (entry, rest) = read_entry(rt.alloc(), rest)?;
    let mut out = Vec::new(rt.alloc());
    put_row(&mut out, &path, &entry)?;
    assert!(rt; out.as_slice() == ROW.as_slice() && rest.is_empty());
    Ok(())
}

// What is said of a range of seven rows from `a` to `b`, whose file has that digest.
static LINE: [u8; 42] = [
    1, 2, 3, 4, 5, 6, 7, 8, 9, 10, 11, 12, 13, 14, 15, 16, 17, 18, 19, 20, 21, 22, 23, 24, 25, 26,
    27, 28, 29, 30, 31, 32, 0, 0, 0, 7, 0, 1, 97, 0, 1, 98,
];

#[test]
fn a_range_is_told_by_its_digest_its_rows_and_its_ends(rt: HostRuntime) -> Result<(), Fail> {
    let alloc = rt.alloc();
    let (first, last) = (path(alloc, "a")?, path(alloc, "b")?);
    let mut out = Vec::new(alloc);
    assert!(rt; first.as_slice().cmp(last.as_slice()) != Ordering::Greater);
    put_range_line(
        &mut out,
        &RangeLine {
            name: SUM,
            rows: 7,
            first,
            last,
        },
    )?;
    assert!(rt; out.as_slice() == LINE.as_slice());
    Ok(())
}

// Numbers, and the addresses of their objects as they are printed.
static ADDRESSES: [(u64, &str); 3] = [
    (0, "lake://objects/0000000000000000"),
    (171, "lake://objects/00000000000000ab"),
    (u64::MAX, "lake://objects/ffffffffffffffff"),
];

#[test]
fn texts_are_read_and_addresses_printed(rt: HostRuntime) -> Result<(), Fail> {
    for (number, address) in &ADDRESSES {
        assert_eq!(rt; own_address(rt.alloc(), *number)?.as_str(), *address);
    }
    let (text, rest) = read_long_text(rt.alloc(), b"\x00\x00\x00\x02hi!", 2)?;
    assert_eq!(rt; (text.as_str(), rest), ("hi", b"!".as_slice()));
    Ok(())
}
