//! Pairs of each kind that are read and written again, and pairs that are refused.
use lake_base::Sequence;
use pair_format::{Pair, PairFault, Stored, decode_pair, encode_key, encode_pair};
use std::alloc::Global;
use std::test::Fail;

// A pair of each kind, of a commit and a change two; and faults of keys and of values.
static PAIRS: [(&[u8], &[u8], &str); 19] = [
    (
        b"R\x00\x03abc",
        b"\x00\x00\x00\x00\x00\x00\x00\x05\x00\x04main\x00\x00\x00\x00\x00\x00\x00\x02",
        "",
    ),
    (
        b"B\x00\x03abc\x00\x04main",
        b"\x00\x00\x00\x00\x00\x00\x00\x0701234567890123456789012345678901\x00\x00\x00\x00\x00\x00\x00\x09\x00\x00\x00\
        \x02\x00\x00\x00\x00\x00\x00\x00\x08\xff\xff\xff\xff\xff\xff\xff\xff",
        "",
    ),
    (
        b"T\x00\x03abc\x00\x02v1",
        b"01234567890123456789012345678901",
        "",
    ),
    (
        b"C\x00\x03abc01234567890123456789012345678901",
        b"\x00\x0101234567890123456789012345678901\x00\x00\x00\x00\x00\x00\x00\x01\x00\x00\x00\x00\x00\x00\x00\x00\x00\
        \x00\x00\x01c\x00\x00\x00\x00\x00\x00",
        "",
    ),
    (
        b"C\x00\x03abc01234567890123456789012345678901",
        b"\x01\x0101234567890123456789012345678901\x00\x00\x00\x00\x00\x00\x00\x01\x00\x00\x00\x00\x00\x00\x00\x00\x00\
        \x00\x00\x01c\x00\x00\x00\x00\x00\x00",
        "",
    ),
    (b"M01234567890123456789012345678901", b"\x01\x00\xff", ""),
    (b"G01234567890123456789012345678901", b"", ""),
    (b"S\x00\x00\x00\x00\x00\x00\x00\x09a/b", b"\x00", ""),
    (
        b"S\x00\x00\x00\x00\x00\x00\x00\x09a",
        b"\x01\x01\x00\x06s3://x\x00\x00\x00\x00\x00\x00\x00\x00\x00\x05\x00\x00\x00\x00\x00\x00\x00\x00\x00\x00\x00\
        \x00",
        "",
    ),
    (b"N\x00\x03abc\x01", b"{}", ""),
    (b"N\x00\x03abc\x02", b"[]", ""),
    (b"N\x00\x03abc\x03", b"\xff", ""),
    (b"X\x00\x00\x00\x00\x00\x00\x01\x00", b"", ""),
    (
        b"Z",
        b"\x00\x00\x00\x00\x00\x00\x00\x01\x00\x00\x00\x00\x00\x00\x00\x02\x00\x00\x00\x00\x00\x00\x00\x03",
        "",
    ),
    (b"Q", b"?", "the key is no key at byte 0"),
    (b"N\x00\x03abc\x01\x02", b"?", "the key is no key at byte 7"),
    (
        b"B\x00\x03abc\x00\x400123456789abcdef0123456789abcdef0123456789abcdef0123456789abcdef",
        b"?",
        "the key is no key at byte 6",
    ),
    (
        b"T\x00\x03abc\x00\x02v1",
        b"0123",
        "the value is no value of its key at byte 0",
    ),
    (
        b"C\x00\x03abc01234567890123456789012345678901",
        b"\x00\x02",
        "the value is no value of its key at byte 1",
    ),
];

// The pair of these bytes.
fn pair_of(alloc: Global, key: &[u8], value: &[u8]) -> Result<Pair, Fail> {
    let key = Sequence::of(Vec::from_slice(alloc, key)?);
    let value = Sequence::of(Vec::from_slice(alloc, value)?);
    Ok(Pair { key, value })
}

// Whether this is stored as the pair, and its key alone as the pair's key.
fn is_stored_as(alloc: Global, stored: &Stored, pair: &Pair) -> Result<bool, Fail> {
    if !stored.is_spelled() {
        return Ok(false);
    }
    let again = encode_pair(alloc, stored)?;
    let key = encode_key(alloc, &stored.key())?;
    Ok(
        again.key.as_slice() == pair.key.as_slice()
            && again.value.as_slice() == pair.value.as_slice()
            && key.as_slice() == pair.key.as_slice(),
    )
}

// The same of what was read, which is done with then.
fn is_spelled_again(alloc: Global, stored: Stored, pair: &Pair) -> Result<bool, Fail> {
    is_stored_as(alloc, &stored, pair)
}

// The text of a fault.
fn fault_told(alloc: Global, fault: PairFault) -> Result<String, Fail> {
    Ok(format!(in alloc; "{fault}")?)
}

// Nothing of a pair that is read and written again, and the fault of another one.
fn told(alloc: Global, pair: &Pair) -> Result<String, Fail> {
    match decode_pair(alloc, pair) {
        Ok(stored) => match is_spelled_again(alloc, stored, pair)? {
            true => Ok(String::new(alloc)),
            false => Err("another spelling")?,
        },
        Err(fault) => fault_told(alloc, fault),
    }
}

#[test]
fn pairs_are_read_and_written_again(rt: HostRuntime) -> Result<(), Fail> {
    for (key, value, due) in &PAIRS {
        let pair = pair_of(rt.alloc(), key, value)?;
        assert_eq!(rt; told(rt.alloc(), &pair)?.as_str(), *due);
    }
    Ok(())
}
