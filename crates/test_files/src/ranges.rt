//! Bytes that are read as a range and written again, and bytes that are refused.
use lake_base::TryCopy;
use range_file::{decode, encode};
use std::alloc::Global;
use std::test::Fail;

// The range of `a` with the object of 5 bytes at `s3://x`.
pub(crate) const A: &[u8] =
    b"\x01\x00\x00\x00\x01\x00\x01a\x01\x00\x06s3://x\x00\x00\x00\x00\x00\x00\x00\x00\x00\x05\x00\x00\x00\x00\x00\x00\
    \x00\x00\x00\x00\x00\x00";

// Bytes, and what is told of them.
static RANGES: [(&[u8], &str); 8] = [
    (A, "1 rows"),
    (b"\x09", "version 9 is unknown"),
    (b"\x01\x00", "the input ends inside a field, after 2 bytes"),
    (b"\x01\x00\x00\x00\x00", "there is no row"),
    (
        b"\x01\x00\x00\x00\x03\x00\x00",
        "row 0 is outside its limits",
    ),
    (
        b"\x01\x00\x00\x00\x02\x00\x01b\x01\x00\x06s3://x\x00\x00\x00\x00\x00\x00\x00\x00\x00\x05\x00\x00\x00\x00\x00\
        \x00\x00\x00\x00\x00\x00\x00\x00\x01a",
        "row 1 is out of order",
    ),
    (
        b"\x01\x00\x00\x00\x02\x00\x01b\x01\x00\x06s3://x\x00\x00\x00\x00\x00\x00\x00\x00\x00\x05\x00\x00\x00\x00\x00\
        \x00\x00\x00\x00\x00\x00\x00\x00\x00",
        "row 1 is outside its limits",
    ),
    (
        b"\x01\x00\x00\x00\x01\x00\x01a\x01\x00\x06s3://x\x00\x00\x00\x00\x00\x00\x00\x00\x00\x05\x00\x00\x00\x00\x00\
        \x00\x00\x00\x00\x00\x00\x00!",
        "1 bytes follow the last row",
    ),
];

// How many rows are read of these bytes, of which a copy is written as the same bytes; or the fault.
fn told(alloc: Global, bytes: &[u8]) -> Result<String, Fail> {
    let range = match decode(alloc, bytes) {
        Ok(range) => range.copy(alloc)?,
        Err(fault) => return Ok(format!(in alloc; "{fault}")?),
    };
    if encode(alloc, range.rows())?.as_slice() != bytes {
        return Err("another spelling")?;
    }
    Ok(format!(in alloc; "{} rows", range.rows().len())?)
}

#[test]
fn ranges_are_read_and_written_again(rt: HostRuntime) -> Result<(), Fail> {
    for (bytes, due) in &RANGES {
        assert_eq!(rt; told(rt.alloc(), bytes)?.as_str(), *due);
    }
    Ok(())
}
