//! The file of a range: the byte 1, the count of rows in four bytes, and each row.
//!
//! The one row of the path `a` and an object of 5 bytes at `s3://x`, with no checksum, content type or metadata,
//! is `01 00000001 0001 61`, and its entry `01 0006 73333a2f2f78 0000`, 8 bytes of size, 8 of time, `0000 0000`:
//! 39 bytes.
ghost use Rattle.std.specs.Prelude.{◌≡◌, ◌+◌, length, IfOk, OnOk};
ghost use Rattle.std.specs.List.{flat_map};
ghost use Rattle.lake_format.specs.Spelling.{row_spelling, range_spelling, IsRange};
ghost use Rattle.range_file.specs.Rows.{AreRows};

use crate::rows::Row;
use lake_base::outside::NoMemory;
use lake_format::encoding::{put_row, row_len};
use std::alloc::Global;

/// The file of these rows. Its room is taken once. `are_rows` tells whether they can be those of a range.
pub fn encode(alloc: Global, rows: &[Row]) -> Result<Vec<u8>, NoMemory>
    requires { AreRows rows.now }
    ensures spelled { IfOk result (λ bytes. bytes.items ≡ range_spelling rows.now) }
    ensures limits { OnOk result (IsRange rows.now) }
{
    let mut out = Vec::with_capacity(alloc, range_len(rows))?;
    out.push(1)?;
    out.extend_from_slice(&(rows.len() as u32).to_be_bytes())?;
    for row in rows {
        put_row(&mut out, &row.path, &row.entry)?;
    }
    Ok(out)
}

// How many bytes the file of these rows has.
fn range_len(rows: &[Row]) -> usize
    requires { AreRows rows.now }
    ensures { result ≡ 5 + length (flat_map row_spelling rows.now) }
{
    let mut len = 5;
    for row in rows {
        len += row_len(&row.path, &row.entry);
    }
    len
}
