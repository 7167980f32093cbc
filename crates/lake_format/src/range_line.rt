//! What a metarange says of a range.
ghost use Rattle.std.specs.Prelude.{◌≡◌, ◌++◌, OnOk, OnErr};
ghost use Rattle.lake_format.specs.Spelling.{line_spelling, IsSpan, IsLine};

use crate::fields::{write_bytes, write_digest, write_text};
use lake_base::copying::TryCopy;
use lake_base::digest::Digest;
use lake_base::names::Path;
use lake_base::outside::NoMemory;
use std::alloc::Global;

/// What a metarange says of a range: the SHA-256 of its file, its count of rows, its first and its last path.
#[derive(Debug, Drop)]
pub struct RangeLine {
    pub name: Digest,
    pub rows: u32,
    pub first: Path,
    pub last: Path,
}

impl TryCopy for RangeLine {
    fn copy(&self, alloc: Global) -> Result<RangeLine, NoMemory> {
        Ok(RangeLine {
            name: self.name,
            rows: self.rows,
            first: self.first.copy(alloc)?,
            last: self.last.copy(alloc)?,
        })
    }
}

/// Appends what is said of a range: 32 bytes of SHA-256, the count of rows in 4 bytes, and the first and the last
/// path, each behind 2 bytes of length. There is a row, and the first path is at most the last.
#[tactic(auto, unfolding(crate::specs::Spelling::line_spelling))]
pub fn put_range_line(out: &mut Vec<u8>, line: &RangeLine) -> Result<(), NoMemory>
    requires { IsSpan line.now }
    ensures spelled { OnOk result (out.new.items ≡ out.old.items ++ line_spelling line.now) }
    ensures unchanged { OnErr result (out.new.items ≡ out.old.items) }
    ensures limits { OnOk result (IsLine line.now) }
{
    let first = line.first.as_slice();
    let last = line.last.as_slice();
    out.reserve(40 + first.len() + last.len())?;
    write_digest(out, &line.name.0);
    write_bytes(out, &line.rows.to_be_bytes());
    write_text(out, first);
    write_text(out, last);
    Ok(())
}
