//! How a key map is cut into ranges, each a file of a tree.
//!
//! As an example with the modulus 1,024 and much room: FNV-1a modulo 1,024 of `a`, `z`, `50` and `nq` is 140,
//! 621, 0 and 0, so `50` and `nq` are break keys. The paths `50`, `a`, `nq`, `z` are cut into
//!
//! ```text
//! [50] [a nq] [z]        and without nq into        [50] [a z]
//! ```
//!
//! With less room the rows between two break keys are cut into several ranges.
ghost use Rattle.std.specs.Prelude.{◌≡◌, ◌<◌, ◌≤◌, ◌∷◌, [], ℕ, List, true, length, take, drop};
ghost use Rattle.lake_format.specs.declared.cut.Cut.{Cut as AnyCut};
ghost use Rattle.lake_format.specs.Cutting.{fnv1a, is_break, is_range, first_len, ranges};
ghost use Rattle.lake_values.specs.Entry.{EntryValue};

use crate::encoding::row_len;
use lake_base::names::Path;
use lake_values::entry::Entry;

/// How trees are cut: a range has at most `max_bytes` bytes of rows, unless it has one row, and ends after a
/// break key; one key in `modulus` is one, on average. Calls that take one ask for a modulus above 0.
#[derive(Clone, Copy, Debug, PartialEq, Eq)]
pub struct Cut {
    pub max_bytes: u64,
    pub modulus: u64,
}

/// The usual cut: ranges of at most 1,048,576 bytes of rows, and one break key in 1,024.
pub const USUAL_CUT: Cut = Cut {
    max_bytes: 1048576,
    modulus: 1024,
};

/// The usual cut in numbers. (A law: it does nothing.)
pub fn usual_cut_is_pinned()
    ensures { (USUAL_CUT.max_bytes ≡ 1048576) × (USUAL_CUT.modulus ≡ 1024) }
{}

/// FNV-1a of 64 bits (Fowler, Noll and Vo). It takes no memory.
#[tactic(auto, unfolding(crate::specs::Cutting::fnv1a))]
pub fn fnv1a(bytes: &[u8]) -> u64
    ensures { result ≡ fnv1a bytes.now }
{
    let mut sum = 14695981039346656037u64;
    for byte in bytes {
        sum = (sum ^ u64::from(*byte)).wrapping_mul(1099511628211);
    }
    sum
}

/// Whether a range ends after the path: its FNV-1a is 0 modulo the modulus. It takes no memory.
pub fn is_break(path: &Path, cut: &Cut) -> bool
    requires { 0 < cut.now.modulus }
    ensures { result ≡ is_break cut.now path.now }
{
    fnv1a(path.as_slice()) % cut.modulus == 0
}

/// The first range of these rows, and the rows after it: the longest front with no break key before its last
/// row that has one row, or at most `max_bytes` bytes. It takes no memory, and looks at each of its rows once.
#[tactic(auto, using(crate::proofs::CutLemmas::first_below))]
pub fn first_range<'a>(
    rows: &'a [(Path, Entry)],
    cut: &Cut,
) -> (&'a [(Path, Entry)], &'a [(Path, Entry)])
    requires { 0 < cut.now.modulus }
    ensures front { result.0.now ≡ take (first_len cut.now rows.now) rows.now }
    ensures rest { result.1.now ≡ drop (first_len cut.now rows.now) rows.now }
{
    rows.split_at(first_len(rows, cut))
}

/// The cut: of no rows there is no range; else the first range is the longest front that can be one, and the rest
/// is cut likewise. (A law: it does nothing.)
pub fn law_of_cut()
    ensures none { (cut : AnyCut) → ranges cut [] ≡ [] }
    ensures first { (cut : AnyCut) (rows : List (List ℕ × EntryValue)) → 0 < length rows
        → ranges cut rows
        ≡ take (first_len cut rows) rows ∷ ranges cut (drop (first_len cut rows) rows) }
    ensures can { (cut : AnyCut) (rows : List (List ℕ × EntryValue)) → 0 < length rows
        → (0 < first_len cut rows) × (first_len cut rows ≤ length rows)
        × (is_range cut (take (first_len cut rows) rows) ≡ true) }
    ensures longest { (cut : AnyCut) (rows : List (List ℕ × EntryValue)) (len : ℕ)
        → len ≤ length rows → is_range cut (take len rows) ≡ true → len ≤ first_len cut rows }
{}

// How many rows the first range has: the rows up to the first break key, or up to where the next row would pass
// `max_bytes`.
fn first_len(rows: &[(Path, Entry)], cut: &Cut) -> usize
    requires { 0 < cut.now.modulus }
    ensures { result ≡ first_len cut.now rows.now }
{
    let mut room = cut.max_bytes;
    for (at, (path, entry)) in rows.iter().enumerate() {
        let len = row_len(path, entry) as u64;
        if at > 0 && len > room {
            return at;
        }
        if is_break(path, cut) {
            return at + 1;
        }
        room = room.saturating_sub(len);
    }
    rows.len()
}
