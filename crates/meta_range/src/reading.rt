//! A tree from its files.
ghost use Rattle.std.specs.Prelude.{◌≡◌, ◌↔◌, ◌<◌, ◌++◌, ◌^◌, List, [], length, drop, slice_get, IsTrue, Ok, IfOk};
ghost use Rattle.std.specs.Prelude.{Option, option_copied};
ghost use Rattle.lake_values.specs.KeyMap.{KeyMapValue};
ghost use Rattle.lake_format.specs.Cutting.{files as tree_files, tree_id, first_len};
ghost use Rattle.range_file.specs.Rows.{RowValue};
ghost use Rattle.meta_range.specs.Ranges.{rows_of};
ghost use Rattle.meta_range.specs.Files.{bytes_named, FitsTree};
ghost use Rattle.meta_range.specs.TreeReading.{AreRead, AreShelved, ReadsAs, AreGiven, read_ranges, not_cut, tree_from};
ghost use Rattle.meta_range.specs.TreeReading.{tree_with, IsTreeOf, IsTreeWith};

use crate::fault::{TreeFault, of_metarange};
use crate::file::File;
use crate::given_files::{GivenFiles, LentFile};
use crate::metarange::read_metarange;
use crate::shared_range::SharedRange;
use crate::shelf::{Shelf, read_range, whole};
use crate::tree::Tree;
use lake_base::digest::Digest;
use lake_base::outside::NoMemory;
use lake_format::RangeLine;
use lake_format::encoding::row_len;
use range_file::{Cut, Row, is_break};
use std::alloc::Global;
use std::collections::BTreeMap;

impl Tree {
    /// The tree of the metarange of this name, from files that are given; of several files of one name the first
    /// counts. The first fault is answered: of the metarange Missing where it isn't given, Damaged where its bytes
    /// haven't the SHA-256 by which it is named, and BadMeta where they aren't a metarange. Then of each range in
    /// order likewise Missing, Damaged and Bad, and Mismatch where its count of rows, its first or its last path
    /// isn't the one that the metarange tells, so that a first path is above the last before it. Last NotCut with
    /// the first range that isn't the one that the cut gives. A map of 2^32 paths or more is answered as out of
    /// memory.
    pub fn read(alloc: Global, name: &Digest, files: &[File], cut: &Cut) -> Result<Tree, TreeFault>
        requires { 0 < cut.now.modulus }
        // What is read is a tree of this name and cut, whose files are given.
        ensures found { IfOk result (λ tree. IsTreeOf name.now files.now cut.now tree) }
        // A tree whose files are given is read, unless memory runs out.
        ensures only { (objects : KeyMapValue) → FitsTree objects → name.now ≡ tree_id cut.now objects
            → AreGiven (tree_files cut.now objects) files.now
            → ReadsAs (λ tree. tree) result (Ok (record { map = objects; files = tree_files cut.now objects })) }
        // Which fault it is.
        ensures exact { ReadsAs (λ tree. tree) result (tree_from name.now files.now cut.now) }
    {
        let given = GivenFiles::of(alloc, lent(alloc, files)?)?;
        let mut shelf = BTreeMap::new(alloc);
        let metarange = given.named(name);
        let tree = read_tree(alloc, name, metarange, &given, &mut shelf, cut)?;
        Ok(tree)
    }
}

// Files, lent.
fn lent<'a>(alloc: Global, files: &'a [File]) -> Result<Vec<LentFile<'a>>, NoMemory>
    ensures { IfOk result (λ lent. lent.items ≡ files.now) }
{
    let mut lent = Vec::with_capacity(alloc, files.len())?;
    for file in files {
        lent.push(LentFile::new(file.name, file.bytes.as_slice()))?;
    }
    Ok(lent)
}

/// The tree of this name, of the bytes of its metarange, and of ranges among these files.
pub(crate) fn read_tree(
    alloc: Global,
    name: &Digest,
    metarange: Option<&[u8]>,
    given: &GivenFiles,
    shelf: &mut Shelf,
    cut: &Cut,
) -> Result<Tree, TreeFault>
    requires modulus { 0 < cut.now.modulus }
    requires shelf { AreShelved given.now shelf.old.entries }
    ensures shelf { AreShelved given.now shelf.new.entries }
    ensures reads { ReadsAs (λ tree. tree) result
        (tree_with name.now (option_copied metarange.entry) given.now cut.now) }
    ensures found { IfOk result
        (λ tree. IsTreeWith name.now (option_copied metarange.entry) given.now cut.now tree) }
{
    let bytes = whole(name, metarange)?;
    let lines = match read_metarange(alloc, bytes) {
        Ok(lines) => lines,
        Err(fault) => return Err(of_metarange(fault)),
    };
    let ranges = read_ranges(alloc, given, shelf, lines.as_slice())?;
    if count_rows(ranges.as_slice()) >= 4294967296 {
        return Err(TreeFault::NoMemory);
    }
    if let Some(at) = not_cut(ranges.as_slice(), cut) {
        return Err(TreeFault::NotCut(at));
    }
    Ok(Tree::named(alloc, *name, ranges)?)
}

// The ranges of which this is said.
fn read_ranges(
    alloc: Global,
    given: &GivenFiles,
    shelf: &mut Shelf,
    lines: &[RangeLine],
) -> Result<Vec<SharedRange>, TreeFault>
    requires { AreShelved given.now shelf.old.entries }
    ensures shelf { AreShelved given.now shelf.new.entries }
    ensures reads { ReadsAs (λ ranges. ranges.items) result (read_ranges given.now [] lines.now) }
    ensures found { IfOk result (λ ranges. AreRead given.now lines.now ranges.items) }
{
    let mut ranges = Vec::new(alloc);
    for line in lines {
        let at = ranges.as_slice().len();
        ranges.push(read_range(alloc, given, shelf, at, line)?)?;
    }
    Ok(ranges)
}

// How many rows there are in ranges.
fn count_rows(ranges: &[SharedRange]) -> usize
    requires { length ranges.now < 2 ^ 32 }
    ensures { result ≡ length (rows_of ranges.now) }
{
    let mut count = 0;
    for range in ranges {
        count += range.rows().len();
    }
    count
}

// The first range that isn't the one that the cut gives.
fn not_cut(ranges: &[SharedRange], cut: &Cut) -> Option<usize>
    requires { 0 < cut.now.modulus }
    ensures { result ≡ not_cut cut.now ranges.now }
{
    for (at, range) in ranges.iter().enumerate() {
        if !is_first(range.rows(), first_row_from(ranges, at + 1), cut) {
            return Some(at);
        }
    }
    None
}

// The first row of the ranges from this one on.
fn first_row_from(ranges: &[SharedRange], at: usize) -> Option<&Row>
    ensures { option_copied result ≡ slice_get (rows_of (drop at ranges.now)) 0 }
{
    match ranges.get(at) {
        Some(range) => range.rows().first(),
        None => None,
    }
}

// Whether rows are the first range of themselves and what follows them, which begins with `next`.
fn is_first(rows: &[Row], next: Option<&Row>, cut: &Cut) -> bool
    requires modulus { 0 < cut.now.modulus }
    requires some { 0 < length rows.now }
    ensures { (more : List RowValue) → slice_get more 0 ≡ option_copied next.entry
        → IsTrue result ↔ (length rows.now ≡ first_len cut.now (rows.now ++ more)) }
{
    let mut room = cut.max_bytes;
    for (at, row) in rows.iter().enumerate() {
        let len = row_len(&row.path, &row.entry) as u64;
        if at > 0 && len > room {
            return false;
        }
        if is_break(&row.path, cut) {
            return at + 1 == rows.len();
        }
        room = room.saturating_sub(len);
    }
    match next {
        None => true,
        Some(row) => row_len(&row.path, &row.entry) as u64 > room,
    }
}
