//! The tree of a map.
//!
//! As an example with rows of 34 bytes each and at most 68 bytes of rows in a range, the map of `a`, `b` and `z` is
//! cut into the ranges
//!
//! ```text
//! [a b] [z]
//! ```
//!
//! Its files are the metarange, which names both ranges, and the file of each. The tree of `a`, `b` and `y` has
//! another metarange and another last range, and shares the file of the first.
ghost use Rattle.std.specs.Prelude.{◌≡◌, ◌⊎◌, ◌<◌, ◌^◌, length, map, IfOk, OnOk, option_copied};
ghost use Rattle.std.specs.FinMap as finite;
ghost use Rattle.lake_values.specs.KeyMap.{KeyMapValue};
ghost use Rattle.lake_format.specs.Cutting.{files, tree_id};
ghost use Rattle.lake_format.specs.Spelling.{file_name};
ghost use Rattle.lake_format.specs.declared.cut.Cut.{Cut as AnyCut};
ghost use Rattle.meta_range.specs.Files.{file_of, FitsTree, Clash};
ghost use Rattle.meta_range.specs.Ranges.{AreRanges, tree_of, metarange_of, first_file};

use crate::file::File;
use crate::metarange::metarange_bytes;
use crate::named_ranges::NamedRanges;
use crate::shared_range::SharedRange;
use lake_base::digest::Digest;
use lake_base::names::Path;
use lake_base::outside::NoMemory;
use lake_base::sequence::Sequence;
use lake_format::cut::first_range;
use lake_values::cursor::EntryCursor;
use lake_values::entry::Entry;
use lake_values::key_map::KeyMap;
use range_file::Cut;
use std::alloc::Global;
use std::marker::Model;

/// A key map, cut into ranges that trees share. Contracts see the map and the list of its files: the metarange, and
/// then the ranges in order.
#[derive(Debug, Drop)]
pub struct Tree {
    // The SHA-256 of the metarange, taken once.
    name: Digest,
    ranges: NamedRanges,
}

impl Model for Tree {
    ghost use Rattle.std.specs.Prelude.{◌≡◌};
    ghost use Rattle.lake_format.specs.Spelling.{file_name};
    ghost use Rattle.meta_range.specs.Ranges.{TreeValue, tree_code, tree_of, metarange_of, AreRanges};

    ghost Value = { TreeValue };

    ghost coded = { tree_code };

    ghost view = { λ tree. tree_of tree.ranges };

    ghost invariant = { λ tree. AreRanges tree.ranges × (tree.name ≡ file_name (metarange_of tree.ranges)) };
}

impl Tree {
    /// The tree of a map, whose files are those that the cut gives. A map of 2^32 paths or more, whose counts a file
    /// may not hold, is answered as out of memory.
    pub fn build(alloc: Global, map: &KeyMap, cut: &Cut) -> Result<Tree, NoMemory>
        requires { 0 < cut.now.modulus }
        ensures map { IfOk result (λ tree. tree.map ≡ map.now) }
        ensures files { IfOk result (λ tree. tree.files ≡ files cut.now map.now) }
        ensures limits { OnOk result (FitsTree map.now) }
    {
        let mut rest = map.as_slice();
        if rest.len() >= 4294967296 {
            return Err(NoMemory);
        }
        let mut ranges = Vec::new(alloc);
        while !rest.is_empty() {
            let (range, left) = first_range(rest, cut);
            ranges.push(SharedRange::copy_of(alloc, range)?)?;
            rest = left;
        }
        let tree = Tree::of(alloc, ranges)?;
        Ok(tree)
    }

    /// The entry at the path, by two searches. It takes no memory.
    pub fn get(&self, path: &Path) -> Option<&Entry>
        ensures { option_copied result ≡ finite.get self.now.map path.now }
    {
        let mut cursor = self.cursor();
        cursor.seek(path.as_slice());
        match cursor.next() {
            None => None,
            Some((found, entry)) => {
                if found != path {
                    return None;
                }
                Some(entry)
            }
        }
    }

    /// The SHA-256 of its metarange. It takes no memory.
    pub fn name(&self) -> Digest
        ensures { result ≡ file_name (first_file self.now.files) }
    {
        self.name
    }

    /// Its files: the metarange, and then the ranges in order, each under the SHA-256 of its bytes.
    pub fn files(&self, alloc: Global) -> Result<Vec<File>, NoMemory>
        ensures { IfOk result (λ files. files.items ≡ map file_of self.now.files) }
    {
        let ranges = self.ranges();
        let metarange = metarange_bytes(alloc, ranges)?;
        let mut files = Vec::with_capacity(alloc, 1 + ranges.len())?;
        files.push(File {
            name: self.name(),
            bytes: Sequence::of(metarange),
        })?;
        for range in ranges {
            files.push(range.file(alloc)?)?;
        }
        Ok(files)
    }

    // The tree of these ranges.
    pub(crate) fn of(alloc: Global, ranges: Vec<SharedRange>) -> Result<Tree, NoMemory>
        requires { AreRanges ranges.items }
        ensures { IfOk result (λ tree. tree ≡ tree_of ranges.items) }
    {
        let metarange = metarange_bytes(alloc, ranges.as_slice())?;
        Tree::named(alloc, Digest::of(metarange.as_slice()), ranges)
    }

    // The tree of these ranges, whose metarange has this name.
    pub(crate) fn named(
        alloc: Global,
        name: Digest,
        ranges: Vec<SharedRange>,
    ) -> Result<Tree, NoMemory>
        requires valid { AreRanges ranges.items }
        requires named { name ≡ file_name (metarange_of ranges.items) }
        ensures { IfOk result (λ tree. tree ≡ tree_of ranges.items) }
    {
        let ranges = NamedRanges::of(alloc, ranges)?;
        Ok(Tree { name, ranges })
    }

    // Its ranges.
    pub(crate) fn ranges(&self) -> &[SharedRange]
        ensures ranges { self.now ≡ tree_of result.now }
        ensures valid { AreRanges result.now }
    {
        self.named_ranges().as_slice()
    }

    // Its ranges, which are found by their names.
    pub(crate) fn named_ranges(&self) -> &NamedRanges
        ensures ranges { self.now ≡ tree_of result.now }
        ensures valid { AreRanges result.now }
    {
        &self.ranges
    }
}

/// Two maps whose trees by one cut have one name have the same files, or a file of the one and a file of the other
/// have one name and other bytes. (A law: it does nothing.)
pub fn law_of_names()
    // A tree is known by its metarange.
    ensures first { (cut : AnyCut) (objects : KeyMapValue)
        → tree_id cut objects ≡ file_name (first_file (files cut objects)) }
    ensures same { (cut : AnyCut) (objects others : KeyMapValue) → FitsTree objects → FitsTree others
        → tree_id cut objects ≡ tree_id cut others
        → (files cut objects ≡ files cut others) ⊎ Clash (files cut objects) (files cut others) }
{}
