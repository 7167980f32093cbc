//! The trees of the commits that pairs spell.
ghost use Rattle.std.specs.Prelude.{◌≡◌, ◌<◌, ◌++◌, IfOk, MatchOption, OnOk, option_copied};
ghost use Rattle.std.specs.Option.{option_to_list};
ghost use Rattle.meta_range.specs.Files.{bytes_named};
ghost use Rattle.meta_range.specs.TreeReading.{ReadsAs};
ghost use Rattle.pair_trees.specs.PairTrees.{AreTreesRead, IsFirstUnread, metaranges_in, range_in, ranges_in, tree_in};
ghost use Rattle.pair_trees.specs.PairTrees.{tree_named, trees_of};
ghost use Rattle.pair_trees.specs.Unread.{unread_in};

use crate::found::metarange_of;
use crate::spelled::SpelledPairs;
use lake_base::{Digest, NoMemory};
use lake_format::Cut;
use lake_values::{CommitId, CommitRecord};
use meta_range::{LentFile, Tree, TreeFault, TreeReader};
use pair_format::Stored;
use std::alloc::Global;

/// The tree of a commit, or its first fault.
pub type ReadTree = Result<Tree, TreeFault>;

/// What is read of the tree of each commit, in the place of its pair; other pairs have none there. A metarange is found
/// under its own kind of key, and so are its ranges. A tree costs the bytes of its metarange, and those of the ranges that
/// no tree before has, for their SHA-256 and to be read; a search for each range; and a look at each row, for the cut.
pub fn read_trees(
    alloc: Global,
    pairs: &SpelledPairs,
    cut: &Cut,
) -> Result<Vec<Option<ReadTree>>, NoMemory>
    requires { 0 < cut.now.modulus }
    ensures { IfOk result (λ trees. trees.items ≡ trees_of cut.now pairs.now) }
{
    let things = pairs.as_slice();
    let mut reader = TreeReader::of(alloc, range_files(alloc, things)?)?;
    let mut trees = Vec::with_capacity(alloc, things.len())?;
    for thing in things {
        trees.push(tree_in(alloc, pairs, &mut reader, thing, cut)?)?;
    }
    Ok(trees)
}

// The range files among these, lent.
fn range_files<'p>(
    alloc: Global,
    things: &'p [Option<Stored>],
) -> Result<Vec<LentFile<'p>>, NoMemory>
    ensures { IfOk result (λ files. files.items ≡ ranges_in things.now) }
{
    let mut files = Vec::new(alloc);
    for thing in things {
        push_range(&mut files, thing)?;
    }
    Ok(files)
}

// Appends a range file, where this is one.
fn push_range<'p>(files: &mut Vec<LentFile<'p>>, thing: &'p Option<Stored>) -> Result<(), NoMemory>
    ensures { OnOk result (files.new.items ≡ files.old.items ++ option_to_list (range_in thing.now)) }
{
    match thing {
        Some(Stored::Range { name, bytes }) => {
            files.push(LentFile::new(*name, bytes.as_slice()))?;
            Ok(())
        }
        _ => Ok(()),
    }
}

// What is read of the tree of a commit, where this is one.
fn tree_in(
    alloc: Global,
    pairs: &SpelledPairs,
    reader: &mut TreeReader,
    thing: &Option<Stored>,
    cut: &Cut,
) -> Result<Option<ReadTree>, NoMemory>
    requires modulus { 0 < cut.now.modulus }
    requires ranges { reader.old ≡ ranges_in pairs.now }
    ensures ranges { reader.new ≡ ranges_in pairs.now }
    ensures tree { IfOk result (λ tree. tree ≡ tree_in cut.now pairs.now thing.now) }
{
    match thing {
        Some(Stored::Commit { commit, .. }) => {
            Ok(Some(tree_or_fault(alloc, pairs, reader, commit, cut)?))
        }
        _ => Ok(None),
    }
}

/// The first commit whose tree isn't read, and its fault, in the order of the pairs. It takes no memory.
#[tactic(auto, unfolding(crate::specs::PairTrees::trees_of))]
pub fn first_unread(
    pairs: &SpelledPairs,
    trees: &[Option<ReadTree>],
    cut: &Cut,
) -> Option<(CommitId, TreeFault)>
    requires { trees.now ≡ trees_of cut.now pairs.now }
    ensures { MatchOption result (AreTreesRead cut.now pairs.now)
        (λ unread. IsFirstUnread cut.now pairs.now unread.0 unread.1) }
{
    let _ = cut;
    let things = pairs.as_slice();
    for (at, tree) in trees.iter().enumerate() {
        if let Some(unread) = unread_in(&things[at], tree) {
            return Some(unread);
        }
    }
    None
}

// The commit of a pair, and the fault of its tree, where that isn't read.
fn unread_in(thing: &Option<Stored>, tree: &Option<ReadTree>) -> Option<(CommitId, TreeFault)>
    ensures { result ≡ unread_in thing.now tree.now }
{
    match (thing, tree) {
        (Some(Stored::Commit { id, .. }), Some(Err(fault))) => Some((*id, *fault)),
        _ => None,
    }
}

// The tree of a commit, or its fault; want of memory is none.
fn tree_or_fault(
    alloc: Global,
    pairs: &SpelledPairs,
    reader: &mut TreeReader,
    commit: &CommitRecord,
    cut: &Cut,
) -> Result<ReadTree, NoMemory>
    requires modulus { 0 < cut.now.modulus }
    requires ranges { reader.old ≡ ranges_in pairs.now }
    ensures ranges { reader.new ≡ ranges_in pairs.now }
    ensures tree { IfOk result (λ read. read ≡ tree_named cut.now pairs.now commit.now) }
{
    match read_tree(alloc, pairs, reader, commit, cut) {
        Ok(tree) => Ok(Ok(tree)),
        Err(TreeFault::NoMemory) => Err(NoMemory),
        Err(fault) => Ok(Err(fault)),
    }
}

// The tree of a commit.
#[tactic(auto, unfolding(crate::specs::PairTrees::tree_named))]
fn read_tree(
    alloc: Global,
    pairs: &SpelledPairs,
    reader: &mut TreeReader,
    commit: &CommitRecord,
    cut: &Cut,
) -> Result<Tree, TreeFault>
    requires modulus { 0 < cut.now.modulus }
    requires ranges { reader.old ≡ ranges_in pairs.now }
    ensures ranges { reader.new ≡ ranges_in pairs.now }
    ensures reads { ReadsAs (λ tree. tree) result (tree_named cut.now pairs.now commit.now) }
{
    let name = &commit.meta_range;
    let metarange = metarange_bytes(alloc, pairs, name)?;
    reader.read(alloc, name, metarange, cut)
}

// The bytes of the metarange of a name, where it is there.
fn metarange_bytes<'p>(
    alloc: Global,
    pairs: &'p SpelledPairs,
    name: &Digest,
) -> Result<Option<&'p [u8]>, NoMemory>
    ensures { IfOk result (λ bytes. option_copied bytes ≡ bytes_named name.now (metaranges_in pairs.now)) }
{
    match metarange_of(alloc, pairs, name)? {
        Some(bytes) => Ok(Some(bytes.as_slice())),
        None => Ok(None),
    }
}
