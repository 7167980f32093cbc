//! What is told of all pairs, so that each is tested by searches.
ghost use Rattle.std.specs.Prelude.{◌≡◌, ◌∷◌, ◌&&◌, [], IfOk, OnOk, drop, map};
ghost use Rattle.std.specs.List.{list_any};
ghost use Rattle.lake_values.specs.Ancestry.{same_id};
ghost use Rattle.pair_trees.specs.PairTrees.{tree_in, trees_of};
ghost use Rattle.pair_trees.specs.Tables.{AddsNames, AreTablesOf, HasNames, PutsCommit, PutsId, PutsTokens};
ghost use Rattle.pair_trees.specs.Tables.{TellsCommits, TellsTokens, has_live_range, has_metarange, has_name};
ghost use Rattle.pair_trees.specs.Tables.{has_range};
ghost use Rattle.pair_trees.specs.Tables.{is_live};
ghost use Rattle.pair_trees.specs.Things.{tokens_in};

use crate::found::counts_of;
use crate::spelled::SpelledPairs;
use crate::trees::ReadTree;
use lake_base::{Digest, NoMemory};
use lake_format::Cut;
use meta_range::Tree;
use pair_format::Stored;
use std::alloc::Global;
use std::collections::BTreeMap;

/// What is told of all pairs. Places count from 0, in the order of the keys.
#[derive(Drop)]
pub struct Tables {
    /// How trees are cut.
    pub cut: Cut,
    /// Of each token the place of the first branch that names it.
    pub tokens: BTreeMap<u64, usize>,
    /// Of each id the place of the first commit that has it.
    pub commits: BTreeMap<Digest, usize>,
    /// The names of the metaranges of the trees that are read.
    pub metaranges: BTreeMap<Digest, ()>,
    /// The names of the ranges of these trees.
    pub ranges: BTreeMap<Digest, ()>,
    /// The names of the ranges of those of them whose commit isn't expired.
    pub live_ranges: BTreeMap<Digest, ()>,
    /// What is given out next, where that is told: a number, a version and a token.
    pub counts: Option<(u64, u64, u64)>,
}

impl Tables {
    /// The tables of these pairs. It takes a search for each token, commit and file of a tree.
    #[tactic(auto, unfolding(crate::specs::PairTrees::trees_of))]
    pub fn of(
        alloc: Global,
        pairs: &SpelledPairs,
        trees: &[Option<ReadTree>],
        cut: &Cut,
    ) -> Result<Tables, NoMemory>
        requires { trees.now ≡ trees_of cut.now pairs.now }
        ensures tables { IfOk result (λ tables. AreTablesOf pairs.now tables) }
        ensures cut { IfOk result (λ tables. tables.cut ≡ cut.now) }
    {
        let things = pairs.as_slice();
        Ok(Tables {
            cut: *cut,
            tokens: tokens_of(alloc, things)?,
            commits: commits_of(alloc, things)?,
            metaranges: metaranges_of(alloc, trees)?,
            ranges: ranges_of(alloc, trees)?,
            live_ranges: live_ranges_of(alloc, things, trees, cut)?,
            counts: counts_of(alloc, pairs)?,
        })
    }
}

// Of each token the place of the first branch that names it.
fn tokens_of(alloc: Global, things: &[Option<Stored>]) -> Result<BTreeMap<u64, usize>, NoMemory>
    ensures { IfOk result (λ table. TellsTokens table things.now) }
{
    let mut table = BTreeMap::new(alloc);
    for (at, thing) in things.iter().enumerate() {
        put_thing(&mut table, thing, at)?;
    }
    Ok(table)
}

// Puts the tokens of a branch at a place.
fn put_thing(
    table: &mut BTreeMap<u64, usize>,
    thing: &Option<Stored>,
    at: usize,
) -> Result<(), NoMemory>
    ensures { OnOk result (PutsTokens table.old table.new (tokens_in thing.now) at) }
{
    match thing {
        Some(
            Stored::Branch {
                staging,
                sealed,
                ..
            },
        ) => {
            put_token(table, *staging, at)?;
            put_tokens(table, sealed.as_slice(), at)
        }
        _ => Ok(()),
    }
}

// Puts tokens at a place.
fn put_tokens(table: &mut BTreeMap<u64, usize>, tokens: &[u64], at: usize) -> Result<(), NoMemory>
    ensures { OnOk result (PutsTokens table.old table.new tokens.now at) }
{
    for token in tokens {
        put_token(table, *token, at)?;
    }
    Ok(())
}

// Puts a token at a place. One of which the table tells already stays at its place.
fn put_token(table: &mut BTreeMap<u64, usize>, token: u64, at: usize) -> Result<(), NoMemory>
    ensures { OnOk result (PutsTokens table.old table.new (token ∷ []) at) }
{
    if table.contains_key(&token) {
        return Ok(());
    }
    table.insert(token, at)?;
    Ok(())
}

// Of each id the place of the first commit that has it.
fn commits_of(alloc: Global, things: &[Option<Stored>]) -> Result<BTreeMap<Digest, usize>, NoMemory>
    ensures { IfOk result (λ table. TellsCommits table things.now) }
{
    let mut table = BTreeMap::new(alloc);
    for (at, thing) in things.iter().enumerate() {
        put_commit(&mut table, thing, at)?;
    }
    Ok(table)
}

// Puts the id of a commit at a place.
fn put_commit(
    table: &mut BTreeMap<Digest, usize>,
    thing: &Option<Stored>,
    at: usize,
) -> Result<(), NoMemory>
    ensures { OnOk result (PutsCommit table.old table.new thing.now at) }
{
    match thing {
        Some(Stored::Commit { id, .. }) => put_id(table, *id, at),
        _ => Ok(()),
    }
}

// Puts an id at a place. One of which the table tells already stays at its place.
fn put_id(table: &mut BTreeMap<Digest, usize>, id: Digest, at: usize) -> Result<(), NoMemory>
    ensures { OnOk result (PutsId table.old table.new id at) }
{
    if table.contains_key(&id) {
        return Ok(());
    }
    table.insert(id, at)?;
    Ok(())
}

// The names of the metaranges of the trees that are read.
fn metaranges_of(
    alloc: Global,
    trees: &[Option<ReadTree>],
) -> Result<BTreeMap<Digest, ()>, NoMemory>
    ensures { IfOk result (λ table. HasNames table (λ name. list_any (has_metarange name) trees.now)) }
{
    let mut table = BTreeMap::new(alloc);
    for tree in trees {
        put_metarange(&mut table, tree)?;
    }
    Ok(table)
}

// Puts the name of the metarange of a tree that is read.
fn put_metarange(table: &mut BTreeMap<Digest, ()>, tree: &Option<ReadTree>) -> Result<(), NoMemory>
    ensures { OnOk result (AddsNames table.old table.new (λ name. has_metarange name tree.now)) }
{
    match tree {
        Some(Ok(tree)) => put_name(table, tree.name()),
        _ => Ok(()),
    }
}

// The names of their ranges.
fn ranges_of(alloc: Global, trees: &[Option<ReadTree>]) -> Result<BTreeMap<Digest, ()>, NoMemory>
    ensures { IfOk result (λ table. HasNames table (λ name. list_any (has_range name) trees.now)) }
{
    let mut table = BTreeMap::new(alloc);
    for tree in trees {
        put_ranges(&mut table, tree)?;
    }
    Ok(table)
}

// Puts the names of the ranges of a tree that is read.
fn put_ranges(table: &mut BTreeMap<Digest, ()>, tree: &Option<ReadTree>) -> Result<(), NoMemory>
    ensures { OnOk result (AddsNames table.old table.new (λ name. has_range name tree.now)) }
{
    match tree {
        Some(Ok(tree)) => put_range_names(table, tree),
        _ => Ok(()),
    }
}

// The names of the ranges of those whose commit isn't expired.
fn live_ranges_of(
    alloc: Global,
    things: &[Option<Stored>],
    trees: &[Option<ReadTree>],
    cut: &Cut,
) -> Result<BTreeMap<Digest, ()>, NoMemory>
    requires { trees.now ≡ map (tree_in cut.now things.now) things.now }
    ensures { IfOk result (λ table. HasNames table
        (λ name. list_any (has_live_range cut.now things.now name) things.now)) }
{
    let _ = cut;
    let mut table = BTreeMap::new(alloc);
    for (at, tree) in trees.iter().enumerate() {
        put_live_ranges(&mut table, &things[at], tree)?;
    }
    Ok(table)
}

// Puts the names of the ranges of the tree of a commit that isn't expired.
fn put_live_ranges(
    table: &mut BTreeMap<Digest, ()>,
    thing: &Option<Stored>,
    tree: &Option<ReadTree>,
) -> Result<(), NoMemory>
    ensures { OnOk result (AddsNames table.old table.new (λ name. is_live thing.now && has_range name tree.now)) }
{
    if is_live(thing) {
        put_ranges(table, tree)
    } else {
        Ok(())
    }
}

// Whether this is a commit that isn't expired.
fn is_live(thing: &Option<Stored>) -> bool
    ensures { result ≡ is_live thing.now }
{
    match thing {
        Some(Stored::Commit { expired, .. }) => !*expired,
        _ => false,
    }
}

// Puts the names of the ranges of a tree.
fn put_range_names(table: &mut BTreeMap<Digest, ()>, tree: &Tree) -> Result<(), NoMemory>
    ensures { OnOk result (AddsNames table.old table.new (λ name. has_name name (drop 1 tree.now.files))) }
{
    for place in 0..tree.range_count() {
        put_name(table, tree.file_name(place + 1))?;
    }
    Ok(())
}

// Puts a name.
fn put_name(table: &mut BTreeMap<Digest, ()>, name: Digest) -> Result<(), NoMemory>
    ensures { OnOk result (AddsNames table.old table.new (same_id name)) }
{
    table.insert(name, ())?;
    Ok(())
}
