//! The changes of several layers, walked as one.
ghost use Rattle.std.specs.Prelude.{◌≡◌, [], ◌∷◌, MatchOption, IfOk, false, map};
ghost use Rattle.std.specs.List.{AllByRecursion};
ghost use Rattle.std.specs.FinMap.{entries};
ghost use Rattle.lake_values.specs.Cursor.{entries_from};
ghost use Rattle.branch_record.specs.Joined.{HasNoneBelow, IsFirst, earlier_change, layers_under};
ghost use Rattle.branch_record.specs.Layers.{rows_above, rows_below};
ghost use Rattle.branch_record.specs.Overlay.{overlay_of};

use crate::changes::{ChangeCursor, ChangesLeft};
use crate::cursor::ChangesCursor;
use crate::record::BranchRecord;
use crate::tokens::Tokens;
use lake_base::names::Path;
use lake_base::outside::NoMemory;
use lake_values::cursor::is_below;
use lake_values::entry::Change;
use std::alloc::Global;
use std::marker::Model;

/// The changes of tokens as one, some of which are still to come: at each path the change of the newest token that has
/// one there. Contracts see those still to come, in ascending order of path.
///
/// With `b2 d-` staged over the sealed `a1 b1`, where a digit is an entry and a dash a deletion, they are `a1 b2 d-`.
#[derive(Drop)]
pub struct JoinedCursor<'a> {
    // The changes that each token has left, newest first.
    layers: Vec<ChangesCursor<'a>>,
}

impl<'a> Model for JoinedCursor<'a> {
    ghost use Rattle.std.specs.Prelude.{List, ℕ};
    ghost use Rattle.lake_values.specs.declared.entry.Change.{Change as AnyChange};
    ghost use Rattle.branch_record.specs.Joined.{AreAscending, rows_joined};

    ghost Value = { List (List ℕ × AnyChange) };

    ghost view = { λ cursor. rows_joined cursor.layers.items };

    ghost invariant = { λ cursor. AreAscending cursor.layers.items };
}

impl BranchRecord {
    /// A walk over the staged changes over the sealed ones, as one. It takes memory for a cursor of each token, and
    /// copies no change.
    pub fn walk<'a>(&self, alloc: Global, tokens: &'a Tokens) -> Result<JoinedCursor<'a>, NoMemory>
        ensures { IfOk result (λ cursor. cursor ≡ entries (overlay_of self.now tokens.now.changes false)) }
    {
        let layers = layers(alloc, tokens, self.staging(), self.sealed())?;
        Ok(JoinedCursor { layers })
    }
}

// The changes that each of these tokens has left, newest first.
fn layers<'a>(
    alloc: Global,
    tokens: &'a Tokens,
    newest: u64,
    older: &[u64],
) -> Result<Vec<ChangesCursor<'a>>, NoMemory>
    ensures { IfOk result (λ layers. layers.items ≡ layers_under tokens.now.changes (newest ∷ older.now)) }
{
    let mut layers = Vec::new(alloc);
    layers.push(tokens.changes_of(newest))?;
    for token in older {
        layers.push(tokens.changes_of(*token))?;
    }
    Ok(layers)
}

impl<'a> ChangesLeft for JoinedCursor<'a> {
    ghost left = { λ cursor. cursor };
}

impl<'a> ChangeCursor<'a> for JoinedCursor<'a> {
    fn next(&mut self) -> Option<(&'a Path, &'a Change)> {
        let Some((path, change)) = first_of(&self.layers) else {
            return None;
        };
        pass_each(&mut self.layers, path);
        Some((path, change))
    }

    fn seek(&mut self, least: &[u8]) {
        seek_each(&mut self.layers, least);
    }
}

// The change at the least path at the front of the layers, of the newest that has that path.
fn first_of<'a>(layers: &[ChangesCursor<'a>]) -> Option<(&'a Path, &'a Change)>
    ensures { MatchOption result (AllByRecursion (λ layer. layer ≡ []) layers.now)
        (λ row. IsFirst layers.now row.0.now row.1.now) }
{
    let mut first: Option<(&'a Path, &'a Change)> = None;
    for layer in layers {
        first = earlier(first, layer.first());
    }
    first
}

// The change at the lesser path, and of two at one path the newer.
fn earlier<'a>(
    newer: Option<(&'a Path, &'a Change)>,
    older: Option<(&'a Path, &'a Change)>,
) -> Option<(&'a Path, &'a Change)>
    ensures { result ≡ earlier_change newer.entry older.entry }
{
    let Some((path, _)) = newer else {
        return older;
    };
    let Some((at, _)) = older else {
        return newer;
    };
    if is_below(at.as_slice(), path.as_slice()) {
        return older;
    }
    newer
}

// Passes over the change at a path, in each layer that has it; none has one below.
fn pass_each(layers: &mut [ChangesCursor<'_>], path: &Path)
    requires { HasNoneBelow path.now layers.old }
    ensures { layers.new ≡ map (rows_above path.now) layers.old }
{
    for layer in layers.iter_mut() {
        layer.pass(path);
    }
}

// Passes over the changes at paths below these bytes, in each layer.
fn seek_each(layers: &mut [ChangesCursor<'_>], least: &[u8])
    ensures { layers.new ≡ map (entries_from least.now) layers.old }
{
    for layer in layers.iter_mut() {
        layer.seek(least);
    }
}
