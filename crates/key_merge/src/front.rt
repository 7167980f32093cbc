//! The three sides of a merge, path by path: the least path that base or source still has, and what each side has
//! there. A path that neither has stays as it is in the destination, and is passed by a search.
ghost use Rattle.std.specs.Prelude.{◌≡◌, ◌++◌, IfOk, IfSome, OnOk, OnSome, option_copied};
ghost use Rattle.lake_values.specs.Join.{rows_at};
ghost use Rattle.lake_values.specs.KeyMap.{change_between};
ghost use Rattle.key_merge.specs.MergeWalk.{Ascend, sides_of, sides_above, first_front, least_path, side_at};

use crate::rows::Rows;
use lake_base::TryCopy;
use lake_base::names::Path;
use lake_base::outside::NoMemory;
use lake_values::cursor::is_below;
use lake_values::entry::{Change, Entry};
use lake_values::key_map::change_between;
use lake_values::merge::{Side, side_of};
use meta_range::Tree;
use std::alloc::Global;
use std::marker::Model;

// The rows of base, source and destination that are still to come.
#[derive(Debug, Drop)]
pub(crate) struct Sides<'a> {
    base: Rows<'a>,
    source: Rows<'a>,
    dest: Rows<'a>,
}

impl<'a> Model for Sides<'a> {
    ghost use Rattle.key_merge.specs.MergeWalk.{SidesValue};

    ghost Value = { SidesValue };

    ghost view = { λ sides. record { base = sides.base; source = sides.source; dest = sides.dest } };
}

// A path, and what base, source and destination have there.
#[derive(Debug, Drop)]
pub(crate) struct Front<'a> {
    pub(crate) path: &'a Path,
    base: Option<&'a Entry>,
    source: Option<&'a Entry>,
    dest: Option<&'a Entry>,
}

impl<'a> Model for Front<'a> {
    ghost use Rattle.std.specs.Prelude.{option_copied};
    ghost use Rattle.key_merge.specs.MergeWalk.{FrontValue};

    ghost Value = { FrontValue };

    ghost view = { λ front. record {
      path = front.path.now;
      base = option_copied front.base;
      source = option_copied front.source;
      dest = option_copied front.dest;
    } };
}

impl<'a> Sides<'a> {
    // All rows of three trees.
    pub(crate) fn new(base: &'a Tree, source: &'a Tree, dest: &'a Tree) -> Sides<'a>
        ensures { result ≡ sides_of base.now.map source.now.map dest.now.map }
    {
        Sides {
            base: Rows::new(base.seek(None)),
            source: Rows::new(source.seek(None)),
            dest: Rows::new(dest.seek(None)),
        }
    }

    // The least path that base or source has. It and all below it are passed.
    pub(crate) fn next(&mut self) -> Option<Front<'a>>
        ensures front { result ≡ first_front self.old }
        ensures left { IfSome result (λ front. self.new ≡ sides_above front.path self.old) }
        ensures ascend { OnSome result (Ascend self.old) }
    {
        let path = least_of(self.base.path(), self.source.path())?;
        let base = self.base.at(path);
        let source = self.source.at(path);
        let dest = self.dest.at(path);
        Some(Front {
            path,
            base,
            source,
            dest,
        })
    }
}

impl<'a> Front<'a> {
    // Whose value the path takes.
    pub(crate) fn side(&self) -> Side
        ensures { result ≡ side_at self.now }
    {
        side_of(self.base, self.source, self.dest)
    }

    // Appends the change that gives the destination the source's value, where it has another.
    pub(crate) fn take_source(
        &self,
        alloc: Global,
        changes: &mut Vec<(Path, Change)>,
    ) -> Result<(), NoMemory>
        ensures { OnOk result (changes.new.items
            ≡ changes.old.items ++ rows_at self.now.path (change_between self.now.source self.now.dest)) }
    {
        if let Some(change) = change_between(alloc, self.source, self.dest)? {
            changes.push((self.path.copy(alloc)?, change))?;
        }
        Ok(())
    }
}

// The lesser of two paths.
fn least_of<'a>(path: Option<&'a Path>, other: Option<&'a Path>) -> Option<&'a Path>
    ensures { option_copied result ≡ least_path (option_copied path.entry) (option_copied other.entry) }
{
    match (path, other) {
        (Some(path), Some(other)) => {
            if is_below(other.as_slice(), path.as_slice()) {
                Some(other)
            } else {
                Some(path)
            }
        }
        (Some(path), None) => Some(path),
        (None, other) => other,
    }
}
