//! What a branch's changes say of a path.
ghost use Rattle.std.specs.Prelude.{◌≡◌, option_copied};
ghost use Rattle.branch_record.specs.Looking.{first_change, branch_change, change_told};

use crate::record::BranchRecord;
use crate::tokens::Tokens;
use lake_base::names::Path;
use lake_values::entry::{Change, Entry};

/// What a branch's changes say of a path.
#[derive(Debug, Drop)]
pub enum Looked<'a> {
    /// This entry was put there.
    Entry(&'a Entry),
    /// What was there is deleted.
    Tombstone,
    /// Nothing: what stands there is what the head's map has.
    Below,
}

impl BranchRecord {
    /// What the first of the record's tokens says that has a change of the path: the staging token, then the sealed
    /// ones, newest first. It is a search a token, and takes no memory.
    ///
    /// With `a` and `b` put and sealed, and then a deletion of `a` staged, a look at `a` finds the tombstone, one at
    /// `b` the entry, and one at `c` nothing.
    pub fn look<'a>(&self, tokens: &'a Tokens, path: &Path) -> Looked<'a>
        ensures { change_told result ≡ branch_change self.now tokens.now.changes path.now }
    {
        match change_said(self, tokens, path) {
            Some(Change::Put(entry)) => Looked::Entry(entry),
            Some(Change::Delete) => Looked::Tombstone,
            None => Looked::Below,
        }
    }
}

// The change of the path under the first of the record's tokens that has one.
fn change_said<'a>(branch: &BranchRecord, tokens: &'a Tokens, path: &Path) -> Option<&'a Change>
    ensures { option_copied result ≡ branch_change branch.now tokens.now.changes path.now }
{
    match tokens.get(branch.staging(), path) {
        Some(change) => Some(change),
        None => said_by(tokens, branch.sealed(), path),
    }
}

// The same under the first of these tokens.
fn said_by<'a>(tokens: &'a Tokens, named: &[u64], path: &Path) -> Option<&'a Change>
    ensures { option_copied result ≡ first_change tokens.now.changes named.now path.now }
{
    for token in named {
        if let Some(change) = tokens.get(*token, path) {
            return Some(change);
        }
    }
    None
}
