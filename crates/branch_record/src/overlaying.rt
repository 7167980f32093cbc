//! The changes of a branch as one.
ghost use Rattle.std.specs.Prelude.{◌≡◌, IfOk};
ghost use Rattle.branch_record.specs.Tokens.{changes_under};
ghost use Rattle.branch_record.specs.Overlay.{layers_of, overlay_of};

use crate::record::BranchRecord;
use crate::tokens::Tokens;
use lake_base::copying::TryCopy;
use lake_base::outside::NoMemory;
use lake_values::changes::Changes;
use std::alloc::Global;

impl BranchRecord {
    /// The sealed changes, or the staged ones over them. Each merge of two tokens' changes is one walk over both.
    pub fn overlay(
        &self,
        alloc: Global,
        tokens: &Tokens,
        sealed_only: bool,
    ) -> Result<Changes, NoMemory>
        ensures { IfOk result (λ changes. changes ≡ overlay_of self.now tokens.now.changes sealed_only) }
    {
        let sealed = self.sealed();
        if sealed_only {
            return layers(alloc, tokens, sealed);
        }
        let staged = copy_of(alloc, tokens, self.staging())?;
        if sealed.is_empty() {
            return Ok(staged);
        }
        let sealed = layers(alloc, tokens, sealed)?;
        staged.over(alloc, &sealed)
    }
}

// The changes of tokens, newest first: of the first half of them over those of the second.
fn layers(alloc: Global, tokens: &Tokens, named: &[u64]) -> Result<Changes, NoMemory>
    ensures { IfOk result (λ changes. changes ≡ layers_of tokens.now.changes named.now) }
{
    match named {
        [] => Ok(Changes::new(alloc)),
        [token] => copy_of(alloc, tokens, *token),
        _ => {
            let (newer, older) = named.split_at(named.len() / 2);
            let newer = layers(alloc, tokens, newer)?;
            let older = layers(alloc, tokens, older)?;
            newer.over(alloc, &older)
        }
    }
}

// A copy of the changes under a token.
fn copy_of(alloc: Global, tokens: &Tokens, token: u64) -> Result<Changes, NoMemory>
    ensures { IfOk result (λ changes. changes ≡ changes_under tokens.now.changes token) }
{
    let mut rows = Vec::new(alloc);
    let mut cursor = tokens.changes_of(token);
    while let Some((path, change)) = cursor.next() {
        rows.push((path.copy(alloc)?, change.copy(alloc)?))?;
    }
    Ok(Changes::from_vec(rows))
}
