//! What is right of branches, tags and settings.
ghost use Rattle.std.specs.Prelude.{◌↔◌, ◌∷◌, ℕ, List, IfOk, IsTrue};
ghost use Rattle.std.specs.List.{AllByRecursion};
ghost use Rattle.pair_format.specs.declared.stored.Stored.TheVariants as stored;
ghost use Rattle.pair_ties.specs.BrokenPairs.{IsExpired, IsRightBranch};
ghost use Rattle.pair_trees.specs.SettingTexts.{IsSettingText};
ghost use Rattle.pair_trees.specs.Tables.{AreTablesOf};
ghost use Rattle.pair_ties.specs.Tested.{IsFreshToken};
ghost use Rattle.pair_trees.specs.Things.{Spells};

use crate::given::{is_given_token, is_given_version};
use branch_record::are_distinct;
use lake_base::{NoMemory, RepoName};
use lake_values::{CommitId, NoteName};
use pair_trees::{SpelledPairs, Tables, commit_of, read_note};
use std::alloc::Global;

// Whether the branch at a place is right.
pub(crate) fn is_right_branch(
    alloc: Global,
    pairs: &SpelledPairs,
    tables: &Tables,
    at: usize,
    repo: &RepoName,
    version: u64,
    head: &CommitId,
    staging: u64,
    sealed: &[u64],
) -> Result<bool, NoMemory>
    requires here { (branch : List ℕ)
        × Spells pairs.now at (stored.Branch repo.now branch version head.now staging sealed.now) }
    requires tables { AreTablesOf pairs.now tables.now }
    ensures { IfOk result (λ right. IsTrue right
        ↔ IsRightBranch pairs.now at repo.now version head.now (staging ∷ sealed.now)) }
{
    if !is_given_version(pairs, tables, version) {
        return Ok(false);
    }
    if !are_fresh(pairs, tables, at, staging, sealed) {
        return Ok(false);
    }
    if !are_distinct(alloc, staging, sealed)? {
        return Ok(false);
    }
    isnt_expired(alloc, pairs, repo, head)
}

// Whether the tokens of the branch at a place were given out, and no earlier branch names one of them.
fn are_fresh(pairs: &SpelledPairs, tables: &Tables, at: usize, staging: u64, sealed: &[u64]) -> bool
    requires { AreTablesOf pairs.now tables.now }
    ensures { IsTrue result ↔ AllByRecursion (IsFreshToken pairs.now tables.now at) (staging ∷ sealed.now) }
{
    if !is_fresh(pairs, tables, at, staging) {
        return false;
    }
    for token in sealed {
        if !is_fresh(pairs, tables, at, *token) {
            return false;
        }
    }
    true
}

// Whether a token of the branch at a place was given out, and no earlier branch names it.
fn is_fresh(pairs: &SpelledPairs, tables: &Tables, at: usize, token: u64) -> bool
    requires { AreTablesOf pairs.now tables.now }
    ensures { IsTrue result ↔ IsFreshToken pairs.now tables.now at token }
{
    is_given_token(pairs, tables, token)
        && match tables.tokens.get(&token) {
            Some(first) => *first == at,
            None => false,
        }
}

// Whether a commit of a repository isn't read as expired.
pub(crate) fn isnt_expired(
    alloc: Global,
    pairs: &SpelledPairs,
    repo: &RepoName,
    id: &CommitId,
) -> Result<bool, NoMemory>
    ensures { IfOk result (λ live. IsTrue live ↔ (IsExpired pairs.now repo.now id.now → ⊥)) }
{
    match commit_of(alloc, pairs, repo, id)? {
        Some((expired, _)) => Ok(!expired),
        None => Ok(true),
    }
}

// Whether this is the text of a setting of a name.
pub(crate) fn is_right_note(alloc: Global, name: NoteName, text: &[u8]) -> Result<bool, NoMemory>
    ensures { IfOk result (λ right. IsTrue right ↔ IsSettingText name text.now) }
{
    Ok(read_note(alloc, name, text)?.is_some())
}
