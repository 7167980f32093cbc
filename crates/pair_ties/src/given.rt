//! What was given out.
ghost use Rattle.std.specs.Prelude.{◌↔◌, IsTrue};
ghost use Rattle.pair_trees.specs.Tables.{AreTablesOf};
ghost use Rattle.pair_trees.specs.Things.{IsGivenNumber, IsGivenToken, IsGivenVersion};

use pair_trees::{SpelledPairs, Tables};

// Whether a number of an object was given out.
pub(crate) fn is_given_number(pairs: &SpelledPairs, tables: &Tables, given: u64) -> bool
    requires { AreTablesOf pairs.now tables.now }
    ensures { IsTrue result ↔ IsGivenNumber pairs.now given }
{
    let _ = pairs;
    match tables.counts {
        Some((number, _, _)) => given < number,
        None => true,
    }
}

// Whether a version was given out.
pub(crate) fn is_given_version(pairs: &SpelledPairs, tables: &Tables, given: u64) -> bool
    requires { AreTablesOf pairs.now tables.now }
    ensures { IsTrue result ↔ IsGivenVersion pairs.now given }
{
    let _ = pairs;
    match tables.counts {
        Some((_, version, _)) => given < version,
        None => true,
    }
}

// Whether a token was given out.
pub(crate) fn is_given_token(pairs: &SpelledPairs, tables: &Tables, given: u64) -> bool
    requires { AreTablesOf pairs.now tables.now }
    ensures { IsTrue result ↔ IsGivenToken pairs.now given }
{
    let _ = pairs;
    match tables.counts {
        Some((_, _, token)) => given < token,
        None => true,
    }
}
