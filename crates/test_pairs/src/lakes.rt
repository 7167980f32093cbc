//! What opening the lakes of the rows comes to.

use crate::other_rows::{
    COUNTS, DIGESTS, FILES, GIVEN_NUMBERS, GONE_NUMBERS, NAMED_FORMS, OTHER_FORMS,
};
use crate::rows::{COMMITS, Due, LAKE, PLACES, REPOSITORIES, Row, SETTINGS, TOKENS};
use keeper::{Keeper, MemoryKeeper, are_ascending};
use lake_base::Sequence;
use lake_format::USUAL_CUT;
use lake_opening::{OpenFault, open_lake};
use pair_format::Pair;
use std::alloc::Global;
use std::collections::BTreeMap;
use std::process::Abort;
use std::test::Fail;

// Bytes in hex.
fn bytes_of(alloc: Global, text: &str) -> Result<Vec<u8>, Fail> {
    let bytes = hex::decode(alloc, text).ok().ok_or("it isn't hex")?;
    Ok(bytes)
}

// Puts pairs in hex.
fn put_pairs(
    alloc: Global,
    table: &mut BTreeMap<Vec<u8>, Vec<u8>>,
    pairs: &[(&str, &str)],
) -> Result<(), Fail> {
    for (key, value) in pairs {
        let key = bytes_of(alloc, key)?;
        let value = bytes_of(alloc, value)?;
        table.insert(key, value)?;
    }
    Ok(())
}

// The pairs of a row, by their keys.
fn table_of(alloc: Global, row: &Row) -> Result<BTreeMap<Vec<u8>, Vec<u8>>, Fail> {
    let mut table = BTreeMap::new(alloc);
    put_pairs(alloc, &mut table, LAKE)?;
    for key in row.without {
        let key = bytes_of(alloc, key)?;
        table.remove(&key);
    }
    put_pairs(alloc, &mut table, row.put)?;
    Ok(table)
}

// The pairs of a row, in the order of their keys.
fn pairs_of(alloc: Global, row: &Row) -> Result<Vec<Pair>, Fail> {
    let mut pairs = Vec::new(alloc);
    for (key, value) in table_of(alloc, row)? {
        pairs.push(Pair {
            key: Sequence::of(key),
            value: Sequence::of(value),
        })?;
    }
    Ok(pairs)
}

// How many pairs a keeper keeps.
fn count_of(keeper: &mut MemoryKeeper) -> Result<usize, Fail> {
    let pairs = keeper.load().ok().ok_or("they aren't loaded")?;
    Ok(pairs.len())
}

// What opening over these pairs comes to. A lake keeps them.
fn opened(alloc: Global, pairs: Vec<Pair>) -> Result<Due, Fail> {
    let count = pairs.len();
    if !are_ascending(pairs.as_slice()) {
        return Err("they don't ascend")?;
    }
    let keeper = MemoryKeeper::new(alloc, pairs, Vec::new(alloc));
    match open_lake(alloc, keeper, USUAL_CUT) {
        Ok(lake) => {
            if count_of(&mut lake.into_keeper())? != count {
                return Err("they aren't kept")?;
            }
            Ok(Due::Sound)
        }
        Err((OpenFault::BadPair(number), _)) => Ok(Due::Broken(number)),
        Err((OpenFault::Tree { .. }, _)) => Ok(Due::Unread),
        Err(_) => Err("it fails")?,
    }
}

// Checks a row.
fn check_row(rt: &impl Abort, alloc: Global, row: &Row) -> Result<(), Fail> {
    let pairs = pairs_of(alloc, row)?;
    assert_eq!(rt; opened(alloc, pairs)?, row.due, "{}", row.about);
    Ok(())
}

// Checks rows.
fn check_rows(rt: &impl Abort, alloc: Global, rows: &[Row]) -> Result<(), Fail> {
    for row in rows {
        check_row(rt, alloc, row)?;
    }
    Ok(())
}

#[test]
fn the_repository_of_a_pair_is_there(rt: HostRuntime) -> Result<(), Fail> {
    check_rows(&rt, rt.alloc(), &REPOSITORIES)
}

#[test]
fn what_a_pair_names_is_there(rt: HostRuntime) -> Result<(), Fail> {
    check_rows(&rt, rt.alloc(), &PLACES)
}

#[test]
fn commits_are_those_of_their_ids_and_live(rt: HostRuntime) -> Result<(), Fail> {
    check_rows(&rt, rt.alloc(), &COMMITS)
}

#[test]
fn tokens_are_named_once(rt: HostRuntime) -> Result<(), Fail> {
    check_rows(&rt, rt.alloc(), &TOKENS)
}

#[test]
fn settings_have_their_texts_and_versions_were_given(rt: HostRuntime) -> Result<(), Fail> {
    check_rows(&rt, rt.alloc(), &SETTINGS)
}

#[test]
fn numbers_were_given_out(rt: HostRuntime) -> Result<(), Fail> {
    check_rows(&rt, rt.alloc(), &GIVEN_NUMBERS)
}

#[test]
fn numbers_that_are_gone_are_not_named(rt: HostRuntime) -> Result<(), Fail> {
    check_rows(&rt, rt.alloc(), &GONE_NUMBERS)
}

#[test]
fn the_counts_are_there_and_small(rt: HostRuntime) -> Result<(), Fail> {
    check_rows(&rt, rt.alloc(), &COUNTS)
}

#[test]
fn commits_of_one_id_are_one(rt: HostRuntime) -> Result<(), Fail> {
    check_rows(&rt, rt.alloc(), &DIGESTS)
}

#[test]
fn files_that_nothing_names_are_passed_over(rt: HostRuntime) -> Result<(), Fail> {
    check_rows(&rt, rt.alloc(), &FILES)
}

#[test]
fn a_pair_of_no_form_is_broken_itself(rt: HostRuntime) -> Result<(), Fail> {
    check_rows(&rt, rt.alloc(), &NAMED_FORMS)
}

#[test]
fn so_is_a_pair_that_nothing_names(rt: HostRuntime) -> Result<(), Fail> {
    check_rows(&rt, rt.alloc(), &OTHER_FORMS)
}
