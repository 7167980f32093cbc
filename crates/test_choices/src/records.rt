//! The calls on a branch's record and its tokens.
use branch_record::{BranchRecord, ResetWhat, Tokens, are_distinct};
use lake_base::Digest;
use lake_values::Change;
use std::alloc::Global;
use std::test::Fail;
use test_values::{changes_told, entry, path};

// The words of the changes of a record: of the sealed ones alone, or of all.
fn told(
    alloc: Global,
    record: &BranchRecord,
    tokens: &Tokens,
    sealed_alone: bool,
) -> Result<String, Fail> {
    changes_told(alloc, &record.overlay(alloc, tokens, sealed_alone)?)
}

// Makes room for a change at a path, and stages it.
fn stage(
    alloc: Global,
    record: &mut BranchRecord,
    tokens: &mut Tokens,
    name: &str,
    change: Change,
) -> Result<(), Fail> {
    record.ready(tokens)?;
    record.stage(tokens, path(alloc, name)?, change)?;
    Ok(())
}

// Seals what is staged, and takes the token 11 for what comes.
fn seal(record: &mut BranchRecord, tokens: &mut Tokens) -> Result<(), Fail> {
    record.ready(tokens)?;
    if record.names(11) || tokens.has_changes(11) {
        return Err("the token 11 is in use")?;
    }
    record.seal(tokens, 11)?;
    Ok(())
}

// A branch with a deletion staged, beside a change under a token of nobody.
fn begun(alloc: Global) -> Result<(BranchRecord, Tokens), Fail> {
    let mut tokens = Tokens::new(alloc);
    let mut record = BranchRecord::fresh(alloc, 1, Digest([0; 32]), 10);
    tokens.put(3, path(alloc, "c")?, Change::Delete)?;
    stage(alloc, &mut record, &mut tokens, "a", Change::Delete)?;
    Ok((record, tokens))
}

// The same with the deletion sealed, and an entry staged behind it.
fn sealed(alloc: Global) -> Result<(BranchRecord, Tokens), Fail> {
    let (mut record, mut tokens) = begun(alloc)?;
    seal(&mut record, &mut tokens)?;
    let put = Change::Put(entry(alloc, 1, 5)?);
    stage(alloc, &mut record, &mut tokens, "b", put)?;
    Ok((record, tokens))
}

// The same with what was sealed dropped.
fn dropped(alloc: Global) -> Result<(BranchRecord, Tokens), Fail> {
    let (mut record, mut tokens) = sealed(alloc)?;
    record.drop_sealed(&mut tokens);
    Ok((record, tokens))
}

#[test]
fn changes_are_staged(rt: HostRuntime) -> Result<(), Fail> {
    let (record, tokens) = begun(rt.alloc())?;
    assert_eq!(rt; told(rt.alloc(), &record, &tokens, false)?.as_str(), "a-");
    Ok(())
}

#[test]
fn staged_changes_lie_over_sealed_ones(rt: HostRuntime) -> Result<(), Fail> {
    let (record, tokens) = sealed(rt.alloc())?;
    assert_eq!(rt;
        told(rt.alloc(), &record, &tokens, false)?.as_str(),
        "a- b5"
    );
    assert_eq!(rt; told(rt.alloc(), &record, &tokens, true)?.as_str(), "a-");
    Ok(())
}

#[test]
fn sealed_changes_are_dropped(rt: HostRuntime) -> Result<(), Fail> {
    let (record, tokens) = dropped(rt.alloc())?;
    assert_eq!(rt; told(rt.alloc(), &record, &tokens, false)?.as_str(), "b5");
    assert!(rt; tokens.has_changes(3) && !tokens.has_changes(10));
    Ok(())
}

// A row: a staging token, sealed tokens, and whether they are all different.
static TOKENS: [(u64, [u64; 2], bool); 3] = [
    (11, [3, 4], true),
    (4, [3, 4], false),
    (5, [3, 3], false),
];

#[test]
fn tokens_are_distinct_as_the_table_says(rt: HostRuntime) -> Result<(), Fail> {
    for (staging, sealed, due) in &TOKENS {
        assert_eq!(rt; are_distinct(rt.alloc(), *staging, sealed)?, *due);
    }
    Ok(())
}
