//! Bytes that are read as a commit and written again, texts that are read as expressions, and those that are refused.
use commit_graph::{CommitFault, RefExpr, commit_bytes, commit_read};
use lake_base::Digest;
use lake_values::CommitRecord;
use std::alloc::Global;
use std::test::Fail;

// The first commit of a repository.
const FIRST: &[u8] =
    b"\x01\x95{\x88\xb1'0\xe6F\xe0\xf3=6\x18\xb7}\xfaW\x9e\x821\xe3\xc5\x9cq\x04\xbeqea\x1c\x80'\x00\x00\x00\x00\x00\
    \x00\x00\x01\x00\x00\x00\x00\x00\x00\x00\x00\x00\x00\x00\x06lakefs\x00\x00\x00\x12Repository created\x00\x00";

// Bytes, and what is told of them.
static COMMITS: [(&[u8], &str); 5] = [
    (
        FIRST,
        "a52d600cf8f59ab14da57bd6123a7d90026916379eec82cad90310c61423b7c1",
    ),
    (b"\x09", "version 9 is unknown"),
    (b"\x01\x95", "the input ends inside a field, after 2 bytes"),
    (
        b"\x01--------------------------------\x00\x00\x00\x00\x00\x00\x00\x00",
        "the field at byte 33 is outside its limits",
    ),
    (
        b"\x01--------------------------------\x00\x00\x00\x00\x00\x00\x00\x01\x00\x00\x00\x00\x00\x00\x00\x00\x00\x00\
        \x00\x02me\x00\x00\x00\x00\x00\x00!!",
        "2 bytes follow the commit",
    ),
];

// Whether the commit is written as these bytes.
fn is_spelled(alloc: Global, commit: CommitRecord, bytes: &[u8]) -> Result<bool, Fail> {
    Ok(commit_bytes(alloc, &commit)?.as_slice() == bytes)
}

// The text of a fault.
fn fault_told(alloc: Global, fault: CommitFault) -> Result<String, Fail> {
    Ok(format!(in alloc; "{fault}")?)
}

// The id of the commit that is read of these bytes, which is written as the same bytes; or the fault.
fn told(alloc: Global, bytes: &[u8]) -> Result<String, Fail> {
    match commit_read(alloc, bytes) {
        Ok(commit) => match is_spelled(alloc, commit, bytes)? {
            true => Ok(String::from_str(alloc, Digest::of(bytes).hex(alloc)?.as_str())?),
            false => Err("another spelling")?,
        },
        Err(fault) => fault_told(alloc, fault),
    }
}

#[test]
fn commits_are_read_and_written_again(rt: HostRuntime) -> Result<(), Fail> {
    for (bytes, due) in &COMMITS {
        assert_eq!(rt; told(rt.alloc(), bytes)?.as_str(), *due);
    }
    Ok(())
}

// Texts, and what is told of them: the name, whether `@` stands behind it, and the moves; or the fault.
static EXPRESSIONS: [(&str, &str); 8] = [
    ("main", "main false []"),
    ("main@~1^2", "main true [Back(1), Parent(2)]"),
    (
        "main~4294967295^0",
        "main false [Back(4294967295), Parent(0)]",
    ),
    ("main~~^", "main false [Back(1), Back(1), Parent(1)]"),
    ("", "no expression goes on at byte 0"),
    ("main@@", "no expression goes on at byte 5"),
    ("main~4294967296", "no expression goes on at byte 14"),
    ("main~00000000001", "no expression goes on at byte 15"),
];

// What is told of an expression.
fn parts_told(alloc: Global, read: RefExpr) -> Result<String, Fail> {
    let moves = read.moves.as_slice();
    Ok(format!(in alloc; "{} {} {moves:?}", read.name.as_str(), read.at)?)
}

fn expression_told(alloc: Global, text: &str) -> Result<String, Fail> {
    match RefExpr::read(alloc, text.as_bytes()) {
        Ok(read) => parts_told(alloc, read),
        Err(fault) => Ok(format!(in alloc; "{fault}")?),
    }
}

#[test]
fn expressions_are_read(rt: HostRuntime) -> Result<(), Fail> {
    for (text, due) in &EXPRESSIONS {
        assert_eq!(rt; expression_told(rt.alloc(), text)?.as_str(), *due);
    }
    Ok(())
}
