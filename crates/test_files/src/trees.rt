//! Trees, whose rows have 67 bytes each where their path has one: their files, and the reading of files.
ghost use Rattle.std.specs.Prelude.{◌<◌};

use crate::ranges::A;
use lake_base::{Digest, Sequence};
use meta_range::{File, Tree, TreeFault, read_metarange};
use range_file::Cut;
use std::alloc::Global;
use std::test::Fail;
use test_values::key_map;

// The rule by which trees of tests are cut.
pub(crate) fn cut(max_bytes: u64) -> Cut
    ensures { 0 < result.modulus }
{
    Cut {
        max_bytes,
        modulus: 1024,
    }
}

// A map, the most bytes of rows in a range, how many bytes each file has, and the name of the tree. `50` and `nq` are
// break keys.
static TREES: [(&str, u64, &[usize], &str); 4] = [
    (
        "",
        134,
        &[5],
        "957b88b12730e646e0f33d3618b77dfa579e8231e3c59c7104be7165611c8027",
    ),
    (
        "a1 b2 z3",
        134,
        &[89, 139, 72],
        "c2266a618b37f15957e169d48eb9da6d0fa2ba0b23e7660d415bfa43b896d4f7",
    ),
    (
        "a1 b2 z3",
        133,
        &[131, 72, 72, 72],
        "cd22be5388c560b3c8d1a0641473306fa738dbd52c0c16cb8095d6d8c3e5402c",
    ),
    (
        "501 a2 nq3 z4",
        1048576,
        &[134, 73, 140, 72],
        "ab320061c5981055412d8a5041162a744a5669fc43904c9e799d7c385ba6f33f",
    ),
];

// The file at a place of this tree has so many bytes, has the name and the bytes of the one that is given, and no file
// at another place of the tree is it.
fn is_file(alloc: Global, tree: &Tree, place: usize, given: &File) -> Result<bool, Fail> {
    if place > tree.range_count() {
        return Ok(false);
    }
    for at in 0..=tree.range_count() {
        if tree.has_file_of(alloc, place, tree, at)? != (at == place) {
            return Ok(false);
        }
    }
    let file = tree.file(alloc, place)?;
    Ok(file.name == given.name && file.bytes.as_slice() == given.bytes.as_slice())
}

// Whether these are the files of the tree, and as many and each as long as is due.
fn has_files(alloc: Global, tree: &Tree, files: &[File], lens: &[usize]) -> Result<bool, Fail> {
    for (place, file) in files.iter().enumerate() {
        if Some(&file.bytes.as_slice().len()) != lens.get(place) {
            return Ok(false);
        }
        if !is_file(alloc, tree, place, file)? {
            return Ok(false);
        }
    }
    Ok(files.len() == lens.len())
}

#[test]
fn trees_have_their_files_and_names(rt: HostRuntime) -> Result<(), Fail> {
    let alloc = rt.alloc();
    for (map, max_bytes, lens, name) in &TREES {
        let tree = Tree::build(alloc, &key_map(alloc, map)?, &cut(*max_bytes))?;
        assert_eq!(rt; tree.name().hex(alloc)?.as_str(), *name);
        let files = tree.files(alloc)?;
        assert!(rt; has_files(alloc, &tree, files.as_slice(), lens)?, "{map}");
        let read = Tree::read(alloc, &tree.name(), files.as_slice(), &cut(*max_bytes))?;
        assert!(rt; read.name() == tree.name());
    }
    Ok(())
}

// The range of `b` with the object of 5 bytes at `s3://x`.
const B: &[u8] =
    b"\x01\x00\x00\x00\x01\x00\x01b\x01\x00\x06s3://x\x00\x00\x00\x00\x00\x00\x00\x00\x00\x05\x00\x00\x00\x00\x00\x00\
    \x00\x00\x00\x00\x00\x00";

// The metarange of the range of `a`, of it and that of `b`, of the range of `a` as if it ended with `b`, of no rows in
// it, and of the bytes 9 as a range from `a` to `a`.
const OF_A: &[u8] =
    b"\x01\x00\x00\x00\x01j\x0eR5r\xcb\xdf\xaf\x0e,\x85\x9c\x83\xb1w\xc9,I\xdf?\x22c\xb1\xa5Y}\x94\xb3\xd4,\xe9\x87\
    \x00\x00\x00\x01\x00\x01a\x00\x01a";

const OF_BOTH: &[u8] =
    b"\x01\x00\x00\x00\x02j\x0eR5r\xcb\xdf\xaf\x0e,\x85\x9c\x83\xb1w\xc9,I\xdf?\x22c\xb1\xa5Y}\x94\xb3\xd4,\xe9\x87\
    \x00\x00\x00\x01\x00\x01a\x00\x01a\x8d\x22\xf7=\xbai\xa0\xbbE\xbeF\xe3|\x8c\x12\x90\x17\x90Jw\x18\x8d\xe5\xccm|\
    \xdc\xf1\xa0X?&\x00\x00\x00\x01\x00\x01b\x00\x01b";

const TO_B: &[u8] =
    b"\x01\x00\x00\x00\x01j\x0eR5r\xcb\xdf\xaf\x0e,\x85\x9c\x83\xb1w\xc9,I\xdf?\x22c\xb1\xa5Y}\x94\xb3\xd4,\xe9\x87\
    \x00\x00\x00\x01\x00\x01a\x00\x01b";

const OF_NONE: &[u8] =
    b"\x01\x00\x00\x00\x01j\x0eR5r\xcb\xdf\xaf\x0e,\x85\x9c\x83\xb1w\xc9,I\xdf?\x22c\xb1\xa5Y}\x94\xb3\xd4,\xe9\x87\
    \x00\x00\x00\x00\x00\x01a\x00\x01a";

const OF_NINE: &[u8] =
    b"\x01\x00\x00\x00\x01+L4/T3\xeb\xe5\x91\xa1\xdaw\xe0\x13\xd1\xb7$uV-HW\x8d\xca\x8b\x84\xba\xc6e\x1c<\xb9\x00\x00\
    \x00\x01\x00\x01a\x00\x01a";

// The most bytes of rows in a range, files, and what is told of the tree of the first. Each file has the bytes of the
// right side, under the SHA-256 of those of the left.
static READS: [(u64, &[(&[u8], &[u8])], &str); 9] = [
    (34, &[(OF_BOTH, OF_BOTH), (B, B), (A, A)], "2 ranges"),
    (34, &[(OF_A, OF_A)], "a file is missing"),
    (34, &[(OF_A, OF_A), (A, B)], "a file is damaged"),
    (
        34,
        &[(b"\x09", b"\x09")],
        "the metarange is bad: version 9 is unknown",
    ),
    (
        34,
        &[(b"\x01\x00\x00\x00\x01", b"\x01\x00\x00\x00\x01")],
        "the metarange is bad: the input ends inside a field, after 5 bytes",
    ),
    (
        34,
        &[(OF_NONE, OF_NONE), (A, A)],
        "the metarange is bad: range 0 is outside its limits",
    ),
    (
        34,
        &[(OF_NINE, OF_NINE), (b"\x09", b"\x09")],
        "range 0 is bad: version 9 is unknown",
    ),
    (
        34,
        &[(TO_B, TO_B), (A, A)],
        "range 0 is not the one that the metarange tells of",
    ),
    (
        68,
        &[(OF_BOTH, OF_BOTH), (A, A), (B, B)],
        "range 0 is not cut so",
    ),
];

// The files of these bytes, each with the name of the bytes beside them.
fn files_of(alloc: Global, sides: &[(&[u8], &[u8])]) -> Result<Vec<File>, Fail> {
    let mut files = Vec::new(alloc);
    for (named, bytes) in sides {
        let name = Digest::of(named);
        let bytes = Sequence::of(Vec::from_slice(alloc, bytes)?);
        files.push(File { name, bytes })?;
    }
    Ok(files)
}

// How many ranges a metarange tells of.
fn count_told(alloc: Global, bytes: &[u8]) -> Result<String, Fail> {
    let lines = read_metarange(alloc, bytes)?;
    Ok(format!(in alloc; "{} ranges", lines.len())?)
}

// The text of a fault.
fn fault_told(alloc: Global, fault: TreeFault) -> Result<String, Fail> {
    Ok(format!(in alloc; "{fault}")?)
}

// What is told of the tree of the first of these files.
fn told(alloc: Global, files: &[File], max_bytes: u64) -> Result<String, Fail> {
    let first = files.first().ok_or("no file")?;
    match Tree::read(alloc, &first.name, files, &cut(max_bytes)) {
        Ok(_) => count_told(alloc, first.bytes.as_slice()),
        Err(fault) => fault_told(alloc, fault),
    }
}

#[test]
fn trees_are_read_from_files_in_any_order(rt: HostRuntime) -> Result<(), Fail> {
    for (max_bytes, sides, due) in &READS {
        let files = files_of(rt.alloc(), sides)?;
        assert_eq!(rt;
            told(rt.alloc(), files.as_slice(), *max_bytes)?.as_str(),
            *due
        );
    }
    Ok(())
}
