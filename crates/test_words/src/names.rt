//! Which bytes are names, the standard's digests, and a sink in memory.
use lake_base::{Digest, MemorySink, NameFault, Path, RefName, RepoName, Sink};
use std::alloc::Global;
use std::test::Fail;

#[derive(Clone, Copy, Debug)]
enum Kind {
    Repository,
    Reference,
    Path,
}

// Bytes, what they are read as, and the first fault of those that aren't that.
static NAMES: [(&[u8], Kind, Option<NameFault>); 20] = [
    (b"", Kind::Repository, Some(NameFault::Empty)),
    (b"ab", Kind::Repository, Some(NameFault::TooShort)),
    (b"a-0", Kind::Repository, None),
    (b"a_b", Kind::Repository, Some(NameFault::BadByte(1))),
    (b"-ab", Kind::Repository, Some(NameFault::BadByte(0))),
    (b"abC", Kind::Repository, Some(NameFault::BadByte(2))),
    (b"", Kind::Reference, Some(NameFault::Empty)),
    (b"_", Kind::Reference, None),
    (b"A9_-", Kind::Reference, None),
    (b"-x", Kind::Reference, Some(NameFault::BadByte(0))),
    (b"ab/c/", Kind::Reference, Some(NameFault::BadByte(2))),
    (b"_-a.", Kind::Reference, Some(NameFault::BadByte(3))),
    (b"", Kind::Path, Some(NameFault::Empty)),
    (b"a/b", Kind::Path, None),
    (b"\xc3\xa9", Kind::Path, None),
    (b"\xf4\x8f\xbf\xbf", Kind::Path, None),
    (b"\xc3", Kind::Path, Some(NameFault::NotUtf8)),
    (b"a\xff", Kind::Path, Some(NameFault::NotUtf8)),
    (b"\xed\xa0\x80", Kind::Path, Some(NameFault::NotUtf8)),
    (b"\xc0\x80", Kind::Path, Some(NameFault::NotUtf8)),
];

// How many letters a name may have.
static LONGEST: [(usize, Kind); 3] = [
    (63, Kind::Repository),
    (255, Kind::Reference),
    (1024, Kind::Path),
];

static LETTERS: [u8; 1025] = [b'a'; 1025];

fn fault(alloc: Global, kind: Kind, bytes: &[u8]) -> Option<NameFault> {
    match kind {
        Kind::Repository => RepoName::read(alloc, bytes).err(),
        Kind::Reference => RefName::read(alloc, bytes).err(),
        Kind::Path => Path::read(alloc, bytes).err(),
    }
}

#[test]
fn names_have_their_bytes_and_lengths(rt: HostRuntime) {
    for (bytes, kind, due) in &NAMES {
        assert_eq!(rt; fault(rt.alloc(), *kind, bytes), *due, "{bytes:?}");
    }
    for (longest, kind) in &LONGEST {
        let longest = (*longest).min(1024);
        assert_eq!(rt; fault(rt.alloc(), *kind, &LETTERS[..longest]), None);
        assert_eq!(rt;
            fault(rt.alloc(), *kind, &LETTERS[..longest + 1]),
            Some(NameFault::TooLong)
        );
    }
}

// The digests of the standard's examples.
static DIGESTS: [(&[u8], &str); 2] = [
    (
        b"",
        "e3b0c44298fc1c149afbf4c8996fb92427ae41e4649b934ca495991b7852b855",
    ),
    (
        b"abc",
        "ba7816bf8f01cfea414140de5dae2223b00361a396177a9cb410ff61f20015ad",
    ),
];

#[test]
fn digests_are_sha256_in_hex(rt: HostRuntime) -> Result<(), Fail> {
    for (bytes, hex) in &DIGESTS {
        let digest = Digest::of(bytes);
        assert_eq!(rt; Digest::read(hex.as_bytes()), Ok(digest));
        assert_eq!(rt; digest.hex(rt.alloc())?.as_str(), *hex);
    }
    Ok(())
}

fn written<S: Sink>(sink: &mut S, bytes: &[u8]) -> Option<usize> {
    sink.write(bytes).ok()
}

#[test]
fn a_sink_takes_pieces_and_fails_where_it_is_told(rt: HostRuntime) -> Result<(), Fail> {
    let fails = [2].to_vec(rt.alloc())?;
    let mut sink = MemorySink::new(rt.alloc(), 2, fails);
    assert_eq!(rt; written(&mut sink, &[7, 8, 9]), Some(2));
    assert_eq!(rt; written(&mut sink, &[9]), None);
    assert_eq!(rt; written(&mut sink, &[9]), Some(1));
    assert_eq!(rt; sink.written(), [7, 8, 9].as_slice());
    Ok(())
}
