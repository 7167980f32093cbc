//! Metadata, entries, changes and maps. Changes and maps are written with their paths and the sizes of their entries,
//! of one digit each, in any order: `b2 a1`. In changes a dash for the size is a deletion: `a-`.
use crate::words::{digest, path, text};
use lake_base::Path;
use lake_values::{Change, Changes, Entry, KeyMap, Pairs, Place};
use std::alloc::Global;
use std::test::Fail;

/// Metadata of one pair.
pub fn pairs(alloc: Global, key: &str, value: &str) -> Result<Pairs, Fail> {
    let mut pairs = Pairs::new(alloc);
    pairs.set(text(alloc, key)?, text(alloc, value)?)?;
    Ok(pairs)
}

/// The entry of this place, size and metadata. Its content type is `a/b`, its time 7.
pub fn entry_of(alloc: Global, place: Place, size: u64, metadata: Pairs) -> Result<Entry, Fail> {
    let content_type = text(alloc, "a/b")?;
    if !Entry::can_hold(&place, &content_type) {
        return Err("no entry can hold the place")?;
    }
    Ok(Entry {
        place,
        size,
        mtime: 7,
        content_type,
        metadata,
    })
}

/// The lake's own object of this number, this size and a digest of zeros, without metadata.
pub fn entry(alloc: Global, number: u64, size: u64) -> Result<Entry, Fail> {
    let digest = digest(0);
    entry_of(
        alloc,
        Place::Own { number, digest },
        size,
        Pairs::new(alloc),
    )
}

/// The object of this size at an address outside, without checksum and metadata.
pub fn outside_entry(alloc: Global, address: &str, size: u64) -> Result<Entry, Fail> {
    let at = text(alloc, address)?;
    let checksum = text(alloc, "")?;
    entry_of(
        alloc,
        Place::External { at, checksum },
        size,
        Pairs::new(alloc),
    )
}

// A path with the digit of the size that is put there, or with a dash where it is deleted. The object's number is 0.
fn change(alloc: Global, word: &str) -> Result<(Path, Change), Fail> {
    let [path @ .., size] = word.as_bytes() else {
        return Err("a change has a path and a size")?;
    };
    let path = Path::read(alloc, path)?;
    if *size == b'-' {
        return Ok((path, Change::Delete));
    }
    let entry = entry(alloc, 0, u64::from(size.saturating_sub(b'0')))?;
    Ok((path, Change::Put(entry)))
}

/// The changes of these words: the last one of a path counts.
pub fn changes(alloc: Global, words: &str) -> Result<Changes, Fail> {
    let mut changes = Changes::new(alloc);
    for word in words.split_whitespace() {
        let (path, change) = change(alloc, word)?;
        changes.set(path, change)?;
    }
    Ok(changes)
}

/// The map of these words.
pub fn key_map(alloc: Global, words: &str) -> Result<KeyMap, Fail> {
    Ok(KeyMap::new(alloc).apply(alloc, &changes(alloc, words)?)?)
}

/// The words of paths, in their order: `a b`.
pub fn paths_told(alloc: Global, paths: &[Path]) -> Result<String, Fail> {
    let mut told = String::new(alloc);
    for path in paths {
        add_word(&mut told, path.as_str())?;
    }
    Ok(told)
}

/// The words of changes, in order of path: `a- b2`.
pub fn changes_told(alloc: Global, changes: &Changes) -> Result<String, Fail> {
    let mut told = String::new(alloc);
    for (path, change) in changes.as_slice() {
        add_word(&mut told, path.as_str())?;
        match change {
            Change::Put(entry) => told.push_str(format!(in alloc; "{}", entry.size)?.as_str())?,
            Change::Delete => told.push_str("-")?,
        }
    }
    Ok(told)
}

/// The words of a map, in order of path: `a1 b2`.
pub fn map_told(alloc: Global, map: &KeyMap) -> Result<String, Fail> {
    let mut told = String::new(alloc);
    for (path, entry) in map.as_slice() {
        add_word(&mut told, path.as_str())?;
        told.push_str(format!(in alloc; "{}", entry.size)?.as_str())?;
    }
    Ok(told)
}

// Adds a word, and before it a blank where there are words.
fn add_word(told: &mut String, word: &str) -> Result<(), Fail> {
    if !told.is_empty() {
        told.push_str(" ")?;
    }
    told.push_str(word)?;
    Ok(())
}
