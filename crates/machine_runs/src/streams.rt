//! Streams in memory, which give and take pieces and fail where they are told to.

use lake_base::{MemorySink, MemorySource, Text};
use std::alloc::Global;
use std::test::Fail;

/// How the streams go: the size of the pieces in which the source gives and the sinks take, and which read and which
/// write of each sink fails, counted from 1, so that 0 is none.
#[derive(Clone, Copy, Debug)]
pub struct Streams {
    pub piece: usize,
    pub read: u64,
    pub write: u64,
}

/// Streams of large pieces, which don't fail.
pub static SURE: Streams = Streams {
    piece: 4_096,
    read: 0,
    write: 0,
};

/// The words as texts.
pub fn texts_of(alloc: Global, words: &[&str]) -> Result<Vec<Text>, Fail> {
    let mut texts = Vec::new(alloc);
    for word in words {
        texts.push(Text::of(String::from_str(alloc, word)?))?;
    }
    Ok(texts)
}

/// A source of these bytes.
pub fn source_of(alloc: Global, input: &[u8], streams: &Streams) -> Result<MemorySource, Fail> {
    let bytes = Vec::from_slice(alloc, input)?;
    let fails = Vec::from_slice(alloc, &[streams.read])?;
    Ok(MemorySource::new(bytes, streams.piece.max(1), fails))
}

/// A sink.
pub fn sink_of(alloc: Global, streams: &Streams) -> Result<MemorySink, Fail> {
    let fails = Vec::from_slice(alloc, &[streams.write])?;
    Ok(MemorySink::new(alloc, streams.piece.max(1), fails))
}
