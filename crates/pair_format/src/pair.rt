//! A pair of bytes.
use lake_base::sequence::Sequence;

/// A key, and the value under it.
#[derive(Debug, Drop)]
pub struct Pair {
    pub key: Sequence<u8>,
    pub value: Sequence<u8>,
}
