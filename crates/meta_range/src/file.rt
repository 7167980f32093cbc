//! Files, by their names.
use lake_base::digest::Digest;
use lake_base::sequence::Sequence;

/// A file, and the name under which it is kept. A tree's own files are named by the SHA-256 of their bytes.
#[derive(Debug, Drop)]
pub struct File {
    pub name: Digest,
    pub bytes: Sequence<u8>,
}
