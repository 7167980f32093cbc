//! Where commits and files are kept, by their names.
ghost use Rattle.std.specs.Prelude.{◌≡◌};
ghost use Rattle.core_state.specs.NameIndexes.{empty_index, index_value};

use crate::file_place::FilePlace;
use byte_map::ByteMap;
use lake_base::{Digest, RepoName};
use lake_values::CommitId;
use std::alloc::Global;

/// The commits and the files of a lake by their names: in which repository the commit of an id stands, and where the
/// file of a name is kept.
///
/// A name under which nothing stands is room for a commit or a file that is about to be made.
#[derive(Debug, Drop)]
pub struct NameIndex {
    pub homes: ByteMap<CommitId, Option<RepoName>>,
    pub files: ByteMap<Digest, Option<FilePlace>>,
}

impl NameIndex {
    /// No names. It takes no memory.
    pub fn new(alloc: Global) -> Self
        ensures { index_value result ≡ empty_index }
    {
        NameIndex {
            homes: ByteMap::new(alloc),
            files: ByteMap::new(alloc),
        }
    }
}
