//! The names that the tests use.

use lake_base::{Path, RepoName};
use std::alloc::Global;
use std::test::Fail;

/// The repository of a fresh lake, and a path.
#[derive(Drop)]
pub(crate) struct Names {
    pub(crate) repo: RepoName,
    pub(crate) path: Path,
}

impl Names {
    /// The names.
    pub(crate) fn of(alloc: Global) -> Result<Names, Fail> {
        let repo = RepoName::read(alloc, b"quickstart")?;
        let path = Path::read(alloc, b"a")?;
        Ok(Names { repo, path })
    }
}
