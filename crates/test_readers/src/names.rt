//! The names that the tests use.

use commit_graph::RefExpr;
use lake_base::{Path, RefName, RepoName};
use std::alloc::Global;
use std::test::Fail;

/// The repository of a fresh lake, its branch, an expression that leads there, and a path.
#[derive(Drop)]
pub(crate) struct Names {
    pub(crate) repo: RepoName,
    pub(crate) main: RefName,
    pub(crate) at: RefExpr,
    pub(crate) path: Path,
}

impl Names {
    /// The names.
    pub(crate) fn of(alloc: Global) -> Result<Names, Fail> {
        let repo = RepoName::read(alloc, b"quickstart")?;
        let main = RefName::read(alloc, b"main")?;
        let at = RefExpr::read(alloc, b"main").ok().ok_or("an expression")?;
        let path = Path::read(alloc, b"a")?;
        Ok(Names {
            repo,
            main,
            at,
            path,
        })
    }
}
