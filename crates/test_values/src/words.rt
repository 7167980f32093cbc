//! Texts, names, paths and digests.
ghost use Rattle.std.specs.Prelude.{◌≡◌, IfOk, codes};

use lake_base::{Digest, NameFault, Path, RefName, RepoName, Text};
use std::alloc::Global;

/// A text of at most 65,536 bytes.
pub fn text(alloc: Global, words: &str) -> Result<Text, NameFault>
    ensures { IfOk result (λ text. text ≡ words.now) }
{
    Text::read(alloc, words.as_bytes(), 65536)
}

/// A path.
pub fn path(alloc: Global, words: &str) -> Result<Path, NameFault>
    ensures { IfOk result (λ path. path ≡ words.now) }
{
    Path::read(alloc, words.as_bytes())
}

/// The name of a branch or a tag.
pub fn ref_name(alloc: Global, words: &str) -> Result<RefName, NameFault>
    ensures { IfOk result (λ name. name ≡ words.now) }
{
    RefName::read(alloc, words.as_bytes())
}

/// The name of a repository.
pub fn repo_name(alloc: Global, words: &str) -> Result<RepoName, NameFault>
    ensures { IfOk result (λ name. name ≡ words.now) }
{
    RepoName::read(alloc, words.as_bytes())
}

/// The digest of 32 times this byte.
pub fn digest(byte: u8) -> Digest {
    Digest([byte; 32])
}
