//! Keys.
ghost use Rattle.std.specs.Prelude.{◌≡◌, ℕ, List, refl};
ghost use Rattle.lake_base.specs.Maps.{byte_order};

use lake_base::{Digest, RefName, RepoName};

/// A key that is ordered by its bytes.
pub trait ByteKey: Ord + Drop {
    /// Its bytes.
    ghost bytes: { Self → List ℕ };

    /// It is ordered by them.
    ghost by_bytes: { (a b : Self) → Self.cmp a b ≡ byte_order (bytes a) (bytes b) };
}

impl ByteKey for RepoName {
    ghost bytes = { λ name. name };

    ghost by_bytes = { λ _ _. refl };
}

impl ByteKey for RefName {
    ghost bytes = { λ name. name };

    ghost by_bytes = { λ _ _. refl };
}

impl ByteKey for Digest {
    ghost bytes = { λ digest. digest.0 };

    ghost by_bytes = { λ _ _. refl };
}
