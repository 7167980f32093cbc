//! The keeper of a folder's pairs.
ghost use Rattle.std.specs.Prelude.{◌≡◌, IfOk};

use keeper::{Keeper, Pair, Put};
use kv_sqlite::KvSqlite;
use lake_base::{Text, Trouble};
use std::alloc::Global;
use std::rt::HostRuntime;

/// The keeper of a folder's pairs, in a file of SQLite.
pub struct FolderPairs {
    pairs: KvSqlite,
}

// Written out, so that its proof stands here alone, and not again in each program that has folders.
impl Drop for FolderPairs {
    fn drop(self) {
        let FolderPairs { pairs: _pairs } = self;
    }
}

impl FolderPairs {
    /// The keeper of a folder, which is made where it isn't there.
    pub(crate) fn at(rt: &HostRuntime, alloc: Global, folder: &Text) -> Result<FolderPairs, Trouble>
        ensures { IfOk result (λ keeper. keeper.pairs.faults ≡ 0) }
    {
        match KvSqlite::at(rt, alloc, folder) {
            Ok(pairs) => Ok(FolderPairs { pairs }),
            Err(trouble) => Err(trouble),
        }
    }
}

impl Keeper for FolderPairs {
    ghost use Rattle.std.specs.Prelude.{None};

    ghost kept = { λ _. None };

    ghost faults = { λ keeper. keeper.pairs.faults };

    ghost calls = { λ _. None };

    ghost successes = { λ _. None };

    fn load(&mut self) -> Result<Vec<Pair>, Trouble> {
        self.pairs.load()
    }

    fn put_all(&mut self, puts: &[Put]) -> Result<(), Trouble> {
        self.pairs.put_all(puts)
    }
}
