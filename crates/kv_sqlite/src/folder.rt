//! A keeper of pairs in a folder.
ghost use Rattle.std.specs.Prelude.{◌≡◌, [], IfOk, IsOk};
ghost use Rattle.lake_base.specs.Maps.{HasAscendingKeys};
ghost use Rattle.lake_base.specs.Troubles.{failures_after};
ghost use Rattle.keeper.specs.Keepers.{FailsByFault, entries_of};

use crate::table::{all_pairs, make_puts, make_table, trouble_of};
use keeper::{Keeper, Pair, Put, are_ascending};
use lake_base::{Text, Trouble};
use sqlite::{Alter, Connection, Error, File, FileStore};
use std::alloc::Global;
use std::fs;
use std::io::ErrorKind;
use std::path::Path;
use std::rt::HostRuntime;

/// A keeper of pairs in the file `lake.db` of a folder, a database of SQLite with one table. It doesn't tell what it
/// keeps. It counts its failures.
#[derive(Drop)]
pub struct KvSqlite<S: Alter + Drop = FileStore<File>> {
    alloc: Global,
    database: Connection<S>,
    faults: u64,
}

impl KvSqlite<FileStore<File>> {
    /// The keeper of the file `lake.db` in this folder. A folder and a file that aren't there are made. Where another
    /// one is at the file, it is Failed.
    pub fn at(rt: &HostRuntime, alloc: Global, folder: &Text) -> Result<KvSqlite, Trouble>
        ensures { IfOk result (λ keeper. keeper.faults ≡ 0) }
    {
        let path = Path::new(folder.as_str()).join(alloc, "lake.db")?;
        match fs::create_dir_all(rt, folder.as_str()) {
            Ok(()) => {}
            Err(error) if error.kind() == ErrorKind::OutOfMemory => return Err(Trouble::NoMemory),
            Err(_) => return Err(Trouble::Failed),
        }
        match open_database(rt, path.as_str()) {
            Ok(database) => Ok(KvSqlite {
                alloc,
                database,
                faults: 0,
            }),
            Err(error) => Err(trouble_of(error)),
        }
    }
}

impl<S: Alter + Drop> KvSqlite<S> {
    // A refused call, which is counted where it is a failure.
    fn refused<T>(&mut self, trouble: Trouble) -> Result<T, Trouble>
        ensures cause { FailsByFault self.old.faults self.new.faults result }
        ensures same { result ≡ Err trouble }
        ensures counted { self.new ≡ record self.old { faults = failures_after result self.old.faults } }
    {
        if trouble == Trouble::Failed {
            self.faults = self.faults.saturating_add(1);
        }
        Err(trouble)
    }
}

// The database of a file, with its table.
fn open_database(rt: &HostRuntime, path: &str) -> Result<Connection<FileStore<File>>, Error> {
    let mut database = Connection::open(rt, path)?;
    make_table(&mut database)?;
    Ok(database)
}

impl<S: Alter + Drop> Keeper for KvSqlite<S> {
    ghost use Rattle.std.specs.Prelude.{None};

    ghost kept = { λ _. None };

    ghost faults = { λ keeper. keeper.faults };

    ghost calls = { λ _. None };

    ghost successes = { λ _. None };

    fn load(&mut self) -> Result<Vec<Pair>, Trouble>
        ensures ascending { IfOk result (λ pairs. HasAscendingKeys (entries_of pairs.items)) }
        ensures cause { FailsByFault self.old.faults self.new.faults result }
        ensures counted { self.new ≡ record self.old {
          database = self.new.database;
          faults = failures_after result self.old.faults;
        } }
    {
        match all_pairs(self.alloc, &mut self.database) {
            Ok(pairs) if are_ascending(pairs.as_slice()) => Ok(pairs),
            Ok(_) => self.refused(Trouble::Failed),
            Err(error) => self.refused(trouble_of(error)),
        }
    }

    fn put_all(&mut self, puts: &[Put]) -> Result<(), Trouble>
        ensures cause { FailsByFault self.old.faults self.new.faults result }
        ensures counted { self.new ≡ record self.old {
          database = self.new.database;
          faults = failures_after result self.old.faults;
        } }

        // No puts are no work.
        ensures nothing { puts.now ≡ [] → IsOk result × (self.new ≡ self.old) }
    {
        if puts.is_empty() {
            return Ok(());
        }
        match make_puts(&mut self.database, puts) {
            Ok(()) => Ok(()),
            Err(error) => self.refused(trouble_of(error)),
        }
    }
}
