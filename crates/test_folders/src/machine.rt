//! A run of the program over a folder in memory, and what it comes to.
ghost use Rattle.std.specs.Prelude.{◌≡◌, IfOk};

use block_store::MemoryBlocks;
use keeper::{Keeper, KeeperFail, MemoryKeeper};
use lake_base::Text;
use machine_runs::SURE;
use memory_machine::{MemoryFolders, MemoryHost};
use std::alloc::Global;
use std::sync::Wait;
use std::test::Fail;
use std::thread::Threads;

/// What a run comes to, and what was given back of the folder: its keepers, and so many stores of its objects.
#[derive(Debug, Drop)]
pub(crate) struct Came {
    pub status: u8,
    pub out: Vec<u8>,
    pub errors: Vec<u8>,
    pub keepers: Vec<MemoryKeeper>,
    pub stores: usize,
}

// Folders of which that named `folder` is there, with a keeper and a store of objects.
fn folders_of(alloc: Global, keeper: MemoryKeeper) -> Result<MemoryFolders, Fail>
    requires { keeper.faults ≡ 0 }
{
    let folder = Text::of(String::from_str(alloc, "folder")?);
    let mut keepers = Vec::new(alloc);
    keepers.push(keeper)?;
    let mut stores = Vec::new(alloc);
    stores.push(MemoryBlocks::new(alloc, Vec::new(alloc)))?;
    Ok(MemoryFolders::new(alloc, folder, keepers, stores))
}

/// What a run with these words comes to over an input, a host, and the folder whose pairs this keeper has.
pub(crate) fn run_in<R: Threads + Wait + Sync>(
    rt: &R,
    alloc: Global,
    words: &[&str],
    input: &str,
    host: &mut MemoryHost,
    keeper: MemoryKeeper,
) -> Result<Came, Fail>
    requires { keeper.faults ≡ 0 }
{
    let mut folders = folders_of(alloc, keeper)?;
    let came = machine_runs::run_in(
        rt,
        alloc,
        words,
        input.as_bytes(),
        &SURE,
        host,
        &mut folders,
    )?;
    let (keepers, stores) = folders.into_back();
    Ok(Came {
        status: came.status,
        out: came.out,
        errors: came.errors,
        keepers: keepers.ok_or("no keepers are told")?,
        stores: stores.ok_or("no stores are told")?.len(),
    })
}

/// A keeper without pairs, with the calls that are to fail.
pub(crate) fn empty_keeper(alloc: Global, fails: Vec<KeeperFail>) -> MemoryKeeper
    ensures { result.faults ≡ 0 }
{
    MemoryKeeper::new(alloc, Vec::new(alloc), fails)
}

/// A keeper of the pairs that the one has that was given back last. It doesn't fail.
pub(crate) fn sound_keeper(alloc: Global, came: Came) -> Result<MemoryKeeper, Fail>
    ensures { IfOk result (λ keeper. keeper.faults ≡ 0) }
{
    let mut keepers = came.keepers;
    let mut keeper = keepers.pop().ok_or("no keeper was given back")?;
    let pairs = keeper.load().ok().ok_or("they aren't loaded")?;
    Ok(MemoryKeeper::new(alloc, pairs, Vec::new(alloc)))
}
