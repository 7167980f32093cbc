//! A `copy` answers where there is memory enough: its contract says that it is equal. Those of entries, maps, commits
//! and settings are made by the steps of the core, and so by its tests.
use lake_base::{NoMemory, Sequence, TryCopy};
use lake_format::RangeLine;
use std::alloc::Global;
use std::test::Fail;
use test_values::{digest, path, ref_name, repo_name, text};

fn copies<T: TryCopy>(alloc: Global, value: T) -> Result<(), NoMemory> {
    let _copy = value.copy(alloc)?;
    Ok(())
}

#[test]
fn words_are_copied(rt: HostRuntime) -> Result<(), Fail> {
    let alloc = rt.alloc();
    copies(alloc, repo_name(alloc, "demo")?)?;
    copies(alloc, ref_name(alloc, "main")?)?;
    copies(alloc, (path(alloc, "a")?, text(alloc, "")?))?;
    let digests = Vec::from_slice(alloc, &[digest(3)])?;
    copies(alloc, Sequence::of(digests))?;
    Ok(())
}

#[test]
fn range_lines_are_copied(rt: HostRuntime) -> Result<(), Fail> {
    let alloc = rt.alloc();
    let (first, last) = (path(alloc, "a")?, path(alloc, "b")?);
    let (name, rows) = (digest(1), 2);
    copies(
        alloc,
        RangeLine {
            name,
            rows,
            first,
            last,
        },
    )?;
    Ok(())
}
