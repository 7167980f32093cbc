//! The fresh lake, and the puts by which it is kept.
ghost use Rattle.std.specs.Prelude.{◌≡◌, IfOk, codes};
ghost use Rattle.std.specs.FinMap.{empty};
ghost use Rattle.core_changes.specs.NewPlaces.{HasNewPlaces};
ghost use Rattle.core_state.specs.FirstStates.{first_tree, fresh_lake};
ghost use Rattle.core_state.specs.LakeStates.{lake_value};
ghost use Rattle.core_puts.specs.FreshLakes.{bare_lake, fresh_puts};

use crate::commits::first_commit;
use crate::create_repository_puts;
use crate::first_repository::new_repository;
use byte_map::ByteMap;
use core_changes::founding::{create_repository, make_repository_room};
use core_state::{LakeState, NameIndex};
use keeper::Put;
use lake_base::{NoMemory, RefName, RepoName};
use lake_format::Cut;
use std::alloc::Global;
use std::collections::BTreeMap;

/// A fresh lake of a cut: the repository `quickstart`, with the branch `main` at a first commit of the date 0.
pub fn fresh_lake(alloc: Global, cut: Cut) -> Result<LakeState, NoMemory>
    ensures lake { IfOk result (λ lake. lake_value lake ≡ fresh_lake cut) }
    ensures places { IfOk result (λ lake. HasNewPlaces empty lake.names.files (first_tree cut)) }
{
    let mut lake = bare_lake(alloc, cut);
    let repo = first_repo(alloc)?;
    let branch = main_branch(alloc)?;
    let first = first_commit(alloc, 0)?;
    let new = new_repository(alloc, &lake, &repo, branch, first)?;
    make_repository_room(alloc, &mut lake, &repo, &new.commit, &new.file)?;
    create_repository(&mut lake, &repo, new);
    begin_history(&mut lake);
    Ok(lake)
}

/// The puts by which a fresh lake of a cut is kept.
pub fn fresh_puts(alloc: Global, cut: Cut) -> Result<Vec<Put>, NoMemory>
    ensures { IfOk result (λ puts. puts.items ≡ fresh_puts cut) }
{
    let lake = bare_lake(alloc, cut);
    let repo = first_repo(alloc)?;
    let branch = main_branch(alloc)?;
    let first = first_commit(alloc, 0)?;
    create_repository_puts(
        alloc,
        &lake,
        &repo,
        &branch,
        &first.commit,
        first.content.name,
        &first.tree,
    )
}

// A lake before its first repository. It takes no memory.
#[tactic(auto, unfolding(core_state::specs::LakeStates::lake_value))]
fn bare_lake(alloc: Global, cut: Cut) -> LakeState
    ensures { lake_value result ≡ bare_lake cut }
{
    LakeState {
        cut,
        repositories: ByteMap::new(alloc),
        names: NameIndex::new(alloc),
        tickets: BTreeMap::new(alloc),
        gone: BTreeMap::new(alloc),
        stopped: false,
        entries: 0,
        references: 0,
        next_number: 0,
        next_version: 1,
        next_token: 0,
    }
}

// The history of the lake begins here.
#[tactic(auto, unfolding(core_state::specs::LakeStates::lake_value))]
fn begin_history(lake: &mut LakeState)
    ensures history { lake_value lake.new ≡ record (lake_value lake.old) { entries = 0; references = 0 } }
    ensures names { lake.new.names ≡ lake.old.names }
{
    lake.entries = 0;
    lake.references = 0;
}

// The name of the first repository.
fn first_repo(alloc: Global) -> Result<RepoName, NoMemory>
    ensures { IfOk result (λ name. name ≡ codes "quickstart") }
{
    match RepoName::read(alloc, b"quickstart") {
        Ok(name) => Ok(name),
        // It is a name.
        Err(_) => Err(NoMemory),
    }
}

// The name of its branch.
fn main_branch(alloc: Global) -> Result<RefName, NoMemory>
    ensures { IfOk result (λ name. name ≡ codes "main") }
{
    match RefName::read(alloc, b"main") {
        Ok(name) => Ok(name),
        // It is a name.
        Err(_) => Err(NoMemory),
    }
}
