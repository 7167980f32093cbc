//! A lake without anything in it, and repositories that join it.
ghost use Rattle.std.specs.Prelude.{◌≡◌, OnOk};
ghost use Rattle.core_state.specs.LakeStates.{lake_value};
ghost use Rattle.core_filling.specs.Filling.{bare_lake as lake_without, with_repository};

use byte_map::ByteMap;
use commit_graph::Graph;
use core_state::{LakeState, NameIndex, RepositoryState};
use lake_base::{NoMemory, RefName, RepoName};
use lake_format::Cut;
use std::alloc::Global;
use std::collections::BTreeMap;

/// A lake of a cut without anything in it. It takes no memory.
#[tactic(auto, unfolding(core_state::specs::LakeStates::lake_value))]
pub fn bare_lake(alloc: Global, cut: Cut) -> LakeState
    ensures { lake_value result ≡ lake_without cut }
{
    LakeState {
        cut,
        repositories: ByteMap::new(alloc),
        names: NameIndex::new(alloc),
        tickets: BTreeMap::new(alloc),
        gone: BTreeMap::new(alloc),
        stopped: false,
        entries: 0,
        references: 0,
        next_number: 0,
        next_version: 0,
        next_token: 0,
    }
}

/// Puts a repository without anything in it into a lake, with its date, its default branch and the version of its
/// settings.
#[tactic(auto, unfolding(core_state::specs::LakeStates::lake_value))]
pub fn put_repository(
    alloc: Global,
    lake: &mut LakeState,
    repo: RepoName,
    created: u64,
    default_branch: RefName,
    settings: u64,
) -> Result<(), NoMemory>
    ensures { OnOk result (lake_value lake.new
        ≡ with_repository repo created default_branch settings (lake_value lake.old)) }
{
    let repository = RepositoryState {
        created,
        default_branch,
        settings,
        branches: ByteMap::new(alloc),
        tags: ByteMap::new(alloc),
        graph: Graph::new(alloc),
        trees: ByteMap::new(alloc),
        expired: ByteMap::new(alloc),
        retention: None,
        protection: None,
        hooks: None,
    };
    lake.repositories.insert(repo, Some(repository))?;
    Ok(())
}
