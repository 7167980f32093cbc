//! Repositories, and numbers that are gone.
ghost use Rattle.std.specs.Prelude.{◌≡◌, OnOk};
ghost use Rattle.core_state.specs.LakeStates.{lake_value};
ghost use Rattle.opening_parts.specs.Fillings.{from_last, with_base, with_gone};

use core_filling::put_repository;
use core_state::LakeState;
use lake_base::{NoMemory, TryCopy};
use pair_format::Stored;
use std::alloc::Global;

// Puts the repositories and the numbers that are gone, the last one first.
pub(crate) fn put_bases(
    alloc: Global,
    lake: &mut LakeState,
    things: &[Option<Stored>],
) -> Result<(), NoMemory>
    ensures { OnOk result (lake_value lake.new ≡ from_last with_base things.now (lake_value lake.old)) }
{
    let mut left = things.len();
    while left > 0 {
        left -= 1;
        put_base(alloc, lake, &things[left])?;
    }
    Ok(())
}

// Puts a repository or a number that is gone, where a thing is one.
fn put_base(alloc: Global, lake: &mut LakeState, thing: &Option<Stored>) -> Result<(), NoMemory>
    ensures { OnOk result (lake_value lake.new ≡ with_base thing.now (lake_value lake.old)) }
{
    match thing {
        Some(
            Stored::Repository {
                repo,
                created,
                default_branch,
                settings,
            },
        ) => {
            let repo = repo.copy(alloc)?;
            let branch = default_branch.copy(alloc)?;
            put_repository(alloc, lake, repo, *created, branch, *settings)
        }
        Some(Stored::Gone { number }) => put_gone(lake, *number),
        _ => Ok(()),
    }
}

// Puts a number that is gone.
#[tactic(auto, unfolding(core_state::specs::LakeStates::lake_value))]
fn put_gone(lake: &mut LakeState, number: u64) -> Result<(), NoMemory>
    ensures { OnOk result (lake_value lake.new ≡ with_gone number (lake_value lake.old)) }
{
    lake.gone.insert(number, ())?;
    Ok(())
}
