//! Branches, and which of them names a token.
ghost use Rattle.std.specs.Prelude.{◌≡◌, ℕ, OnOk};
ghost use Rattle.std.specs.BTreeMap.{get as tree_get};
ghost use Rattle.std.specs.List.{AllByRecursion};
ghost use Rattle.std.specs.Ordering.{nat_cmp};
ghost use Rattle.core_state.specs.LakeStates.{lake_value};
ghost use Rattle.opening_parts.specs.Filled.{CanJoin};
ghost use Rattle.opening_parts.specs.Fillings.{from_last, holder_with, with_branch_of};

use core_filling::{Holders, put_branch, put_holder};
use core_state::LakeState;
use lake_base::{NoMemory, TryCopy};
use pair_format::Stored;
use std::alloc::Global;

// Puts the branches, the last one first, and tells which of them names a token.
pub(crate) fn put_branches(
    alloc: Global,
    lake: &mut LakeState,
    holders: &mut Holders,
    things: &[Option<Stored>],
) -> Result<(), NoMemory>
    requires { AllByRecursion CanJoin things.now }
    ensures lake { OnOk result (lake_value lake.new ≡ from_last with_branch_of things.now (lake_value lake.old)) }
    ensures holders { OnOk result ((token : ℕ) → tree_get nat_cmp holders.new token
        ≡ from_last (holder_with token) things.now (tree_get nat_cmp holders.old token)) }
{
    let mut left = things.len();
    while left > 0 {
        left -= 1;
        put_branch_of(alloc, lake, holders, &things[left])?;
    }
    Ok(())
}

// Puts a branch, where a thing is one.
fn put_branch_of(
    alloc: Global,
    lake: &mut LakeState,
    holders: &mut Holders,
    thing: &Option<Stored>,
) -> Result<(), NoMemory>
    requires { CanJoin thing.now }
    ensures lake { OnOk result (lake_value lake.new ≡ with_branch_of thing.now (lake_value lake.old)) }
    ensures holders { OnOk result ((token : ℕ) → tree_get nat_cmp holders.new token
        ≡ holder_with token thing.now (tree_get nat_cmp holders.old token)) }
{
    match thing {
        Some(
            Stored::Branch {
                repo,
                branch,
                version,
                head,
                staging,
                sealed,
            },
        ) => {
            let tokens = Vec::from_slice(alloc, sealed.as_slice())?;
            let name = branch.copy(alloc)?;
            put_holder(alloc, holders, repo, branch, sealed.as_slice())?;
            put_holder(alloc, holders, repo, branch, &[*staging])?;
            put_branch(alloc, lake, repo, name, (*version, *head, *staging), tokens)
        }
        _ => Ok(()),
    }
}
