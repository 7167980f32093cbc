//! A store of objects that loses some, and beside which another seat acts at each get.
ghost use Rattle.std.specs.Prelude.{◌≡◌};
ghost use Rattle.block_store.specs.Blocks.{NoMiss};

use crate::hand::Hand;
use block_store::{Blocks, SureBlocks};
use lake_base::Trouble;
use std::sync::Wait;

/// A store of objects. At each get another seat acts first; then, at so many gets to come, the object that is asked for
/// gets lost. It doesn't tell what it holds.
#[derive(Drop)]
pub(crate) struct LosingBlocks<'a, W> {
    pub(crate) blocks: SureBlocks,
    pub(crate) beside: Hand<'a, W>,
    pub(crate) losses: u64,
}

// The object of a number gets lost, where it is to.
fn lose(blocks: &mut SureBlocks, is_to: bool, number: u64)
    ensures { NoMiss blocks.old.misses blocks.new.misses blocks.old.missed blocks.new.missed }
{
    if is_to {
        let _ = blocks.remove(number);
    }
}

impl<'a, W: Wait> Blocks for LosingBlocks<'a, W> {
    ghost use Rattle.std.specs.Prelude.{None};

    ghost held = { λ _. None };

    ghost faults = { λ _. 0 };

    ghost misses = { λ losing. losing.blocks.misses };

    ghost missed = { λ losing. losing.blocks.missed };

    fn put(&mut self, number: u64, bytes: &[u8]) -> Result<(), Trouble> {
        self.blocks.put(number, bytes)
    }

    fn get(&mut self, number: u64) -> Result<Option<Vec<u8>>, Trouble> {
        self.beside.act();
        let is_to = self.losses > 0;
        self.losses = self.losses.saturating_sub(1);
        lose(&mut self.blocks, is_to, number);
        self.blocks.get(number)
    }

    fn remove(&mut self, number: u64) -> Result<bool, Trouble> {
        self.blocks.remove(number)
    }

    fn list(&mut self) -> Result<Vec<u64>, Trouble> {
        self.blocks.list()
    }
}
