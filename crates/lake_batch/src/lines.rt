//! What serves the lines of a batch: each is a command, on one seat of a lake.
ghost use Rattle.std.specs.Prelude.{◌≡◌};

use batch_lines::LineServer;
use block_store::Blocks;
use keeper::Keeper;
use lake_base::{Clock, Trouble};
use lakectl_commands::Files;
use lakectl_session::serve_line;
use lakectl_shown::Shown;
use shared_lake::{LakeSeat, Shared};
use std::alloc::Global;
use std::sync::Wait;

/// What commands work on: a lake and a seat at it, a store of objects, a clock, and files.
#[derive(Drop)]
pub struct LakeLines<'r, W: Wait, K: Keeper, B: Blocks, C: Clock, F: Files> {
    pub rt: &'r W,
    pub alloc: Global,
    pub lake: Shared<K>,
    pub seat: LakeSeat,
    pub blocks: B,
    pub clock: C,
    pub files: F,
}

impl<'r, W: Wait, K: Keeper, B: Blocks, C: Clock, F: Files> LineServer
    for LakeLines<'r, W, K, B, C, F> {
    ghost use Rattle.lakectl_session.specs.ServedCommands.{LineEnds};
    ghost use Rattle.lakectl_session.proofs.LongLines.{told_by_fronts};

    ghost ready = { λ lines. lines.seat.turn ≡ lines.lake };

    ghost serves = { λ line old now reply. LineEnds line
        (record {
          lake = record {
            readings = C.readings old.clock;
            store = record {
              held = B.held old.blocks;
              faults = B.faults old.blocks;
              misses = B.misses old.blocks;
              missed = B.missed old.blocks;
            };
            seat = old.seat;
          };
          files = F.files old.files;
        })
        (record {
          lake = record {
            readings = C.readings now.clock;
            store = record {
              held = B.held now.blocks;
              faults = B.faults now.blocks;
              misses = B.misses now.blocks;
              missed = B.missed now.blocks;
            };
            seat = now.seat;
          };
          files = F.files now.files;
        })
        reply };

    ghost faults = { λ lines. F.faults lines.files };

    ghost long_lines = { λ front line old now reply. told_by_fronts front line _ _ reply };

    fn serve(&mut self, line: &[u8]) -> Result<Shown, Trouble> {
        serve_line(
            self.rt,
            self.alloc,
            &self.lake,
            &mut self.seat,
            &mut self.blocks,
            &mut self.clock,
            &mut self.files,
            line,
        )
    }
}
