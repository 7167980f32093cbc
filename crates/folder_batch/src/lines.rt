//! What serves the lines of a batch at a desk.
ghost use Rattle.std.specs.Prelude.{◌≡◌};

use crate::desk::OpenDesk;
use batch_lines::LineServer;
use block_store::Blocks;
use keeper::Keeper;
use lake_base::{Clock, Trouble};
use lake_batch::serve_line;
use lakectl_commands::Files;
use lakectl_shown::Shown;
use std::alloc::Global;
use std::sync::Wait;

/// A desk, a clock, and files.
#[derive(Drop)]
pub(crate) struct DeskLines<'r, W: Wait, K: Keeper, B: Blocks, C: Clock, F: Files> {
    pub(crate) rt: &'r W,
    pub(crate) alloc: Global,
    pub(crate) desk: OpenDesk<K, B>,
    pub(crate) clock: C,
    pub(crate) files: F,
}

impl<'r, W: Wait, K: Keeper, B: Blocks, C: Clock, F: Files> LineServer
    for DeskLines<'r, W, K, B, C, F> {
    ghost use Rattle.folder_batch.specs.Desks.{IsReady};
    ghost use Rattle.lake_batch.specs.CommandWords.{LineEnds};
    ghost use Rattle.lake_batch.proofs.SeatLemmas.{told_by_fronts};

    ghost ready = { λ lines. IsReady lines.desk };

    ghost serves = { λ line old now reply. LineEnds line
        (record {
          lake = record {
            readings = C.readings old.clock;
            store = record {
              held = B.held old.desk.blocks;
              faults = B.faults old.desk.blocks;
              misses = B.misses old.desk.blocks;
              missed = B.missed old.desk.blocks;
            };
            seat = old.desk.seat;
          };
          files = F.files old.files;
        })
        (record {
          lake = record {
            readings = C.readings now.clock;
            store = record {
              held = B.held now.desk.blocks;
              faults = B.faults now.desk.blocks;
              misses = B.misses now.desk.blocks;
              missed = B.missed now.desk.blocks;
            };
            seat = now.desk.seat;
          };
          files = F.files now.files;
        })
        reply };

    ghost faults = { λ lines. F.faults lines.files };

    ghost long_lines = { λ front line old now reply. told_by_fronts front line _ _ reply };

    fn serve(&mut self, line: &[u8]) -> Result<Shown, Trouble> {
        serve_line(
            self.rt,
            self.alloc,
            &self.desk.lake,
            &mut self.desk.seat,
            &mut self.desk.blocks,
            &mut self.clock,
            &mut self.files,
            line,
        )
    }
}
