//! A seat with what its calls need, and what it does at a pause.
ghost use Rattle.std.specs.Prelude.{◌≡◌, IfSome};

use crate::names::Names;
use block_store::{Blocks, SureBlocks};
use commit_flow::commit;
use keeper::SureKeeper;
use lake_base::Text;
use lake_values::{About, Pairs, ResetWhat};
use read_flow::{ReadAnswer, read_object};
use shared_lake::{Client, LakeSeat, NoPause, Pause, Shared};
use std::alloc::Global;
use std::marker::Model;
use std::sync::Wait;
use write_flow::{delete_object, put_object, reset_branch};

/// What a seat does at a pause.
#[derive(Clone, Copy, Debug, PartialEq, Eq)]
pub(crate) enum Deed {
    /// It puts other bytes at the path.
    Overwrite,
    /// It deletes what stands at the path.
    Delete,
    /// It drops all changes of the branch.
    Reset,
    /// It commits the branch.
    Commit,
}

/// A seat at a lake, with what it does at so many of the pauses to come. Contracts see how many are left.
#[derive(Drop)]
pub(crate) struct Hand<'a, W> {
    pub(crate) rt: &'a W,
    pub(crate) alloc: Global,
    pub(crate) lake: &'a Shared<SureKeeper>,
    pub(crate) seat: LakeSeat,
    pub(crate) names: &'a Names,
    pub(crate) deed: Deed,
    pub(crate) left: u64,
}

impl<'a, W> Model for Hand<'a, W> {
    ghost use Rattle.std.specs.Prelude.{◌≡◌, ℕ};

    ghost Value = { ℕ };

    ghost view = { λ hand. hand.left };

    ghost invariant = { λ hand. hand.seat.turn ≡ hand.lake.now };
}

// What is said of a commit: by `me`, at 7.
fn said(alloc: Global) -> Option<About>
    ensures { IfSome result (λ about. about.date ≡ 7) }
{
    let committer = Text::read(alloc, b"me", 128).ok()?;
    let message = Text::read(alloc, b"m", 128).ok()?;
    if !lake_calls::CommitCall::fits(&committer, &message) {
        return None;
    }
    Some(About {
        committer,
        message,
        metadata: Pairs::new(alloc),
        date: 7,
    })
}

impl<'a, W: Wait> Hand<'a, W> {
    /// Puts an object at the path. Its bytes go to no store that is read.
    pub(crate) fn put(&mut self, body: &[u8]) {
        if let Ok(kind) = Text::read(self.alloc, b"a/b", 255) {
            let mut blocks = SureBlocks::new(self.alloc);
            let mut pause = NoPause;
            let mut client = Client {
                blocks: &mut blocks,
                pause: &mut pause,
                now: 7,
                call: 1,
            };
            let _ = put_object(
                self.rt,
                self.alloc,
                self.lake,
                &mut self.seat,
                &mut client,
                &self.names.repo,
                &self.names.main,
                &self.names.path,
                body,
                &kind,
            );
        }
    }

    // Deletes what stands at the path.
    fn delete(&mut self) {
        let mut blocks = SureBlocks::new(self.alloc);
        let mut pause = NoPause;
        let mut client = Client {
            blocks: &mut blocks,
            pause: &mut pause,
            now: 7,
            call: 1,
        };
        let _ = delete_object(
            self.rt,
            self.alloc,
            self.lake,
            &mut self.seat,
            &mut client,
            &self.names.repo,
            &self.names.main,
            &self.names.path,
        );
    }

    // Drops all changes of the branch.
    fn reset(&mut self) {
        let mut blocks = SureBlocks::new(self.alloc);
        let mut pause = NoPause;
        let mut client = Client {
            blocks: &mut blocks,
            pause: &mut pause,
            now: 7,
            call: 1,
        };
        let _ = reset_branch(
            self.rt,
            self.lake,
            &mut self.seat,
            &mut client,
            &self.names.repo,
            &self.names.main,
            ResetWhat::All,
        );
    }

    // Commits the branch.
    fn commit(&mut self) {
        if let Some(about) = said(self.alloc) {
            let mut blocks = SureBlocks::new(self.alloc);
            let mut pause = NoPause;
            let mut client = Client {
                blocks: &mut blocks,
                pause: &mut pause,
                now: 7,
                call: 1,
            };
            let _ = commit(
                self.rt,
                self.alloc,
                self.lake,
                &mut self.seat,
                &mut client,
                &self.names.repo,
                &self.names.main,
                about,
            );
        }
    }

    /// Does its deed, where one is left.
    pub(crate) fn act(&mut self) {
        if self.left > 0 {
            self.left -= 1;
            match self.deed {
                Deed::Overwrite => self.put(b"world"),
                Deed::Delete => self.delete(),
                Deed::Reset => self.reset(),
                Deed::Commit => self.commit(),
            }
        }
    }

    /// Reads what stands at the path, over this store, with this pause.
    pub(crate) fn read<B: Blocks, P: Pause>(
        &mut self,
        blocks: &mut B,
        pause: &mut P,
    ) -> ReadAnswer {
        let mut client = Client {
            blocks,
            pause,
            now: 7,
            call: 2,
        };
        read_object(
            self.rt,
            self.lake,
            &mut self.seat,
            &mut client,
            &self.names.repo,
            &self.names.at,
            &self.names.path,
        )
    }
}

impl<'a, W: Wait> Pause for Hand<'a, W> {
    ghost use Rattle.std.specs.Prelude.{None};

    ghost calls = { λ _. None };

    fn between(&mut self) {
        self.act();
    }
}
