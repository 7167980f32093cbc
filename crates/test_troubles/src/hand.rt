//! A seat with what its calls need, and what it does at a pause.
ghost use Rattle.std.specs.Prelude.{◌≡◌, IfSome};

use crate::names::Names;
use block_store::SureBlocks;
use commit_flow::{CommitFault, FlowAnswer, commit, merge};
use commit_graph::RefExpr;
use keeper::MemoryKeeper;
use lake_base::{RefName, Text};
use lake_calls::CommitCall;
use lake_model::SealFor;
use lake_values::{About, CommitId, CommitRecord, Pairs, Strategy};
use shared_lake::{Client, LakeSeat, NoPause, Pause, Shared};
use std::alloc::Global;
use std::marker::Model;
use std::sync::Wait;
use write_flow::{Done, FlowFault, put_object};

/// What became of a call that makes a new head.
pub(crate) type Made = FlowAnswer<(u64, CommitId, CommitRecord), CommitFault>;

/// What became of a call that puts an object.
pub(crate) type Put = FlowAnswer<Done, FlowFault>;

/// What a seat does at a pause.
#[derive(Clone, Copy, Debug, PartialEq, Eq)]
pub(crate) enum Deed {
    /// It seals `main`.
    Seal,
    /// It puts an object on `main`.
    Put,
    /// It commits `main`.
    Commit,
    /// It puts an object on `dev` and commits it.
    Move,
}

/// A seat at a lake, with what it does at so many of the pauses to come. Contracts see how many are left.
#[derive(Drop)]
pub(crate) struct Hand<'a, W> {
    pub(crate) rt: &'a W,
    pub(crate) alloc: Global,
    pub(crate) lake: &'a Shared<MemoryKeeper>,
    pub(crate) seat: LakeSeat,
    pub(crate) names: &'a Names,
    pub(crate) deed: Deed,
    pub(crate) left: u64,
}

impl<'a, W> Model for Hand<'a, W> {
    ghost use Rattle.std.specs.Prelude.{◌≡◌, ℕ};

    ghost Value = { ℕ };

    ghost view = { λ hand. hand.left };

    ghost invariant = { λ hand. hand.seat.turn ≡ hand.lake.now };
}

// What is said of a commit: by `me`, at 7.
fn said(alloc: Global) -> Option<About>
    ensures { IfSome result (λ about. about.date ≡ 7) }
{
    let committer = Text::read(alloc, b"me", 128).ok()?;
    let message = Text::read(alloc, b"m", 128).ok()?;
    if !CommitCall::fits(&committer, &message) {
        return None;
    }
    Some(About {
        committer,
        message,
        metadata: Pairs::new(alloc),
        date: 7,
    })
}

impl<'a, W: Wait> Hand<'a, W> {
    /// Puts five bytes at the path of a branch, with this pause.
    pub(crate) fn put<P: Pause>(&mut self, pause: &mut P, branch: &str) -> Option<Put> {
        let branch = RefName::read(self.alloc, branch.as_bytes()).ok()?;
        let kind = Text::read(self.alloc, b"a/b", 255).ok()?;
        let mut blocks = SureBlocks::new(self.alloc);
        let mut client = Client {
            blocks: &mut blocks,
            pause,
            now: 7,
            call: 1,
        };
        Some(put_object(
            self.rt,
            self.alloc,
            self.lake,
            &mut self.seat,
            &mut client,
            &self.names.repo,
            &branch,
            &self.names.path,
            b"hello",
            &kind,
        ))
    }

    /// Commits a branch, with this pause.
    pub(crate) fn commit<P: Pause>(&mut self, pause: &mut P, branch: &str) -> Option<Made> {
        let branch = RefName::read(self.alloc, branch.as_bytes()).ok()?;
        let about = said(self.alloc)?;
        let mut blocks = SureBlocks::new(self.alloc);
        let mut client = Client {
            blocks: &mut blocks,
            pause,
            now: 7,
            call: 1,
        };
        Some(commit(
            self.rt,
            self.alloc,
            self.lake,
            &mut self.seat,
            &mut client,
            &self.names.repo,
            &branch,
            about,
        ))
    }

    /// Merges the commit of an expression into `main`, with this pause.
    pub(crate) fn merge<P: Pause>(&mut self, pause: &mut P, source: &str) -> Option<Made> {
        let source = RefExpr::read(self.alloc, source.as_bytes()).ok()?;
        let dest = RefName::read(self.alloc, b"main").ok()?;
        let about = said(self.alloc)?;
        let mut blocks = SureBlocks::new(self.alloc);
        let mut client = Client {
            blocks: &mut blocks,
            pause,
            now: 7,
            call: 1,
        };
        Some(merge(
            self.rt,
            self.alloc,
            self.lake,
            &mut self.seat,
            &mut client,
            &self.names.repo,
            &source,
            &dest,
            Strategy::Refuse,
            about,
        ))
    }

    // Seals `main`.
    fn seal(&mut self) -> Option<()> {
        let branch = RefName::read(self.alloc, b"main").ok()?;
        let _ = self.lake.seal(
            self.rt,
            &mut self.seat,
            1,
            &self.names.repo,
            &branch,
            SealFor::Other,
        );
        Some(())
    }

    // Puts an object on `dev` and commits it.
    fn move_dev(&mut self) -> Option<()> {
        let _ = self.put(&mut NoPause, "dev")?;
        let _ = self.commit(&mut NoPause, "dev")?;
        Some(())
    }

    /// Does its deed, where one is left.
    pub(crate) fn act(&mut self) {
        if self.left > 0 {
            self.left -= 1;
            match self.deed {
                Deed::Seal => {
                    let _ = self.seal();
                }
                Deed::Put => {
                    let _ = self.put(&mut NoPause, "main");
                }
                Deed::Commit => {
                    let _ = self.commit(&mut NoPause, "main");
                }
                Deed::Move => {
                    let _ = self.move_dev();
                }
            }
        }
    }
}

impl<'a, W: Wait> Pause for Hand<'a, W> {
    ghost use Rattle.std.specs.Prelude.{None};

    ghost calls = { λ _. None };

    fn between(&mut self) {
        self.act();
    }
}
