//! A pause in which a second seat seals or commits a branch, or moves another one that is merged into it.
use block_store::SureBlocks;
use commit_flow::commit;
use keeper::SureKeeper;
use lake_base::{Path, RefName, RepoName, Text};
use lake_model::SealFor;
use lake_values::{About, Pairs};
use shared_lake::{Client, LakeSeat, NoPause, Pause, Shared};
use std::alloc::Global;
use std::marker::Model;
use std::sync::Wait;
use std::test::Fail;
use write_flow::delete_object;

/// What the second seat does at a pause.
#[derive(Clone, Copy, PartialEq, Eq)]
pub(crate) enum Beside {
    Seal,
    Commit,
    Move,
}

/// A second seat at a lake, which seals or commits a branch at each of so many pauses, or moves its source and seals it.
/// Contracts see how many are left.
#[derive(Drop)]
pub(crate) struct Sealer<'a, W> {
    pub(crate) rt: &'a W,
    pub(crate) alloc: Global,
    pub(crate) lake: &'a Shared<SureKeeper>,
    pub(crate) seat: LakeSeat,
    pub(crate) repo: &'a RepoName,
    pub(crate) branch: &'a RefName,
    pub(crate) source: &'a RefName,
    pub(crate) path: &'a Path,
    pub(crate) beside: Beside,
    pub(crate) left: u64,
}

impl<'a, W> Model for Sealer<'a, W> {
    ghost use Rattle.std.specs.Prelude.{◌≡◌, ℕ};

    ghost Value = { ℕ };

    ghost view = { λ sealer. sealer.left };

    ghost invariant = { λ sealer. sealer.seat.turn ≡ sealer.lake.now };
}

// What is said of a commit: by `other`, at 9.
fn said(alloc: Global) -> Option<About> {
    let committer = Text::read(alloc, b"other", 128).ok()?;
    let message = Text::read(alloc, b"beside", 128).ok()?;
    if !lake_calls::CommitCall::fits(&committer, &message) {
        return None;
    }
    Some(About {
        committer,
        message,
        metadata: Pairs::new(alloc),
        date: 9,
    })
}

impl<'a, W: Wait> Sealer<'a, W> {
    /// Tells it to `seal`, to `commit` or to `move` at so many of the pauses to come.
    pub(crate) fn is_told(&mut self, beside: &str) -> Result<(), Fail> {
        let (verb, times) = beside.split_once(' ').unwrap_or((beside, ""));
        self.beside = match verb {
            "commit" => Beside::Commit,
            "move" => Beside::Move,
            _ => Beside::Seal,
        };
        self.left = times.parse::<u64>()?;
        Ok(())
    }

    // The second seat seals the branch.
    fn seal(&mut self) {
        let _ = self.lake.seal(
            self.rt,
            &mut self.seat,
            1,
            self.repo,
            self.branch,
            SealFor::Other,
        );
    }

    // The second seat deletes a path of the source, and commits that.
    fn move_source(&mut self) {
        let mut blocks = SureBlocks::new(self.alloc);
        let mut pause = NoPause;
        let mut client = Client {
            blocks: &mut blocks,
            pause: &mut pause,
            now: 9,
            call: 1,
        };
        let _ = delete_object(
            self.rt,
            self.alloc,
            self.lake,
            &mut self.seat,
            &mut client,
            self.repo,
            self.source,
            self.path,
        );
        let source = self.source;
        self.commit(source);
    }

    // The second seat commits a branch.
    fn commit(&mut self, branch: &RefName) {
        if let Some(about) = said(self.alloc) {
            let mut blocks = SureBlocks::new(self.alloc);
            let mut pause = NoPause;
            let mut client = Client {
                blocks: &mut blocks,
                pause: &mut pause,
                now: 9,
                call: 1,
            };
            let _ = commit(
                self.rt,
                self.alloc,
                self.lake,
                &mut self.seat,
                &mut client,
                self.repo,
                branch,
                about,
            );
        }
    }
}

impl<'a, W: Wait> Pause for Sealer<'a, W> {
    ghost use Rattle.std.specs.Prelude.{None};

    ghost calls = { λ _. None };

    fn between(&mut self) {
        if self.left > 0 {
            self.left -= 1;
            match self.beside {
                Beside::Seal => self.seal(),
                Beside::Commit => {
                    let branch = self.branch;
                    self.commit(branch);
                }
                Beside::Move => {
                    self.move_source();
                    self.seal();
                }
            }
        }
    }
}
