//! A seat with what its calls need, and a call answered in words.
ghost use Rattle.std.specs.Prelude.{◌≡◌, None, IfOk};
ghost use Rattle.lake_values.specs.declared.entry.Change.TheVariants.{Put};
ghost use Rattle.lake_model.specs.Uncommitted.{put_number};

use crate::sealer::Sealer;
use block_store::MemoryBlocks;
use commit_graph::RefExpr;
use keeper::SureKeeper;
use lake_base::{Path, RefName, RepoName, Text};
use lake_values::{Entry, Pairs, Place, ResetWhat};
use shared_lake::{Client, LakeSeat, Shared};
use std::alloc::Global;
use std::marker::Model;
use std::sync::Wait;
use std::test::Fail;
use write_flow::{
    Done, FlowAnswer, FlowFault, copy_object, delete_object, link_object, put_object, reset_branch,
};

/// A seat at a lake, with what its calls need. Contracts see how many calls it made.
#[derive(Drop)]
pub(crate) struct Desk<'a, W> {
    pub(crate) rt: &'a W,
    pub(crate) alloc: Global,
    pub(crate) lake: &'a Shared<SureKeeper>,
    pub(crate) seat: LakeSeat,
    pub(crate) blocks: MemoryBlocks,
    pub(crate) repo: &'a RepoName,
    pub(crate) calls: u64,
}

impl<'a, W> Model for Desk<'a, W> {
    ghost use Rattle.std.specs.Prelude.{◌≡◌, ℕ};

    ghost Value = { ℕ };

    ghost view = { λ desk. desk.calls };

    ghost invariant = { λ desk. desk.seat.turn ≡ desk.lake.now };
}

// The entry of an object outside, of so many bytes.
fn outside(alloc: Global, size: u64) -> Result<Entry, Fail>
    ensures { IfOk result (λ entry. put_number (Put entry) ≡ None) }
{
    let place = Place::External {
        at: Text::read(alloc, b"s3://x", 65536)?,
        checksum: Text::read(alloc, b"", 65536)?,
    };
    let content_type = Text::read(alloc, b"a/b", 65536)?;
    if !Entry::can_hold(&place, &content_type) {
        return Err("no entry can hold the place")?;
    }
    Ok(Entry {
        place,
        size,
        mtime: 7,
        content_type,
        metadata: Pairs::new(alloc),
    })
}

// What was answered: the size of what stands at the path then, or the fault; the position, and the edge.
fn words(alloc: Global, answer: FlowAnswer<Done, FlowFault>) -> Result<String, Fail> {
    let (position, edge) = (answer.position, answer.edge);
    match answer.outcome {
        Ok(done) => {
            let size = done.entry.map(|entry| entry.size);
            Ok(format!(in alloc; "{size:?} at {position} of {edge}")?)
        }
        Err(fault) => Ok(format!(in alloc; "{fault:?} at {position} of {edge}")?),
    }
}

impl<'a, W: Wait> Desk<'a, W> {
    /// The answer to what is asked, in words, with this pause: `put BRANCH` puts five bytes at the path `a`,
    /// `link BRANCH SIZE` links an object of that size there, nine bytes at `main` where none is given, `copy PATH`
    /// copies what stands there to `c`, `delete BRANCH` deletes `a`, at `main` where none is given, and `reset BRANCH`
    /// drops all changes. What else is asked is of heads.
    pub(crate) fn answer(&mut self, sealer: &mut Sealer<'_, W>, ask: &str) -> Result<String, Fail> {
        self.calls = self.calls.saturating_add(1);
        let (verb, name) = ask.split_once(' ').unwrap_or((ask, ""));
        let answer = match verb {
            "put" => self.put(sealer, name)?,
            "link" => self.link(sealer, name)?,
            "copy" => self.copy(sealer, name)?,
            "delete" => self.delete(sealer, name)?,
            "reset" => self.reset(sealer, name)?,
            _ => return self.answer_head(sealer, verb, name),
        };
        words(self.alloc, answer)
    }

    fn put(
        &mut self,
        sealer: &mut Sealer<'_, W>,
        branch: &str,
    ) -> Result<FlowAnswer<Done, FlowFault>, Fail> {
        let branch = RefName::read(self.alloc, branch.as_bytes())?;
        let path = Path::read(self.alloc, b"a")?;
        let content_type = Text::read(self.alloc, b"a/b", 255)?;
        let mut client = Client {
            blocks: &mut self.blocks,
            pause: sealer,
            now: 7,
            call: self.calls,
        };
        Ok(put_object(
            self.rt,
            self.alloc,
            self.lake,
            &mut self.seat,
            &mut client,
            self.repo,
            &branch,
            &path,
            b"hello",
            &content_type,
        ))
    }

    fn link(
        &mut self,
        sealer: &mut Sealer<'_, W>,
        name: &str,
    ) -> Result<FlowAnswer<Done, FlowFault>, Fail> {
        let (branch, size) = name.split_once(' ').unwrap_or(("main", "9"));
        let branch = RefName::read(self.alloc, branch.as_bytes())?;
        let path = Path::read(self.alloc, b"a")?;
        let entry = outside(self.alloc, size.parse::<u64>()?)?;
        let mut client = Client {
            blocks: &mut self.blocks,
            pause: sealer,
            now: 7,
            call: self.calls,
        };
        Ok(link_object(
            self.rt,
            self.alloc,
            self.lake,
            &mut self.seat,
            &mut client,
            self.repo,
            &branch,
            &path,
            entry,
        ))
    }

    fn copy(
        &mut self,
        sealer: &mut Sealer<'_, W>,
        from: &str,
    ) -> Result<FlowAnswer<Done, FlowFault>, Fail> {
        let branch = RefName::read(self.alloc, b"main")?;
        let path = Path::read(self.alloc, b"c")?;
        let e = RefExpr::read(self.alloc, b"main")
            .ok()
            .ok_or("an expression")?;
        let from = Path::read(self.alloc, from.as_bytes())?;
        let mut client = Client {
            blocks: &mut self.blocks,
            pause: sealer,
            now: 7,
            call: self.calls,
        };
        Ok(copy_object(
            self.rt,
            self.alloc,
            self.lake,
            &mut self.seat,
            &mut client,
            self.repo,
            &branch,
            &path,
            &e,
            &from,
        ))
    }

    fn delete(
        &mut self,
        sealer: &mut Sealer<'_, W>,
        name: &str,
    ) -> Result<FlowAnswer<Done, FlowFault>, Fail> {
        let branch = if name == "" { "main" } else { name };
        let branch = RefName::read(self.alloc, branch.as_bytes())?;
        let path = Path::read(self.alloc, b"a")?;
        let mut client = Client {
            blocks: &mut self.blocks,
            pause: sealer,
            now: 7,
            call: self.calls,
        };
        Ok(delete_object(
            self.rt,
            self.alloc,
            self.lake,
            &mut self.seat,
            &mut client,
            self.repo,
            &branch,
            &path,
        ))
    }

    fn reset(
        &mut self,
        sealer: &mut Sealer<'_, W>,
        branch: &str,
    ) -> Result<FlowAnswer<Done, FlowFault>, Fail> {
        let branch = RefName::read(self.alloc, branch.as_bytes())?;
        let mut client = Client {
            blocks: &mut self.blocks,
            pause: sealer,
            now: 7,
            call: self.calls,
        };
        Ok(reset_branch(
            self.rt,
            self.lake,
            &mut self.seat,
            &mut client,
            self.repo,
            &branch,
            ResetWhat::All,
        ))
    }
}
