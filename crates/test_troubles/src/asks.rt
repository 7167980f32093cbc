//! What is asked of a seat, and answered in words.
ghost use Rattle.std.specs.Prelude.{◌≡◌, None, IfOk};
ghost use Rattle.lake_model.specs.Uncommitted.{put_number};

use crate::hand::{Deed, Hand, Made, Put};
use commit_flow::CommitFault;
use commit_graph::RefExpr;
use lake_base::RefName;
use lake_model::HeadRefusal;
use lake_values::Change;
use std::alloc::Global;
use std::sync::Wait;
use std::test::Fail;

// What was answered to a put: the size of what stands at the path then, or the fault; and the position.
fn put_words(alloc: Global, answer: Put) -> Result<String, Fail> {
    let position = answer.position;
    match answer.outcome {
        Ok(done) => {
            let size = done.entry.map(|entry| entry.size);
            Ok(format!(in alloc; "{size:?} at {position}")?)
        }
        Err(fault) => Ok(format!(in alloc; "{fault:?} at {position}")?),
    }
}

// What was answered to a call for a new head: how many parents it has, or the fault; and the position.
fn head_words(alloc: Global, answer: Made) -> Result<String, Fail> {
    let position = answer.position;
    match answer.outcome {
        Ok((_, _, record)) => {
            let parents = record.parents.as_slice().len();
            Ok(format!(in alloc; "a head over {parents} at {position}")?)
        }
        Err(CommitFault::Head(HeadRefusal::NoChanges(_))) => {
            Ok(format!(in alloc; "NoChanges at {position}")?)
        }
        Err(CommitFault::Head(_)) => Ok(format!(in alloc; "another refusal at {position}")?),
        Err(fault) => Ok(format!(in alloc; "{fault:?} at {position}")?),
    }
}

// The deed of a word.
fn deed_of(word: &str) -> Deed {
    match word {
        "put" => Deed::Put,
        "commit" => Deed::Commit,
        "move" => Deed::Move,
        _ => Deed::Seal,
    }
}

impl<'a, W: Wait> Hand<'a, W> {
    /// Tells it what to do at so many of the pauses to come: `seal`, `put`, `commit` or `move`.
    pub(crate) fn is_told(&mut self, beside: &str) -> Result<(), Fail> {
        let (word, times) = beside.split_once(' ').unwrap_or((beside, ""));
        self.deed = deed_of(word);
        self.left = times.parse::<u64>()?;
        Ok(())
    }

    /// The answer to what is asked, in words, with another seat at the pauses: `put BRANCH`, `commit BRANCH`,
    /// `merge EXPRESSION` into `main`; `look EXPRESSION`, what size stands at the path; `branch NAME`, made at `main`;
    /// `versions`, of `main`; `drop VERSION`, what stands at the path of `main` goes where it has that version;
    /// `beside`, the other seat does its deed.
    pub(crate) fn answer(&mut self, other: &mut Hand<'_, W>, ask: &str) -> Result<String, Fail> {
        let (verb, name) = ask.split_once(' ').unwrap_or((ask, ""));
        match verb {
            "put" => {
                let answer = self.put(other, name).ok_or("a name")?;
                put_words(self.alloc, answer)
            }
            "commit" => {
                let answer = self.commit(other, name).ok_or("a name")?;
                head_words(self.alloc, answer)
            }
            "merge" => {
                let answer = self.merge(other, name).ok_or("a name")?;
                head_words(self.alloc, answer)
            }
            "look" => self.look(name),
            "branch" => self.make_branch(name),
            "versions" => self.versions(),
            "drop" => self.drop_at(name),
            "beside" => beside(other),
            _ => Err("nothing is asked so")?,
        }
    }

    fn look(&mut self, e: &str) -> Result<String, Fail> {
        let e = RefExpr::read(self.alloc, e.as_bytes())
            .ok()
            .ok_or("an expression")?;
        let looked = self.lake.look(
            self.rt,
            &mut self.seat,
            &self.names.repo,
            &e,
            &self.names.path,
        );
        match looked {
            Ok(seen) => {
                let at = seen.at;
                let size = seen.found.map(|entry| entry.size);
                Ok(format!(in self.alloc; "{size:?} at {at}")?)
            }
            Err(fault) => Ok(format!(in self.alloc; "{fault:?}")?),
        }
    }

    fn make_branch(&mut self, name: &str) -> Result<String, Fail> {
        let name = RefName::read(self.alloc, name.as_bytes())?;
        if name.like_id() {
            return Err("a name like an id")?;
        }
        let e = RefExpr::read(self.alloc, b"main")
            .ok()
            .ok_or("an expression")?;
        let made = self
            .lake
            .create_branch(self.rt, &mut self.seat, 1, &self.names.repo, name, &e);
        match made {
            Ok((at, _)) => Ok(format!(in self.alloc; "made at {at}")?),
            Err(fault) => Ok(format!(in self.alloc; "{fault:?}")?),
        }
    }

    fn versions(&mut self) -> Result<String, Fail> {
        let main = RefName::read(self.alloc, b"main")?;
        let told = self
            .lake
            .versions(self.rt, &mut self.seat, &self.names.repo, &main);
        match told {
            Ok(told) => {
                let (at, version, settings) = (told.at, told.version, told.settings);
                Ok(format!(in self.alloc; "{version} and {settings} at {at}")?)
            }
            Err(fault) => Ok(format!(in self.alloc; "{fault:?}")?),
        }
    }

    fn drop_at(&mut self, version: &str) -> Result<String, Fail> {
        let main = RefName::read(self.alloc, b"main")?;
        let path = lake_base::Path::read(self.alloc, b"a")?;
        let version = version.parse::<u64>()?;
        let staged = self.lake.stage(
            self.rt,
            &mut self.seat,
            1,
            &self.names.repo,
            &main,
            version,
            path,
            Change::Delete,
        );
        match staged {
            Ok(at) => Ok(format!(in self.alloc; "at {at}")?),
            Err(fault) => Ok(format!(in self.alloc; "{fault:?}")?),
        }
    }
}

// The seat does its deed, by one that is told.
fn beside<W: Wait>(hand: &mut Hand<'_, W>) -> Result<String, Fail> {
    hand.act();
    let seen = hand.seat.seen();
    Ok(format!(in hand.alloc; "at {seen}")?)
}
