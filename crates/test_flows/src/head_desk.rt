//! A seat's calls that make new heads, answered in words.
use crate::desk::Desk;
use crate::sealer::Sealer;
use commit_flow::{CommitFault, FlowAnswer, cherry_pick, commit, merge, revert};
use commit_graph::RefExpr;
use lake_base::{RefName, Sequence, Text};
use lake_calls::CommitCall;
use lake_model::HeadRefusal;
use lake_values::{
    About, CommitId, CommitRecord, Deny, HookRule, HookRules, Note, NoteName, Pairs, Strategy,
};
use shared_lake::Client;
use std::alloc::Global;
use std::sync::Wait;
use std::test::Fail;

type Answer = FlowAnswer<(u64, CommitId, CommitRecord), CommitFault>;

// What is said of a commit: by `me`, at 3, which doesn't count.
fn said(alloc: Global) -> Result<About, Fail> {
    let committer = Text::read(alloc, b"me", 128)?;
    let message = Text::read(alloc, b"m", 128)?;
    if !CommitCall::fits(&committer, &message) {
        return Err("no commit can say that")?;
    }
    Ok(About {
        committer,
        message,
        metadata: Pairs::new(alloc),
        date: 3,
    })
}

// What was answered: the length of the message of the new head, which is of the client's moment, and how many parents it
// has, or the fault; the position, and the edge.
fn words(alloc: Global, answer: Answer) -> Result<String, Fail> {
    let (position, edge) = (answer.position, answer.edge);
    match answer.outcome {
        Ok((_, _, record)) => {
            if record.date != 7 {
                return Err("a commit of another moment")?;
            }
            let parents = record.parents.as_slice().len();
            let message = record.message.as_str().len();
            Ok(format!(in alloc; "{message} over {parents} at {position} of {edge}")?)
        }
        Err(CommitFault::Head(refusal)) => {
            let cause = match refusal {
                HeadRefusal::NoChanges(_) => "NoChanges",
                HeadRefusal::Dirty(_) => "Dirty",
                HeadRefusal::Conflicts { .. } => "Conflicts",
                HeadRefusal::HookDenied(_) => "HookDenied",
            };
            Ok(format!(in alloc; "{cause} at {position} of {edge}")?)
        }
        Err(fault) => Ok(format!(in alloc; "{fault:?} at {position} of {edge}")?),
    }
}

impl<'a, W: Wait> Desk<'a, W> {
    /// The answer to what is asked of heads, in words, with this pause: `commit BRANCH`; `branch NAME`, made at `main`;
    /// `merge EXPRESSION` into `main`, and `merge-source` and `merge-dest`, where the one or the other wins; `revert EXPRESSION` on `main` and `take EXPRESSION` into it, behind the
    /// expression the number of a parent; `limit`, at most one change in a commit of the repository.
    pub(crate) fn answer_head(
        &mut self,
        sealer: &mut Sealer<'_, W>,
        verb: &str,
        name: &str,
    ) -> Result<String, Fail> {
        let answer = match verb {
            "commit" => self.commit_branch(sealer, name)?,
            "branch" => return self.make_branch(name),
            "merge" => self.merge_source(sealer, name, Strategy::Refuse)?,
            "merge-source" => self.merge_source(sealer, name, Strategy::SourceWins)?,
            "merge-dest" => self.merge_source(sealer, name, Strategy::DestWins)?,
            "revert" => self.pick(sealer, name, true)?,
            "take" => self.pick(sealer, name, false)?,
            "limit" => return self.allow_one_change(),
            _ => return Err("nothing is asked so")?,
        };
        words(self.alloc, answer)
    }

    fn commit_branch(&mut self, sealer: &mut Sealer<'_, W>, branch: &str) -> Result<Answer, Fail> {
        let branch = RefName::read(self.alloc, branch.as_bytes())?;
        let about = said(self.alloc)?;
        let mut client = Client {
            blocks: &mut self.blocks,
            pause: sealer,
            now: 7,
            call: self.calls,
        };
        Ok(commit(
            self.rt,
            self.alloc,
            self.lake,
            &mut self.seat,
            &mut client,
            self.repo,
            &branch,
            about,
        ))
    }

    fn merge_source(
        &mut self,
        sealer: &mut Sealer<'_, W>,
        source: &str,
        strategy: Strategy,
    ) -> Result<Answer, Fail> {
        let source = RefExpr::read(self.alloc, source.as_bytes())
            .ok()
            .ok_or("an expression")?;
        let dest = RefName::read(self.alloc, b"main")?;
        let about = said(self.alloc)?;
        let mut client = Client {
            blocks: &mut self.blocks,
            pause: sealer,
            now: 7,
            call: self.calls,
        };
        Ok(merge(
            self.rt,
            self.alloc,
            self.lake,
            &mut self.seat,
            &mut client,
            self.repo,
            &source,
            &dest,
            strategy,
            about,
        ))
    }

    fn pick(&mut self, sealer: &mut Sealer<'_, W>, name: &str, undo: bool) -> Result<Answer, Fail> {
        let (e, parent) = name.split_once(' ').unwrap_or((name, ""));
        let number = match parent {
            "" => None,
            digits => Some(digits.parse::<u32>()?),
        };
        let e = RefExpr::read(self.alloc, e.as_bytes())
            .ok()
            .ok_or("an expression")?;
        let branch = RefName::read(self.alloc, b"main")?;
        let about = said(self.alloc)?;
        let mut client = Client {
            blocks: &mut self.blocks,
            pause: sealer,
            now: 7,
            call: self.calls,
        };
        if undo {
            return Ok(revert(
                self.rt,
                self.alloc,
                self.lake,
                &mut self.seat,
                &mut client,
                self.repo,
                &branch,
                &e,
                number,
                about,
            ));
        }
        Ok(cherry_pick(
            self.rt,
            self.alloc,
            self.lake,
            &mut self.seat,
            &mut client,
            self.repo,
            &branch,
            &e,
            number,
            about,
        ))
    }

    fn make_branch(&mut self, name: &str) -> Result<String, Fail> {
        let name = RefName::read(self.alloc, name.as_bytes())?;
        if name.like_id() {
            return Err("a name like an id")?;
        }
        let e = RefExpr::read(self.alloc, b"main")
            .ok()
            .ok_or("an expression")?;
        let made = self
            .lake
            .create_branch(self.rt, &mut self.seat, self.calls, self.repo, name, &e);
        let at = made.ok().ok_or("a branch")?.0;
        Ok(format!(in self.alloc; "at {at}")?)
    }

    fn allow_one_change(&mut self) -> Result<String, Fail> {
        let branch = Text::read(self.alloc, b"*", 128)?;
        let mut rules = Vec::new(self.alloc);
        rules.push(HookRule {
            branch,
            deny: Deny::MaxChanges(1),
        })?;
        let rules = HookRules {
            rules: Sequence::of(rules),
        };
        let note = Some(Note::Hooks(rules));
        let set = self.lake.set_note(
            self.rt,
            &mut self.seat,
            self.calls,
            self.repo,
            None,
            NoteName::Hooks,
            note,
        );
        let at = set.ok().ok_or("a setting")?;
        Ok(format!(in self.alloc; "at {at}")?)
    }
}
