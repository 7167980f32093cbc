//! The readings, each made under one turn.
ghost use Rattle.std.specs.Prelude.{◌≡◌, None, Some, option_copied};
ghost use Rattle.core_readings.specs.Answers.{list_answer, log_answer, note_answer, page_answer};
ghost use Rattle.lake_core.specs.Lakes.{state, versions};
ghost use Rattle.lake_model.specs.Readings.{find_reply, log_reply, look_reply, names_reply, note_reply, page_reply};
ghost use Rattle.lake_model.specs.Readings.{repositories_reply, resolve_reply, versions_reply};
ghost use Rattle.lake_model.specs.Refusals.{Gives};
ghost use Rattle.shared_lake.specs.SeatSteps.{IsRead};

use crate::shared::{LakeSeat, Shared};
use commit_graph::RefExpr;
use keeper::Keeper;
use lake_base::{Path, RefName, RepoName, Sequence, Text};
use lake_model::{Point, RepoInfo, Seen, StepFault, Versions};
use lake_pages::{Page, PageQuery};
use lake_values::{CommitId, CommitRecord, Note, NoteName};
use std::sync::Wait;

impl<K: Keeper> Shared<K> {
    /// What an expression leads to. NoRepo, NoRef, NoParent. It waits.
    pub fn resolve<W: Wait>(
        &self,
        rt: &W,
        seat: &mut LakeSeat,
        repo: &RepoName,
        e: &RefExpr,
    ) -> Result<Point, StepFault>
        requires { seat.old.turn ≡ self.now }
        ensures { IsRead (record { kept = K.kept; faults = K.faults; calls = K.calls; successes = K.successes })
            seat.old seat.new (λ l. Gives result (resolve_reply (state l) repo.now e.now)) }
    {
        self.turn.with_read(rt, seat, |lake| lake.resolve(repo, e))
    }

    /// What stands at a path of what an expression leads to, and whether its object is gone for good. NoRepo, NoRef,
    /// NoParent. It waits.
    pub fn look<W: Wait>(
        &self,
        rt: &W,
        seat: &mut LakeSeat,
        repo: &RepoName,
        e: &RefExpr,
        path: &Path,
    ) -> Result<Seen, StepFault>
        requires { seat.old.turn ≡ self.now }
        ensures { IsRead (record { kept = K.kept; faults = K.faults; calls = K.calls; successes = K.successes })
            seat.old seat.new (λ l. Gives result (look_reply (state l) repo.now e.now path.now)) }
    {
        self.turn
            .with_read(rt, seat, |lake| lake.look(repo, e, path))
    }

    /// Where the history stands, and a page of what an expression leads to. NoRepo, NoRef, NoParent. It waits.
    pub fn page<W: Wait>(
        &self,
        rt: &W,
        seat: &mut LakeSeat,
        repo: &RepoName,
        e: &RefExpr,
        query: &PageQuery,
    ) -> Result<(u64, Page), StepFault>
        requires { seat.old.turn ≡ self.now }
        ensures { IsRead (record { kept = K.kept; faults = K.faults; calls = K.calls; successes = K.successes })
            seat.old seat.new (λ l. Gives (page_answer result) (page_reply (state l) repo.now e.now query.now)) }
    {
        self.turn
            .with_read(rt, seat, |lake| lake.page(repo, e, query))
    }

    /// Where the history stands, the ancestors of the commit of an expression that are dated at or after a moment and
    /// come after another commit, so many, and whether one is left. NoRepo; NoRef, also where the other commit isn't
    /// there; NoParent. It waits.
    pub fn log<W: Wait>(
        &self,
        rt: &W,
        seat: &mut LakeSeat,
        repo: &RepoName,
        e: &RefExpr,
        after: Option<&CommitId>,
        since: Option<u64>,
        amount: usize,
    ) -> Result<(u64, Sequence<(CommitId, CommitRecord)>, bool), StepFault>
        requires { seat.old.turn ≡ self.now }
        ensures { IsRead (record { kept = K.kept; faults = K.faults; calls = K.calls; successes = K.successes })
            seat.old seat.new (λ l. Gives (log_answer result)
            (log_reply (state l) repo.now e.now (option_copied after.entry) since amount)) }
    {
        match after {
            Some(after) => self.log_behind(rt, seat, repo, e, after, since, amount),
            None => self.log_whole(rt, seat, repo, e, since, amount),
        }
    }

    /// Where the history stands, the repositories whose names are above some bytes, so many, and whether one is left.
    /// It waits.
    pub fn repos<W: Wait>(
        &self,
        rt: &W,
        seat: &mut LakeSeat,
        after: &Text,
        amount: usize,
    ) -> Result<(u64, Sequence<RepoInfo>, bool), StepFault>
        requires { seat.old.turn ≡ self.now }
        ensures { IsRead (record { kept = K.kept; faults = K.faults; calls = K.calls; successes = K.successes })
            seat.old seat.new (λ l. Gives (list_answer result) (repositories_reply (state l) after.now amount)) }
    {
        self.turn
            .with_read(rt, seat, |lake| lake.repos(after, amount))
    }

    /// Where the history stands, the branches of a repository with their heads, or its tags with their commits, whose
    /// names are above some bytes, so many, and whether one is left. NoRepo. It waits.
    pub fn names<W: Wait>(
        &self,
        rt: &W,
        seat: &mut LakeSeat,
        repo: &RepoName,
        tags: bool,
        after: &Text,
        amount: usize,
    ) -> Result<(u64, Sequence<(RefName, CommitId)>, bool), StepFault>
        requires { seat.old.turn ≡ self.now }
        ensures { IsRead (record { kept = K.kept; faults = K.faults; calls = K.calls; successes = K.successes })
            seat.old seat.new (λ l. Gives (list_answer result)
            (names_reply (state l) repo.now tags after.now amount)) }
    {
        self.turn
            .with_read(rt, seat, |lake| lake.names(repo, tags, after, amount))
    }

    /// Where the history stands, and the head of a branch or the commit of a tag. NoRepo, NoRef. It takes no memory. It
    /// waits.
    pub fn find<W: Wait>(
        &self,
        rt: &W,
        seat: &mut LakeSeat,
        repo: &RepoName,
        tags: bool,
        name: &RefName,
    ) -> Result<(u64, CommitId), StepFault>
        requires { seat.old.turn ≡ self.now }
        ensures { IsRead (record { kept = K.kept; faults = K.faults; calls = K.calls; successes = K.successes })
            seat.old seat.new (λ l. result ≡ find_reply (state l) repo.now tags name.now) }
    {
        self.turn
            .with_read(rt, seat, |lake| lake.find(repo, tags, name))
    }

    /// Where the history stands, the version of a repository's settings, and one of them. NoRepo, NoNote. It waits.
    pub fn note<W: Wait>(
        &self,
        rt: &W,
        seat: &mut LakeSeat,
        repo: &RepoName,
        name: NoteName,
    ) -> Result<(u64, u64, Note), StepFault>
        requires { seat.old.turn ≡ self.now }
        ensures { IsRead (record { kept = K.kept; faults = K.faults; calls = K.calls; successes = K.successes })
            seat.old seat.new (λ l. Gives (note_answer result) (note_reply (state l) (versions l) repo.now name)) }
    {
        self.turn.with_read(rt, seat, |lake| lake.note(repo, name))
    }

    /// The versions of a branch and of its repository's settings. NoRepo, NoRef. It takes no memory. It waits.
    pub fn versions<W: Wait>(
        &self,
        rt: &W,
        seat: &mut LakeSeat,
        repo: &RepoName,
        branch: &RefName,
    ) -> Result<Versions, StepFault>
        requires { seat.old.turn ≡ self.now }
        ensures { IsRead (record { kept = K.kept; faults = K.faults; calls = K.calls; successes = K.successes })
            seat.old seat.new (λ l. result ≡ versions_reply (state l) (versions l) repo.now branch.now) }
    {
        self.turn
            .with_read(rt, seat, |lake| lake.versions(repo, branch))
    }

    // A log behind a commit.
    fn log_behind<W: Wait>(
        &self,
        rt: &W,
        seat: &mut LakeSeat,
        repo: &RepoName,
        e: &RefExpr,
        after: &CommitId,
        since: Option<u64>,
        amount: usize,
    ) -> Result<(u64, Sequence<(CommitId, CommitRecord)>, bool), StepFault>
        requires { seat.old.turn ≡ self.now }
        ensures { IsRead (record { kept = K.kept; faults = K.faults; calls = K.calls; successes = K.successes })
            seat.old seat.new (λ l. Gives (log_answer result)
            (log_reply (state l) repo.now e.now (Some after.now) since amount)) }
    {
        self.turn.with_read(
            rt,
            seat,
            |lake| lake.log(repo, e, Some(after), since, amount),
        )
    }

    // A log from its beginning.
    fn log_whole<W: Wait>(
        &self,
        rt: &W,
        seat: &mut LakeSeat,
        repo: &RepoName,
        e: &RefExpr,
        since: Option<u64>,
        amount: usize,
    ) -> Result<(u64, Sequence<(CommitId, CommitRecord)>, bool), StepFault>
        requires { seat.old.turn ≡ self.now }
        ensures { IsRead (record { kept = K.kept; faults = K.faults; calls = K.calls; successes = K.successes })
            seat.old seat.new (λ l. Gives (log_answer result)
            (log_reply (state l) repo.now e.now None since amount)) }
    {
        self.turn
            .with_read(rt, seat, |lake| lake.log(repo, e, None, since, amount))
    }
}
