//! The readings: each answers the one-thread reply at the state now, unless memory runs out.
ghost use Rattle.std.specs.Prelude.{◌≡◌, option_copied};
ghost use Rattle.lake_model.specs.Readings.{find_reply, log_reply, look_reply, names_reply, note_reply, page_reply};
ghost use Rattle.lake_model.specs.Readings.{repositories_reply, resolve_reply, versions_reply};
ghost use Rattle.lake_model.specs.Refusals.{Gives};
ghost use Rattle.core_readings.specs.Answers.{list_answer, log_answer, note_answer, page_answer};
ghost use Rattle.lake_core.specs.Lakes.{state, versions};

use crate::lake::Lake;
use commit_graph::RefExpr;
use core_standing::law_of_present;
use keeper::Keeper;
use lake_base::{Path, RefName, RepoName, Sequence, Text};
use lake_model::{Point, RepoInfo, Seen, StepFault, Versions};
use lake_pages::{Page, PageQuery};
use lake_values::{CommitId, CommitRecord, Note, NoteName};

impl<K: Keeper> Lake<K> {
    /// What an expression leads to: its name as a branch, else a tag, else the id of a commit, and from there its
    /// moves. NoRepo, NoRef, NoParent.
    pub fn resolve(&self, repo: &RepoName, e: &RefExpr) -> Result<Point, StepFault>
        ensures { Gives result (resolve_reply (state self.now) repo.now e.now) }
    {
        law_of_present();
        core_readings::resolve(self.alloc, &self.present, repo, e)
    }

    /// What stands at a path: on a plain branch what is read on it now, else the commit's entry; and whether its object
    /// is gone for good. NoRepo, NoRef, NoParent.
    pub fn look(&self, repo: &RepoName, e: &RefExpr, path: &Path) -> Result<Seen, StepFault>
        ensures { Gives result (look_reply (state self.now) repo.now e.now path.now) }
    {
        law_of_present();
        core_readings::look(self.alloc, &self.present, repo, e, path)
    }

    /// Where the history stands, and a page of what an expression leads to. NoRepo, NoRef, NoParent.
    pub fn page(
        &self,
        repo: &RepoName,
        e: &RefExpr,
        query: &PageQuery,
    ) -> Result<(u64, Page), StepFault>
        ensures { Gives (page_answer result) (page_reply (state self.now) repo.now e.now query.now) }
    {
        law_of_present();
        core_readings::page(self.alloc, &self.present, repo, e, query)
    }

    /// Where the history stands, the ancestors of the commit of an expression that are dated at or after a moment and
    /// come after another commit, so many, and whether one is left. NoRepo; NoRef, also where the other commit isn't
    /// there; NoParent.
    pub fn log(
        &self,
        repo: &RepoName,
        e: &RefExpr,
        after: Option<&CommitId>,
        since: Option<u64>,
        amount: usize,
    ) -> Result<(u64, Sequence<(CommitId, CommitRecord)>, bool), StepFault>
        ensures { Gives (log_answer result)
            (log_reply (state self.now) repo.now e.now (option_copied after.entry) since amount) }
    {
        law_of_present();
        core_readings::log(self.alloc, &self.present, repo, e, after, since, amount)
    }

    /// Where the history stands, the repositories whose names are above some bytes, so many, and whether one is left.
    pub fn repos(
        &self,
        after: &Text,
        amount: usize,
    ) -> Result<(u64, Sequence<RepoInfo>, bool), StepFault>
        ensures { Gives (list_answer result) (repositories_reply (state self.now) after.now amount) }
    {
        core_readings::repositories(self.alloc, &self.present, after, amount)
    }

    /// Where the history stands, the branches of a repository with their heads, or its tags with their commits, whose
    /// names are above some bytes, so many, and whether one is left. NoRepo.
    pub fn names(
        &self,
        repo: &RepoName,
        tags: bool,
        after: &Text,
        amount: usize,
    ) -> Result<(u64, Sequence<(RefName, CommitId)>, bool), StepFault>
        ensures { Gives (list_answer result) (names_reply (state self.now) repo.now tags after.now amount) }
    {
        core_readings::names(self.alloc, &self.present, repo, tags, after, amount)
    }

    /// Where the history stands, and the head of a branch or the commit of a tag. NoRepo, NoRef. It takes no memory.
    pub fn find(
        &self,
        repo: &RepoName,
        tags: bool,
        name: &RefName,
    ) -> Result<(u64, CommitId), StepFault>
        ensures { result ≡ find_reply (state self.now) repo.now tags name.now }
    {
        core_readings::find(&self.present, repo, tags, name)
    }

    /// Where the history stands, the version of a repository's settings, and one of them. NoRepo, NoNote.
    pub fn note(&self, repo: &RepoName, name: NoteName) -> Result<(u64, u64, Note), StepFault>
        ensures { Gives (note_answer result) (note_reply (state self.now) (versions self.now) repo.now name) }
    {
        core_readings::note(self.alloc, &self.present, repo, name)
    }

    /// The versions of a branch and of its repository's settings. NoRepo, NoRef. It takes no memory.
    pub fn versions(&self, repo: &RepoName, branch: &RefName) -> Result<Versions, StepFault>
        ensures { result ≡ versions_reply (state self.now) (versions self.now) repo.now branch.now }
    {
        core_readings::versions(&self.present, repo, branch)
    }
}
