//! What clients ask of repositories, branches and tags.

use crate::expression::Expression;
use lake_base::{RefName, RepoName, Text};
use lake_values::ResetWhat;
use std::marker::Model;

/// A list of names above some bytes is asked for: at most so many.
#[derive(Debug, Drop)]
pub struct NamesCall {
    pub repo: RepoName,
    pub after: Text,
    pub amount: usize,
}

/// A branch or a tag is asked for, or is to go.
#[derive(Debug, Drop)]
pub struct NameCall {
    pub repo: RepoName,
    pub name: RefName,
}

/// A branch or a tag is to be made at the commit of an expression. Its name isn't 64 lower-case hex digits.
#[derive(Debug, Drop)]
pub struct NewNameCall {
    pub repo: RepoName,
    pub name: RefName,
    pub source: Expression,
}

impl Model for NewNameCall {
    ghost use Rattle.std.specs.Prelude.{◌≡◌, false};
    ghost use Rattle.lake_base.specs.Names.{is_like_id};
    ghost use Rattle.lake_calls.specs.Calls.{NewNameCall as NewName};

    ghost Value = { NewName };

    ghost view = { λ c. record { repo = c.repo; name = c.name; source = c.source } };

    ghost invariant = { λ c. is_like_id c.name ≡ false };
}

/// A repository is to be made, with its default branch, whose name isn't 64 lower-case hex digits.
#[derive(Debug, Drop)]
pub struct NewRepositoryCall {
    pub name: RepoName,
    pub default_branch: RefName,
}

impl Model for NewRepositoryCall {
    ghost use Rattle.std.specs.Prelude.{◌≡◌, false};
    ghost use Rattle.lake_base.specs.Names.{is_like_id};
    ghost use Rattle.lake_calls.specs.Calls.{NewRepositoryCall as NewRepository};

    ghost Value = { NewRepository };

    ghost view = { λ c. record { name = c.name; default_branch = c.default_branch } };

    ghost invariant = { λ c. is_like_id c.default_branch ≡ false };
}

/// Changes of a branch that aren't committed are to go.
#[derive(Debug, Drop)]
pub struct ResetCall {
    pub repo: RepoName,
    pub branch: RefName,
    pub what: ResetWhat,
}

/// A call of repositories, branches or tags.
#[derive(Debug)]
pub enum NamingCall {
    ListRepositories { after: Text, amount: usize },
    CreateRepository(NewRepositoryCall),
    ListBranches(NamesCall),
    CreateBranch(NewNameCall),
    GetBranch(NameCall),
    DeleteBranch(NameCall),
    ResetBranch(ResetCall),
    ListTags(NamesCall),
    CreateTag(NewNameCall),
    GetTag(NameCall),
    DeleteTag(NameCall),
}

/// A call is let go part by part, written out: what is above proves it once, and not anew for each variant.
impl Drop for NamingCall {
    fn drop(self) {
        match self {
            NamingCall::ListRepositories {
                after: _,
                amount: _,
            } => {}
            NamingCall::CreateRepository(_) => {}
            NamingCall::ListBranches(_) => {}
            NamingCall::CreateBranch(_) => {}
            NamingCall::GetBranch(_) => {}
            NamingCall::DeleteBranch(_) => {}
            NamingCall::ResetBranch(_) => {}
            NamingCall::ListTags(_) => {}
            NamingCall::CreateTag(_) => {}
            NamingCall::GetTag(_) => {}
            NamingCall::DeleteTag(_) => {}
        }
    }
}
