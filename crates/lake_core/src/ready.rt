//! What a change has ready before it is kept.

use core_changes::founding::NewRepository;
use keeper::Put;
use lake_base::RepoName;
use lake_model::Operation;
use lake_values::Entry;

// What a change takes of memory: its operation, and the puts by which it is kept.
#[derive(Debug, Drop)]
pub(crate) struct Ready {
    pub(crate) operation: Operation,
    pub(crate) puts: Vec<Put>,
}

// What a copy takes: its operation, its puts, and its entry twice, for the lake and for the answer.
#[derive(Debug, Drop)]
pub(crate) struct ReadyCopy {
    pub(crate) operation: Operation,
    pub(crate) puts: Vec<Put>,
    pub(crate) entry: Entry,
    pub(crate) answer: Entry,
}

// What it takes as it is tested: all but its puts.
#[derive(Debug, Drop)]
pub(crate) struct TestedCopy {
    pub(crate) operation: Operation,
    pub(crate) entry: Entry,
    pub(crate) answer: Entry,
}

// What a new repository takes: its name, its operation, its puts, and what is put in the lake under the name.
#[derive(Debug, Drop)]
pub(crate) struct ReadyRepository {
    pub(crate) name: RepoName,
    pub(crate) operation: Operation,
    pub(crate) puts: Vec<Put>,
    pub(crate) new: NewRepository,
}
