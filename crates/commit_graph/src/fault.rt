//! Why bytes aren't the spelling of a commit, and why a commit can't join a graph.
ghost use Rattle.std.specs.Prelude.{◌≡◌};
ghost use Rattle.commit_graph.specs.CommitReading.{fault_of};
ghost use Rattle.commit_graph.specs.declared.fault.CommitFault.TheVariants.{NoMemory as commit_no_memory};
ghost use Rattle.commit_graph.specs.declared.fault.GraphFault.TheVariants.{NoMemory as graph_no_memory};

use lake_base::digest::Digest;
use lake_base::outside::NoMemory;
use lake_base::sequence::Sequence;
use lake_format::FieldFault;
use lake_values::commit::CommitId;
use std::alloc::AllocFailed;
use thiserror::Error;

/// Why bytes aren't the spelling of a commit: the first fault from the left.
#[derive(Clone, Copy, Debug, PartialEq, Eq, Error)]
pub enum CommitFault {
    /// The first byte is this, and not 1.
    #[error("version {0} is unknown")]
    Version(u8),
    /// The input, of so many bytes, ends inside a field.
    #[error("the input ends inside a field, after {0} bytes")]
    Truncated(usize),
    /// The innermost field that begins at this place, counted from 0, is outside its limits.
    #[error("the field at byte {0} is outside its limits")]
    Bad(usize),
    /// So many bytes follow the commit.
    #[error("{0} bytes follow the commit")]
    Trailing(usize),
    /// No memory was left.
    #[error("out of memory")]
    NoMemory,
}

impl From<NoMemory> for CommitFault {
    ghost from_gives = { λ _ e. e ≡ commit_no_memory };

    fn from(_: NoMemory) -> Self {
        CommitFault::NoMemory
    }
}

// What a field's fault is to an input of `len` bytes.
pub(crate) fn fault_of(fault: FieldFault, len: usize) -> CommitFault
    ensures { result ≡ fault_of len fault }
{
    match fault {
        FieldFault::Short { .. } => CommitFault::Truncated(len),
        FieldFault::Bad { left } => CommitFault::Bad(len.saturating_sub(left)),
        FieldFault::NoMemory => CommitFault::NoMemory,
    }
}

/// Why a commit can't join a graph: the first reason of these.
#[derive(Debug, Drop, Error)]
pub enum GraphFault {
    /// This parent, the first such, isn't there.
    #[error("a parent is missing")]
    NoParent(CommitId),
    /// The generation isn't the one due: 1 plus the greatest of its parents', and 1 without parents.
    #[error("generation {given} where {due} is due")]
    Generation {
        given: u64,
        due: u64,
    },
    /// A commit of this id is there that has other bytes.
    #[error("two commits have one id")]
    NameClash {
        name: Digest,
        kept: Sequence<u8>,
        new: Sequence<u8>,
    },
    /// No memory was left.
    #[error("out of memory")]
    NoMemory,
}

impl From<NoMemory> for GraphFault {
    ghost from_gives = { λ _ e. e ≡ graph_no_memory };

    fn from(_: NoMemory) -> Self {
        GraphFault::NoMemory
    }
}

impl<T: Drop> From<AllocFailed<T>> for GraphFault {
    ghost from_gives = { λ _ e. e ≡ graph_no_memory };

    fn from(_: AllocFailed<T>) -> Self {
        GraphFault::NoMemory
    }
}
