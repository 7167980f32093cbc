//! Why a flow of a new head is refused.
ghost use Rattle.std.specs.Prelude.{◌≡◌};
ghost use Rattle.commit_flow.specs.CommitFaults.{fault_of_step, fault_of_try};

use head_drafts::{DraftFault, HeadFault};
use lake_model::{HeadRefusal, StepFault};

/// Why a flow of a new head was refused.
#[derive(Debug, Drop)]
pub enum CommitFault {
    /// As the step of the lake was, at which the flow stopped. It is neither that a version changed, nor that memory
    /// ran out.
    Step(StepFault),
    /// Each of ten tries found that the branch or the settings had changed since its reading: by the branch's version,
    /// as the first and the last of them found it.
    TooManyTries { first: u64, last: u64 },
    /// The new head isn't worth making: nothing is changed, changes aren't committed, paths conflict, or a hook denies
    /// it.
    Head(HeadRefusal),
    /// The commit has no parent of this number, counted from 1.
    NoParent(u32),
    /// The commit has several parents, and no number was given.
    NeedsParentNumber,
    /// No memory was left.
    NoMemory,
}

impl CommitFault {
    // The refusal of a step, as a flow answers it.
    pub(crate) fn of_step(fault: StepFault) -> CommitFault
        ensures { result ≡ fault_of_step fault }
    {
        match fault {
            StepFault::NoMemory => CommitFault::NoMemory,
            fault => CommitFault::Step(fault),
        }
    }

    // The refusal of a try, as a flow answers it.
    pub(crate) fn of_try(fault: HeadFault) -> CommitFault
        ensures { result ≡ fault_of_try fault }
    {
        match fault {
            HeadFault::Step(fault) => CommitFault::of_step(fault),
            HeadFault::Draft(DraftFault::Refused(refusal)) => CommitFault::Head(refusal),
            HeadFault::Draft(DraftFault::NoMemory) => CommitFault::NoMemory,
        }
    }
}
