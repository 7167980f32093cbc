//! Why there is no draft of a new head.
ghost use Rattle.std.specs.Prelude.{◌≡◌};
ghost use Rattle.head_drafts.specs.Drafts.{conflict_fault};
ghost use Rattle.head_drafts.specs.declared.fault.DraftFault.TheVariants.{NoMemory as draft_no_memory};
ghost use Rattle.head_drafts.specs.declared.fault.HeadFault.TheVariants.{Draft, Step};

use key_merge::MergeFault;
use lake_base::NoMemory;
use lake_model::{HeadRefusal, StepFault};
use std::alloc::AllocFailed;
use thiserror::Error;

/// Why there is no draft.
#[derive(Debug, Drop, Error)]
pub enum DraftFault {
    /// The new head is refused: the first cause that holds.
    #[error("{0}")]
    Refused(HeadRefusal),
    /// No memory was left.
    #[error("out of memory")]
    NoMemory,
}

/// Why there is no draft of a branch's new head.
#[derive(Debug, Drop, Error)]
pub enum HeadFault {
    /// The lake refuses it.
    #[error("{0:?}")]
    Step(StepFault),
    /// There is no draft.
    #[error("{0}")]
    Draft(DraftFault),
}

impl From<NoMemory> for DraftFault {
    ghost from_gives = { λ _ e. e ≡ draft_no_memory };

    fn from(_: NoMemory) -> Self {
        DraftFault::NoMemory
    }
}

impl<T: Drop> From<AllocFailed<T>> for DraftFault {
    ghost from_gives = { λ _ e. e ≡ draft_no_memory };

    fn from(_: AllocFailed<T>) -> Self {
        DraftFault::NoMemory
    }
}

impl From<MergeFault> for DraftFault {
    ghost from_gives = { λ fault e. e ≡ conflict_fault fault };

    fn from(fault: MergeFault) -> Self {
        match fault {
            MergeFault::Conflicts { paths, total } => {
                DraftFault::Refused(HeadRefusal::Conflicts { paths, total })
            }
            MergeFault::NoMemory => DraftFault::NoMemory,
        }
    }
}

impl From<StepFault> for HeadFault {
    ghost from_gives = { λ fault e. e ≡ Step fault };

    fn from(fault: StepFault) -> Self {
        HeadFault::Step(fault)
    }
}

impl From<DraftFault> for HeadFault {
    ghost from_gives = { λ fault e. e ≡ Draft fault };

    fn from(fault: DraftFault) -> Self {
        HeadFault::Draft(fault)
    }
}
