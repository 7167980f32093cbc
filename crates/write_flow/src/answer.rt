//! What a flow of objects tells, and why it is refused.
ghost use Rattle.std.specs.Prelude.{◌≡◌};
ghost use Rattle.write_flow.specs.FlowFaults.{fault_of_step};

use lake_base::{Digest, Text};
use lake_model::StepFault;
use lake_values::Entry;

/// A change was made, or an object was found: the place of the last entry of the call, or of a reading how many entries
/// the history had; and the entry that stands at the path, where one does.
#[derive(Debug, Drop)]
pub struct Done {
    pub at: u64,
    pub entry: Option<Entry>,
}

/// Why a flow was refused.
#[derive(Debug, Drop)]
pub enum FlowFault {
    /// As the step of the lake was, at which the flow stopped. It is neither that a version changed, nor that nothing
    /// stands at a path, nor that memory ran out.
    Step(StepFault),
    /// Each of ten tries found that what its reading had told wasn't so any more: by the branch's version, as the first
    /// and the last of them found it; or of a reading by the positions of its first and its last look.
    TooManyTries { first: u64, last: u64 },
    /// Nothing stands at the path.
    NoPath,
    /// The object of this number is gone for good.
    Gone(u64),
    /// The object stands outside, at this address.
    NotHeld(Text),
    /// The store of objects holds nothing under this number, though the object isn't gone.
    Lost(u64),
    /// The bytes that the store gave are others than those that were put: their SHA-256, and that of the entry.
    Damaged { named: Digest, found: Digest },
    /// The store of objects failed in this call.
    BlockFault,
    /// No memory was left.
    NoMemory,
}

impl FlowFault {
    /// The refusal of a step, as a flow answers it. It takes no memory.
    pub fn of_step(fault: StepFault) -> FlowFault
        ensures { result ≡ fault_of_step fault }
    {
        match fault {
            StepFault::NoPath => FlowFault::NoPath,
            StepFault::NoMemory => FlowFault::NoMemory,
            fault => FlowFault::Step(fault),
        }
    }
}
