//! How a run of the program ends.

/// How a run ended. The first that is met ends it, but a line that is refused or that finds no memory doesn't.
#[derive(Clone, Copy, Debug, PartialEq, Eq)]
pub enum ExitStatus {
    /// Each line was done, or passed over.
    Done,
    /// A line was refused, or the batch was too long.
    Refused,
    /// The program's words aren't its own.
    Usage,
    /// The source failed.
    SourceFailed,
    /// The sink failed, or `errors` where the words are a usage fault.
    SinkFailed,
    /// A file or the machine failed.
    HostFailed,
    /// The folder's pairs were refused.
    PairsRefused,
    /// Memory ran out, at a line or before the first was read.
    OutOfMemory,
}
