//! How the reading of a batch ends.

/// What stops a batch within its lines.
#[derive(Clone, Copy, Debug, PartialEq, Eq)]
pub enum Stop {
    /// The sink failed.
    SinkFailed,
    /// What serves the lines failed.
    HostFailed,
}

/// How the reading of a batch ended.
#[derive(Clone, Copy, Debug, PartialEq, Eq)]
pub enum End {
    /// The source ended, within the limit.
    Source,
    /// The source gave more than the limit.
    TooLong,
    /// The source failed.
    SourceFailed,
    /// The sink failed.
    SinkFailed,
    /// What serves the lines failed.
    HostFailed,
}
