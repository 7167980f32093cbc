//! What a session reports.

use http_wire::WireFault;
use lake_base::Sequence;

/// A request that was answered: its number in the session, from 1; the position of its reply in the history; and
/// whether the reply was written whole.
#[derive(Clone, Copy, Debug, PartialEq, Eq, Drop)]
pub struct Placed {
    pub call: u64,
    pub position: u64,
    pub written: bool,
}

/// How a session ended.
#[derive(Clone, Copy, Debug, PartialEq, Eq, Drop)]
pub enum End {
    /// The source ended where a request would begin.
    SourceEnded,
    /// A client wanted no further reply, and has that one.
    Closed,
    /// The source failed, and counted it.
    ReadFault,
    /// The sink failed, and counted it: of the reply then due a front was written.
    WriteFault,
    /// What came was no request, for this fault, of which its reply told, if it has one.
    Wire(WireFault),
    /// 10,000 requests were answered.
    RequestLimit,
    /// No memory was left for a request, which was told.
    NoMemory,
}

/// What a session reports: how many entries its seat had seen before it and after it, the requests that were answered,
/// in order, and how it ended.
#[derive(Debug, Drop)]
pub struct SessionReport {
    pub from: u64,
    pub to: u64,
    pub placed: Sequence<Placed>,
    pub end: End,
}
