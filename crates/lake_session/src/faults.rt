//! A message that isn't read ends its session.
ghost use Rattle.std.specs.Prelude.{◌≡◌, ◌≤◌, option_copied, option_map};
ghost use Rattle.http_wire.specs.ReplyText.{reply_text};
ghost use Rattle.lake_session.specs.SessionTexts.{reply_to_fault};
ghost use Rattle.lake_session.specs.FaultEnds.{EndsByFault, StarvesAtEnd};

use crate::report::End;
use http_wire::write::write_all;
use http_wire::{WireFault, write_no_memory};
use lake_base::Sink;

// The replies to messages that aren't read.
const BAD_HEAD: &[u8] =
    b"HTTP/1.1 400 Bad Request\r\nContent-Type: application/json\r\nContent-Length: 30\r\n\
Connection: close\r\n\r\n{\"message\":\"bad request head\"}";

const BAD_LENGTH: &[u8] =
    b"HTTP/1.1 400 Bad Request\r\nContent-Type: application/json\r\nContent-Length: 24\r\n\
Connection: close\r\n\r\n{\"message\":\"bad length\"}";

const HEAD_TOO_LONG: &[u8] =
    b"HTTP/1.1 431 Request Header Fields Too Large\r\nContent-Type: application/json\r\n\
Content-Length: 27\r\nConnection: close\r\n\r\n{\"message\":\"head too long\"}";

const BODY_TOO_LONG: &[u8] = b"HTTP/1.1 413 Content Too Large\r\nContent-Type: application/json\r\n\
Content-Length: 27\r\nConnection: close\r\n\r\n{\"message\":\"body too long\"}";

const CHUNKED: &[u8] =
    b"HTTP/1.1 501 Not Implemented\r\nContent-Type: application/json\r\nContent-Length: 41\r\n\
Connection: close\r\n\r\n{\"message\":\"chunked bodies are not read\"}";

/// Ends a session at a message that isn't read: a fault that has a reply is answered by it, and want of memory by its
/// own. It takes no memory.
pub(crate) fn end_by_fault<W: Sink>(sink: &mut W, fault: WireFault) -> End
    ensures ends { EndsByFault fault (W.written sink.old) (W.written sink.new) (W.faults sink.old) (W.faults sink.new)
        result }
    ensures later { W.faults sink.old ≤ W.faults sink.new }
{
    match fault {
        WireFault::Ended => End::SourceEnded,
        WireFault::ReadFault => End::ReadFault,
        WireFault::NoMemory => starve(sink),
        fault => match reply_bytes(fault) {
            None => End::Wire(fault),
            Some(bytes) => match write_all(sink, bytes) {
                Ok(()) => End::Wire(fault),
                Err(_) => End::WriteFault,
            },
        },
    }
}

// Ends a session for want of memory.
fn starve<W: Sink>(sink: &mut W) -> End
    ensures ends { StarvesAtEnd (W.written sink.old) (W.written sink.new) (W.faults sink.old) (W.faults sink.new)
        result }
    ensures later { W.faults sink.old ≤ W.faults sink.new }
{
    match write_no_memory(sink, true) {
        Ok(()) => End::NoMemory,
        Err(_) => End::WriteFault,
    }
}

// The bytes of the reply to a fault, where it has one.
fn reply_bytes(fault: WireFault) -> Option<&'static [u8]>
    ensures { option_copied result ≡ option_map reply_text (reply_to_fault fault) }
{
    match fault {
        WireFault::BadHead => Some(BAD_HEAD),
        WireFault::BadLength => Some(BAD_LENGTH),
        WireFault::HeadTooLong => Some(HEAD_TOO_LONG),
        WireFault::BodyTooLong(_) => Some(BODY_TOO_LONG),
        WireFault::Chunked => Some(CHUNKED),
        WireFault::Ended | WireFault::Truncated(_) | WireFault::ReadFault | WireFault::NoMemory => {
            None
        }
    }
}
