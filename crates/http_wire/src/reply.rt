//! Replies are written.
ghost use Rattle.std.specs.Prelude.{◌≡◌, [], if◌then◌else◌, codes, OnOk, OnErr};
ghost use Rattle.lake_base.specs.Outside.{HasCause};
ghost use Rattle.http_wire.specs.SinkFronts.{Wrote, WroteFront};
ghost use Rattle.http_wire.specs.ReplyText.{phrase, is_visible, is_sendable, sent_type, reply_text};
ghost use Rattle.http_wire.specs.ReplyText.{whole_text, no_memory_reply};
ghost use Rattle.std.specs.List.{list_all};

use crate::message::Reply;
use crate::parts::write_parts;
use crate::write::write_all;
use lake_base::{Failed, Sink};

// The reply of want of memory, and the same before the connection closes.
const NO_MEMORY: &[u8] =
    b"HTTP/1.1 507 Insufficient Storage\r\nContent-Type: application/json\r\nContent-Length: 27\r\n\r\n\
{\"message\":\"out of memory\"}";

const NO_MEMORY_CLOSE: &[u8] =
    b"HTTP/1.1 507 Insufficient Storage\r\nContent-Type: application/json\r\nContent-Length: 27\r\n\
Connection: close\r\n\r\n{\"message\":\"out of memory\"}";

/// Writes the reply of want of memory. It takes no memory.
pub fn write_no_memory<W: Sink>(sink: &mut W, close: bool) -> Result<(), Failed>
    ensures all { OnOk result (Wrote (W.written sink.old) (W.written sink.new) (reply_text (no_memory_reply close))) }
    ensures front { OnErr result
        (WroteFront (W.written sink.old) (W.written sink.new) (reply_text (no_memory_reply close))) }
    ensures cause { HasCause (W.faults sink.old) (W.faults sink.new) result }
{
    if close {
        write_all(sink, NO_MEMORY_CLOSE)
    } else {
        write_all(sink, NO_MEMORY)
    }
}

/// Writes a reply: the head and a short body by one write, a long body by one of its own. It takes no memory.
pub fn write_reply<W: Sink>(sink: &mut W, reply: &Reply) -> Result<(), Failed>
    ensures all { OnOk result (Wrote (W.written sink.old) (W.written sink.new) (reply_text reply.now)) }
    ensures front { OnErr result (WroteFront (W.written sink.old) (W.written sink.new) (reply_text reply.now)) }
    ensures cause { HasCause (W.faults sink.old) (W.faults sink.new) result }
{
    let closing = closing_line(reply.close);
    if reply.status == 204 {
        return write_parts(sink, &[b"HTTP/1.1 204 No Content\r\n", closing, b"\r\n"]);
    }
    let mut status = itoa::Buffer::new();
    let mut size = itoa::Buffer::new();
    let body = reply.body.as_slice();
    write_whole(
        sink,
        status.format(reply.status).as_bytes(),
        phrase(reply.status),
        sent_type(reply.content_type.as_str().as_bytes()),
        size.format(body.len()).as_bytes(),
        closing,
        body,
    )
}

// Writes a reply that has a body.
fn write_whole<W: Sink>(
    sink: &mut W,
    status: &[u8],
    phrase: &[u8],
    content_type: &[u8],
    size: &[u8],
    closing: &[u8],
    body: &[u8],
) -> Result<(), Failed>
    ensures all { OnOk result (Wrote (W.written sink.old) (W.written sink.new)
        (whole_text status.now phrase.now content_type.now size.now closing.now body.now)) }
    ensures front { OnErr result (WroteFront (W.written sink.old) (W.written sink.new)
        (whole_text status.now phrase.now content_type.now size.now closing.now body.now)) }
    ensures cause { HasCause (W.faults sink.old) (W.faults sink.new) result }
{
    write_parts(
        sink,
        &[
            b"HTTP/1.1 ",
            status,
            b" ",
            phrase,
            b"\r\nContent-Type: ",
            content_type,
            b"\r\nContent-Length: ",
            size,
            b"\r\n",
            closing,
            b"\r\n",
            body,
        ],
    )
}

// The field that tells of the connection's end, where it closes.
fn closing_line(close: bool) -> &'static [u8]
    ensures { result.now ≡ (if close then codes "Connection: close\r\n" else []) }
{
    if close { b"Connection: close\r\n" } else { b"" }
}

// The content type that is sent.
fn sent_type(text: &[u8]) -> &[u8]
    ensures { result.now ≡ sent_type text.now }
{
    if is_sendable(text) {
        text
    } else {
        b"application/octet-stream"
    }
}

// Whether a content type is sent as it is: visible ASCII and spaces.
fn is_sendable(text: &[u8]) -> bool
    ensures { result ≡ is_sendable text.now }
{
    !text.is_empty() && are_visible(text)
}

// Whether all bytes are visible ASCII or spaces.
fn are_visible(bytes: &[u8]) -> bool
    ensures { result ≡ list_all is_visible bytes.now }
{
    bytes.iter().all(|byte| is_visible(*byte))
}

// Whether a byte is one.
fn is_visible(byte: u8) -> bool
    ensures { result ≡ is_visible byte }
{
    byte >= 32 && byte <= 126
}

// The phrase of a status; one outside the table has none.
fn phrase(status: u16) -> &'static [u8]
    ensures { result.now ≡ phrase status }
{
    match status {
        200 => b"OK",
        201 => b"Created",
        204 => b"No Content",
        400 => b"Bad Request",
        403 => b"Forbidden",
        404 => b"Not Found",
        405 => b"Method Not Allowed",
        409 => b"Conflict",
        410 => b"Gone",
        412 => b"Precondition Failed",
        413 => b"Content Too Large",
        422 => b"Unprocessable Content",
        423 => b"Locked",
        431 => b"Request Header Fields Too Large",
        500 => b"Internal Server Error",
        501 => b"Not Implemented",
        503 => b"Service Unavailable",
        507 => b"Insufficient Storage",
        _ => b"",
    }
}
