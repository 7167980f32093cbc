//! Replies are read.
ghost use Rattle.std.specs.Prelude.{◌≡◌, ◌≤◌, [], IfOk, IfSome, MatchOption, length, take};
ghost use Rattle.httparse.specs.Grammar.{ResponseHead, status_code};
ghost use Rattle.http_wire.specs.Filling.{HasReadCause};
ghost use Rattle.http_wire.specs.Messages.{IsReplyHeadOf, IsReplyAnswer, fields_of, reply_of};
ghost use Rattle.http_wire.specs.Parsing.{IsReplyParse, IsFoundReply};

use crate::body::read_body;
use crate::buffer::Buffer;
use crate::fault::WireFault;
use crate::fields::{body_length, closes, first_text};
use crate::heads::read_head;
use crate::message::{Field, Reply};
use crate::request::{FIELD_LIMIT, field_list, text_of};
use httparse::Status;
use httparse::spans::{EMPTY_HEADER_SPAN, HeaderSpan, ResponseSpans, parse_response};
use lake_base::{NoMemory, Sequence, Source};
use std::alloc::Global;

/// Reads the reply at the front of the bytes read ahead and those of the source. Bytes behind it stay in the buffer.
/// Its body may have any length.
pub fn read_reply<S: Source>(
    alloc: Global,
    source: &mut S,
    buffer: &mut Buffer,
) -> Result<Reply, WireFault>
    ensures read { IfSome (S.left source.old)
        (λ left. IsReplyAnswer buffer.old left result buffer.new (S.left source.new)) }
    ensures cause { HasReadCause (S.faults source.old) (S.faults source.new) result }
{
    let head = match read_head(source, buffer) {
        Ok(head) => head,
        Err(fault) => return Err(fault),
    };
    let (front, _) = buffer.held().split_at(head);
    let (mut reply, size) = match reply_head(alloc, front) {
        Ok(parsed) => parsed,
        Err(fault) => return Err(fault),
    };
    buffer.skip(head);
    match read_body(alloc, source, buffer, head, size) {
        Ok(body) => {
            reply.body = Sequence::of(body);
            Ok(reply)
        }
        Err(fault) => Err(fault),
    }
}

// The reply of a whole head, without its body, and the body's length.
fn reply_head(alloc: Global, head: &[u8]) -> Result<(Reply, u64), WireFault>
    ensures { IsReplyParse head.now result }
{
    let mut spans = [EMPTY_HEADER_SPAN; FIELD_LIMIT];
    let found = match find_reply(head, &mut spans) {
        Some(found) => found,
        None => return Err(WireFault::BadHead),
    };
    let (headers, _) = spans.split_at(found.headers);
    let fields = match field_list(alloc, head, headers) {
        Ok(fields) => fields,
        Err(_) => return Err(WireFault::NoMemory),
    };
    match reply_at(alloc, found, &fields) {
        Ok(reply) => match body_length(None, &fields) {
            Ok(size) => Ok((reply, size)),
            Err(fault) => Err(fault),
        },
        Err(_) => Err(WireFault::NoMemory),
    }
}

// Where the parts stand, where the bytes are one whole head.
fn find_reply(head: &[u8], spans: &mut [HeaderSpan]) -> Option<ResponseSpans>
    requires { length spans.old ≡ 64 }
    ensures { MatchOption result ((h : ResponseHead) → ¬ (IsReplyHeadOf head.now h))
        (λ found. (found.headers ≤ 64)
        × ((h : ResponseHead) × IsFoundReply head.now (take found.headers spans.new) found h)) }
{
    match parse_response(head, spans) {
        Ok(Status::Complete(found)) => {
            if found.len == head.len() {
                Some(found)
            } else {
                None
            }
        }
        Ok(Status::Partial) => None,
        Err(_) => None,
    }
}

// The reply of a head with these fields, without its body.
fn reply_at(alloc: Global, found: ResponseSpans, fields: &[Field]) -> Result<Reply, NoMemory>
    ensures { (h : ResponseHead) → found.version ≡ h.minor → found.code ≡ status_code h
        → fields.now ≡ fields_of h.fields → IfOk result (λ reply. reply ≡ reply_of h []) }
{
    let close = closes(found.version, fields);
    Ok(Reply {
        status: found.code,
        content_type: text_of(alloc, first_text(b"content-type", fields))?,
        body: Sequence::of(Vec::new(alloc)),
        close,
    })
}
