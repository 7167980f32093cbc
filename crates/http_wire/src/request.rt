//! Requests are read.
ghost use Rattle.std.specs.Prelude.{◌≡◌, ◌≤◌, [], IfOk, IfSome, MatchOption, All, length, map, take, true};
ghost use Rattle.std.specs.Str.{is_utf8};
ghost use Rattle.httparse.specs.Spans.{IsHeaderWithin, header_bytes};
ghost use Rattle.http_wire.specs.Filling.{HasReadCause};
ghost use Rattle.httparse.specs.Grammar.{RequestHead};
ghost use Rattle.http_wire.specs.Messages.{IsRequestHeadOf, IsRequestAnswer, request_of};
ghost use Rattle.http_wire.specs.HeadSearch.{IsHeadAnswer, head_length};
ghost use Rattle.http_wire.specs.Parsing.{IsRequestParse, IsFoundRequest, IsFoundAt, IsFrontRequest, HasTextName};
ghost use Rattle.http_wire.specs.Parsing.{field_of_bytes};

use crate::body::read_body;
use crate::buffer::Buffer;
use crate::fault::WireFault;
use crate::fields::{body_length, closes};
use crate::heads::{read_head, read_some};
use crate::message::{Field, Request};
use httparse::Status;
use httparse::spans::{EMPTY_HEADER_SPAN, HeaderSpan, RequestSpans, parse_request};
use lake_base::{NoMemory, Sequence, Source, Text};
use std::alloc::Global;

/// How many fields a head has at most.
pub(crate) const FIELD_LIMIT: usize = 64;

// How many fields a small head has at most.
const FEW_FIELDS: usize = 16;

// How many bytes the body of a request has at most.
const BODY_LIMIT: u64 = 67_108_864;

/// Reads the request at the front of the bytes read ahead and those of the source. Bytes behind it stay in the buffer.
pub fn read_request<S: Source>(
    alloc: Global,
    source: &mut S,
    buffer: &mut Buffer,
) -> Result<Request, WireFault>
    ensures read { IfSome (S.left source.old)
        (λ left. IsRequestAnswer buffer.old left result buffer.new (S.left source.new)) }
    ensures cause { HasReadCause (S.faults source.old) (S.faults source.new) result }
{
    let mut spans = [EMPTY_HEADER_SPAN; FEW_FIELDS];
    let (head, found) = match read_front(source, buffer, &mut spans) {
        Ok(read) => read,
        Err(fault) => return Err(fault),
    };
    let (front, _) = buffer.held().split_at(head);
    let (mut request, size) = match request_head(alloc, front, found, &spans) {
        Ok(parsed) => parsed,
        Err(fault) => return Err(fault),
    };
    buffer.skip(head);
    match read_body(alloc, source, buffer, head, size) {
        Ok(body) => {
            request.body = Sequence::of(body);
            Ok(request)
        }
        Err(fault) => Err(fault),
    }
}

// Reads until a head stands whole at the front of the bytes that are held, and answers how many bytes it has, and where
// its parts stand if that is known: where it came by one read, without empty lines before it, with few fields.
fn read_front<S: Source>(
    source: &mut S,
    buffer: &mut Buffer,
    spans: &mut [HeaderSpan],
) -> Result<(usize, Option<RequestSpans>), WireFault>
    requires { length spans.old ≤ 64 }
    ensures read { IfSome (S.left source.old)
        (λ left. IsHeadAnswer buffer.old left buffer.new (S.left source.new) (head_length result)) }
    ensures within { IfOk result (λ read. read.0 ≤ length buffer.new) }
    ensures found { IfOk result (λ read. IfSome read.1 (IsFoundAt (take read.0 buffer.new) spans.new)) }
    ensures cause { HasReadCause (S.faults source.old) (S.faults source.new) result }
{
    match read_some(source, buffer) {
        Ok(()) => {}
        Err(fault) => return Err(fault),
    }
    if let Some(found) = front_request(buffer.held(), spans) {
        return Ok((found.len, Some(found)));
    }
    match read_head(source, buffer) {
        Ok(head) => Ok((head, None)),
        Err(fault) => Err(fault),
    }
}

// Where the parts of a head at the front stand, if it is whole there, without empty lines before it.
fn front_request(held: &[u8], spans: &mut [HeaderSpan]) -> Option<RequestSpans>
    requires { length spans.old ≤ 64 }
    ensures { IfSome result (IsFrontRequest held.now spans.new) }
{
    match parse_request(held, spans) {
        Ok(Status::Complete(found)) => {
            if found.method.start == 0 {
                Some(found)
            } else {
                None
            }
        }
        Ok(Status::Partial) => None,
        Err(_) => None,
    }
}

// The request of a whole head, without its body, and the body's length. It may be known where the head's parts stand.
fn request_head(
    alloc: Global,
    head: &[u8],
    found: Option<RequestSpans>,
    spans: &[HeaderSpan],
) -> Result<(Request, u64), WireFault>
    requires { IfSome found (IsFoundAt head.now spans.now) }
    ensures { IsRequestParse head.now result }
{
    match found {
        Some(found) => {
            let (headers, _) = spans.split_at(found.headers);
            request_parts(alloc, head, found, headers)
        }
        None => searched_head(alloc, head),
    }
}

// The same, where it isn't known.
fn searched_head(alloc: Global, head: &[u8]) -> Result<(Request, u64), WireFault>
    ensures { IsRequestParse head.now result }
{
    let mut spans = [EMPTY_HEADER_SPAN; FIELD_LIMIT];
    match find_request(head, &mut spans) {
        Some(found) => {
            let (headers, _) = spans.split_at(found.headers);
            request_parts(alloc, head, found, headers)
        }
        None => Err(WireFault::BadHead),
    }
}

// The request of a whole head whose parts stand there, without its body, and the body's length.
fn request_parts(
    alloc: Global,
    head: &[u8],
    found: RequestSpans,
    headers: &[HeaderSpan],
) -> Result<(Request, u64), WireFault>
    requires { (h : RequestHead) × IsFoundRequest head.now headers.now found h }
    ensures { IsRequestParse head.now result }
{
    match request_at(alloc, head, found, headers) {
        Ok(request) => match body_length(Some(BODY_LIMIT), request.fields.as_slice()) {
            Ok(size) => Ok((request, size)),
            Err(fault) => Err(fault),
        },
        Err(_) => Err(WireFault::NoMemory),
    }
}

// Where the parts stand, where the bytes are one whole head.
fn find_request(head: &[u8], spans: &mut [HeaderSpan]) -> Option<RequestSpans>
    requires { length spans.old ≡ 64 }
    ensures { MatchOption result ((h : RequestHead) → ¬ (IsRequestHeadOf head.now h))
        (λ found. (found.headers ≤ 64)
        × ((h : RequestHead) × IsFoundRequest head.now (take found.headers spans.new) found h)) }
{
    match parse_request(head, spans) {
        Ok(Status::Complete(found)) => {
            if found.len == head.len() {
                Some(found)
            } else {
                None
            }
        }
        Ok(Status::Partial) => None,
        Err(_) => None,
    }
}

// The request whose parts stand there, without its body.
fn request_at(
    alloc: Global,
    head: &[u8],
    found: RequestSpans,
    headers: &[HeaderSpan],
) -> Result<Request, NoMemory>
    requires { (h : RequestHead) × IsFoundRequest head.now headers.now found h }
    ensures { (h : RequestHead) → IsFoundRequest head.now headers.now found h
        → IfOk result (λ request. request ≡ request_of h []) }
{
    let fields = field_list(alloc, head, headers)?;
    let close = closes(found.version, &fields);
    Ok(Request {
        method: text_of(alloc, found.method.of(head))?,
        target: Sequence::of(Vec::from_slice(alloc, found.path.of(head))?),
        fields: Sequence::of(fields),
        body: Sequence::of(Vec::new(alloc)),
        close,
    })
}

// The fields at these places of a head.
pub(crate) fn field_list(
    alloc: Global,
    head: &[u8],
    headers: &[HeaderSpan],
) -> Result<Vec<Field>, NoMemory>
    requires within { All (IsHeaderWithin (length head.now)) headers.now }
    requires names { All (HasTextName head.now) headers.now }
    ensures { IfOk result (λ fields. fields.items ≡ map field_of_bytes (map (header_bytes head.now) headers.now)) }
{
    let mut fields = Vec::with_capacity(alloc, headers.len())?;
    for header in headers {
        fields.push(Field {
            name: text_of(alloc, header.name.of(head))?,
            value: Sequence::of(Vec::from_slice(alloc, header.value.of(head))?),
        })?;
    }
    Ok(fields)
}

// The text of bytes that are UTF-8.
pub(crate) fn text_of(alloc: Global, bytes: &[u8]) -> Result<Text, NoMemory>
    requires { is_utf8 bytes.now ≡ true }
    ensures { IfOk result (λ text. text ≡ bytes.now) }
{
    let bytes = Vec::from_slice(alloc, bytes)?;
    Ok(Text::of(unsafe { String::from_utf8_unchecked(bytes) }))
}
