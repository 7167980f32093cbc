//! What the fields of a head say of the message.
ghost use Rattle.std.specs.Prelude.{◌≡◌, [], if◌then◌else◌, codes, reverse, true};
ghost use Rattle.httparse.specs.Grammar.{skip_ows, trim_ows};
ghost use Rattle.std.specs.Char.{is_ascii_digit};
ghost use Rattle.std.specs.List.{list_any, list_all};
ghost use Rattle.std.specs.Str.{is_utf8};
ghost use Rattle.std.specs.Str.Parse.{digits_value};
ghost use Rattle.http_wire.specs.MessageFields.{is_named, is_close, asks_close, is_closing, closes};
ghost use Rattle.http_wire.specs.MessageFields.{stated_number, stated_length};
ghost use Rattle.http_wire.specs.MessageFields.{is_length, length_within};
ghost use Rattle.http_wire.specs.MessageFields.{values_of, body_length};
ghost use Rattle.http_wire.specs.Messages.{first_text};

use crate::fault::WireFault;
use crate::message::Field;
use httparse::is_space_or_tab;
use lake_base::is_utf8;

impl Field {
    /// Whether the field has the name, its letters in any case.
    pub fn is_named(&self, name: &[u8]) -> bool
        ensures { result ≡ is_named name.now self.now }
    {
        self.name.as_slice().eq_ignore_ascii_case(name)
    }
}

// The bytes without the blanks at the front.
fn trim_start(mut bytes: &[u8]) -> &[u8]
    ensures { result.now ≡ skip_ows bytes.now }
{
    while let [first, rest @ ..] = bytes
        && is_space_or_tab(*first)
    {
        bytes = rest;
    }
    bytes
}

// The bytes without the blanks at the end.
fn trim_end(mut bytes: &[u8]) -> &[u8]
    ensures { result.now ≡ reverse (skip_ows (reverse bytes.now)) }
{
    while let [rest @ .., last] = bytes
        && is_space_or_tab(*last)
    {
        bytes = rest;
    }
    bytes
}

// The bytes without the blanks around them.
fn trim(bytes: &[u8]) -> &[u8]
    ensures { result.now ≡ trim_ows bytes.now }
{
    trim_end(trim_start(bytes))
}

// Whether the word is `close`, its letters in any case, the blanks around it dropped.
fn is_close(word: &[u8]) -> bool
    ensures { result ≡ is_close word.now }
{
    let word = trim(word);
    word.eq_ignore_ascii_case(b"close")
}

// Whether a value has the member `close`.
fn asks_close(value: &[u8]) -> bool
    ensures { result ≡ asks_close value.now }
{
    value.split(|byte| *byte == b',').any(is_close)
}

// Whether a field asks for the connection's end.
fn is_closing(field: &Field) -> bool
    ensures { result ≡ is_closing field.now }
{
    field.is_named(b"connection") && asks_close(field.value.as_slice())
}

// Whether one of them does.
fn has_closing(fields: &[Field]) -> bool
    ensures { result ≡ list_any is_closing fields.now }
{
    fields.iter().any(|field| is_closing(field))
}

/// Whether the sender closes the connection behind a message of HTTP/1.`minor`.
pub(crate) fn closes(minor: u8, fields: &[Field]) -> bool
    ensures { result ≡ closes minor fields.now }
{
    minor == 0 || has_closing(fields)
}

// Whether all bytes are digits.
fn are_digits(bytes: &[u8]) -> bool
    ensures { result ≡ list_all is_ascii_digit bytes.now }
{
    bytes.iter().all(|byte| byte.is_ascii_digit())
}

// The number of 1 to 19 digits.
fn number_of(digits: &[u8]) -> u64
    requires { is_length digits.now ≡ true }
    ensures { result ≡ digits_value 10 digits.now }
{
    let mut number: u64 = 0;
    for digit in digits {
        number = number * 10 + u64::from(*digit - b'0');
    }
    number
}

// The number of a length, where the value is one.
fn stated_number(value: &[u8]) -> Option<u64>
    ensures { result ≡ stated_number value.now }
{
    if value.is_empty() || value.len() > 19 || !are_digits(value) {
        return None;
    }
    Some(number_of(value))
}

// Whether a Content-Length field stands among these.
fn has_length(fields: &[Field]) -> bool
    ensures { result ≡ list_any (is_named (codes "content-length")) fields.now }
{
    fields.iter().any(|field| field.is_named(b"content-length"))
}

// The length that all Content-Length fields state: 0 without one, and none where there are two.
fn stated_length(fields: &[Field]) -> Option<u64>
    ensures { result ≡ stated_length (values_of (codes "content-length") fields.now) }
{
    for at in 0..fields.len() {
        let field = &fields[at];
        if field.is_named(b"content-length") {
            let (_, behind) = fields.split_at(at + 1);
            if has_length(behind) {
                return None;
            }
            return stated_number(field.value.as_slice());
        }
    }
    Some(0)
}

/// The value of the first field of this name, where there is one and it is UTF-8; else it is empty.
pub(crate) fn first_text<'a>(name: &[u8], fields: &'a [Field]) -> &'a [u8]
    ensures first { result.now ≡ first_text (values_of name.now fields.now) }
    ensures text { is_utf8 result.now ≡ true }
{
    for at in 0..fields.len() {
        let field = &fields[at];
        if field.is_named(name) {
            return text_or_empty(field.value.as_slice());
        }
    }
    b""
}

// The bytes where they are UTF-8, else none.
fn text_or_empty(bytes: &[u8]) -> &[u8]
    ensures same { result.now ≡ (if is_utf8 bytes.now then bytes.now else []) }
    ensures text { is_utf8 result.now ≡ true }
{
    if is_utf8(bytes) { bytes } else { b"" }
}

// Whether the body comes in a coding.
fn is_coded(fields: &[Field]) -> bool
    ensures { result ≡ list_any (is_named (codes "transfer-encoding")) fields.now }
{
    fields
        .iter()
        .any(|field| field.is_named(b"transfer-encoding"))
}

// The length of the body by the stated one, or its fault.
fn length_within(limit: Option<u64>, stated: Option<u64>) -> Result<u64, WireFault>
    ensures { result ≡ length_within limit stated }
{
    match stated {
        None => Err(WireFault::BadLength),
        Some(size) => match limit {
            Some(most) if size > most => Err(WireFault::BodyTooLong(size)),
            _ => Ok(size),
        },
    }
}

/// The length of the body behind these fields, of at most `limit` bytes, or the first fault.
pub(crate) fn body_length(limit: Option<u64>, fields: &[Field]) -> Result<u64, WireFault>
    ensures { result ≡ body_length limit fields.now }
{
    if is_coded(fields) {
        return Err(WireFault::Chunked);
    }
    length_within(limit, stated_length(fields))
}
