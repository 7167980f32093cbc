//! Bodies as JSON.
ghost use Rattle.std.specs.Prelude.{◌≡◌, ◌++◌, ◌∷◌, true, false, map, IfOk, OnOk, MatchOption, option_map};
ghost use Rattle.std.specs.Str.{is_utf8};
ghost use Rattle.std.specs.Fmt.{decimal};
ghost use Rattle.serde_json.specs.Data.{Data};
ghost use Rattle.serde_json.specs.Read.{read};
ghost use Rattle.serde_json.specs.View.{view};
ghost use Rattle.lakectl_shown.specs.ShownForms.{json_of, is_word, is_content};
ghost use Rattle.lakectl_shown.specs.ShownForms.{has_key, piece_bytes, key_seen, piece_seen};
ghost use Rattle.lakectl_shown.specs.ShownReplies.{is_of, text_as, shown_as, object_text};

use crate::form::{Content, Form, Key, Piece};
use crate::tables::{keys, pieces};
use lake_base::NoMemory;
use serde_json::Value;
use std::alloc::Global;

// The bytes as text.
fn utf8(bytes: &[u8]) -> Option<&str>
    ensures { MatchOption result (is_utf8 bytes.now ≡ false)
        (λ text. (text.now ≡ bytes.now) × (is_utf8 bytes.now ≡ true)) }
{
    match str::from_utf8(bytes) {
        Ok(text) => Some(text),
        Err(_) => None,
    }
}

// The value of a text of JSON.
fn json_text(alloc: Global, text: &str) -> Result<Option<Value>, NoMemory>
    ensures { IfOk result (λ value. option_map view value ≡ read text.now) }
{
    match Value::from_str(alloc, text) {
        Ok(value) => Ok(Some(value)),
        Err(error) if error.is_memory() => Err(NoMemory),
        Err(_) => Ok(None),
    }
}

/// The value of a body, where it is JSON.
pub(crate) fn json_of(alloc: Global, body: &[u8]) -> Result<Option<Value>, NoMemory>
    ensures { IfOk result (λ value. option_map view value ≡ json_of body.now) }
{
    match utf8(body) {
        Some(text) => json_text(alloc, text),
        None => Ok(None),
    }
}

// Whether the value is this text.
fn is_word(value: &Value, word: &str) -> bool
    ensures { result ≡ is_word word.now (view value.now) }
{
    match value.as_str() {
        Some(text) => text == word,
        None => false,
    }
}

// Whether the value is of this kind.
fn is_content(value: &Value, content: Content) -> bool
    ensures { result ≡ is_content content (view value.now) }
{
    match content {
        Content::Text => value.as_str().is_some(),
        Content::Whole => value.as_u64().is_some(),
        Content::Truth => value.as_bool().is_some(),
        Content::Object => value.as_object().is_some(),
        Content::List => value.as_array().is_some(),
        Content::ObjectWord => is_word(value, "object"),
        Content::PrefixWord => is_word(value, "common_prefix"),
    }
}

// Whether the object has this key, with a value of its kind.
fn has_key(value: &Value, key: &Key) -> bool
    ensures { result ≡ has_key (view value.now) (key_seen key.now) }
{
    match value.get(key.name) {
        Some(content) => is_content(content, key.content),
        None => false,
    }
}

/// Whether the object has all keys of the form.
pub(crate) fn is_of(value: &Value, form: Form) -> bool
    ensures { result ≡ is_of form (view value.now) }
{
    for key in keys(form) {
        if !has_key(value, key) {
            return false;
        }
    }
    true
}

// The bytes behind others.
fn push_bytes(out: &mut Vec<u8>, bytes: &[u8]) -> Result<(), NoMemory>
    ensures { OnOk result (out.new.items ≡ out.old.items ++ bytes.now) }
{
    Ok(out.extend_from_slice(bytes)?)
}

// The digits of a number behind others.
fn push_number(alloc: Global, out: &mut Vec<u8>, number: u64) -> Result<(), NoMemory>
    ensures { OnOk result (out.new.items ≡ out.old.items ++ decimal number) }
{
    let digits = number.to_string(alloc)?;
    push_bytes(out, digits.as_bytes())
}

// A piece of what is shown behind others.
fn push_piece(
    alloc: Global,
    out: &mut Vec<u8>,
    value: &Value,
    piece: &Piece,
) -> Result<(), NoMemory>
    ensures { OnOk result (out.new.items ≡ out.old.items ++ piece_bytes (view value.now) (piece_seen piece.now)) }
{
    match piece {
        Piece::Words(words) => push_bytes(out, words.as_bytes()),
        Piece::Text(name) => match value.get(*name).and_then(Value::as_str) {
            Some(text) => push_bytes(out, text.as_bytes()),
            None => Ok(()),
        },
        Piece::Number(name) => match value.get(*name).and_then(Value::as_u64) {
            Some(number) => push_number(alloc, out, number),
            None => Ok(()),
        },
    }
}

/// What is shown of an object of the form.
pub(crate) fn text_as(alloc: Global, value: &Value, form: Form) -> Result<Vec<u8>, NoMemory>
    ensures { IfOk result (λ text. text.items ≡ text_as form (view value.now)) }
{
    let mut out = Vec::new(alloc);
    for piece in pieces(form) {
        push_piece(alloc, &mut out, value, piece)?;
    }
    Ok(out)
}

/// The same, where the value is of the form.
pub(crate) fn shown_as(
    alloc: Global,
    value: &Value,
    form: Form,
) -> Result<Option<Vec<u8>>, NoMemory>
    ensures { IfOk result (λ text. option_map (λ bytes. bytes.items) text ≡ shown_as form (view value.now)) }
{
    if !is_of(value, form) {
        return Ok(None);
    }
    Ok(Some(text_as(alloc, value, form)?))
}

/// The same of a body.
pub(crate) fn object_text(
    alloc: Global,
    body: &[u8],
    form: Form,
) -> Result<Option<Vec<u8>>, NoMemory>
    ensures { IfOk result (λ text. option_map (λ bytes. bytes.items) text ≡ object_text form body.now) }
{
    match json_of(alloc, body)? {
        Some(value) => shown_as(alloc, &value, form),
        None => Ok(None),
    }
}
