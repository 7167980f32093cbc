//! A body as JSON, and the fields of an object.
ghost use Rattle.std.specs.Prelude.{◌≡◌, true, false, Ok, MatchOption, option_map};
ghost use Rattle.std.specs.Str.{is_utf8};
ghost use Rattle.serde_json.specs.View.{view};
ghost use Rattle.api_routes.specs.FormSteps.{IsRead};
ghost use Rattle.api_bodies.specs.Bodies.{json_text, json_of, object_of_body, short_text, text_field, needed_text};
ghost use Rattle.api_bodies.specs.Bodies.{whole_field, needed_whole};

use api_routes::{FormFault, bad_value, missing};
use lake_base::Text;
use lake_calls::FormRefusal;
use serde_json::Value;
use std::alloc::Global;

/// A text of these bytes.
pub fn text_of(alloc: Global, text: &str) -> Result<Text, FormFault>
    ensures { IsRead (λ t. t) result (Ok text.now) }
{
    Ok(Text::of(String::from_str(alloc, text)?))
}

// The bytes as text.
fn utf8(bytes: &[u8]) -> Option<&str>
    ensures { MatchOption result (is_utf8 bytes.now ≡ false)
        (λ text. (text.now ≡ bytes.now) × (is_utf8 bytes.now ≡ true)) }
{
    match str::from_utf8(bytes) {
        Ok(text) => Some(text),
        Err(_) => None,
    }
}

// The value of a text of JSON.
fn json_text(alloc: Global, text: &str) -> Result<Value, FormFault>
    ensures { IsRead view result (json_text text.now) }
{
    match Value::from_str(alloc, text) {
        Ok(value) => Ok(value),
        Err(error) if error.is_memory() => Err(FormFault::NoMemory),
        Err(_) => Err(FormFault::Refused(FormRefusal::BadBody)),
    }
}

/// The value of a body; else a bad body.
pub fn json_body(alloc: Global, body: &[u8]) -> Result<Value, FormFault>
    ensures { IsRead view result (json_of body.now) }
{
    match utf8(body) {
        Some(text) => json_text(alloc, text),
        None => Err(FormFault::Refused(FormRefusal::BadBody)),
    }
}

/// The object that a body is; else a bad body.
pub fn object_body(alloc: Global, body: &[u8]) -> Result<Value, FormFault>
    ensures { IsRead view result (object_of_body body.now) }
{
    let value = json_body(alloc, body)?;
    if !value.is_object() {
        return Err(FormFault::Refused(FormRefusal::BadBody));
    }
    Ok(value)
}

/// The text of this field, where it is there; else a bad value.
pub fn text_field<'a>(
    alloc: Global,
    object: &'a Value,
    name: &str,
) -> Result<Option<&'a str>, FormFault>
    ensures { IsRead (λ text. option_map (λ t. t.now) text) result (text_field name.now (view object.now)) }
{
    match object.get(name) {
        None => Ok(None),
        Some(value) => match value.as_str() {
            Some(text) => Ok(Some(text)),
            None => Err(bad_value(alloc, name)),
        },
    }
}

/// The text of this field; it is missing, or a bad value.
pub fn needed_text<'a>(alloc: Global, object: &'a Value, name: &str) -> Result<&'a str, FormFault>
    ensures { IsRead (λ text. text.now) result (needed_text name.now (view object.now)) }
{
    match text_field(alloc, object, name)? {
        Some(text) => Ok(text),
        None => Err(missing(alloc, name)),
    }
}

/// The whole number of 64 bits of this field, where it is there; else a bad value.
pub fn whole_field(alloc: Global, object: &Value, name: &str) -> Result<Option<u64>, FormFault>
    ensures { IsRead (λ number. number) result (whole_field name.now (view object.now)) }
{
    match object.get(name) {
        None => Ok(None),
        Some(value) => match value.as_u64() {
            Some(number) => Ok(Some(number)),
            None => Err(bad_value(alloc, name)),
        },
    }
}

/// The whole number of 64 bits of this field; it is missing, or a bad value.
pub fn needed_whole(alloc: Global, object: &Value, name: &str) -> Result<u64, FormFault>
    ensures { IsRead (λ number. number) result (needed_whole name.now (view object.now)) }
{
    match whole_field(alloc, object, name)? {
        Some(number) => Ok(number),
        None => Err(missing(alloc, name)),
    }
}

/// The text of this field of at most so many bytes, where it is there; else a bad value.
pub fn short_text<'a>(
    alloc: Global,
    object: &'a Value,
    name: &str,
    most: usize,
) -> Result<Option<&'a str>, FormFault>
    ensures { IsRead (λ text. option_map (λ t. t.now) text) result (short_text name.now most (view object.now)) }
{
    match text_field(alloc, object, name)? {
        None => Ok(None),
        Some(text) if text.len() <= most => Ok(Some(text)),
        Some(_) => Err(bad_value(alloc, name)),
    }
}
