//! What the fields of a head say of a call. Of repeated fields the first counts, and names count in any case.
ghost use Rattle.std.specs.Prelude.{◌≡◌, ◌≤◌, length, option_map, IfOk};
ghost use Rattle.std.specs.List.{list_all};
ghost use Rattle.api_routes.specs.FormSteps.{IsRead};
ghost use Rattle.api_bodies.specs.HeadFields.{is_visible, is_committer, value_of, committer_of};
ghost use Rattle.api_bodies.specs.HeadFields.{short_text_of, content_type_of};

use api_routes::{FormFault, bad_value};
use http_wire::Field;
use lake_base::{NameFault, Text};
use std::alloc::Global;

// The value of the first field of this name.
fn value_of<'a>(fields: &'a [Field], name: &str) -> Option<&'a [u8]>
    ensures { option_map (λ value. value.now) result ≡ value_of name.now fields.now }
{
    let field = fields
        .iter()
        .find(|field| field.name.as_str().eq_ignore_ascii_case(name))?;
    Some(field.value.as_slice())
}

// Whether the byte is visible ASCII.
fn is_visible(byte: u8) -> bool
    ensures { result ≡ is_visible byte }
{
    byte >= 33 && byte <= 126
}

// Whether each byte is visible.
fn are_visible(bytes: &[u8]) -> bool
    ensures { result ≡ list_all is_visible bytes.now }
{
    bytes.iter().all(|byte| is_visible(*byte))
}

// Whether the bytes are a committer.
fn is_committer(bytes: &[u8]) -> bool
    ensures { result ≡ is_committer bytes.now }
{
    if bytes.is_empty() {
        return false;
    }
    if bytes.len() > 128 {
        return false;
    }
    are_visible(bytes)
}

/// The committer of a request.
#[tactic(auto, using(crate::proofs::LimitLemmas::committer_some, crate::proofs::LimitLemmas::committer_short))]
pub fn committer_of(alloc: Global, fields: &[Field]) -> Result<Text, FormFault>
    ensures committer { IsRead (λ text. text) result (committer_of fields.now) }
    ensures some { IfOk result (λ text. 1 ≤ length text) }
    ensures short { IfOk result (λ text. length text ≤ 128) }
{
    let Some(value) = value_of(fields, "Lake-User") else {
        return Ok(Text::of(String::from_str(alloc, "anonymous")?));
    };
    if !is_committer(value) {
        return Err(bad_value(alloc, "Lake-User"));
    }
    short_text(alloc, "Lake-User", value, 128)
}

// The text of these bytes, of at most so many; else a bad value of this name.
fn short_text(alloc: Global, name: &str, bytes: &[u8], most: usize) -> Result<Text, FormFault>
    ensures text { IsRead (λ text. text) result (short_text_of name.now most bytes.now) }
    ensures same { IfOk result (λ text. text ≡ bytes.now) }
    ensures short { IfOk result (λ text. length text ≤ most) }
{
    match Text::read(alloc, bytes, most) {
        Ok(text) => Ok(text),
        Err(NameFault::NoMemory) => Err(FormFault::NoMemory),
        Err(_) => Err(bad_value(alloc, name)),
    }
}

/// The content type of an upload.
pub fn content_type_of(alloc: Global, fields: &[Field]) -> Result<Text, FormFault>
    ensures content_type { IsRead (λ text. text) result (content_type_of fields.now) }
    ensures short { IfOk result (λ text. length text ≤ 255) }
{
    match value_of(fields, "Content-Type") {
        Some(value) => short_text(alloc, "Content-Type", value, 255),
        None => Ok(Text::of(String::from_str(alloc, "application/octet-stream")?)),
    }
}
