//! What the program puts into a request: the host, and a file's bytes.
ghost use Rattle.std.specs.Prelude.{◌≡◌, map, IfOk};
ghost use Rattle.lakectl_words.specs.WireRequests.{with_value, addressed, carrying};

use crate::fields::{bytes_of, digits_of, text_of};
use http_wire::{Field, Request};
use lake_base::{NoMemory, Sequence, Text};
use std::alloc::Global;

// The field, with this value where it has the name.
fn with_value(alloc: Global, name: &str, value: &[u8], field: &Field) -> Result<Field, NoMemory>
    ensures { IfOk result (λ f. f ≡ with_value name.now value.now field.now) }
{
    let label = text_of(alloc, field.name.as_str())?;
    if field.name.as_str() == name {
        return Ok(Field {
            name: label,
            value: bytes_of(alloc, value)?,
        });
    }
    Ok(Field {
        name: label,
        value: bytes_of(alloc, field.value.as_slice())?,
    })
}

// The fields, with this value in that of the name.
fn with_values(
    alloc: Global,
    name: &str,
    value: &[u8],
    fields: &[Field],
) -> Result<Sequence<Field>, NoMemory>
    ensures { IfOk result (λ filled. filled ≡ map (with_value name.now value.now) fields.now) }
{
    let mut filled = Vec::new(alloc);
    for field in fields {
        filled.push(with_value(alloc, name, value, field)?)?;
    }
    Ok(Sequence::of(filled))
}

/// The request for this host, which stands in its field `Host`.
pub fn with_host(alloc: Global, request: Request, host: &Text) -> Result<Request, NoMemory>
    ensures { IfOk result (λ filled. filled ≡ addressed host.now request) }
{
    let Request {
        method,
        target,
        fields,
        body,
        close,
    } = request;
    Ok(Request {
        method,
        target,
        fields: with_values(alloc, "Host", host.as_slice(), fields.as_slice())?,
        body,
        close,
    })
}

/// The request with these bytes as its body, whose number stands in its field `Content-Length`.
pub fn with_body(alloc: Global, request: Request, body: Sequence<u8>) -> Result<Request, NoMemory>
    ensures { IfOk result (λ filled. filled ≡ carrying body request) }
{
    let Request {
        method,
        target,
        fields,
        body: _,
        close,
    } = request;
    let size = digits_of(alloc, body.as_slice().len())?;
    Ok(Request {
        method,
        target,
        fields: with_values(alloc, "Content-Length", size.as_bytes(), fields.as_slice())?,
        body,
        close,
    })
}
