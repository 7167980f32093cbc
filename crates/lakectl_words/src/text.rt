//! The bytes of a request.
ghost use Rattle.std.specs.Prelude.{◌≡◌, ◌++◌, IfOk, OnOk};
ghost use Rattle.std.specs.List.{flat_map};
ghost use Rattle.lakectl_words.specs.WireRequests.{field_text, head_text, request_text};

use http_wire::{Field, Request};
use lake_base::{NoMemory, Sequence};
use std::alloc::Global;

// Bytes behind others.
fn push_bytes(out: &mut Vec<u8>, bytes: &[u8]) -> Result<(), NoMemory>
    ensures { OnOk result (out.new.items ≡ out.old.items ++ bytes.now) }
{
    Ok(out.extend_from_slice(bytes)?)
}

// A field behind others.
fn push_field(out: &mut Vec<u8>, field: &Field) -> Result<(), NoMemory>
    ensures { OnOk result (out.new.items ≡ out.old.items ++ field_text field.now) }
{
    push_bytes(out, field.name.as_slice())?;
    push_bytes(out, b": ")?;
    push_bytes(out, field.value.as_slice())?;
    push_bytes(out, b"\r\n")
}

// The fields behind the first line.
fn push_fields(out: &mut Vec<u8>, fields: &[Field]) -> Result<(), NoMemory>
    ensures { OnOk result (out.new.items ≡ out.old.items ++ flat_map field_text fields.now) }
{
    for field in fields {
        push_field(out, field)?;
    }
    Ok(())
}

// All that is sent before the body.
fn head_text(alloc: Global, request: &Request) -> Result<Vec<u8>, NoMemory>
    ensures { IfOk result (λ head. head.items ≡ head_text request.now) }
{
    let mut out = Vec::new(alloc);
    push_bytes(&mut out, request.method.as_slice())?;
    push_bytes(&mut out, b" ")?;
    push_bytes(&mut out, request.target.as_slice())?;
    push_bytes(&mut out, b" HTTP/1.1\r\n")?;
    push_fields(&mut out, request.fields.as_slice())?;
    push_bytes(&mut out, b"\r\n")?;
    Ok(out)
}

/// The bytes of a request: the line of its method and target, a line for each field, an empty line, and the body. Each
/// of these lines ends with CR and LF.
pub fn request_text(alloc: Global, request: &Request) -> Result<Sequence<u8>, NoMemory>
    ensures { IfOk result (λ bytes. bytes ≡ request_text request.now) }
{
    let mut out = head_text(alloc, request)?;
    push_bytes(&mut out, request.body.as_slice())?;
    Ok(Sequence::of(out))
}
