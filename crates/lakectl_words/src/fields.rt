//! The fields of a request's head.
ghost use Rattle.std.specs.Prelude.{◌≡◌, IfOk, OnOk, option_map, ◌++◌, ◌∷◌, [], codes, length, string_bytes};
ghost use Rattle.std.specs.Fmt.{decimal};
ghost use Rattle.lakectl_sent.specs.SentViews.{message_seen};
ghost use Rattle.lakectl_words.specs.WireRequests.{field_of, user_fields, carried_fields, fields_for, request_for};

use http_wire::{Field, Request};
use lake_base::{NoMemory, Sequence, Text};
use lakectl_sent::Message;
use std::alloc::Global;

/// A text of these bytes.
pub(crate) fn text_of(alloc: Global, text: &str) -> Result<Text, NoMemory>
    ensures { IfOk result (λ t. t ≡ text.now) }
{
    Ok(Text::of(String::from_str(alloc, text)?))
}

/// The bytes, owned.
pub(crate) fn bytes_of(alloc: Global, bytes: &[u8]) -> Result<Sequence<u8>, NoMemory>
    ensures { IfOk result (λ b. b ≡ bytes.now) }
{
    let mut owned = Vec::new(alloc);
    owned.extend_from_slice(bytes)?;
    Ok(Sequence::of(owned))
}

// A field.
fn field_of(alloc: Global, name: &str, value: &[u8]) -> Result<Field, NoMemory>
    ensures { IfOk result (λ field. field ≡ field_of name.now value.now) }
{
    Ok(Field {
        name: text_of(alloc, name)?,
        value: bytes_of(alloc, value)?,
    })
}

// One field more.
fn push_field(
    fields: &mut Vec<Field>,
    alloc: Global,
    name: &str,
    value: &[u8],
) -> Result<(), NoMemory>
    ensures { OnOk result (fields.new.items ≡ fields.old.items ++ field_of name.now value.now ∷ []) }
{
    let field = field_of(alloc, name, value)?;
    Ok(fields.push(field)?)
}

// The field of the user, where there is one.
fn push_user(fields: &mut Vec<Field>, alloc: Global, user: Option<&str>) -> Result<(), NoMemory>
    ensures { OnOk result (fields.new.items
        ≡ fields.old.items ++ user_fields (option_map (λ name. name.now) user.entry)) }
{
    let Some(name) = user else {
        return Ok(());
    };
    push_field(fields, alloc, "Lake-User", name.as_bytes())?;
    Ok(())
}

/// The digits of a number.
pub(crate) fn digits_of(alloc: Global, number: usize) -> Result<String, NoMemory>
    ensures { IfOk result (λ digits. string_bytes digits ≡ decimal number) }
{
    let digits = number.to_string(alloc)?;
    Ok(digits)
}

// The field of the body's size.
fn push_size(fields: &mut Vec<Field>, alloc: Global, body: &[u8]) -> Result<(), NoMemory>
    ensures { OnOk result (fields.new.items
        ≡ fields.old.items ++ field_of (codes "Content-Length") (decimal (length body.now)) ∷ []) }
{
    let size = digits_of(alloc, body.len())?;
    push_field(fields, alloc, "Content-Length", size.as_bytes())?;
    Ok(())
}

// The fields of what is carried, where something is.
fn push_carried(
    fields: &mut Vec<Field>,
    alloc: Global,
    content_type: Option<&str>,
    body: &[u8],
) -> Result<(), NoMemory>
    ensures { OnOk result (fields.new.items
        ≡ fields.old.items ++ carried_fields (option_map (λ t. t.now) content_type.entry) body.now) }
{
    let Some(content_type) = content_type else {
        return Ok(());
    };
    push_field(fields, alloc, "Content-Type", content_type.as_bytes())?;
    push_size(fields, alloc, body)?;
    Ok(())
}

// The fields of a request's head.
fn fields_for(
    alloc: Global,
    user: Option<&str>,
    content_type: Option<&str>,
    body: &[u8],
) -> Result<Vec<Field>, NoMemory>
    ensures { IfOk result (λ fields. fields.items
        ≡ fields_for (option_map (λ name. name.now) user.entry) (option_map (λ t. t.now) content_type.entry) body.now) }
{
    let mut fields = Vec::new(alloc);
    push_field(&mut fields, alloc, "Host", b"localhost")?;
    push_user(&mut fields, alloc, user)?;
    push_carried(&mut fields, alloc, content_type, body)?;
    push_field(&mut fields, alloc, "Connection", b"close")?;
    Ok(fields)
}

/// The request that sends a message for a user.
pub(crate) fn request_for(
    alloc: Global,
    user: Option<&str>,
    message: Message,
) -> Result<Request, NoMemory>
    ensures { IfOk result (λ request. request
        ≡ request_for (option_map (λ name. name.now) user.entry) (message_seen message)) }
{
    let fields = fields_for(alloc, user, message.content_type, message.body.as_slice())?;
    let Message {
        method,
        target,
        content_type: _,
        body,
    } = message;
    Ok(Request {
        method: text_of(alloc, method)?,
        target: Sequence::of(target),
        fields: Sequence::of(fields),
        body: Sequence::of(body),
        close: true,
    })
}
