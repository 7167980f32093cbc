//! Objects of JSON, field by field.
ghost use Rattle.std.specs.Prelude.{◌≡◌, OnOk};
ghost use Rattle.serde_json.specs.Data.{string, put as with_member};
ghost use Rattle.serde_json.specs.View.{members_view};
ghost use Rattle.api_replies.specs.ReplyForms.{number_form};

use lake_base::outside::NoMemory;
use serde_json::{Map, Value};
use std::alloc::Global;

// A field that is a text.
pub(crate) fn put_text(
    object: &mut Map<String, Value>,
    alloc: Global,
    key: &str,
    text: &str,
) -> Result<(), NoMemory>
    ensures { OnOk result (members_view object.new.entries
        ≡ with_member key.now (string text.now) (members_view object.old.entries)) }
{
    let value = Value::try_from_str(alloc, text)?;
    Ok(serde_json::put(object, alloc, key, value)?)
}

// A field that is a number.
pub(crate) fn put_number(
    object: &mut Map<String, Value>,
    alloc: Global,
    key: &str,
    number: u64,
) -> Result<(), NoMemory>
    ensures { OnOk result (members_view object.new.entries
        ≡ with_member key.now (number_form number) (members_view object.old.entries)) }
{
    Ok(serde_json::put(object, alloc, key, Value::from(number))?)
}
