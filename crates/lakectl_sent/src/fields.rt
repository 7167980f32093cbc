//! Fields of objects of JSON.
ghost use Rattle.std.specs.Prelude.{◌≡◌, map, codes, OnOk, option_map};
ghost use Rattle.serde_json.specs.Data.{string, number, unsigned};
ghost use Rattle.lakectl_verbs.specs.ReadWords.{value_seen};
ghost use Rattle.lakectl_sent.specs.OptionViews.{map_seen};
ghost use Rattle.lakectl_sent.specs.SentMessages.{text_form, number_form, metadata_form, with_field};

use crate::metadata::metadata_of;
use crate::number::number_of;
use lake_base::NoMemory;
use lakectl_verbs::Value;
use lakectl_verbs::read::text_of;
use serde_json::Map;
use std::alloc::Global;

/// A field that is a text, where it is sent.
pub(crate) fn put_text(
    object: &mut Map<String, serde_json::Value>,
    alloc: Global,
    key: &str,
    text: Option<&str>,
) -> Result<(), NoMemory>
    ensures { OnOk result (map_seen object.new
        ≡ with_field (map_seen object.old) (key.now, option_map (λ t. string t.now) text.entry)) }
{
    let Some(text) = text else {
        return Ok(());
    };
    let value = serde_json::Value::try_from_str(alloc, text)?;
    Ok(serde_json::put(object, alloc, key, value)?)
}

/// A field that is the text of an option, where it is given.
pub(crate) fn put_option(
    object: &mut Map<String, serde_json::Value>,
    alloc: Global,
    key: &str,
    values: &[Value<'_>],
    name: &str,
) -> Result<(), NoMemory>
    ensures { OnOk result (map_seen object.new
        ≡ with_field (map_seen object.old) (key.now, text_form (map value_seen values.now) name.now)) }
{
    put_text(object, alloc, key, text_of(values, name))
}

/// A field that is the number of an option, where it is given.
pub(crate) fn put_number(
    object: &mut Map<String, serde_json::Value>,
    alloc: Global,
    key: &str,
    values: &[Value<'_>],
    name: &str,
) -> Result<(), NoMemory>
    ensures { OnOk result (map_seen object.new
        ≡ with_field (map_seen object.old) (key.now, number_form (map value_seen values.now) name.now)) }
{
    let Some(number) = text_of(values, name).and_then(number_of) else {
        return Ok(());
    };
    Ok(serde_json::put(object, alloc, key, serde_json::Value::from(number))?)
}

/// The field of metadata, where it is given.
pub(crate) fn put_metadata(
    object: &mut Map<String, serde_json::Value>,
    alloc: Global,
    values: &[Value<'_>],
) -> Result<(), NoMemory>
    ensures { OnOk result (map_seen object.new
        ≡ with_field (map_seen object.old) (codes "metadata", metadata_form (map value_seen values.now))) }
{
    let Some(text) = text_of(values, "meta") else {
        return Ok(());
    };
    let Some(metadata) = metadata_of(alloc, text)? else {
        return Ok(());
    };
    Ok(serde_json::put(
        object,
        alloc,
        "metadata",
        serde_json::Value::Object(metadata),
    )?)
}
