//! Metadata of options: `K=V,K=V`.
ghost use Rattle.std.specs.Prelude.{◌≡◌, IfOk, is_some, option_map};
ghost use Rattle.serde_json.specs.Find.{get_member};
ghost use Rattle.serde_json.specs.View.{members_view};
ghost use Rattle.lakectl_sent.specs.OptionValues.{with_pair, with_piece, metadata_of};
ghost use Rattle.lakectl_sent.specs.OptionViews.{map_seen};

use lake_base::NoMemory;
use lakectl_verbs::cut;
use serde_json::{Map, Value};
use std::alloc::Global;

// Whether an object has this key.
fn has_member(object: &Map<String, Value>, key: &str) -> bool
    ensures { result ≡ is_some (get_member key.now (members_view object.now.entries)) }
{
    object.get(key).is_some()
}

// A key with its value, where the key isn't empty and isn't there yet.
fn with_pair(
    alloc: Global,
    object: Map<String, Value>,
    key: &str,
    value: &str,
) -> Result<Option<Map<String, Value>>, NoMemory>
    ensures { IfOk result (λ found. option_map map_seen found ≡ with_pair (map_seen object) (key.now, value.now)) }
{
    let mut object = object;
    if key.is_empty() {
        return Ok(None);
    }
    if has_member(&object, key) {
        return Ok(None);
    }
    let value = Value::try_from_str(alloc, value)?;
    serde_json::put(&mut object, alloc, key, value)?;
    Ok(Some(object))
}

// A piece `K=V`.
fn with_piece(
    alloc: Global,
    object: Map<String, Value>,
    piece: &str,
) -> Result<Option<Map<String, Value>>, NoMemory>
    ensures { IfOk result (λ found. option_map map_seen found ≡ with_piece (map_seen object) piece.now) }
{
    match cut(piece, '=') {
        Some((key, value)) => with_pair(alloc, object, key, value),
        None => Ok(None),
    }
}

/// The metadata of a text, where it is `K=V,K=V` with keys that aren't empty and not given twice.
pub(crate) fn metadata_of(alloc: Global, text: &str) -> Result<Option<Map<String, Value>>, NoMemory>
    ensures { IfOk result (λ found. option_map map_seen found ≡ metadata_of text.now) }
{
    let mut object = Map::new(alloc);
    let mut rest = text;
    while let Some((piece, behind)) = cut(rest, ',') {
        let Some(next) = with_piece(alloc, object, piece)? else {
            return Ok(None);
        };
        object = next;
        rest = behind;
    }
    let last = with_piece(alloc, object, rest)?;
    Ok(last)
}
