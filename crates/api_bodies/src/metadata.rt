//! The field that holds metadata: an object of texts.
ghost use Rattle.std.specs.Prelude.{◌≡◌, [], IfOk};
ghost use Rattle.serde_json.specs.View.{view, members_view};
ghost use Rattle.api_routes.specs.FormSteps.{IsRead};
ghost use Rattle.api_bodies.specs.MetadataFields.{with_pair, metadata_from, metadata_of};

use api_routes::{FormFault, bad_value};
use lake_base::{NoMemory, Text};
use lake_values::{Pairs, PairsFault};
use serde_json::{Map, Value};
use std::alloc::Global;

// The pairs with one more, where it is within the limits.
fn with_pair(alloc: Global, pairs: Pairs, key: &str, value: &str) -> Result<Option<Pairs>, NoMemory>
    ensures { IfOk result (λ found. found ≡ with_pair key.now value.now pairs) }
{
    let mut pairs = pairs;
    let key = Text::of(String::from_str(alloc, key)?);
    let value = Text::of(String::from_str(alloc, value)?);
    match pairs.set(key, value) {
        Ok(()) => Ok(Some(pairs)),
        Err(PairsFault::NoMemory) => Err(NoMemory),
        Err(_) => Ok(None),
    }
}

// The pairs that the members of an object make.
fn pairs_of(alloc: Global, members: &Map<String, Value>) -> Result<Option<Pairs>, NoMemory>
    ensures { IfOk result (λ found. found ≡ metadata_from [] (members_view members.now.entries)) }
{
    let mut pairs = Pairs::new(alloc);
    for (key, value) in members.iter() {
        let Some(text) = value.as_str() else {
            return Ok(None);
        };
        let Some(next) = with_pair(alloc, pairs, key.as_str(), text)? else {
            return Ok(None);
        };
        pairs = next;
    }
    Ok(Some(pairs))
}

/// The metadata of an object, empty where there is none; else a bad value.
pub fn metadata_of(alloc: Global, object: &Value) -> Result<Pairs, FormFault>
    ensures { IsRead (λ pairs. pairs) result (metadata_of (view object.now)) }
{
    let Some(value) = object.get("metadata") else {
        return Ok(Pairs::new(alloc));
    };
    let Some(members) = value.as_object() else {
        return Err(bad_value(alloc, "metadata"));
    };
    match pairs_of(alloc, members)? {
        Some(pairs) => Ok(pairs),
        None => Err(bad_value(alloc, "metadata")),
    }
}
