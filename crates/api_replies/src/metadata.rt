//! Metadata as JSON.
ghost use Rattle.std.specs.Prelude.{◌≡◌, false, IfOk};
ghost use Rattle.serde_json.specs.View.{view};
ghost use Rattle.api_replies.specs.ReplyForms.{metadata_form};

use lake_base::outside::NoMemory;
use lake_values::Pairs;
use serde_json::{Map, Value};
use std::alloc::Global;

// An object with a field for each pair.
pub(crate) fn metadata_value(alloc: Global, pairs: &Pairs) -> Result<Value, NoMemory>
    ensures { IfOk result (λ value. view value ≡ metadata_form pairs.now) }
{
    let mut object = Map::new(alloc);
    for (key, value) in pairs.as_slice() {
        let value = Value::try_from_str(alloc, value.as_str())?;
        serde_json::put(&mut object, alloc, key.as_str(), value)?;
    }
    Ok(Value::Object(object))
}
