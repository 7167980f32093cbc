//! Targets of requests: a path and a query.
ghost use Rattle.std.specs.Prelude.{◌≡◌, map, IfOk};
ghost use Rattle.lakectl_verbs.specs.ReadWords.{value_seen};
ghost use Rattle.lakectl_sent.specs.SentMessages.{target_text, target_of};
ghost use Rattle.lakectl_sent.specs.UriPlaces.{place_seen};

use crate::path::path_of;
use crate::place::Place;
use crate::query::query_of;
use lake_base::NoMemory;
use lakectl_verbs::{Value, Verb};
use std::alloc::Global;

// The path, and the query behind it where there is one.
fn target_text(path: Vec<u8>, query: &[u8]) -> Result<Vec<u8>, NoMemory>
    ensures { IfOk result (λ target. target.items ≡ target_text path.items query.now) }
{
    let mut target = path;
    if query.is_empty() {
        return Ok(target);
    }
    target.extend_from_slice(b"?")?;
    target.extend_from_slice(query)?;
    Ok(target)
}

/// The target of a verb's request.
pub(crate) fn target_of(
    alloc: Global,
    verb: Verb,
    at: Place<'_>,
    other: Place<'_>,
    values: &[Value<'_>],
) -> Result<Vec<u8>, NoMemory>
    ensures { IfOk result (λ target. target.items
        ≡ target_of verb (place_seen at.entry) (place_seen other.entry) (map value_seen values.now)) }
{
    let path = path_of(alloc, verb, at, other)?;
    let query = query_of(alloc, verb, at, values)?;
    target_text(path, query.as_bytes())
}
