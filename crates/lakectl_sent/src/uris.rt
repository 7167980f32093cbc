//! The URIs of a command.
ghost use Rattle.std.specs.Prelude.{◌≡◌, ◌∷◌, ℕ, List, map, IfOk, option_map};
ghost use Rattle.lakectl_verbs.specs.UsageSteps.{IsUsed};
ghost use Rattle.lakectl_verbs.specs.ReadWords.{value_seen};
ghost use Rattle.lakectl_sent.specs.UriPlaces.{places_of, place_number, are_of_one, place_seen};
ghost use Rattle.lakectl_sent.specs.SentMessages.{uris_of, places_seen};

use crate::place::{Place, place_of};
use lake_base::NoMemory;
use lakectl_verbs::{Kind, UsageFault, Value};
use std::alloc::Global;

// The places of all URIs, where each has the parts that it must have.
fn places_of<'a>(alloc: Global, values: &[Value<'a>]) -> Result<Option<Vec<Place<'a>>>, NoMemory>
    ensures { IfOk result (λ places. option_map places_seen places ≡ places_of (map value_seen values.now)) }
{
    let mut places = Vec::new(alloc);
    for value in values {
        if let Kind::Uri(parts) = value.argument.kind {
            let Some(place) = place_of(parts, value.text) else {
                return Ok(None);
            };
            places.push(place)?;
        }
    }
    Ok(Some(places))
}

// Whether two URIs name one repository.
fn are_of_one(places: &[Place<'_>]) -> bool
    ensures { result ≡ are_of_one (map place_seen places.now) }
{
    match places {
        [first, second, ..] => first.repo == second.repo,
        _ => true,
    }
}

/// The places of all URIs of a command; else the fault of URIs.
pub(crate) fn uris_of<'a>(alloc: Global, values: &[Value<'a>]) -> Result<Vec<Place<'a>>, UsageFault>
    ensures { IsUsed places_seen result (uris_of (map value_seen values.now)) }
{
    let Some(places) = places_of(alloc, values)? else {
        return Err(UsageFault::Uri);
    };
    if !are_of_one(places.as_slice()) {
        return Err(UsageFault::Uri);
    }
    Ok(places)
}

/// The place of this number, from 0; an empty one where there is none.
pub fn place_number<'a>(places: &[Place<'a>], number: usize) -> Place<'a>
    ensures { place_seen result ≡ place_number (map place_seen places.now) number }
{
    match places.get(number) {
        Some(place) => *place,
        None => Place {
            repo: "",
            reference: "",
            path: "",
        },
    }
}
