//! What a command sends.
ghost use Rattle.std.specs.Prelude.{◌≡◌, map, IfOk, option_map};
ghost use Rattle.lakectl_verbs.specs.UsageSteps.{IsUsed};
ghost use Rattle.lakectl_verbs.specs.ReadWords.{value_seen};
ghost use Rattle.lakectl_sent.specs.SentMessages.{method_of, message_of, sent_by, places_seen};
ghost use Rattle.lakectl_sent.specs.SentViews.{message_seen, sent_seen};
ghost use Rattle.lakectl_sent.specs.UriPlaces.{place_seen};

use crate::body::{body_of, type_of};
use crate::check::check_of;
use crate::place::Place;
use crate::target::target_of;
use crate::uris::{place_number, uris_of};
use lake_base::NoMemory;
use lakectl_verbs::{UsageFault, Value, Verb};
use std::alloc::Global;

/// What is sent: a method, a target, a body, and its content type where something is carried.
#[derive(Debug, Drop)]
pub struct Message {
    pub method: &'static str,
    pub target: Vec<u8>,
    pub content_type: Option<&'static str>,
    pub body: Vec<u8>,
}

// The method of a verb's request.
fn method_of(verb: Verb) -> &'static str
    ensures { result.now ≡ method_of verb }
{
    match verb {
        Verb::RepoCreate => "POST",
        Verb::RepoList => "GET",
        Verb::BranchCreate => "POST",
        Verb::BranchList => "GET",
        Verb::BranchShow => "GET",
        Verb::BranchDelete => "DELETE",
        Verb::BranchReset => "PUT",
        Verb::BranchRevert => "POST",
        Verb::TagCreate => "POST",
        Verb::TagList => "GET",
        Verb::TagShow => "GET",
        Verb::TagDelete => "DELETE",
        Verb::Commit => "POST",
        Verb::Log => "GET",
        Verb::Merge => "POST",
        Verb::CherryPick => "POST",
        Verb::FsLs => "GET",
        Verb::FsStat => "GET",
        Verb::FsCat => "GET",
        Verb::FsUpload => "POST",
        Verb::FsDownload => "GET",
        Verb::FsRm => "DELETE",
        Verb::FsStage => "PUT",
    }
}

// What a verb sends at these places with these values.
fn message_at(
    alloc: Global,
    verb: Verb,
    places: &[Place<'_>],
    values: &[Value<'_>],
) -> Result<Message, NoMemory>
    ensures { IfOk result (λ message. message_seen message
        ≡ message_of verb (map place_seen places.now) (map value_seen values.now)) }
{
    let at = place_number(places, 0);
    let other = place_number(places, 1);
    Ok(Message {
        method: method_of(verb),
        target: target_of(alloc, verb, at, other, values)?,
        content_type: type_of(verb),
        body: body_of(alloc, verb, at, other, values)?,
    })
}

/// What a command sends, with the places of its URIs. The fault of URIs comes first, where one doesn't begin with
/// `lakefs://`, hasn't just the parts that the command takes or has an empty one, or two name two repositories; and
/// then that of the first value that isn't of its kind, in the order of the table.
pub fn message_of<'a>(
    alloc: Global,
    verb: Verb,
    values: &[Value<'a>],
) -> Result<(Vec<Place<'a>>, Message), UsageFault>
    ensures { IsUsed sent_seen result (sent_by verb (map value_seen values.now)) }
{
    let places = uris_of(alloc, values)?;
    check_of(alloc, values)?;
    let message = message_at(alloc, verb, places.as_slice(), values)?;
    Ok((places, message))
}
