//! Bodies of requests.
ghost use Rattle.std.specs.Prelude.{◌≡◌, map, [], false, IfOk, option_map, unwrap_or};
ghost use Rattle.serde_json.specs.View.{view};
ghost use Rattle.serde_json.specs.Written.{has_float, compact_text};
ghost use Rattle.lakectl_verbs.specs.ReadWords.{value_seen};
ghost use Rattle.lakectl_sent.specs.OptionViews.{map_seen};
ghost use Rattle.lakectl_sent.specs.SentMessages.{reset_path, reset_type, fields_of, object_of, json_body, carried_by};
ghost use Rattle.lakectl_sent.specs.SentMessages.{type_of, body_of};
ghost use Rattle.lakectl_sent.specs.UriPlaces.{place_seen};

use crate::fields::{put_metadata, put_number, put_option, put_text};
use crate::place::Place;
use lake_base::NoMemory;
use lakectl_verbs::read::text_of;
use lakectl_verbs::{Value, Verb};
use serde_json::Map;
use std::alloc::Global;

type Object = Map<String, serde_json::Value>;

// The path of a reset.
fn reset_path<'a>(values: &[Value<'a>]) -> Option<&'a str>
    ensures { option_map (λ text. text.now) result ≡ reset_path (map value_seen values.now) }
{
    match text_of(values, "object") {
        Some(path) => Some(path),
        None => text_of(values, "prefix"),
    }
}

// The type of a reset.
fn reset_type(values: &[Value<'_>]) -> &'static str
    ensures { result.now ≡ reset_type (map value_seen values.now) }
{
    if text_of(values, "object").is_some() {
        return "object";
    }
    if text_of(values, "prefix").is_some() {
        return "common_prefix";
    }
    "reset"
}

fn repository(alloc: Global, at: Place<'_>, values: &[Value<'_>]) -> Result<Object, NoMemory>
    ensures { IfOk result (λ object. map_seen object
        ≡ object_of (fields_of Verb.RepoCreate (place_seen at.entry) (place_seen at.entry)
        (map value_seen values.now))) }
{
    let mut object = Map::new(alloc);
    put_text(&mut object, alloc, "name", Some(at.repo))?;
    put_option(&mut object, alloc, "storage_namespace", values, "namespace")?;
    Ok(object)
}

fn branch(alloc: Global, at: Place<'_>, other: Place<'_>) -> Result<Object, NoMemory>
    ensures { IfOk result (λ object. map_seen object
        ≡ object_of (fields_of Verb.BranchCreate (place_seen at.entry) (place_seen other.entry) [])) }
{
    let mut object = Map::new(alloc);
    put_text(&mut object, alloc, "name", Some(at.reference))?;
    put_text(&mut object, alloc, "source", Some(other.reference))?;
    Ok(object)
}

fn reset(alloc: Global, at: Place<'_>, values: &[Value<'_>]) -> Result<Object, NoMemory>
    ensures { IfOk result (λ object. map_seen object
        ≡ object_of (fields_of Verb.BranchReset (place_seen at.entry) (place_seen at.entry)
        (map value_seen values.now))) }
{
    let mut object = Map::new(alloc);
    put_text(&mut object, alloc, "path", reset_path(values))?;
    put_text(&mut object, alloc, "type", Some(reset_type(values)))?;
    Ok(object)
}

fn revert(alloc: Global, at: Place<'_>, values: &[Value<'_>]) -> Result<Object, NoMemory>
    ensures { IfOk result (λ object. map_seen object
        ≡ object_of (fields_of Verb.BranchRevert (place_seen at.entry) (place_seen at.entry)
        (map value_seen values.now))) }
{
    let mut object = Map::new(alloc);
    put_number(&mut object, alloc, "parent_number", values, "parent-number")?;
    put_option(&mut object, alloc, "ref", values, "ref")?;
    Ok(object)
}

fn tag(alloc: Global, at: Place<'_>, other: Place<'_>) -> Result<Object, NoMemory>
    ensures { IfOk result (λ object. map_seen object
        ≡ object_of (fields_of Verb.TagCreate (place_seen at.entry) (place_seen other.entry) [])) }
{
    let mut object = Map::new(alloc);
    put_text(&mut object, alloc, "id", Some(at.reference))?;
    put_text(&mut object, alloc, "ref", Some(other.reference))?;
    Ok(object)
}

fn commit(alloc: Global, at: Place<'_>, values: &[Value<'_>]) -> Result<Object, NoMemory>
    ensures { IfOk result (λ object. map_seen object
        ≡ object_of (fields_of Verb.Commit (place_seen at.entry) (place_seen at.entry) (map value_seen values.now))) }
{
    let mut object = Map::new(alloc);
    put_option(&mut object, alloc, "message", values, "message")?;
    put_metadata(&mut object, alloc, values)?;
    Ok(object)
}

fn merge(alloc: Global, at: Place<'_>, values: &[Value<'_>]) -> Result<Object, NoMemory>
    ensures { IfOk result (λ object. map_seen object
        ≡ object_of (fields_of Verb.Merge (place_seen at.entry) (place_seen at.entry) (map value_seen values.now))) }
{
    let mut object = Map::new(alloc);
    put_option(&mut object, alloc, "message", values, "message")?;
    put_metadata(&mut object, alloc, values)?;
    put_option(&mut object, alloc, "strategy", values, "strategy")?;
    Ok(object)
}

fn cherry_pick(alloc: Global, at: Place<'_>, values: &[Value<'_>]) -> Result<Object, NoMemory>
    ensures { IfOk result (λ object. map_seen object
        ≡ object_of (fields_of Verb.CherryPick (place_seen at.entry) (place_seen at.entry)
        (map value_seen values.now))) }
{
    let mut object = Map::new(alloc);
    put_number(&mut object, alloc, "parent_number", values, "parent-number")?;
    put_text(&mut object, alloc, "ref", Some(at.reference))?;
    Ok(object)
}

fn link(alloc: Global, at: Place<'_>, values: &[Value<'_>]) -> Result<Object, NoMemory>
    ensures { IfOk result (λ object. map_seen object
        ≡ object_of (fields_of Verb.FsStage (place_seen at.entry) (place_seen at.entry) (map value_seen values.now))) }
{
    let mut object = Map::new(alloc);
    put_option(&mut object, alloc, "checksum", values, "checksum")?;
    put_option(&mut object, alloc, "content_type", values, "content-type")?;
    put_metadata(&mut object, alloc, values)?;
    put_number(&mut object, alloc, "mtime", values, "mtime")?;
    put_option(&mut object, alloc, "physical_address", values, "location")?;
    put_number(&mut object, alloc, "size_bytes", values, "size")?;
    Ok(object)
}

// The object of JSON that a verb sends; an empty one where it sends none.
fn object_of(
    alloc: Global,
    verb: Verb,
    at: Place<'_>,
    other: Place<'_>,
    values: &[Value<'_>],
) -> Result<Object, NoMemory>
    ensures { IfOk result (λ object. map_seen object
        ≡ object_of (fields_of verb (place_seen at.entry) (place_seen other.entry) (map value_seen values.now))) }
{
    match verb {
        Verb::RepoCreate => repository(alloc, at, values),
        Verb::BranchCreate => branch(alloc, at, other),
        Verb::BranchReset => reset(alloc, at, values),
        Verb::BranchRevert => revert(alloc, at, values),
        Verb::TagCreate => tag(alloc, at, other),
        Verb::Commit => commit(alloc, at, values),
        Verb::Merge => merge(alloc, at, values),
        Verb::CherryPick => cherry_pick(alloc, at, values),
        Verb::FsStage => link(alloc, at, values),
        _ => Ok(Map::new(alloc)),
    }
}

// The compact text of a value without floats.
fn compact(alloc: Global, value: &serde_json::Value) -> Result<Vec<u8>, NoMemory>
    requires { has_float (view value.now) ≡ false }
    ensures { IfOk result (λ text. text.items ≡ compact_text (view value.now)) }
{
    let text = value.to_vec(alloc)?;
    Ok(text)
}

// The compact text of that object.
fn json_body(
    alloc: Global,
    verb: Verb,
    at: Place<'_>,
    other: Place<'_>,
    values: &[Value<'_>],
) -> Result<Vec<u8>, NoMemory>
    ensures { IfOk result (λ body. body.items
        ≡ json_body (fields_of verb (place_seen at.entry) (place_seen other.entry) (map value_seen values.now))) }
{
    let object = object_of(alloc, verb, at, other, values)?;
    let value = serde_json::Value::Object(object);
    let text = compact(alloc, &value)?;
    Ok(text)
}

// The bytes of a text, none where it isn't given.
fn bytes_of(alloc: Global, text: Option<&str>) -> Result<Vec<u8>, NoMemory>
    ensures { IfOk result (λ body. body.items ≡ unwrap_or (option_map (λ t. t.now) text.entry) []) }
{
    let mut body = Vec::new(alloc);
    if let Some(text) = text {
        body.extend_from_slice(text.as_bytes())?;
    }
    Ok(body)
}

/// What a request carries.
#[derive(Clone, Copy, Debug, Drop)]
pub enum Carried {
    Nothing,
    Json,
    Bytes,
}

// What a verb's request carries.
fn carried_by(verb: Verb) -> Carried
    ensures { result ≡ carried_by verb }
{
    match verb {
        Verb::RepoCreate => Carried::Json,
        Verb::BranchCreate => Carried::Json,
        Verb::BranchReset => Carried::Json,
        Verb::BranchRevert => Carried::Json,
        Verb::TagCreate => Carried::Json,
        Verb::Commit => Carried::Json,
        Verb::Merge => Carried::Json,
        Verb::CherryPick => Carried::Json,
        Verb::FsUpload => Carried::Bytes,
        Verb::FsStage => Carried::Json,
        _ => Carried::Nothing,
    }
}

/// The content type of what a verb's request carries, where it carries something. It takes no memory.
pub(crate) fn type_of(verb: Verb) -> Option<&'static str>
    ensures { option_map (λ t. t.now) result ≡ type_of (carried_by verb) }
{
    match carried_by(verb) {
        Carried::Nothing => None,
        Carried::Json => Some("application/json"),
        Carried::Bytes => Some("application/octet-stream"),
    }
}

/// The body of a verb's request; that of a file is put in later.
pub(crate) fn body_of(
    alloc: Global,
    verb: Verb,
    at: Place<'_>,
    other: Place<'_>,
    values: &[Value<'_>],
) -> Result<Vec<u8>, NoMemory>
    ensures { IfOk result (λ body. body.items
        ≡ body_of verb (place_seen at.entry) (place_seen other.entry) (map value_seen values.now)) }
{
    match carried_by(verb) {
        Carried::Nothing => Ok(Vec::new(alloc)),
        Carried::Json => json_body(alloc, verb, at, other, values),
        Carried::Bytes => bytes_of(alloc, text_of(values, "text")),
    }
}
