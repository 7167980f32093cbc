//! Queries of requests.
ghost use Rattle.std.specs.Prelude.{◌≡◌, ◌∷◌, [], map, codes, Some, IfOk, OnOk, option_map, string_bytes};
ghost use Rattle.lakectl_verbs.specs.ReadWords.{value_seen};
ghost use Rattle.lakectl_sent.specs.SentMessages.{plain_number, is_set, query_of, with_key, page_keys, query_text};
ghost use Rattle.lakectl_sent.specs.UriPlaces.{place_seen};

use crate::number::number_of;
use crate::place::Place;
use form_urlencoded::Serializer;
use lake_base::NoMemory;
use lakectl_verbs::read::text_of;
use lakectl_verbs::{Value, Verb};
use std::alloc::Global;

// The number of an option in its plain form, where it is given.
fn plain_number(alloc: Global, values: &[Value<'_>], name: &str) -> Result<Option<String>, NoMemory>
    ensures { IfOk result (λ text. option_map string_bytes text ≡ plain_number (map value_seen values.now) name.now) }
{
    match text_of(values, name).and_then(number_of) {
        Some(number) => Ok(Some(number.to_string(alloc)?)),
        None => Ok(None),
    }
}

// Whether a flag is given.
fn is_set(values: &[Value<'_>], name: &str) -> bool
    ensures { result ≡ is_set (map value_seen values.now) name.now }
{
    match text_of(values, name) {
        Some(text) => text == "true",
        None => false,
    }
}

// One key more, where it is sent.
fn push_key(form: &mut Serializer, key: &str, value: Option<&str>) -> Result<(), NoMemory>
    ensures { OnOk result (form.new ≡ record form.old
        { form = with_key form.old.form (key.now, option_map (λ text. text.now) value.entry) }) }
{
    match value {
        Some(value) => Ok(form.append_pair(key, value)?),
        None => Ok(()),
    }
}

// The keys of a page: where it begins, and how long it is.
fn push_page(alloc: Global, form: &mut Serializer, values: &[Value<'_>]) -> Result<(), NoMemory>
    ensures { OnOk result (form.new ≡ record form.old { form = page_keys form.old.form (map value_seen values.now) }) }
{
    push_key(form, "after", text_of(values, "after"))?;
    match plain_number(alloc, values, "amount")? {
        Some(amount) => push_key(form, "amount", Some(amount.as_str())),
        None => Ok(()),
    }
}

// The query of a list of names.
fn page_query(alloc: Global, values: &[Value<'_>]) -> Result<String, NoMemory>
    ensures { IfOk result (λ text. string_bytes text ≡ page_keys [] (map value_seen values.now)) }
{
    let mut form = Serializer::new(String::new(alloc));
    push_page(alloc, &mut form, values)?;
    Ok(form.finish())
}

// The query of a log.
fn log_query(alloc: Global, at: Place<'_>, values: &[Value<'_>]) -> Result<String, NoMemory>
    ensures { IfOk result (λ text. string_bytes text
        ≡ query_text (query_of Verb.Log (place_seen at.entry) (map value_seen values.now))) }
{
    let mut form = Serializer::new(String::new(alloc));
    push_page(alloc, &mut form, values)?;
    push_key(&mut form, "since", text_of(values, "since"))?;
    Ok(form.finish())
}

// The query of a listing.
fn listing_query(alloc: Global, at: Place<'_>, values: &[Value<'_>]) -> Result<String, NoMemory>
    ensures { IfOk result (λ text. string_bytes text
        ≡ query_text (query_of Verb.FsLs (place_seen at.entry) (map value_seen values.now))) }
{
    let mut form = Serializer::new(String::new(alloc));
    push_key(&mut form, "prefix", Some(at.path))?;
    push_page(alloc, &mut form, values)?;
    let delimiter = if is_set(values, "recursive") {
        None
    } else {
        Some("/")
    };
    push_key(&mut form, "delimiter", delimiter)?;
    Ok(form.finish())
}

// The query that names a path.
fn path_query(alloc: Global, path: &str) -> Result<String, NoMemory>
    ensures { IfOk result (λ text. string_bytes text ≡ query_text ((codes "path", Some path.now) ∷ [])) }
{
    let mut form = Serializer::new(String::new(alloc));
    push_key(&mut form, "path", Some(path))?;
    Ok(form.finish())
}

/// The query of a verb's request.
pub(crate) fn query_of(
    alloc: Global,
    verb: Verb,
    at: Place<'_>,
    values: &[Value<'_>],
) -> Result<String, NoMemory>
    ensures { IfOk result (λ text. string_bytes text
        ≡ query_text (query_of verb (place_seen at.entry) (map value_seen values.now))) }
{
    match verb {
        Verb::RepoList => page_query(alloc, values),
        Verb::BranchList => page_query(alloc, values),
        Verb::Log => log_query(alloc, at, values),
        Verb::FsLs => listing_query(alloc, at, values),
        Verb::FsStat => path_query(alloc, at.path),
        Verb::FsCat => path_query(alloc, at.path),
        Verb::FsUpload => path_query(alloc, at.path),
        Verb::FsDownload => path_query(alloc, at.path),
        Verb::FsRm => path_query(alloc, at.path),
        Verb::FsStage => path_query(alloc, at.path),
        _ => Ok(String::new(alloc)),
    }
}
