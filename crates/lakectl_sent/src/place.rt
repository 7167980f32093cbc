//! URIs: `lakefs://REPO/REF/PATH`.
ghost use Rattle.std.specs.Prelude.{◌≡◌, option_map};
ghost use Rattle.lakectl_sent.specs.UriPlaces.{uri_rest, reference_in, uri_in, uri_seen, is_full, has_parts};
ghost use Rattle.lakectl_sent.specs.UriPlaces.{place_in, place_of, place_seen};

use lakectl_verbs::{UriParts, cut};

/// What stands before the parts of a URI.
const SCHEME: &str = "lakefs://";

/// Where a URI points. A part that the URI hasn't is empty.
#[derive(Clone, Copy, Debug, Drop)]
pub struct Place<'a> {
    pub repo: &'a str,
    pub reference: &'a str,
    pub path: &'a str,
}

// The parts of a URI, as far as it goes.
#[derive(Clone, Copy, Debug, Drop)]
struct Uri<'a> {
    repo: &'a str,
    reference: Option<&'a str>,
    path: Option<&'a str>,
}

// The parts behind the scheme.
fn uri_rest(word: &str) -> Option<&str>
    ensures { option_map (λ rest. rest.now) result ≡ uri_rest word.now }
{
    word.strip_prefix(SCHEME)
}

// The reference ends at the first `/` behind it, and the path is the rest.
fn reference_in<'a>(repo: &'a str, rest: &'a str) -> Uri<'a>
    ensures { uri_seen result ≡ reference_in repo.now rest.now }
{
    match cut(rest, '/') {
        Some((reference, path)) => Uri {
            repo,
            reference: Some(reference),
            path: Some(path),
        },
        None => Uri {
            repo,
            reference: Some(rest),
            path: None,
        },
    }
}

// The repository ends at the first `/`.
fn uri_in(rest: &str) -> Uri<'_>
    ensures { uri_seen result ≡ uri_in rest.now }
{
    match cut(rest, '/') {
        Some((repo, rest)) => reference_in(repo, rest),
        None => Uri {
            repo: rest,
            reference: None,
            path: None,
        },
    }
}

// Whether a part is there and not empty.
fn is_full(part: Option<&str>) -> bool
    ensures { result ≡ is_full (option_map (λ text. text.now) part.entry) }
{
    match part {
        Some(text) => !text.is_empty(),
        None => false,
    }
}

// Whether a URI has just these parts, and none of them is empty; the path of a prefix may be.
fn has_parts(parts: UriParts, uri: &Uri<'_>) -> bool
    ensures { result ≡ has_parts parts (uri_seen uri.now) }
{
    match parts {
        UriParts::Repo => !uri.repo.is_empty() && uri.reference.is_none(),
        UriParts::Ref => !uri.repo.is_empty() && is_full(uri.reference) && uri.path.is_none(),
        UriParts::Path => !uri.repo.is_empty() && is_full(uri.reference) && is_full(uri.path),
        UriParts::Prefix => !uri.repo.is_empty() && is_full(uri.reference),
    }
}

// Where a URI of these parts points.
fn place_in(parts: UriParts, rest: &str) -> Option<Place<'_>>
    ensures { option_map place_seen result ≡ place_in parts rest.now }
{
    let uri = uri_in(rest);
    if !has_parts(parts, &uri) {
        return None;
    }
    Some(Place {
        repo: uri.repo,
        reference: uri.reference.unwrap_or(""),
        path: uri.path.unwrap_or(""),
    })
}

/// Where a word points that is a URI of these parts. It takes no memory.
pub fn place_of(parts: UriParts, word: &str) -> Option<Place<'_>>
    ensures { option_map place_seen result ≡ place_of parts word.now }
{
    match uri_rest(word) {
        Some(rest) => place_in(parts, rest),
        None => None,
    }
}
