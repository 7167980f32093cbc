//! Bytes that are to be a name, a path, an expression or a commit's id; else a bad value of the name of their place.
ghost use Rattle.std.specs.Prelude.{◌≡◌, Ok};
ghost use Rattle.hex.specs.Hex.{decode_of, encode_lower};
ghost use Rattle.api_routes.specs.FormSteps.{IsRead};
ghost use Rattle.api_routes.specs.FormNames.{repo_of, ref_name_of, new_ref_name_of, path_of};
ghost use Rattle.api_routes.specs.FormNames.{digest_of, moment_of, seconds_of};

use crate::fault::{FormFault, bad_value};
use jiff::Timestamp;
use lake_base::{Digest, NameFault, Path, RefName, RepoName};
use std::alloc::Global;
use std::str::FromStr;

/// The name of a repository.
pub fn as_repo(alloc: Global, name: &str, bytes: &[u8]) -> Result<RepoName, FormFault>
    ensures { IsRead (λ repo. repo) result (repo_of name.now bytes.now) }
{
    match RepoName::read(alloc, bytes) {
        Ok(repo) => Ok(repo),
        Err(NameFault::NoMemory) => Err(FormFault::NoMemory),
        Err(_) => Err(bad_value(alloc, name)),
    }
}

/// The name of a branch or a tag.
pub fn as_ref_name(alloc: Global, name: &str, bytes: &[u8]) -> Result<RefName, FormFault>
    ensures { IsRead (λ found. found) result (ref_name_of name.now bytes.now) }
{
    match RefName::read(alloc, bytes) {
        Ok(found) => Ok(found),
        Err(NameFault::NoMemory) => Err(FormFault::NoMemory),
        Err(_) => Err(bad_value(alloc, name)),
    }
}

/// The name of a branch or a tag that is to be made: one that couldn't be taken for a commit's id.
pub fn as_new_ref_name(alloc: Global, name: &str, bytes: &[u8]) -> Result<RefName, FormFault>
    ensures { IsRead (λ found. found) result (new_ref_name_of name.now bytes.now) }
{
    let found = as_ref_name(alloc, name, bytes)?;
    if found.like_id() {
        return Err(bad_value(alloc, name));
    }
    Ok(found)
}

/// The path of an object.
pub fn as_path(alloc: Global, name: &str, bytes: &[u8]) -> Result<Path, FormFault>
    ensures { IsRead (λ path. path) result (path_of name.now bytes.now) }
{
    match Path::read(alloc, bytes) {
        Ok(path) => Ok(path),
        Err(NameFault::NoMemory) => Err(FormFault::NoMemory),
        Err(_) => Err(bad_value(alloc, name)),
    }
}

// The digits of bytes stand for these. (A law: it does nothing.)
fn law_of_digits(bytes: &[u8])
    ensures { decode_of (encode_lower bytes.now) ≡ Ok bytes.now }
{}

/// The id of a commit: 64 lower-case hex digits.
pub fn as_digest(alloc: Global, name: &str, text: &[u8]) -> Result<Digest, FormFault>
    ensures { IsRead (λ id. id) result (digest_of name.now text.now) }
{
    match Digest::read(text) {
        Ok(id) => {
            law_of_digits(id.0.as_slice());
            Ok(id)
        }
        Err(_) => Err(bad_value(alloc, name)),
    }
}

// The whole seconds from 1970 to an instant, rounded down; 0 before 1970.
fn seconds_of(instant: Timestamp) -> u64
    ensures { result ≡ seconds_of instant.nanosecond }
{
    let seconds = instant.as_second();
    if seconds < 0 { 0 } else { seconds as u64 }
}

/// A moment that `jiff` reads as a timestamp (RFC 3339 is the usual form), as whole seconds since 1970, rounded down; 0
/// before 1970.
pub fn as_moment(alloc: Global, name: &str, text: &str) -> Result<u64, FormFault>
    ensures { IsRead (λ moment. moment) result (moment_of name.now text.now) }
{
    match Timestamp::from_str(text) {
        Ok(instant) => Ok(seconds_of(instant)),
        Err(_) => Err(bad_value(alloc, name)),
    }
}
