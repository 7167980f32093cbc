//! The values of a query, an `application/x-www-form-urlencoded` text: of repeated keys the first counts, and a value
//! that isn't UTF-8 is a bad value.
ghost use Rattle.std.specs.Prelude.{◌≡◌, ◌≤◌, length, map, IfOk, option_map};
ghost use Rattle.form_urlencoded.specs.Form.{decode, plus_to_space};
ghost use Rattle.api_routes.specs.FormSteps.{IsRead};
ghost use Rattle.api_routes.specs.Queries.{value_at, text_at, text_or_empty, path_at_key, digest_at, moment_at};
ghost use Rattle.api_routes.specs.Queries.{number_in, begins_amount, amount_in, amount_of};

use crate::fault::{FormFault, bad_value, missing};
use crate::names::{as_digest, as_moment, as_path};
use form_urlencoded::raw_pairs;
use lake_base::{Digest, NoMemory, Path, Text, is_utf8};
use percent_encoding::percent_decode;
use std::alloc::Global;

// A `+` is a blank.
fn with_blanks(alloc: Global, bytes: &[u8]) -> Result<Vec<u8>, NoMemory>
    ensures { IfOk result (λ plain. plain.items ≡ map plus_to_space bytes.now) }
{
    let plain = bytes
        .iter()
        .map(|&byte| if byte == b'+' { b' ' } else { byte });
    Ok(plain.collect(alloc)?)
}

// The bytes that a name or a value stands for: a `+` is a blank, and escapes are decoded.
fn decoded(alloc: Global, bytes: &[u8]) -> Result<Vec<u8>, NoMemory>
    ensures { IfOk result (λ found. found.items ≡ decode bytes.now) }
{
    let plain = with_blanks(alloc, bytes)?;
    let mut found = Vec::new(alloc);
    percent_decode(plain.as_slice()).append_to(&mut found)?;
    Ok(found)
}

// The first value of this key, as it was sent.
fn value_at<'a>(alloc: Global, query: &'a [u8], key: &str) -> Result<Option<&'a [u8]>, NoMemory>
    ensures { IfOk result (λ value. option_map (λ bytes. bytes.now) value ≡ value_at key.now query.now) }
{
    let mut pairs = raw_pairs(query);
    while let Some((name, value)) = pairs.next() {
        if decoded(alloc, name)?.as_slice() == key.as_bytes() {
            return Ok(Some(value));
        }
    }
    Ok(None)
}

/// The text of this key, where it is there; a bad value where it isn't UTF-8.
pub fn text_in_query(alloc: Global, query: &[u8], key: &str) -> Result<Option<Text>, FormFault>
    ensures { IsRead (λ text. text) result (text_at key.now query.now) }
{
    let Some(value) = value_at(alloc, query, key)? else {
        return Ok(None);
    };
    let bytes = decoded(alloc, value)?;
    if !is_utf8(bytes.as_slice()) {
        return Err(bad_value(alloc, key));
    }
    Ok(Some(Text::from_vec(bytes)))
}

/// The text of this key, empty where it isn't there.
pub fn text_or_empty(alloc: Global, query: &[u8], key: &str) -> Result<Text, FormFault>
    ensures { IsRead (λ text. text) result (text_or_empty key.now query.now) }
{
    match text_in_query(alloc, query, key)? {
        Some(text) => Ok(text),
        None => Ok(Text::of(String::new(alloc))),
    }
}

/// The path of this key; it is missing, or a bad value.
pub fn path_in_query(alloc: Global, query: &[u8], key: &str) -> Result<Path, FormFault>
    ensures { IsRead (λ path. path) result (path_at_key key.now query.now) }
{
    match text_in_query(alloc, query, key)? {
        Some(text) => as_path(alloc, key, text.as_slice()),
        None => Err(missing(alloc, key)),
    }
}

// The number that at most 4 decimal digits make.
fn number_of(digits: &[u8]) -> Option<usize>
    requires { length digits.now ≤ 4 }
    ensures { result ≡ number_in 0 digits.now }
{
    let mut number = 0;
    for &digit in digits {
        if !digit.is_ascii_digit() {
            return None;
        }
        number = number * 10 + (digit - b'0') as usize;
    }
    Some(number)
}

// Whether digits can be those of an amount: 1 to 4 of them, the first not 0.
fn begins_amount(digits: &[u8]) -> bool
    ensures { result ≡ begins_amount digits.now }
{
    match digits {
        [first, ..] => digits.len() <= 4 && *first >= b'1',
        [] => false,
    }
}

// The amount that these bytes are.
fn amount_in(digits: &[u8]) -> Option<usize>
    ensures { result ≡ amount_in digits.now }
{
    if !begins_amount(digits) {
        return None;
    }
    match number_of(digits) {
        Some(number) if number <= 1000 => Some(number),
        _ => None,
    }
}

/// The amount of a page: 1 to 1,000 in decimal digits, with no 0 at the front; 100 where there is none.
pub fn amount_in_query(alloc: Global, query: &[u8]) -> Result<usize, FormFault>
    ensures { IsRead (λ amount. amount) result (amount_of query.now) }
{
    let Some(text) = text_in_query(alloc, query, "amount")? else {
        return Ok(100);
    };
    match amount_in(text.as_slice()) {
        Some(amount) => Ok(amount),
        None => Err(bad_value(alloc, "amount")),
    }
}

/// The commit's id of this key, where it is there.
pub fn digest_in_query(alloc: Global, query: &[u8], key: &str) -> Result<Option<Digest>, FormFault>
    ensures { IsRead (λ id. id) result (digest_at key.now query.now) }
{
    match text_in_query(alloc, query, key)? {
        Some(text) => Ok(Some(as_digest(alloc, key, text.as_slice())?)),
        None => Ok(None),
    }
}

/// The moment of this key, where it is there, in seconds since 1970.
pub fn moment_in_query(alloc: Global, query: &[u8], key: &str) -> Result<Option<u64>, FormFault>
    ensures { IsRead (λ moment. moment) result (moment_at key.now query.now) }
{
    match text_in_query(alloc, query, key)? {
        Some(text) => Ok(Some(as_moment(alloc, key, text.as_str())?)),
        None => Ok(None),
    }
}
