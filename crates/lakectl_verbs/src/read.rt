//! A line of words: its user, its verb, and the values that it gives.
ghost use Rattle.std.specs.Prelude.{◌≡◌, map, option_map, IfOk};
ghost use Rattle.std.specs.List.{filter_map, list_all};
ghost use Rattle.clap.specs.Words.{first_value, found_of};
ghost use Rattle.lakectl_verbs.specs.ArgumentForms.{form_of};
ghost use Rattle.lakectl_verbs.specs.UsageSteps.{IsUsed};
ghost use Rattle.lakectl_verbs.specs.VerbCommands.{words_seen, value_found};
ghost use Rattle.lakectl_verbs.specs.ReadWords.{is_visible, is_user, user_of, user_seen};
ghost use Rattle.lakectl_verbs.specs.ReadWords.{verb_of, verb_seen, exclude, value_seen};
ghost use Rattle.lakectl_verbs.specs.ReadWords.{values_of, text_in, given_seen, read_of};

use crate::argument::Argument;
use crate::command::matches_of;
use crate::fault::{UsageFault, bad_value};
use crate::table::arguments;
use crate::verb::{Verb, lone_verb, verb_under};
use clap::ArgMatches;
use std::alloc::{AllocError, Global};

/// The bytes that a user's name may have.
const USER_LIMIT: usize = 128;

/// A value that the words give, with its argument.
#[derive(Clone, Copy, Debug, Drop)]
pub struct Value<'a> {
    pub argument: &'static Argument,
    pub text: &'a str,
}

/// A line of words that was read: its user, its verb, and the values that it gives, in the order of the table.
#[derive(Debug, Drop)]
pub struct Given<'a> {
    pub user: Option<&'a str>,
    pub verb: Verb,
    pub values: Vec<Value<'a>>,
}

// Whether a byte is visible ASCII.
fn is_visible(byte: u8) -> bool
    ensures { result ≡ is_visible byte }
{
    33 <= byte && byte <= 126
}

// Whether each byte is.
fn are_visible(bytes: &[u8]) -> bool
    ensures { result ≡ list_all is_visible bytes.now }
{
    bytes.iter().all(|byte| is_visible(*byte))
}

// Whether a name can be a user's: 1 to 128 bytes of visible ASCII.
fn is_user(name: &str) -> bool
    ensures { result ≡ is_user name.now }
{
    let bytes = name.as_bytes();
    if bytes.is_empty() {
        return false;
    }
    if bytes.len() > USER_LIMIT {
        return false;
    }
    are_visible(bytes)
}

// The user, where the words name one, and the words behind it.
fn user_of<'a>(
    alloc: Global,
    words: &'a [&'a str],
) -> Result<(Option<&'a str>, &'a [&'a str]), UsageFault>
    ensures { IsUsed user_seen result (user_of (words_seen words.now)) }
{
    let Some((first, rest)) = words.split_first() else {
        return Ok((None, words));
    };
    if *first != "--user" {
        return Ok((None, words));
    }
    let Some((name, rest)) = rest.split_first() else {
        return Err(UsageFault::Words);
    };
    if !is_user(name) {
        return Err(bad_value(alloc, "user"));
    }
    Ok((Some(*name), rest))
}

// The verb, and the words behind it.
fn verb_of<'a>(words: &'a [&'a str]) -> Result<(Verb, &'a [&'a str]), UsageFault>
    ensures { IsUsed verb_seen result (verb_of (words_seen words.now)) }
{
    let Some((noun, rest)) = words.split_first() else {
        return Err(UsageFault::NoCommand);
    };
    if let Some(verb) = lone_verb(noun) {
        return Ok((verb, rest));
    }
    let Some((verb, rest)) = rest.split_first() else {
        return Err(UsageFault::Unknown);
    };
    match verb_under(noun, verb) {
        Some(verb) => Ok((verb, rest)),
        None => Err(UsageFault::Unknown),
    }
}

// The values that were found, in the order of the arguments.
fn values_in<'a>(
    alloc: Global,
    arguments: &'static [Argument],
    matches: &ArgMatches<'a>,
) -> Result<Vec<Value<'a>>, AllocError>
    ensures { IfOk result (λ values. map value_seen values.items
        ≡ filter_map (value_found (first_value (found_of matches.now))) (map form_of arguments.now)) }
{
    let mut values = Vec::new(alloc);
    for argument in arguments {
        if let Some(text) = matches.get_str(argument.name) {
            values.push(Value { argument, text })?;
        }
    }
    Ok(values)
}

// The values that the words give to the verb's arguments.
fn values_of<'a>(
    alloc: Global,
    verb: Verb,
    words: &'a [&'a str],
) -> Result<Vec<Value<'a>>, UsageFault>
    ensures { IsUsed (λ values. map value_seen values.items) result (values_of verb (words_seen words.now)) }
{
    let matches = matches_of(alloc, verb, words)?;
    Ok(values_in(alloc, arguments(verb), &matches)?)
}

/// The value of this name, where it is given. It takes no memory.
pub fn text_of<'a>(values: &[Value<'a>], name: &str) -> Option<&'a str>
    ensures { option_map (λ text. text.now) result ≡ text_in (map value_seen values.now) name.now }
{
    for value in values {
        if value.argument.name == name {
            return Some(value.text);
        }
    }
    None
}

// Whether options are given that exclude each other.
fn exclude(verb: Verb, values: &[Value<'_>]) -> bool
    ensures { result ≡ exclude verb (map value_seen values.now) }
{
    match verb {
        Verb::BranchReset => text_of(values, "object").is_some()
            && text_of(values, "prefix").is_some(),
        Verb::FsUpload => text_of(values, "text").is_some() == text_of(values, "source").is_some(),
        _ => false,
    }
}

/// Reads a line of words. The faults come in this order, each exactly where said: Words, where nothing follows
/// `--user`; Value(`user`); NoCommand; Unknown; and Words, where the verb's simple command doesn't take the rest, or
/// options are given that exclude each other.
pub fn read_words<'a>(alloc: Global, words: &'a [&'a str]) -> Result<Given<'a>, UsageFault>
    ensures { IsUsed given_seen result (read_of (words_seen words.now)) }
{
    let (user, rest) = user_of(alloc, words)?;
    let (verb, rest) = verb_of(rest)?;
    let values = values_of(alloc, verb, rest)?;
    if exclude(verb, values.as_slice()) {
        return Err(UsageFault::Words);
    }
    Ok(Given { user, verb, values })
}
