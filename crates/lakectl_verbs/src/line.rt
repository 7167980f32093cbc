//! The words of a line of a batch.
ghost use Rattle.std.specs.Prelude.{◌≡◌, ◌<◌, IfOk, Some, option_map, MatchOption, true, false};
ghost use Rattle.std.specs.Str.{is_utf8};
ghost use Rattle.lakectl_verbs.specs.Cuts.{front, behind};
ghost use Rattle.lakectl_verbs.specs.LineForms.{is_skipped, line_in, line_of, words_of, word_step, step_seen};

use crate::cuts::{cut, strip};
use lake_base::{NoMemory, Sequence, Text};
use std::alloc::Global;

/// The bytes that a line of a batch may have.
pub const LINE_LIMIT: usize = 65_536;

/// What a line of a batch is.
#[derive(Debug, Drop)]
pub enum LineWords {
    /// It is passed over: it is empty, or begins with `#`.
    Skipped,
    /// It is too long, or not UTF-8.
    Bad,
    /// It has these words.
    Words(Sequence<Text>),
}

/// The words of a line. They are parted by spaces. A word that begins with `"` goes to the next `"`, or without one to
/// the line's end; what follows that `"` begins a new word. An empty line and one that begins with `#` are passed over,
/// whatever else they hold. Refused only where no memory is left.
pub fn line_words(alloc: Global, line: &[u8]) -> Result<LineWords, NoMemory>
    ensures { IfOk result (λ words. words ≡ line_of line.now) }
{
    if is_skipped(line) {
        return Ok(LineWords::Skipped);
    }
    line_in(alloc, line)
}

// Whether a line is passed over.
fn is_skipped(line: &[u8]) -> bool
    ensures { result ≡ is_skipped line.now }
{
    match line {
        [] => true,
        [first, ..] => *first == b'#',
    }
}

// The bytes as text.
fn utf8(bytes: &[u8]) -> Option<&str>
    ensures { MatchOption result (is_utf8 bytes.now ≡ false)
        (λ text. (text.now ≡ bytes.now) × (is_utf8 bytes.now ≡ true)) }
{
    match str::from_utf8(bytes) {
        Ok(text) => Some(text),
        Err(_) => None,
    }
}

// The words of a line that isn't passed over.
fn line_in(alloc: Global, line: &[u8]) -> Result<LineWords, NoMemory>
    ensures { IfOk result (λ words. words ≡ line_in line.now) }
{
    if line.len() > LINE_LIMIT {
        return Ok(LineWords::Bad);
    }
    match utf8(line) {
        Some(text) => Ok(LineWords::Words(words_of(alloc, text)?)),
        None => Ok(LineWords::Bad),
    }
}

// The words of a text.
fn words_of(alloc: Global, line: &str) -> Result<Sequence<Text>, NoMemory>
    ensures { IfOk result (λ words. words ≡ words_of line.now) }
{
    let mut words = Vec::new(alloc);
    let mut rest = line;
    while let Some((word, behind)) = next_step(rest) {
        if let Some(word) = word {
            words.push(Text::of(String::from_str(alloc, word)?))?;
        }
        rest = behind;
    }
    Ok(Sequence::of(words))
}

// What stands at the front: a space or a word; and what follows.
fn next_step(rest: &str) -> Option<(Option<&str>, &str)>
    ensures { option_map step_seen result ≡ word_step rest.now }
{
    if rest.is_empty() {
        return None;
    }
    if let Some(behind) = strip(rest, ' ') {
        return Some((None, behind));
    }
    match strip(rest, '"') {
        Some(quoted) => Some(until(quoted, '"')),
        None => Some(until(rest, ' ')),
    }
}

// The word up to a mark or the end, and what stands behind the mark.
fn until(text: &str, mark: char) -> (Option<&str>, &str)
    requires { mark < 128 }
    ensures { step_seen result ≡ (Some (front mark text.now), behind mark text.now) }
{
    match cut(text, mark) {
        Some((word, behind)) => (Some(word), behind),
        None => (Some(text), ""),
    }
}
