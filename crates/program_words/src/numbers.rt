//! Numbers among the program's words.
ghost use Rattle.std.specs.Prelude.{◌≡◌, ◌<◌, IsTrue, length, true};
ghost use Rattle.std.specs.Char.{is_ascii_digit};
ghost use Rattle.std.specs.List.{list_all};
ghost use Rattle.program_words.specs.ProgramWords.{is_number, number_after, number_in, start_in, value_in};

use lake_base::Text;

/// The number that the text spells, which has 1 to 19 decimal digits.
pub(crate) fn number_in(text: &Text) -> Option<u64>
    ensures { result ≡ number_in text.now }
{
    if is_number(text.as_slice()) {
        Some(number_of(text.as_str()))
    } else {
        None
    }
}

/// Whether the text has 1 to 19 decimal digits and nothing else.
pub(crate) fn is_number(text: &[u8]) -> bool
    ensures { result ≡ is_number text.now }
{
    !text.is_empty() && text.len() <= 19 && are_digits(text)
}

/// The number that the text spells, which has 1 to 20 decimal digits and is below 2^64.
pub(crate) fn start_in(text: &Text) -> Option<u64>
    ensures { result ≡ start_in text.now }
{
    let digits = text.as_slice();
    if !digits.is_empty() && digits.len() <= 20 && are_digits(digits) {
        value_in(text.as_str())
    } else {
        None
    }
}

// The number that these digits spell, where it is below 2^64.
fn value_in(digits: &str) -> Option<u64>
    requires some { 0 < length digits.now }
    requires each { list_all is_ascii_digit digits.now ≡ true }
    ensures { result ≡ value_in digits.now }
{
    digits.parse::<u64>().ok()
}

// Whether each byte is a decimal digit.
fn are_digits(text: &[u8]) -> bool
    ensures { result ≡ list_all is_ascii_digit text.now }
{
    text.iter().all(|byte| byte.is_ascii_digit())
}

/// The number that these digits spell.
pub(crate) fn number_of(digits: &str) -> u64
    requires { IsTrue (is_number digits.now) }
    ensures { result ≡ number_after 0 digits.now }
{
    match digits.parse::<u64>() {
        Ok(number) => number,
        Err(_) => unreachable!(),
    }
}
