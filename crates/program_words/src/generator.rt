//! The words of the generator.
ghost use Rattle.std.specs.Prelude.{◌≡◌};
ghost use Rattle.program_words.specs.ProgramWords.{generator_of, made_of, objects_in, start_in};

use crate::numbers::{number_in, start_in};
use lake_base::Text;

/// What the generator is asked for.
#[derive(Clone, Copy, Debug, PartialEq, Eq)]
pub struct Generator {
    /// The number that its numbers begin with.
    pub number: u64,
    /// How many objects it uploads: 1 to 100,000.
    pub objects: u32,
}

/// Reads the words `gen --number N --objects K`, where N has 1 to 20 decimal digits and is below 2^64, and K is 1 to
/// 100,000. None where the words are none of these. It takes no memory.
pub fn generator_words(words: &[Text]) -> Option<Generator>
    ensures { result ≡ generator_of words.now }
{
    match words {
        [generate, name, number, other, objects] => {
            if generate.as_slice() == b"gen".as_slice()
                && name.as_slice() == b"--number".as_slice()
                && other.as_slice() == b"--objects".as_slice()
            {
                generator_values(number, objects)
            } else {
                None
            }
        }
        _ => None,
    }
}

// Reads the values of both options.
fn generator_values(number: &Text, objects: &Text) -> Option<Generator>
    ensures { result ≡ made_of (start_in number.now) (objects_in objects.now) }
{
    match (start_in(number), objects_in(objects)) {
        (Some(number), Some(objects)) => Some(Generator { number, objects }),
        _ => None,
    }
}

// The number of objects that the text spells.
fn objects_in(text: &Text) -> Option<u32>
    ensures { result ≡ objects_in text.now }
{
    match number_in(text) {
        Some(number) if number >= 1 && number <= 100_000 => Some(number as u32),
        _ => None,
    }
}
