//! The words of a batch.
ghost use Rattle.std.specs.Prelude.{◌≡◌};
ghost use Rattle.program_words.specs.ProgramWords.{timing_of};

use crate::numbers::{is_number, number_of};
use lake_base::Text;

/// When the requests of a batch are made.
#[derive(Clone, Copy, Debug, PartialEq, Eq)]
pub enum Timing {
    /// Each at the clock's next reading.
    Clock,
    /// All at this moment, in seconds since 1970.
    At(u64),
}

/// Reads the words `batch` and `batch --at N`, where N has 1 to 19 decimal digits. None where the words
/// are none of these. It takes no memory.
pub fn batch_timing(words: &[Text]) -> Option<Timing>
    ensures { result ≡ timing_of words.now }
{
    match words {
        [batch] => {
            if batch.as_slice() == b"batch".as_slice() {
                Some(Timing::Clock)
            } else {
                None
            }
        }
        [batch, at, number] => {
            if batch.as_slice() == b"batch".as_slice()
                && at.as_slice() == b"--at".as_slice()
                && is_number(number.as_slice())
            {
                Some(Timing::At(number_of(number.as_str())))
            } else {
                None
            }
        }
        _ => None,
    }
}
