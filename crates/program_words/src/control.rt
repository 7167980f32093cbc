//! The words of a command that goes to a server.
ghost use Rattle.std.specs.Prelude.{◌≡◌, option_map};
ghost use Rattle.program_words.specs.ProgramWords.{called_of, control_of};

use crate::numbers::is_number;
use lake_base::Text;

/// Reads the words `ctl [--at N] --server HOST:PORT WORDS..`, where N has 1 to 19 decimal digits: the address, and the
/// words of the command, of which there may be none. None where the words are none of these. It takes no memory.
///
/// (A server goes by its own clock: what `--at` says is read, and has no effect.)
pub fn control_words(words: &[Text]) -> Option<(&Text, &[Text])>
    ensures { option_map (λ control. record { at = control.0.now; words = control.1.now }) result
        ≡ control_of words.now }
{
    match words {
        [ctl, called @ ..] if ctl.as_slice() == b"ctl".as_slice() => match called {
            [at, number, called @ ..]
                if at.as_slice() == b"--at".as_slice() && is_number(number.as_slice()) => {
                called_words(called)
            }
            called => called_words(called),
        },
        _ => None,
    }
}

// Reads the words `--server HOST:PORT WORDS..`.
fn called_words(words: &[Text]) -> Option<(&Text, &[Text])>
    ensures { option_map (λ control. record { at = control.0.now; words = control.1.now }) result
        ≡ called_of words.now }
{
    match words {
        [server, at, command @ ..]
            if server.as_slice() == b"--server".as_slice() && !at.as_slice().is_empty() => {
            Some((at, command))
        }
        _ => None,
    }
}
