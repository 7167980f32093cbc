//! The words of what works on a lake in a folder.
ghost use Rattle.std.specs.Prelude.{◌≡◌, ◌<◌, IfSome, option_map};
ghost use Rattle.program_words.specs.declared.batch.Timing.TheVariants.{Clock};
ghost use Rattle.program_words.specs.ProgramWords.{
  command_in,
  is_folder,
  local_batch_of,
  local_command_of,
  local_serving_of,
  timed_command_of,
};

use crate::batch::Timing;
use crate::numbers::{is_number, number_of};
use crate::service::{Service, service_options};
use lake_base::Text;

/// Reads the words `batch --local FOLDER` and `batch --at N --local FOLDER`, where N has 1 to 19 decimal digits and
/// FOLDER isn't empty: when the requests are made, and the folder. None where the words are none of these. It takes no
/// memory.
pub fn local_batch_words(words: &[Text]) -> Option<(Timing, &Text)>
    ensures { option_map (λ asked. record { timing = asked.0; folder = asked.1.now }) result
        ≡ local_batch_of words.now }
{
    match words {
        [batch, local, folder] => {
            if batch.as_slice() == b"batch".as_slice() && is_folder(local, folder) {
                Some((Timing::Clock, folder))
            } else {
                None
            }
        }
        [batch, at, number, local, folder] => {
            if batch.as_slice() == b"batch".as_slice()
                && at.as_slice() == b"--at".as_slice()
                && is_number(number.as_slice())
                && is_folder(local, folder)
            {
                Some((Timing::At(number_of(number.as_str())), folder))
            } else {
                None
            }
        }
        _ => None,
    }
}

// Whether the words are `--local FOLDER`.
fn is_folder(local: &Text, folder: &Text) -> bool
    ensures { result ≡ is_folder local.now folder.now }
{
    local.as_slice() == b"--local".as_slice() && !folder.as_slice().is_empty()
}

/// Reads the words `ctl [--at N] --local FOLDER WORDS..`, where N has 1 to 19 decimal digits and FOLDER isn't empty:
/// when the request is made, the folder, and the words of the command, of which there may be none. None where the words
/// are none of these. It takes no memory.
pub fn local_command_words(words: &[Text]) -> Option<(Timing, &Text, &[Text])>
    ensures { option_map (λ asked. record { timing = asked.0; folder = asked.1.now; words = asked.2.now }) result
        ≡ local_command_of words.now }
{
    match words {
        [ctl, called @ ..] if ctl.as_slice() == b"ctl".as_slice() => timed_command(called),
        _ => None,
    }
}

// Reads the words `[--at N] --local FOLDER WORDS..`.
fn timed_command(words: &[Text]) -> Option<(Timing, &Text, &[Text])>
    ensures { option_map (λ asked. record { timing = asked.0; folder = asked.1.now; words = asked.2.now }) result
        ≡ timed_command_of words.now }
{
    match words {
        [at, number, called @ ..]
            if at.as_slice() == b"--at".as_slice() && is_number(number.as_slice()) => {
            command_in(Timing::At(number_of(number.as_str())), called)
        }
        called => command_in(Timing::Clock, called),
    }
}

// Reads the words `--local FOLDER WORDS..`.
fn command_in(timing: Timing, words: &[Text]) -> Option<(Timing, &Text, &[Text])>
    ensures { option_map (λ asked. record { timing = asked.0; folder = asked.1.now; words = asked.2.now }) result
        ≡ command_in timing words.now }
{
    match words {
        [local, folder, command @ ..] if is_folder(local, folder) => Some((
            timing, folder, command,
        )),
        _ => None,
    }
}

/// Reads the words `run --listen HOST:PORT --folder FOLDER [--workers N] [--connections M]`, where FOLDER isn't empty,
/// N is 1 to 64, and else 4, and M has 1 to 19 decimal digits: the address, the folder, and what is asked. None where
/// the words are none of these. It takes no memory.
pub fn local_service_words(words: &[Text]) -> Option<(&Text, &Text, Service)>
    ensures reads { option_map (λ asked. record { at = asked.0.now; folder = asked.1.now; service = asked.2 }) result
        ≡ local_serving_of words.now }
    ensures some { IfSome result (λ asked. 0 < asked.2.workers) }
{
    match words {
        [run, listen, at, named, folder, options @ ..] => {
            if run.as_slice() == b"run".as_slice()
                && listen.as_slice() == b"--listen".as_slice()
                && !at.as_slice().is_empty()
                && named.as_slice() == b"--folder".as_slice()
                && !folder.as_slice().is_empty()
            {
                match service_options(options) {
                    Some(service) => Some((at, folder, service)),
                    None => None,
                }
            } else {
                None
            }
        }
        _ => None,
    }
}
