//! The words of a server.
ghost use Rattle.std.specs.Prelude.{◌≡◌, ◌<◌, IfSome, option_map, [], ◌∷◌};
ghost use Rattle.program_words.specs.ProgramWords.{both_of, number_in, options_of, service_of, workers_in};

use crate::numbers::number_in;
use lake_base::Text;

/// What a server is asked to do.
#[derive(Clone, Copy, Debug, PartialEq, Eq)]
pub struct Service {
    /// How many workers it has: 1 to 64.
    pub workers: u32,
    /// How many connections they serve, all together. Without a number they go on.
    pub connections: Option<u64>,
}

/// Reads the words `run --listen HOST:PORT [--workers N] [--connections M]`, where N is 1 to 64, and else 4, and M has
/// 1 to 19 decimal digits: the address, and what is asked. None where the words are none of these. It takes no memory.
pub fn service_words(words: &[Text]) -> Option<(&Text, Service)>
    ensures reads { option_map (λ asked. record { at = asked.0.now; service = asked.1 }) result ≡ service_of words.now }
    ensures some { IfSome result (λ asked. 0 < asked.1.workers) }
{
    match words {
        [run, listen, at, options @ ..] => {
            if run.as_slice() == b"run".as_slice()
                && listen.as_slice() == b"--listen".as_slice()
                && !at.as_slice().is_empty()
            {
                match service_options(options) {
                    Some(service) => Some((at, service)),
                    None => None,
                }
            } else {
                None
            }
        }
        _ => None,
    }
}

/// Reads the options of a server.
pub(crate) fn service_options(options: &[Text]) -> Option<Service>
    ensures reads { result ≡ options_of options.now }
    ensures some { IfSome result (λ service. 0 < service.workers) }
{
    match options {
        [] => Some(Service {
            workers: 4,
            connections: None,
        }),
        [name, value] => one_option(name, value),
        [name, value, other, count] => both_options(name, value, other, count),
        _ => None,
    }
}

// Reads one option of a server.
fn one_option(name: &Text, value: &Text) -> Option<Service>
    ensures reads { result ≡ options_of (name.now ∷ value.now ∷ []) }
    ensures some { IfSome result (λ service. 0 < service.workers) }
{
    if name.as_slice() == b"--workers".as_slice() {
        match workers_in(value) {
            Some(workers) => Some(Service {
                workers,
                connections: None,
            }),
            None => None,
        }
    } else if name.as_slice() == b"--connections".as_slice() {
        match number_in(value) {
            Some(number) => Some(Service {
                workers: 4,
                connections: Some(number),
            }),
            None => None,
        }
    } else {
        None
    }
}

// Reads both options of a server.
fn both_options(name: &Text, value: &Text, other: &Text, count: &Text) -> Option<Service>
    ensures reads { result ≡ options_of (name.now ∷ value.now ∷ other.now ∷ count.now ∷ []) }
    ensures some { IfSome result (λ service. 0 < service.workers) }
{
    if name.as_slice() == b"--workers".as_slice()
        && other.as_slice() == b"--connections".as_slice()
    {
        both_values(value, count)
    } else {
        None
    }
}

// Reads the values of both options of a server.
fn both_values(value: &Text, count: &Text) -> Option<Service>
    ensures reads { result ≡ both_of (workers_in value.now) (number_in count.now) }
    ensures some { IfSome result (λ service. 0 < service.workers) }
{
    match (workers_in(value), number_in(count)) {
        (Some(workers), Some(number)) => Some(Service {
            workers,
            connections: Some(number),
        }),
        _ => None,
    }
}

// The number of workers that the text spells.
fn workers_in(text: &Text) -> Option<u32>
    ensures reads { result ≡ workers_in text.now }
    ensures some { IfSome result (λ workers. 0 < workers) }
{
    match number_in(text) {
        Some(number) if number >= 1 && number <= 64 => Some(number as u32),
        _ => None,
    }
}
