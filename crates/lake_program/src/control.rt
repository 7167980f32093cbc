//! A command that goes to a server, and what is printed of it.
ghost use Rattle.std.specs.Prelude.{◌≡◌, ◌≤◌, ◌⊎◌, OnOk, OnErr};
ghost use Rattle.lake_base.specs.Outside.{Rose};
ghost use Rattle.http_wire.specs.SinkFronts.{Wrote, WroteFront};
ghost use Rattle.lakectl_client.specs.ClientCommands.{ClientView};
ghost use Rattle.lake_program.specs.Controls.{Controls, Prints, stop_number};

use crate::status::number_of;
use batch_lines::ExitStatus;
use http_wire::write::write_all;
use lake_base::{Failed, Sink, Text, Trouble};
use lakectl_client::{Connect, send_command};
use lakectl_commands::Files;
use lakectl_shown::Shown;
use std::alloc::Global;

/// Sends a command to the server at an address, `HOST:PORT`, and prints what it shows: its output on the sink, and then
/// its errors on `errors`. The answer is the number of the run's status: that which the command shows; 4 where a sink
/// failed; 5 where a file, the network or the connection did; 7 where memory ran out.
pub fn run_control<O: Sink, E: Sink, F: Files, N: Connect>(
    alloc: Global,
    at: &Text,
    words: &[Text],
    sink: &mut O,
    errors: &mut E,
    files: &mut F,
    network: &mut N,
) -> u8
    ensures controls { Controls
        (record {
          client = record {
            files = F.files files.old;
            file_faults = F.faults files.old;
            dial = record {
              dialed = N.dialed network.old;
              hung_up = N.hung_up network.old;
              faults = N.faults network.old;
            };
          };
          written = O.written sink.old;
          sink_faults = O.faults sink.old;
          errors = E.written errors.old;
          errors_faults = E.faults errors.old;
        })
        (record {
          client = record {
            files = F.files files.new;
            file_faults = F.faults files.new;
            dial = record {
              dialed = N.dialed network.new;
              hung_up = N.hung_up network.new;
              faults = N.faults network.new;
            };
          };
          written = O.written sink.new;
          sink_faults = O.faults sink.new;
          errors = E.written errors.new;
          errors_faults = E.faults errors.new;
        })
        (record { at = at.now; words = words.now }) result }
    ensures sink { O.faults sink.old ≤ O.faults sink.new }
    ensures errors { E.faults errors.old ≤ E.faults errors.new }
    ensures files { F.faults files.old ≤ F.faults files.new }
    ensures network { N.faults network.old ≤ N.faults network.new }
{
    match send_command(alloc, files, network, at, words) {
        Ok(shown) => print_shown(sink, errors, &shown),
        Err(trouble) => stop_number(trouble),
    }
}

/// Prints what a command shows: its output on the sink, and then its errors on `errors`. The answer is the number that
/// it shows, or 4 where a sink failed.
pub(crate) fn print_shown<O: Sink, E: Sink>(sink: &mut O, errors: &mut E, shown: &Shown) -> u8
    ensures prints { (before after : ClientView) → Prints
        (record {
          client = before;
          written = O.written sink.old;
          sink_faults = O.faults sink.old;
          errors = E.written errors.old;
          errors_faults = E.faults errors.old;
        })
        (record {
          client = after;
          written = O.written sink.new;
          sink_faults = O.faults sink.new;
          errors = E.written errors.new;
          errors_faults = E.faults errors.new;
        })
        shown.now result }
    ensures sink { O.faults sink.old ≤ O.faults sink.new }
    ensures errors { E.faults errors.old ≤ E.faults errors.new }
{
    match write_shown(sink, errors, shown) {
        Ok(()) => shown.status,
        Err(_) => number_of(ExitStatus::SinkFailed),
    }
}

// Writes the output to the one sink, and then the errors to the other.
fn write_shown<O: Sink, E: Sink>(sink: &mut O, errors: &mut E, shown: &Shown) -> Result<(), Failed>
    ensures whole { OnOk result (Wrote (O.written sink.old) (O.written sink.new) shown.now.out
        × Wrote (E.written errors.old) (E.written errors.new) shown.now.err) }
    ensures failed { OnErr result
        ((WroteFront (O.written sink.old) (O.written sink.new) shown.now.out × (errors.new ≡ errors.old)
        × Rose (O.faults sink.old) (O.faults sink.new))
        ⊎ (Wrote (O.written sink.old) (O.written sink.new) shown.now.out
        × WroteFront (E.written errors.old) (E.written errors.new) shown.now.err
        × Rose (E.faults errors.old) (E.faults errors.new))) }
    ensures sink { O.faults sink.old ≤ O.faults sink.new }
    ensures errors { E.faults errors.old ≤ E.faults errors.new }
{
    write_all(sink, shown.out.as_slice())?;
    write_all(errors, shown.err.as_slice())
}

// The number of a run that stopped.
fn stop_number(trouble: Trouble) -> u8
    ensures { result ≡ stop_number trouble }
{
    match trouble {
        Trouble::Failed => number_of(ExitStatus::HostFailed),
        Trouble::NoMemory => number_of(ExitStatus::OutOfMemory),
    }
}
