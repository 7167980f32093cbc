//! What the program does on the lake of a folder.
ghost use Rattle.std.specs.Prelude.{◌≡◌, ◌≤◌};
ghost use Rattle.lakectl_client.specs.Dialing.{DialView};
ghost use Rattle.lakectl_client.specs.ClientCommands.{ClientView};
ghost use Rattle.program_words.specs.ProgramWords.{
  BatchIn,
  CommandIn,
  LocalBatch,
  LocalCommand,
  LocalServing,
  Nothing,
  ServeIn,
  local_asked_of,
};
ghost use Rattle.lake_program.specs.Run.{CountsStay, IsPrinted, RunsAs};
ghost use Rattle.lake_program.specs.Views.{RunView};

use crate::control::print_shown;
use crate::limits::BATCH_LIMIT;
use crate::status::number_of;
use crate::usage::show_usage;
use batch_lines::ExitStatus;
use folder_batch::{serve_folder, serve_folder_command};
use folder_server::{Host, serve_folder_host};
use lake_base::{Clock, Sink, Source, Text};
use lake_folders::Folders;
use lakectl_commands::Files;
use lakectl_shown::Shown;
use program_words::{local_batch_words, local_command_words, local_service_words};
use std::alloc::Global;
use std::sync::Wait;
use std::thread::Threads;

/// Runs the program with words that ask for a batch, a server or a command on the lake of a folder; all others are a
/// usage fault. It waits.
pub(crate) fn run_local<
    R: Threads + Wait + Sync,
    S: Source,
    O: Sink,
    E: Sink,
    C: Clock,
    F: Files,
    H: Host,
    D: Folders,
>(
    rt: &R,
    alloc: Global,
    words: &[Text],
    source: &mut S,
    sink: &mut O,
    errors: &mut E,
    clock: C,
    files: F,
    host: &mut H,
    folders: &mut D,
) -> (u8, C, F)
    ensures run { (dial : DialView)
        → let before : RunView = record {
          batch = record {
            left = S.left source.old;
            written = O.written sink.old;
            sink_faults = O.faults sink.old;
            readings = C.readings clock;
            files = F.files files;
          };
          host = record { opened = H.opened host.old; returned = H.returned host.old; faults = H.faults host.old };
          dial = dial;
          folders = record {
            pairs = D.pairs folders.old;
            objects = D.objects folders.old;
            keepers_back = D.keepers_back folders.old;
            stores_back = D.stores_back folders.old;
            faults = D.faults folders.old;
          };
          errors = E.written errors.old;
          source_faults = S.faults source.old;
          errors_faults = E.faults errors.old;
          file_faults = F.faults files;
        } in
        let after : RunView = record {
          batch = record {
            left = S.left source.new;
            written = O.written sink.new;
            sink_faults = O.faults sink.new;
            readings = C.readings result.1;
            files = F.files result.2;
          };
          host = record { opened = H.opened host.new; returned = H.returned host.new; faults = H.faults host.new };
          dial = dial;
          folders = record {
            pairs = D.pairs folders.new;
            objects = D.objects folders.new;
            keepers_back = D.keepers_back folders.new;
            stores_back = D.stores_back folders.new;
            faults = D.faults folders.new;
          };
          errors = E.written errors.new;
          source_faults = S.faults source.new;
          errors_faults = E.faults errors.new;
          file_faults = F.faults result.2;
        } in
        RunsAs (record {
          kept = D.Pairs.kept;
          faults = D.Pairs.faults;
          calls = D.Pairs.calls;
          successes = D.Pairs.successes;
        }) (local_asked_of words.now) before after result.0
        × CountsStay before after }
    ensures batch { (local : LocalBatch) → local_asked_of words.now ≡ BatchIn local
        → (errors.new ≡ errors.old) × (host.new ≡ host.old) }
    ensures server { (local : LocalServing) → local_asked_of words.now ≡ ServeIn local
        → (sink.new ≡ sink.old) × (source.new ≡ source.old) × (errors.new ≡ errors.old) × (result.1 ≡ clock)
        × (result.2 ≡ files) }
    ensures command { (local : LocalCommand) → local_asked_of words.now ≡ CommandIn local
        → (source.new ≡ source.old) × (host.new ≡ host.old) }
    ensures usage { local_asked_of words.now ≡ Nothing
        → (sink.new ≡ sink.old) × (source.new ≡ source.old) × (result.1 ≡ clock) × (result.2 ≡ files)
        × (host.new ≡ host.old) × (folders.new ≡ folders.old) }
{
    if let Some((timing, folder)) = local_batch_words(words) {
        let (status, clock, files) = serve_folder(
            rt,
            alloc,
            folder,
            BATCH_LIMIT,
            timing,
            source,
            sink,
            clock,
            files,
            folders,
        );
        return (number_of(status), clock, files);
    }
    if let Some((at, folder, service)) = local_service_words(words) {
        let status = serve_folder_host(rt, alloc, at, folder, service, host, folders);
        return (number_of(status), clock, files);
    }
    if let Some((timing, folder, called)) = local_command_words(words) {
        let (ended, clock, files) = serve_folder_command(
            rt, alloc, folder, timing, called, clock, files, folders,
        );
        return (print_ended(sink, errors, ended), clock, files);
    }
    (number_of(show_usage(errors)), clock, files)
}

// Prints what a command shows, or nothing where it stopped: the number of the run's status.
fn print_ended<O: Sink, E: Sink>(
    sink: &mut O,
    errors: &mut E,
    ended: Result<Shown, ExitStatus>,
) -> u8
    ensures printed { (before after : ClientView) → IsPrinted
        (record {
          client = before;
          written = O.written sink.old;
          sink_faults = O.faults sink.old;
          errors = E.written errors.old;
          errors_faults = E.faults errors.old;
        })
        (record {
          client = after;
          written = O.written sink.new;
          sink_faults = O.faults sink.new;
          errors = E.written errors.new;
          errors_faults = E.faults errors.new;
        })
        ended result }
    ensures sink { O.faults sink.old ≤ O.faults sink.new }
    ensures errors { E.faults errors.old ≤ E.faults errors.new }
{
    match ended {
        Ok(shown) => print_shown(sink, errors, &shown),
        Err(status) => number_of(status),
    }
}
