//! The program as one call.
ghost use Rattle.std.specs.Prelude.{◌≡◌, IsNone, IsSome};
ghost use Rattle.lake_base.specs.declared.limits.TheConstants.{PATH_LIMIT};
ghost use Rattle.lake_model.specs.declared.history.TheConstants.{HISTORY_LIMIT};
ghost use Rattle.lakectl_verbs.specs.declared.line.TheConstants.{LINE_LIMIT};
ghost use Rattle.program_words.specs.ProgramWords.{
  BatchIn,
  CommandIn,
  LocalBatch,
  LocalCommand,
  LocalServing,
  Nothing,
  ServeIn,
  asked_of,
  control_of,
  generator_of,
  service_of,
  timing_of,
};
ghost use Rattle.lake_program.specs.Run.{Runs};

use crate::control::run_control;
use crate::limits::BATCH_LIMIT;
use crate::local::run_local;
use crate::server::serve_host;
use crate::status::number_of;
use folder_batch::serve_batch;
use folder_server::Host;
use lake_base::{Clock, Sink, Source, Text};
use lake_folders::Folders;
use lake_generator::generate;
use lakectl_client::Connect;
use lakectl_commands::Files;
use program_words::{batch_timing, control_words, generator_words, service_words};
use std::alloc::Global;
use std::sync::Wait;
use std::thread::Threads;

/// Runs the program with these words.
///
/// `batch`, or `batch --at N`: each line of the source is a command of `lakectl`, served on a fresh lake in memory;
/// what it shows goes to the sink. `run --listen HOST:PORT [--workers N] [--connections M]`: the host's listeners
/// at that address are served over HTTP, on a fresh lake in memory. `ctl [--at N] --server HOST:PORT WORDS..`: the
/// command of `lakectl` goes to the server at that address; its output goes to the sink, and its errors to
/// `errors`. `gen --number N --objects K`: lines that are made of the number are served as a batch at the moment 0,
/// and what they came to is told on the sink.
///
/// `batch [--at N] --local FOLDER`, `run --listen HOST:PORT --folder FOLDER ..` and `ctl [--at N] --local FOLDER
/// WORDS..` are such a batch, server and command on the lake for which a folder's pairs stand. What was taken of the
/// folder is given back. All other words are a usage fault, which is shown on `errors`. It waits.
///
/// The answer is the number of the run's status, and the clock and the files, which are handed back.
pub fn run<
    R: Threads + Wait + Sync,
    S: Source,
    O: Sink,
    E: Sink,
    C: Clock,
    F: Files,
    H: Host,
    N: Connect,
    D: Folders,
>(
    rt: &R,
    alloc: Global,
    words: &[Text],
    source: &mut S,
    sink: &mut O,
    errors: &mut E,
    clock: C,
    files: F,
    host: &mut H,
    network: &mut N,
    folders: &mut D,
) -> (u8, C, F)
    ensures run { Runs
        (record {
          kept = D.Pairs.kept;
          faults = D.Pairs.faults;
          calls = D.Pairs.calls;
          successes = D.Pairs.successes;
        })
        words.now
        (record {
          batch = record {
            left = S.left source.old;
            written = O.written sink.old;
            sink_faults = O.faults sink.old;
            readings = C.readings clock;
            files = F.files files;
          };
          host = record { opened = H.opened host.old; returned = H.returned host.old; faults = H.faults host.old };
          dial = record {
            dialed = N.dialed network.old;
            hung_up = N.hung_up network.old;
            faults = N.faults network.old;
          };
          folders = record {
            pairs = D.pairs folders.old;
            objects = D.objects folders.old;
            keepers_back = D.keepers_back folders.old;
            stores_back = D.stores_back folders.old;
            faults = D.faults folders.old;
          };
          errors = E.written errors.old;
          source_faults = S.faults source.old;
          errors_faults = E.faults errors.old;
          file_faults = F.faults files;
        })
        (record {
          batch = record {
            left = S.left source.new;
            written = O.written sink.new;
            sink_faults = O.faults sink.new;
            readings = C.readings result.1;
            files = F.files result.2;
          };
          host = record { opened = H.opened host.new; returned = H.returned host.new; faults = H.faults host.new };
          dial = record {
            dialed = N.dialed network.new;
            hung_up = N.hung_up network.new;
            faults = N.faults network.new;
          };
          folders = record {
            pairs = D.pairs folders.new;
            objects = D.objects folders.new;
            keepers_back = D.keepers_back folders.new;
            stores_back = D.stores_back folders.new;
            faults = D.faults folders.new;
          };
          errors = E.written errors.new;
          source_faults = S.faults source.new;
          errors_faults = E.faults errors.new;
          file_faults = F.faults result.2;
        })
        result.0 }

    // A batch touches neither `errors` nor host, network and folders, a server the host alone, a command neither the
    // source nor the clock nor the host and folders, the generator the sink alone, and a usage fault `errors` alone.
    ensures batch { IsSome (timing_of words.now)
        → (errors.new ≡ errors.old) × (host.new ≡ host.old) × (network.new ≡ network.old)
        × (folders.new ≡ folders.old) }
    ensures server { IsNone (timing_of words.now) → IsSome (service_of words.now)
        → (sink.new ≡ sink.old) × (source.new ≡ source.old) × (errors.new ≡ errors.old) × (result.1 ≡ clock)
        × (result.2 ≡ files) × (network.new ≡ network.old) × (folders.new ≡ folders.old) }
    ensures control { IsNone (timing_of words.now) → IsNone (service_of words.now) → IsSome (control_of words.now)
        → (source.new ≡ source.old) × (result.1 ≡ clock) × (host.new ≡ host.old) × (folders.new ≡ folders.old) }
    ensures generator { IsNone (timing_of words.now) → IsNone (service_of words.now) → IsNone (control_of words.now)
        → IsSome (generator_of words.now)
        → (source.new ≡ source.old) × (errors.new ≡ errors.old) × (result.1 ≡ clock) × (result.2 ≡ files)
        × (host.new ≡ host.old) × (network.new ≡ network.old) × (folders.new ≡ folders.old) }
    ensures usage { asked_of words.now ≡ Nothing
        → (sink.new ≡ sink.old) × (source.new ≡ source.old) × (result.1 ≡ clock) × (result.2 ≡ files)
        × (host.new ≡ host.old) × (network.new ≡ network.old) × (folders.new ≡ folders.old) }

    // On the lake of a folder a batch touches neither `errors` nor host and network, a server the host and the folder
    // alone, and a command neither the source nor host and network.
    ensures local { ((local : LocalBatch) → asked_of words.now ≡ BatchIn local
        → (errors.new ≡ errors.old) × (host.new ≡ host.old) × (network.new ≡ network.old))
        × ((local : LocalServing) → asked_of words.now ≡ ServeIn local
        → (sink.new ≡ sink.old) × (source.new ≡ source.old) × (errors.new ≡ errors.old) × (result.1 ≡ clock)
        × (result.2 ≡ files) × (network.new ≡ network.old))
        × ((local : LocalCommand) → asked_of words.now ≡ CommandIn local
        → (source.new ≡ source.old) × (host.new ≡ host.old) × (network.new ≡ network.old)) }

    ensures limits { (BATCH_LIMIT ≡ 1073741824) × (LINE_LIMIT ≡ 65536)
        × (HISTORY_LIMIT ≡ 4194304) × (PATH_LIMIT ≡ 1024) }
{
    if let Some(timing) = batch_timing(words) {
        let (status, clock, files) = serve_batch(
            rt,
            alloc,
            BATCH_LIMIT,
            timing,
            source,
            sink,
            clock,
            files,
        );
        return (number_of(status), clock, files);
    }
    if let Some((at, service)) = service_words(words) {
        let status = serve_host(rt, alloc, at, service, host);
        return (number_of(status), clock, files);
    }
    if let Some((at, command)) = control_words(words) {
        let mut files = files;
        let number = run_control(alloc, at, command, sink, errors, &mut files, network);
        return (number, clock, files);
    }
    if let Some(asked) = generator_words(words) {
        let status = generate(rt, alloc, asked, sink);
        return (number_of(status), clock, files);
    }
    run_local(
        rt, alloc, words, source, sink, errors, clock, files, host, folders,
    )
}
