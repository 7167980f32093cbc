//! A batch of commands on the lake of a folder.
ghost use Rattle.std.specs.Prelude.{◌≡◌, ◌≢◌, ◌≤◌, ◌<◌, ◌^◌};
ghost use Rattle.lake_base.specs.Outside.{Rose};
ghost use Rattle.folder_batch.specs.FolderBatches.{FolderEnds};

use crate::desk::serve_at;
use crate::opening::{close_desk, open_desk};
use batch_lines::ExitStatus;
use lake_base::{Clock, Sink, Source, Text};
use lake_folders::Folders;
use lakectl_commands::Files;
use program_words::Timing;
use std::alloc::Global;
use std::sync::Wait;

/// Serves the lines of a source that end in the first `limit` bytes of it, and its last, where nothing ends it: each is
/// a command on one seat of the lake of a folder. What they show goes to the sink. The clock and the files are handed
/// back, and what was taken of the folder is given back. It waits.
pub fn serve_folder<R: Wait, S: Source, O: Sink, C: Clock, F: Files, D: Folders>(
    rt: &R,
    alloc: Global,
    folder: &Text,
    limit: u64,
    timing: Timing,
    source: &mut S,
    sink: &mut O,
    clock: C,
    files: F,
    folders: &mut D,
) -> (ExitStatus, C, F)
    requires { limit < 2 ^ 63 }
    ensures ends { FolderEnds folder.now timing limit 65536
        (record {
          pairs = D.pairs folders.old;
          objects = D.objects folders.old;
          keepers_back = D.keepers_back folders.old;
          stores_back = D.stores_back folders.old;
          faults = D.faults folders.old;
        })
        (record {
          pairs = D.pairs folders.new;
          objects = D.objects folders.new;
          keepers_back = D.keepers_back folders.new;
          stores_back = D.stores_back folders.new;
          faults = D.faults folders.new;
        })
        (record {
          left = S.left source.old;
          written = O.written sink.old;
          sink_faults = O.faults sink.old;
          readings = C.readings clock;
          files = F.files files;
        })
        (record {
          left = S.left source.new;
          written = O.written sink.new;
          sink_faults = O.faults sink.new;
          readings = C.readings result.1;
          files = F.files result.2;
        })
        result.0 }

    // No count falls, and each failure has its cause.
    ensures source { (S.faults source.old ≤ S.faults source.new)
        × (result.0 ≡ ExitStatus.SourceFailed → Rose (S.faults source.old) (S.faults source.new)) }
    ensures sink { (O.faults sink.old ≤ O.faults sink.new)
        × (result.0 ≡ ExitStatus.SinkFailed → Rose (O.faults sink.old) (O.faults sink.new)) }
    ensures files { F.faults files ≤ F.faults result.2 }
    ensures folders { D.faults folders.old ≤ D.faults folders.new }
    ensures statuses { result.0 ≢ ExitStatus.Usage }
{
    let desk = match open_desk(rt, alloc, folders, folder) {
        Ok(desk) => desk,
        Err(status) => return (status, clock, files),
    };
    let (status, desk, clock, files) = serve_at(
        rt, alloc, limit, timing, desk, source, sink, clock, files,
    );
    close_desk(rt, folders, desk);
    (status, clock, files)
}
