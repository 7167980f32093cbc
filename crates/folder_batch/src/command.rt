//! One command on the lake of a folder.
ghost use Rattle.std.specs.Prelude.{◌≤◌};
ghost use Rattle.folder_batch.specs.FolderCommands.{FolderCommandEnds};

use crate::desk::command_at;
use crate::opening::{close_desk, open_desk};
use batch_lines::ExitStatus;
use folder_lakes::status_of_trouble;
use lake_base::{Clock, Text};
use lake_folders::Folders;
use lakectl_commands::Files;
use lakectl_shown::Shown;
use program_words::Timing;
use std::alloc::Global;
use std::sync::Wait;

/// Serves one command on the lake of a folder: what it shows, or the status of a run that stopped. The clock and the
/// files are handed back, and what was taken of the folder is given back. It waits.
pub fn serve_folder_command<R: Wait, C: Clock, F: Files, D: Folders>(
    rt: &R,
    alloc: Global,
    folder: &Text,
    timing: Timing,
    words: &[Text],
    clock: C,
    files: F,
    folders: &mut D,
) -> (Result<Shown, ExitStatus>, C, F)
    ensures ends { FolderCommandEnds folder.now timing words.now
        (record {
          pairs = D.pairs folders.old;
          objects = D.objects folders.old;
          keepers_back = D.keepers_back folders.old;
          stores_back = D.stores_back folders.old;
          faults = D.faults folders.old;
        })
        (record {
          pairs = D.pairs folders.new;
          objects = D.objects folders.new;
          keepers_back = D.keepers_back folders.new;
          stores_back = D.stores_back folders.new;
          faults = D.faults folders.new;
        })
        (record { readings = C.readings clock; files = F.files files })
        (record { readings = C.readings result.1; files = F.files result.2 })
        result.0 }
    ensures files { F.faults files ≤ F.faults result.2 }
    ensures folders { D.faults folders.old ≤ D.faults folders.new }
{
    let desk = match open_desk(rt, alloc, folders, folder) {
        Ok(desk) => desk,
        Err(status) => return (Err(status), clock, files),
    };
    let (ended, desk, clock, files) = command_at(rt, alloc, timing, words, desk, clock, files);
    close_desk(rt, folders, desk);
    match ended {
        Ok(shown) => (Ok(shown), clock, files),
        Err(trouble) => (Err(status_of_trouble(trouble)), clock, files),
    }
}
