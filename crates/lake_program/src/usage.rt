//! What is said of words that are none of the program's.
ghost use Rattle.std.specs.Prelude.{◌≡◌, ◌≤◌, ◌⊎◌};
ghost use Rattle.lake_base.specs.Outside.{Rose};
ghost use Rattle.http_wire.specs.SinkFronts.{Wrote, WroteFront};
ghost use Rattle.lake_program.specs.Run.{usage_text};

use batch_lines::ExitStatus;
use http_wire::write::write_all;
use lake_base::Sink;

const USAGE: &[u8] = b"Error: usage\n";

/// Shows that the words are a usage fault.
pub(crate) fn show_usage<E: Sink>(errors: &mut E) -> ExitStatus
    ensures shows { ((result ≡ ExitStatus.Usage) × Wrote (E.written errors.old) (E.written errors.new) usage_text)
        ⊎ ((result ≡ ExitStatus.SinkFailed) × WroteFront (E.written errors.old) (E.written errors.new) usage_text
        × Rose (E.faults errors.old) (E.faults errors.new)) }
    ensures later { E.faults errors.old ≤ E.faults errors.new }
{
    match write_all(errors, USAGE) {
        Ok(()) => ExitStatus::Usage,
        Err(_) => ExitStatus::SinkFailed,
    }
}
