//! The numbers by which the system knows how a run ended.
ghost use Rattle.std.specs.Prelude.{◌≡◌};
ghost use Rattle.batch_lines.specs.Status.{status_number};
ghost use Rattle.batch_lines.specs.declared.status.ExitStatus.{ExitStatus as Status};

use batch_lines::ExitStatus;

/// The number by which the system knows a status.
pub fn number_of(status: ExitStatus) -> u8
    ensures { result ≡ status_number status }
{
    match status {
        ExitStatus::Done => 0,
        ExitStatus::Refused => 1,
        ExitStatus::Usage => 2,
        ExitStatus::SourceFailed => 3,
        ExitStatus::SinkFailed => 4,
        ExitStatus::HostFailed => 5,
        ExitStatus::PairsRefused => 6,
        ExitStatus::OutOfMemory => 7,
    }
}

/// No two statuses have the same number. (A law: it does nothing.)
pub fn law_of_numbers()
    ensures { (status other : Status) → status_number status ≡ status_number other → status ≡ other }
{}
