//! What is shown of lines that send nothing.
ghost use Rattle.std.specs.Prelude.{◌≡◌, ◌++◌, ℕ, IfOk, codes};
ghost use Rattle.lakectl_commands.specs.ShownTexts.{
  bad_line_shown,
  error_shown,
  no_file_shown,
  nothing_shown,
  usage_shown,
};

use lake_base::{NoMemory, Sequence, Text};
use lakectl_shown::Shown;
use lakectl_verbs::UsageFault;
use std::alloc::Global;

/// Nothing is shown, and all is well. It takes no memory.
pub fn nothing_shown(alloc: Global) -> Shown
    ensures { result ≡ nothing_shown }
{
    Shown {
        out: Sequence::of(Vec::new(alloc)),
        err: Sequence::of(Vec::new(alloc)),
        status: 0,
    }
}

// An error of two pieces, with a status.
fn error_of(alloc: Global, front: &str, rest: &str, status: u8) -> Result<Shown, NoMemory>
    ensures { IfOk result (λ shown. shown ≡ error_shown (front.now ++ rest.now) status) }
{
    let mut err = Vec::new(alloc);
    err.extend_from_slice(b"Error: ")?;
    err.extend_from_slice(front.as_bytes())?;
    err.extend_from_slice(rest.as_bytes())?;
    err.extend_from_slice(b"\n")?;
    Ok(Shown {
        out: Sequence::of(Vec::new(alloc)),
        err: Sequence::of(err),
        status,
    })
}

/// What is shown of a fault of words.
pub fn usage_shown(alloc: Global, fault: &UsageFault) -> Result<Shown, NoMemory>
    ensures { IfOk result (λ shown. shown ≡ usage_shown fault.now) }
{
    match fault {
        UsageFault::NoCommand => error_of(alloc, "no command", "", 2),
        UsageFault::Unknown => error_of(alloc, "unknown command", "", 2),
        UsageFault::Words => error_of(alloc, "bad words", "", 2),
        UsageFault::Uri => error_of(alloc, "bad URI", "", 2),
        UsageFault::Value(name) => error_of(alloc, "bad value for ", name.as_str(), 2),
        UsageFault::NoMemory => error_of(alloc, "out of memory", "", 2),
    }
}

/// What is shown where a file that is named isn't there.
pub fn no_file_shown(alloc: Global, name: &Text) -> Result<Shown, NoMemory>
    ensures { IfOk result (λ shown. shown ≡ no_file_shown name.now) }
{
    error_of(alloc, "no such file: ", name.as_str(), 1)
}

/// What is shown of a line that is too long or isn't UTF-8.
pub fn bad_line_shown(alloc: Global) -> Result<Shown, NoMemory>
    ensures { IfOk result (λ shown. shown ≡ bad_line_shown) }
{
    error_of(alloc, "bad line", "", 1)
}
