//! What is told of the lines.
ghost use Rattle.std.specs.Prelude.{◌≡◌, ◌++◌, IfOk, OnOk, codes};
ghost use Rattle.std.specs.Fmt.{decimal};
ghost use Rattle.lake_generator.specs.Report.{told_text};

use lake_base::{Digest, NoMemory};
use std::alloc::Global;

// The words before a number and the number behind others.
fn push_count(alloc: Global, text: &mut Vec<u8>, words: &[u8], count: u64) -> Result<(), NoMemory>
    ensures { OnOk result (text.new.items ≡ text.old.items ++ words.now ++ decimal count) }
{
    let digits = count.to_string(alloc)?;
    text.extend_from_slice(words)?;
    text.extend_from_slice(digits.as_bytes())?;
    Ok(())
}

/// The four lines.
pub(crate) fn told_text(
    alloc: Global,
    uploads: u64,
    heads: u64,
    paths: u64,
    id: &Digest,
) -> Result<Vec<u8>, NoMemory>
    ensures { IfOk result (λ text. text.items ≡ told_text uploads heads paths id.now) }
{
    let id = id.hex(alloc)?;
    let mut text = Vec::new(alloc);
    push_count(alloc, &mut text, b"objects: ", uploads)?;
    push_count(alloc, &mut text, b"\ncommits: ", heads)?;
    push_count(alloc, &mut text, b"\npaths: ", paths)?;
    text.extend_from_slice(b"\nmetarange: ")?;
    text.extend_from_slice(id.as_slice())?;
    text.extend_from_slice(b"\n")?;
    Ok(text)
}
