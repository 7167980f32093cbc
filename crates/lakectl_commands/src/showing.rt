//! What is shown of a reply, and the file that is saved.
ghost use Rattle.std.specs.Prelude.{◌≡◌, ℕ, Err, IfOk, IsSome, OnErr, OnOk};
ghost use Rattle.block_store.specs.Blocks.{FailsByFault};
ghost use Rattle.lakectl_commands.specs.SavedReplies.{MayHaveSaved, Saves, reply_shown};

use crate::files::Files;
use http_wire::Reply;
use lake_base::{NoMemory, Sequence, Text, Trouble};
use lakectl_shown::{Layout, Shown, show};
use std::alloc::Global;

// What is shown of a reply, or that there is none.
fn shown_by(alloc: Global, layout: &Layout, reply: &Option<Reply>) -> Result<Shown, NoMemory>
    ensures { IfOk result (λ shown. shown ≡ reply_shown layout.now reply.now) }
{
    match reply {
        Some(reply) => show(alloc, layout, reply.status, reply.body.as_slice()),
        None => Ok(Shown {
            out: Sequence::of(Vec::new(alloc)),
            err: Sequence::of(Vec::new(alloc)),
            status: 8,
        }),
    }
}

// The body of a reply is written to the file that is named, where the status is 0.
fn save<F: Files>(
    files: &mut F,
    name: &Option<Text>,
    reply: &Option<Reply>,
    status: u8,
) -> Result<(), Trouble>
    ensures saved { OnOk result (Saves name.now reply.now status (F.files files.old) (F.files files.new)) }
    ensures named { OnErr result (IsSome name.now × (status ≡ 0)) }
    ensures stopped { OnErr result (MayHaveSaved name.now (F.files files.old) (F.files files.new)) }
    ensures cause { FailsByFault (F.faults files.old) (F.faults files.new) result }
{
    match (name, reply) {
        (Some(name), Some(reply)) if status == 0 => files.write_file(name, reply.body.as_slice()),
        _ => Ok(()),
    }
}

/// Shows a reply by the command's layout, and saves its body where that is asked and all went well.
pub fn show_reply<F: Files>(
    alloc: Global,
    files: &mut F,
    layout: &Layout,
    name: &Option<Text>,
    reply: &Option<Reply>,
) -> Result<Shown, Trouble>
    ensures shown { IfOk result (λ shown. shown ≡ reply_shown layout.now reply.now) }
    ensures saved { IfOk result
        (λ shown. Saves name.now reply.now shown.status (F.files files.old) (F.files files.new)) }
    ensures named { result ≡ Err Trouble.Failed → IsSome name.now × ((reply_shown layout.now reply.now).status ≡ 0) }
    ensures stopped { OnErr result (MayHaveSaved name.now (F.files files.old) (F.files files.new)) }
    ensures cause { FailsByFault (F.faults files.old) (F.faults files.new) result }
{
    let shown = shown_by(alloc, layout, reply)?;
    save(files, name, reply, shown.status)?;
    Ok(shown)
}
