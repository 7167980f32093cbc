//! The reply in the bytes that come back.
ghost use Rattle.std.specs.Prelude.{◌≡◌, ◌≢◌, IfOk, None};
ghost use Rattle.block_store.specs.Blocks.{FailsByFault};
ghost use Rattle.http_wire.specs.declared.fault.WireFault.{WireFault as AnyFault};
ghost use Rattle.lakectl_commands.specs.SentCommands.{IsReplyRead, ReadsReplyOf};

use crate::source::SliceSource;
use http_wire::{Buffer, Reply, WireFault, read_reply};
use lake_base::{NoMemory, Source, Trouble};
use std::alloc::Global;

/// The reply at the front of what a source gives. None where none is there.
pub fn next_reply<S: Source>(alloc: Global, source: &mut S) -> Result<Option<Reply>, Trouble>
    ensures read { IfOk result (ReadsReplyOf (S.left source.old) (S.left source.new)) }
    ensures cause { FailsByFault (S.faults source.old) (S.faults source.new) result }
{
    let mut buffer = Buffer::new(alloc);
    match read_reply(alloc, source, &mut buffer) {
        Ok(reply) => Ok(Some(reply)),
        Err(fault) => no_reply(fault),
    }
}

// No reply is there, unless the source failed, or no memory was left to read one.
fn no_reply(fault: WireFault) -> Result<Option<Reply>, Trouble>
    ensures none { IfOk result (λ reply. (reply ≡ None) × (fault ≢ AnyFault.NoMemory) × (fault ≢ AnyFault.ReadFault)) }
    ensures failed { result ≡ Err Trouble.Failed → fault ≡ AnyFault.ReadFault }
{
    match fault {
        WireFault::NoMemory => Err(Trouble::NoMemory),
        WireFault::ReadFault => Err(Trouble::Failed),
        _ => Ok(None),
    }
}

/// The reply at the front of these bytes. None where none is there.
pub fn reply_in(alloc: Global, bytes: &[u8]) -> Result<Option<Reply>, NoMemory>
    ensures { IfOk result (IsReplyRead bytes.now) }
{
    let mut source = SliceSource::new(bytes);
    match next_reply(alloc, &mut source) {
        Ok(reply) => Ok(reply),
        Err(Trouble::NoMemory) => Err(NoMemory),
        Err(Trouble::Failed) => unreachable!(),
    }
}
