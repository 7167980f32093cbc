//! Bytes are sent to a server, and its reply is read.
ghost use Rattle.std.specs.Prelude.{◌≤◌};
ghost use Rattle.lakectl_client.specs.AskedServers.{Asks, IsExchange};

use crate::connect::Connect;
use http_wire::Reply;
use http_wire::write::write_all;
use lake_base::{Sink, Source, Text, Trouble};
use lakectl_commands::replies::next_reply;
use std::alloc::Global;

/// Sends bytes to the server at an address, and reads the reply, over one connection, which is hung up then. None where
/// what came back is no reply.
pub(crate) fn ask<N: Connect>(
    alloc: Global,
    network: &mut N,
    at: &Text,
    text: &[u8],
) -> Result<Option<Reply>, Trouble>
    ensures asks { Asks at.now text.now
        (record { dialed = N.dialed network.old; hung_up = N.hung_up network.old; faults = N.faults network.old })
        (record { dialed = N.dialed network.new; hung_up = N.hung_up network.new; faults = N.faults network.new })
        result }
    ensures later { N.faults network.old ≤ N.faults network.new }
{
    let (mut input, mut output) = network.connect(at)?;
    let reply = exchange(alloc, &mut input, &mut output, text);
    network.hang_up(input, output);
    reply
}

// Writes the bytes, and reads the reply behind that.
fn exchange<S: Source, O: Sink>(
    alloc: Global,
    input: &mut S,
    output: &mut O,
    text: &[u8],
) -> Result<Option<Reply>, Trouble>
    ensures { IsExchange text.now
        (record {
          unread = S.left input.old;
          read_faults = S.faults input.old;
          written = O.written output.old;
          write_faults = O.faults output.old;
        })
        (record {
          unread = S.left input.new;
          read_faults = S.faults input.new;
          written = O.written output.new;
          write_faults = O.faults output.new;
        })
        result }
{
    match write_all(output, text) {
        Ok(()) => next_reply(alloc, input),
        Err(_) => Err(Trouble::Failed),
    }
}
