//! A command, from its words to what is shown.
ghost use Rattle.std.specs.Prelude.{◌≤◌};
ghost use Rattle.lakectl_client.specs.ClientCommands.{ClientEnds};

use crate::asking::ask;
use crate::connect::Connect;
use lake_base::{Text, Trouble};
use lakectl_commands::{Files, Sending, prepare, show_reply};
use lakectl_shown::Shown;
use std::alloc::Global;

/// Sends what the words of a command send to the server at an address, `HOST:PORT`, and answers what is shown of its
/// reply. A file that is named is read before that, and one that is saved is written behind it.
pub fn send_command<F: Files, N: Connect>(
    alloc: Global,
    files: &mut F,
    network: &mut N,
    at: &Text,
    words: &[Text],
) -> Result<Shown, Trouble>
    ensures ends { ClientEnds at.now words.now
        (record {
          files = F.files files.old;
          file_faults = F.faults files.old;
          dial = record {
            dialed = N.dialed network.old;
            hung_up = N.hung_up network.old;
            faults = N.faults network.old;
          };
        })
        (record {
          files = F.files files.new;
          file_faults = F.faults files.new;
          dial = record {
            dialed = N.dialed network.new;
            hung_up = N.hung_up network.new;
            faults = N.faults network.new;
          };
        })
        result }
    ensures files { F.faults files.old ≤ F.faults files.new }
    ensures network { N.faults network.old ≤ N.faults network.new }
{
    let Sending { text, layout, save } = match prepare(alloc, files, at, words)? {
        Ok(sending) => sending,
        Err(shown) => return Ok(shown),
    };
    let reply = ask(alloc, network, at, text.as_slice())?;
    show_reply(alloc, files, &layout, &save, &reply)
}
