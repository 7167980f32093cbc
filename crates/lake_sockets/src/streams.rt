//! The two directions of one TCP connection, each as thin as can be. They tell contracts nothing of what they carry,
//! since no contract can say what a socket gives or takes.

ghost use Rattle.std.specs.Prelude.{◌≡◌, ◌≤◌, length, IfOk};

use lake_base::{Failed, Sink, Source};
use std::io::{self, ErrorKind, Read, Write};
use std::net::{Shutdown, TcpStream};
use std::time::Duration;

// How many seconds a read or a write of a session may wait for the client.
const PATIENCE: u64 = 60;

// How many seconds a read may wait for what a client still sends once its session is over.
const LAST_PATIENCE: u64 = 1;

// How often a read that the system interrupts is tried.
const MOST_TRIES: u32 = 1_000;

// How much of what a client still sends is read at a time once its session is over, in bytes.
const LAST_ROOM: usize = 4_096;

// How often that is done: 1 MiB at most.
const MOST_LAST_READS: u32 = 256;

/// What a client sends. A failed read is counted, and one that waits for more than 60 seconds.
#[derive(Drop)]
pub struct SocketSource {
    stream: TcpStream,
    faults: u64,
}

impl SocketSource {
    /// The source of a connection.
    pub fn new(stream: TcpStream) -> SocketSource
        ensures { result.faults ≡ 0 }
    {
        SocketSource { stream, faults: 0 }
    }
}

// Reads, and again where the system interrupts it.
fn read_patiently(stream: &mut TcpStream, room: &mut [u8]) -> io::Result<usize>
    ensures { IfOk result (λ count. count ≤ length room.old) }
{
    for _ in 0..MOST_TRIES {
        match stream.read(room) {
            Err(error) if error.kind() == ErrorKind::Interrupted => {}
            answer => return answer,
        }
    }
    Err(io::Error::from(ErrorKind::Interrupted))
}

impl Source for SocketSource {
    ghost use Rattle.std.specs.Prelude.{None};

    ghost left = { λ _. None };

    ghost faults = { λ source. source.faults };

    fn read(&mut self, room: &mut [u8]) -> Result<usize, Failed> {
        match read_patiently(&mut self.stream, room) {
            Ok(count) => Ok(count),
            Err(_) => {
                self.faults = self.faults.saturating_add(1);
                Err(Failed)
            }
        }
    }
}

/// What is sent to a client. A failed write is counted, one that waits for more than 60 seconds, and one that takes
/// nothing of a piece that isn't empty.
#[derive(Drop)]
pub struct SocketSink {
    stream: TcpStream,
    faults: u64,
}

impl SocketSink {
    /// The sink of a connection.
    pub fn new(stream: TcpStream) -> SocketSink
        ensures { result.faults ≡ 0 }
    {
        SocketSink { stream, faults: 0 }
    }
}

impl Sink for SocketSink {
    ghost use Rattle.std.specs.Prelude.{None};

    ghost written = { λ _. None };

    ghost faults = { λ sink. sink.faults };

    fn write(&mut self, bytes: &[u8]) -> Result<usize, Failed> {
        match self.stream.write(bytes) {
            Ok(count) if count > 0 || bytes.is_empty() => Ok(count),
            _ => {
                self.faults = self.faults.saturating_add(1);
                Err(Failed)
            }
        }
    }
}

// The two directions of a connection: two handles of one stream, which sends each piece at once and waits for the
// client no longer than 60 seconds. It takes no memory.
pub(crate) fn both_ways(stream: TcpStream) -> io::Result<(SocketSource, SocketSink)> {
    let patience = Some(Duration::from_secs(PATIENCE));
    stream.set_nodelay(true)?;
    stream.set_read_timeout(patience)?;
    stream.set_write_timeout(patience)?;
    let other = stream.try_clone()?;
    Ok((SocketSource::new(stream), SocketSink::new(other)))
}

// Ends a connection. The client is told that no more will come, and what it still sends is read and forgotten, up to
// 1 MiB and to a wait of a second: were the connection closed with bytes unread, the client would see it broken, and
// might lose the end of the last reply. It takes no memory, and can't fail.
pub(crate) fn hang_up(input: SocketSource, output: SocketSink) {
    let mut stream = input.stream;
    let patience = Some(Duration::from_secs(LAST_PATIENCE));
    if output.stream.shutdown(Shutdown::Write).is_err()
        || stream.set_read_timeout(patience).is_err()
    {
        return;
    }
    let mut room = [0u8; LAST_ROOM];
    for _ in 0..MOST_LAST_READS {
        match stream.read(&mut room) {
            Ok(count) if count > 0 => {}
            _ => return,
        }
    }
}
