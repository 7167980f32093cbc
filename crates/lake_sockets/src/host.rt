//! The network as a server's host, as thin as can be. It tells contracts nothing of what it gave, since no contract
//! can say what the system does.

ghost use Rattle.std.specs.Prelude.{◌≡◌, IfOk, length};

use crate::door::SocketDoor;
use lake_base::{Text, Trouble};
use lake_host::Host;
use lake_machine::SystemClock;
use std::alloc::Global;
use std::io::ErrorKind;
use std::net::{Net, TcpListener, TcpStream};
use std::{io, time};

/// The network that a runtime reaches, and its clock. A failed call is counted, unless it found no memory.
#[derive(Drop)]
pub struct SocketHost<'a, R: Net<Stream = TcpStream, Listener = TcpListener> + time::Clock + Sync> {
    rt: &'a R,
    alloc: Global,
    faults: u64,
}

impl<'a, R: Net<Stream = TcpStream, Listener = TcpListener> + time::Clock + Sync> SocketHost<
    'a,
    R,
> {
    /// The network and the clock of a runtime.
    pub fn new(rt: &'a R, alloc: Global) -> SocketHost<'a, R>
        ensures { result.faults ≡ 0 }
    {
        SocketHost {
            rt,
            alloc,
            faults: 0,
        }
    }
}

// So many doors, all of one listener at an address, `HOST:PORT`.
fn open<R: Net<Stream = TcpStream, Listener = TcpListener>>(
    rt: &R,
    alloc: Global,
    at: &str,
    count: usize,
) -> io::Result<Vec<SocketDoor>>
    ensures { IfOk result (λ doors. length doors.items ≡ count) }
{
    let mut doors = Vec::with_capacity(alloc, count)?;
    let listener = TcpListener::bind(rt, at)?;
    doors.try_resize_with(count, || listener.try_clone().map(SocketDoor::new))?;
    Ok(doors)
}

impl<'a, R: Net<Stream = TcpStream, Listener = TcpListener> + time::Clock + Sync> Host
    for SocketHost<'a, R> {
    ghost use Rattle.std.specs.Prelude.{None};

    type Door = SocketDoor;

    type Time = SystemClock<'a, R>;

    ghost returned = { λ _. None };

    ghost opened = { λ _. None };

    ghost faults = { λ host. host.faults };

    fn listen(&mut self, at: &Text, doors: usize) -> Result<Vec<SocketDoor>, Trouble> {
        match open(self.rt, self.alloc, at.as_str(), doors) {
            Ok(opened) => Ok(opened),
            Err(error) if error.kind() == ErrorKind::OutOfMemory => Err(Trouble::NoMemory),
            Err(_) => {
                self.faults = self.faults.saturating_add(1);
                Err(Trouble::Failed)
            }
        }
    }

    fn clock(&mut self) -> SystemClock<'a, R> {
        SystemClock::new(self.rt)
    }

    fn shut(&mut self, _door: SocketDoor) {}
}
