//! A server over a host in memory, which may refuse to listen.

use block_store::SureBlocks;
use fresh_lakes::fresh_lake;
use lake_base::Text;
use lake_host::{ServerEnd, serve_listeners};
use memory_machine::MemoryHost;
use std::alloc::Global;
use std::sync::Wait;
use std::test::Fail;
use std::thread::Threads;

// How often the host refuses, how the server of two workers without connections ends, and how many listeners are given
// back.
static RUNS: [(u64, ServerEnd, usize); 2] = [(0, ServerEnd::Done, 2), (1, ServerEnd::Failed, 0)];

// How a server of two workers ends over a host.
fn serve<R: Threads + Wait + Sync>(
    rt: &R,
    alloc: Global,
    host: &mut MemoryHost,
) -> Result<ServerEnd, Fail> {
    let at = Text::of(String::from_str(alloc, "server:80")?);
    let (lake, seats) = fresh_lake(alloc, 2)?;
    let stores = vec![in alloc; SureBlocks::new(alloc), SureBlocks::new(alloc)]?;
    let (end, _, _) = serve_listeners(rt, alloc, lake, seats, stores, host, &at, Some(0));
    Ok(end)
}

#[test]
fn a_host_that_refuses_ends_the_server(rt: HostRuntime) -> Result<(), Fail> {
    for (refusals, end, back) in &RUNS {
        let mut host = MemoryHost::new(rt.alloc(), Vec::new(rt.alloc())).refusing(*refusals);
        let ended = serve(&rt, rt.alloc(), &mut host)?;
        assert_eq!(rt; ended, *end, "after {refusals} refusals");
        assert_eq!(rt; host.returned().len(), *back, "after {refusals} refusals");
    }
    Ok(())
}
