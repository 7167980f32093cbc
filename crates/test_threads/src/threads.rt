//! Three workers over one lake, a thread each, whose requests change one branch.

use block_store::SureBlocks;
use commit_graph::RefExpr;
use fresh_lakes::fresh_lake;
use keeper::SureKeeper;
use lake_base::{Digest, RepoName, Text};
use lake_core::Lake;
use lake_host::{ServerEnd, serve_listeners};
use lake_pages::{Item, PageQuery};
use lake_values::Place;
use memory_machine::MemoryHost;
use std::alloc::Global;
use std::sync::Wait;
use std::test::Fail;
use std::thread::Threads;

// The head of a request that puts an object of five bytes behind a path.
static PUT_BEHIND: &str = " HTTP/1.1\r\nHost: localhost\r\nContent-Length: 5\r\n\r\nhello";

static COMMIT: &str = "POST /api/v1/repositories/quickstart/branches/main/commits HTTP/1.1\r\n\
Host: localhost\r\nContent-Type: application/json\r\nContent-Length: 15\r\n\r\n{\"message\":\"m\"}";

// Requests that put so many objects under a name, each of which is committed at once or not.
fn puts(alloc: Global, name: &str, objects: u32, commits: bool) -> Result<Vec<u8>, Fail> {
    let mut text = String::new(alloc);
    for number in 0..objects {
        text.push_str("POST /api/v1/repositories/quickstart/branches/main/objects?path=")?;
        text.push_str(name)?;
        text.push_str(format!(in alloc; "{number}")?.as_str())?;
        text.push_str(PUT_BEHIND)?;
        if commits {
            text.push_str(COMMIT)?;
        }
    }
    Ok(text.into_bytes())
}

// Requests for so many commits.
fn commits(alloc: Global, count: u32) -> Result<Vec<u8>, Fail> {
    let mut text = String::new(alloc);
    for _ in 0..count {
        text.push_str(COMMIT)?;
    }
    Ok(text.into_bytes())
}

// The only connection of a listener.
fn connection(alloc: Global, bytes: Vec<u8>) -> Result<Vec<Vec<u8>>, Fail> {
    let mut connections = Vec::new(alloc);
    connections.push(bytes)?;
    Ok(connections)
}

// What two workers are asked who put so many objects each, beside a third that makes four commits.
fn asked(alloc: Global, objects: u32, commits_each: bool) -> Result<Vec<Vec<Vec<u8>>>, Fail> {
    let mut listeners = Vec::new(alloc);
    listeners.push(connection(alloc, puts(alloc, "a", objects, commits_each)?)?)?;
    listeners.push(connection(alloc, puts(alloc, "b", objects, commits_each)?)?)?;
    listeners.push(connection(alloc, commits(alloc, 4)?)?)?;
    Ok(listeners)
}

// The lake behind three workers with these connections, and what they wrote.
fn served<R: Threads + Wait + Sync>(
    rt: &R,
    alloc: Global,
    listeners: Vec<Vec<Vec<u8>>>,
) -> Result<(Lake<SureKeeper>, MemoryHost), Fail> {
    let at = Text::of(String::from_str(alloc, "server:80")?);
    let (lake, seats) = fresh_lake(alloc, 3)?;
    let stores = vec![in alloc;
        SureBlocks::new(alloc),
        SureBlocks::new(alloc),
        SureBlocks::new(alloc),
    ]?;
    let mut host = MemoryHost::new(alloc, listeners);
    let (end, lake, _) = serve_listeners(rt, alloc, lake, seats, stores, &mut host, &at, Some(3));
    if end != ServerEnd::Done {
        return Err("the server failed")?;
    }
    Ok((lake, host))
}

// How often a text stands in what was written.
fn count_of(host: &MemoryHost, text: &str) -> usize {
    let mut count: usize = 0;
    for listener in host.returned() {
        for served in listener.returned() {
            let written = std::str::from_utf8(served.output.written()).unwrap_or("");
            count = count.saturating_add(written.split(text).count().saturating_sub(1));
        }
    }
    count
}

// The numbers of the objects that main has, staged and committed, in order.
fn numbers_of(alloc: Global, lake: &Lake<SureKeeper>) -> Result<Vec<u64>, Fail> {
    let repo = RepoName::read(alloc, b"quickstart")?;
    let main = RefExpr::read(alloc, b"main").ok().ok_or("an expression")?;
    let query = PageQuery {
        prefix: Text::of(String::new(alloc)),
        after: Text::of(String::new(alloc)),
        amount: 10_000,
        delimiter: Text::of(String::new(alloc)),
    };
    let (_, page) = lake.page(&repo, &main, &query).ok().ok_or("a page")?;
    let mut numbers = Vec::new(alloc);
    for item in page.items.as_slice() {
        if let Item::Object { entry, .. } = item {
            if let Place::Own { number, .. } = &entry.place {
                numbers.push(*number)?;
            }
        }
    }
    numbers.sort_unstable();
    Ok(numbers)
}

// The ids of the commits that were told, in order.
fn ids_told(alloc: Global, host: &MemoryHost) -> Result<Vec<Digest>, Fail> {
    let mut ids = Vec::new(alloc);
    for listener in host.returned() {
        for served in listener.returned() {
            let written = std::str::from_utf8(served.output.written()).unwrap_or("");
            for part in written.split("\"id\":\"").skip(1) {
                let digits = part.as_bytes().get(..64).unwrap_or(b"");
                ids.push(Digest::read(digits).ok().ok_or("an id")?)?;
            }
        }
    }
    ids.sort_unstable();
    Ok(ids)
}

// The ids of the commits that the log of main has, in order, but for the first commit, which has no parent.
fn ids_logged(alloc: Global, lake: &Lake<SureKeeper>) -> Result<Vec<Digest>, Fail> {
    let repo = RepoName::read(alloc, b"quickstart")?;
    let main = RefExpr::read(alloc, b"main").ok().ok_or("an expression")?;
    let (_, commits, _) = lake
        .log(&repo, &main, None, None, 10_000)
        .ok()
        .ok_or("a log")?;
    let mut ids = Vec::new(alloc);
    for (id, record) in commits.as_slice() {
        if !record.parents.as_slice().is_empty() {
            ids.push(*id)?;
        }
    }
    ids.sort_unstable();
    Ok(ids)
}

#[test]
fn each_object_is_put_under_a_number_of_its_own(rt: HostRuntime) -> Result<(), Fail> {
    let alloc = rt.alloc();
    let (lake, host) = served(&rt, alloc, asked(alloc, 1000, false)?)?;
    assert_eq!(rt; count_of(&host, "\"path_type\":\"object\""), 2000);
    let numbers = numbers_of(alloc, &lake)?;
    assert_eq!(rt; numbers.len(), 2000);
    for (at, number) in numbers.iter().enumerate() {
        assert_eq!(rt; at as u64, *number);
    }
    Ok(())
}

#[test]
fn each_commit_is_in_the_log_and_no_object_is_lost(rt: HostRuntime) -> Result<(), Fail> {
    let alloc = rt.alloc();
    let (lake, host) = served(&rt, alloc, asked(alloc, 200, true)?)?;
    let objects = count_of(&host, "\"path_type\":\"object\"");
    assert_eq!(rt; numbers_of(alloc, &lake)?.len(), objects);
    let ids = ids_told(alloc, &host)?;
    assert_eq!(rt; ids.len(), count_of(&host, "\"generation\":"));
    assert!(rt; objects > 0 && ids.len() > 0);
    assert!(rt; ids_logged(alloc, &lake)?.as_slice() == ids.as_slice());
    Ok(())
}
