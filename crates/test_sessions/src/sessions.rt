//! Requests of sessions, and what is written then. A request's lines end with a line feed alone; of what is written the
//! carriage returns are left out.

ghost use Rattle.std.specs.Prelude.{◌≡◌};

use block_store::SureBlocks;
use fresh_lakes::lone_lake;
use keeper::SureKeeper;
use lake_base::{FixedClock, MemorySink, MemorySource};
use lake_session::{SessionReport, serve_session};
use shared_lake::{LakeSeat, Shared};
use std::alloc::Global;
use std::sync::Wait;
use std::test::Fail;

// An object is uploaded as `curl` does it, read, asked for where none is, and listed; and then what is no request.
const OBJECTS: &str = "\
POST /api/v1/repositories/quickstart/branches/main/objects?path=a/1 HTTP/1.1
Host: localhost:8000
User-Agent: curl/8.5.0
Accept: */*
Content-Type: application/octet-stream
Content-Length: 5
Expect: 100-continue

helloGET /api/v1/repositories/quickstart/refs/main/objects?path=a/1 HTTP/1.1
Host: localhost:8000

GET /api/v1/repositories/quickstart/refs/main/objects?path=a HTTP/1.1
Host: localhost:8000

GET /api/v1/repositories/quickstart/refs/main/objects/ls?prefix=&delimiter=/&amount=1 HTTP/1.1
Host: localhost:8000

GET /api/v1/nothing HTTP/1.1
Host: localhost:8000

GET /api/v1/repositories HTTP/1.1
Transfer-Encoding: chunked

";

const OBJECTS_WRITTEN: &str = "\
HTTP/1.1 201 Created
Content-Type: application/json
Content-Length: 256

{\"checksum\":\"2cf24dba5fb0a30e26e83b2ac5b9e29e1b161e5c1fa7425e73043362938b9824\",\
\"content_type\":\"application/octet-stream\",\"metadata\":{},\"mtime\":1700000000,\"path\":\"a/1\",\
\"path_type\":\"object\",\"physical_address\":\"lake://objects/0000000000000000\",\"size_bytes\":5}\
HTTP/1.1 200 OK
Content-Type: application/octet-stream
Content-Length: 5

helloHTTP/1.1 404 Not Found
Content-Type: application/json
Content-Length: 31

{\"message\":\"path not found: a\"}HTTP/1.1 200 OK
Content-Type: application/json
Content-Length: 136

{\"pagination\":{\"has_more\":false,\"max_per_page\":1000,\"next_offset\":\"\",\"results\":1},\
\"results\":[{\"path\":\"a/\",\"path_type\":\"common_prefix\"}]}HTTP/1.1 404 Not Found
Content-Type: application/json
Content-Length: 27

{\"message\":\"no such route\"}HTTP/1.1 501 Not Implemented
Content-Type: application/json
Content-Length: 41
Connection: close

{\"message\":\"chunked bodies are not read\"}
Wire(Chunked) behind 5, seen 0 to 2";

// What is written of these requests, each read in pieces of so many bytes, and how the session ended.
fn served<W: Wait>(wait: &W, alloc: Global, requests: &str, piece: usize) -> Result<String, Fail> {
    let Ok((lake, mut seat, _)) = lone_lake(alloc) else {
        return Err("no lake")?;
    };
    let bytes = Vec::from_slice(alloc, requests.as_bytes())?;
    let mut source = MemorySource::new(bytes, piece.max(1), Vec::new(alloc));
    let mut sink = MemorySink::new(alloc, 1_000, Vec::new(alloc));
    let report = session(wait, alloc, &lake, &mut seat, &mut source, &mut sink);
    words(alloc, sink.written(), &report)
}

// One session of a seat, over a store of objects of its own.
fn session<W: Wait>(
    wait: &W,
    alloc: Global,
    lake: &Shared<SureKeeper>,
    seat: &mut LakeSeat,
    source: &mut MemorySource,
    sink: &mut MemorySink,
) -> SessionReport
    requires { seat.old.turn ≡ lake.now }
{
    let mut blocks = SureBlocks::new(alloc);
    let mut clock = FixedClock::new(1_700_000_000);
    serve_session(
        wait,
        alloc,
        lake,
        seat,
        &mut blocks,
        &mut clock,
        source,
        sink,
    )
}

// What was written, without carriage returns, and how the session ended.
fn words(alloc: Global, written: &[u8], report: &SessionReport) -> Result<String, Fail> {
    let text = String::from_utf8_lossy(alloc, written)?.replace(alloc, "\r", "")?;
    let count = report.placed.as_slice().len();
    let end = format!(in alloc; "{:?}", report.end)?;
    Ok(format!(in alloc;
        "{text}\n{end} behind {count}, seen {} to {}",
        report.from, report.to
    )?)
}

#[test]
fn objects_are_served_however_requests_are_cut(rt: HostRuntime) -> Result<(), Fail> {
    let whole = served(&rt, rt.alloc(), OBJECTS, 1_000_000)?;
    assert_eq!(rt; whole.as_str(), OBJECTS_WRITTEN);
    let cut = served(&rt, rt.alloc(), OBJECTS, 1)?;
    assert_eq!(rt; cut.as_str(), OBJECTS_WRITTEN);
    Ok(())
}
