//! Replies: what was written reads back, and what others send is refused by its first fault.
use http_wire::{Buffer, Reply, WireFault, read_reply, write_no_memory, write_reply};
use lake_base::{MemorySink, MemorySource, Sequence};
use std::alloc::Global;
use std::process::Abort;
use std::test::Fail;
use test_values::text;

// A reply: its status, its content type, its body and whether the connection closes.
type Row = (u16, &'static str, &'static str, bool);

// Replies as they are written, and as they read back.
static REPLIES: [(Row, Row); 5] = [
    (
        (200, "text/plain", "hello", false),
        (200, "text/plain", "hello", false),
    ),
    ((201, "a/b", "", true), (201, "a/b", "", true)),
    ((200, " a/b ", "x", false), (200, "a/b", "x", false)),
    (
        (404, "a/\u{e9}", "{}", false),
        (404, "application/octet-stream", "{}", false),
    ),
    ((204, "text/plain", "hello", true), (204, "", "", true)),
];

// The reply of a row.
fn reply_of(alloc: Global, row: Row) -> Result<Reply, Fail> {
    let (status, content_type, body, close) = row;
    Ok(Reply {
        status,
        content_type: text(alloc, content_type)?,
        body: Sequence::of(Vec::from_slice(alloc, body.as_bytes())?),
        close,
    })
}

// The bytes of all the replies, and the one of want of memory behind them.
fn written(alloc: Global) -> Result<Vec<u8>, Fail> {
    let mut sink = MemorySink::new(alloc, 7, Vec::new(alloc));
    for (sent, _) in &REPLIES {
        let reply = reply_of(alloc, *sent)?;
        write_reply(&mut sink, &reply)?;
    }
    write_no_memory(&mut sink, true)?;
    Ok(Vec::from_slice(alloc, sink.written())?)
}

// A reply that was read is that of a row.
fn is_row(rt: &impl Abort, reply: &Reply, row: Row) {
    let (status, content_type, body, close) = row;
    assert_eq!(rt; reply.status, status);
    assert_eq!(rt; reply.content_type.as_str(), content_type);
    assert_eq!(rt; reply.body.as_slice(), body.as_bytes());
    assert_eq!(rt; reply.close, close);
}

#[test]
fn what_is_written_reads_back(rt: HostRuntime) -> Result<(), Fail> {
    let alloc = rt.alloc();
    for piece in [1, 7, 4_096] {
        let mut source = MemorySource::new(written(alloc)?, piece, Vec::new(alloc));
        let mut buffer = Buffer::new(alloc);
        for (_, due) in &REPLIES {
            let reply = read_reply(alloc, &mut source, &mut buffer)?;
            is_row(&rt, &reply, *due);
        }
        let last = read_reply(alloc, &mut source, &mut buffer)?;
        is_row(
            &rt,
            &last,
            (
                507,
                "application/json",
                "{\"message\":\"out of memory\"}",
                true,
            ),
        );
        assert_eq!(rt;
            read_reply(alloc, &mut source, &mut buffer).err(),
            Some(WireFault::Ended)
        );
    }
    Ok(())
}

// A reply of some server.
static SENT: &[u8] = b"HTTP/1.1 200 OK\r\nServer: x\r\ncontent-length: 5\r\n\r\nhello";

// Why these bytes aren't read as a reply, some reads of their source failing.
fn fault_of(alloc: Global, input: &[u8], fails: Vec<u64>) -> Result<Option<WireFault>, Fail> {
    let mut source = MemorySource::new(Vec::from_slice(alloc, input)?, 16, fails);
    let mut buffer = Buffer::new(alloc);
    Ok(read_reply(alloc, &mut source, &mut buffer).err())
}

/// Each refusal, and where two stand together the one that comes first.
static REFUSALS: [(&[u8], Option<WireFault>); 13] = [
    (b"", Some(WireFault::Ended)),
    (b"HTTP", Some(WireFault::Truncated(4))),
    (b"GET / HTTP/1.1\r\n\r\n", Some(WireFault::BadHead)),
    (b"HTTP/2.0 200 OK\r\n\r\n", Some(WireFault::BadHead)),
    (b"HTTP/1.1 20 OK\r\n\r\n", Some(WireFault::BadHead)),
    (
        b"HTTP/1.1 200 OK\r\na b: c\r\nTransfer-Encoding: chunked\r\n\r\n",
        Some(WireFault::BadHead),
    ),
    (
        b"HTTP/1.1 200 OK\r\nTransfer-Encoding: chunked\r\nContent-Length: x\r\n\r\n",
        Some(WireFault::Chunked),
    ),
    (
        b"HTTP/1.1 200 OK\r\nContent-Length: 5\r\nContent-Length: 5\r\n\r\nhello",
        Some(WireFault::BadLength),
    ),
    (
        b"HTTP/1.1 200 OK\r\nContent-Length: -5\r\n\r\nhello",
        Some(WireFault::BadLength),
    ),
    (
        b"HTTP/1.1 200 OK\r\nContent-Length: 18446744073709551616\r\n\r\nhello",
        Some(WireFault::BadLength),
    ),
    (
        b"HTTP/1.1 200 OK\r\nContent-Length: 9999999999999999999\r\n\r\nhello",
        Some(WireFault::Truncated(61)),
    ),
    (b"HTTP/1.1 200 \r\n\r\nrest", None),
    (
        b"HTTP/1.0 503 Service Unavailable\r\nConnection: close\r\n\r\n",
        None,
    ),
];

#[test]
fn a_reply_is_refused_by_its_first_fault(rt: HostRuntime) -> Result<(), Fail> {
    let alloc = rt.alloc();
    for (input, due) in &REFUSALS {
        assert_eq!(rt; fault_of(alloc, input, Vec::new(alloc))?, *due);
    }
    for end in 1..SENT.len() {
        let (front, _) = SENT.split_at(end);
        assert_eq!(rt;
            fault_of(alloc, front, Vec::new(alloc))?,
            Some(WireFault::Truncated(end as u64))
        );
    }
    Ok(())
}

#[test]
fn a_failure_of_any_read_or_write_is_told(rt: HostRuntime) -> Result<(), Fail> {
    let alloc = rt.alloc();
    for number in 1..=4 {
        let due = Some(WireFault::ReadFault);
        assert_eq!(rt; fault_of(alloc, SENT, vec![in alloc; number]?)?, due);
    }
    assert_eq!(rt; fault_of(alloc, SENT, vec![in alloc; 5]?)?, None);
    let whole = written(alloc)?;
    let (sent, _) = REPLIES[0];
    for number in 1..=5 {
        let reply = reply_of(alloc, sent)?;
        let mut sink = MemorySink::new(alloc, 16, vec![in alloc; number]?);
        assert!(rt; write_reply(&mut sink, &reply).is_err());
        assert!(rt; whole.starts_with(sink.written()));
    }
    Ok(())
}
