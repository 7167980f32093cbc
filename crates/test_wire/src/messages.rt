//! Requests and their refusals, from bytes.

use http_wire::{Buffer, WireFault, read_request};
use lake_base::MemorySource;
use std::alloc::Global;
use std::test::Fail;

// A request with a body.
static UPLOAD: &[u8] =
    b"PUT /a?path=b HTTP/1.1\r\nHost: h\r\nContent-Length: 5\r\nConnection: x ,\tCLOSE\r\n\r\nhello";

// Why these bytes aren't read, their source giving so many at a time.
fn fault_of(alloc: Global, input: &[u8], piece: usize) -> Result<Option<WireFault>, Fail> {
    let mut source = MemorySource::new(
        Vec::from_slice(alloc, input)?,
        piece.max(1),
        Vec::new(alloc),
    );
    let mut buffer = Buffer::new(alloc);
    Ok(read_request(alloc, &mut source, &mut buffer).err())
}

#[test]
fn a_request_is_read_with_its_body(rt: HostRuntime) -> Result<(), Fail> {
    let alloc = rt.alloc();
    for piece in [1, 7, 4_096] {
        let mut bytes = Vec::from_slice(alloc, b"\r\n\r\n".as_slice())?;
        bytes.extend_from_slice(UPLOAD)?;
        bytes.extend_from_slice(b"GET / HTTP/1.0\r\n\r\n".as_slice())?;
        let mut source = MemorySource::new(bytes, piece, Vec::new(alloc));
        let mut buffer = Buffer::new(alloc);
        let upload = read_request(alloc, &mut source, &mut buffer)?;
        assert_eq!(rt; upload.method.as_str(), "PUT");
        assert_eq!(rt; upload.target.as_slice(), b"/a?path=b".as_slice());
        assert_eq!(rt; upload.fields.as_slice().len(), 3);
        assert_eq!(rt; upload.body.as_slice(), b"hello".as_slice());
        assert!(rt; upload.close);
        let look = read_request(alloc, &mut source, &mut buffer)?;
        assert_eq!(rt; look.method.as_str(), "GET");
        assert!(rt; look.close);
        assert_eq!(rt;
            read_request(alloc, &mut source, &mut buffer).err(),
            Some(WireFault::Ended)
        );
    }
    Ok(())
}

/// Each refusal, and where two stand together the one that comes first.
static REFUSALS: [(&[u8], WireFault); 17] = [
    (b"", WireFault::Ended),
    (b"\r\n\r\n", WireFault::Ended),
    (b"\r\n\r", WireFault::Truncated(1)),
    (b"GET", WireFault::Truncated(3)),
    (b"\nGET / HTTP/1.1\r\n\r\n", WireFault::BadHead),
    (b"\r\n\nGET / HTTP/1.1\r\n\r\n", WireFault::BadHead),
    (b"GET /\r\n\r\n", WireFault::BadHead),
    (
        b"GET / HTTP/2.0\r\nTransfer-Encoding: chunked\r\n\r\n",
        WireFault::BadHead,
    ),
    (
        b"GET / HTTP/1.1\r\nTransfer-Encoding: chunked\r\nContent-Length: x\r\n\r\n",
        WireFault::Chunked,
    ),
    (
        b"GET / HTTP/1.1\r\nTransfer-Encoding: chunked",
        WireFault::Truncated(42),
    ),
    (
        b"PUT / HTTP/1.1\r\nContent-Length: 5\r\nContent-Length: 5\r\n\r\nhello",
        WireFault::BadLength,
    ),
    (
        b"PUT / HTTP/1.1\r\nContent-Length: +5\r\n\r\nhello",
        WireFault::BadLength,
    ),
    (
        b"PUT / HTTP/1.1\r\nContent-Length:\r\n\r\n",
        WireFault::BadLength,
    ),
    (
        b"PUT / HTTP/1.1\r\nContent-Length: 00000000000000000001\r\n\r\nh",
        WireFault::BadLength,
    ),
    (
        b"PUT / HTTP/1.1\r\nContent-Length: 67108865\r\n\r\n",
        WireFault::BodyTooLong(67_108_865),
    ),
    (
        b"PUT / HTTP/1.1\r\nContent-Length: 9999999999999999999\r\n\r\n",
        WireFault::BodyTooLong(9_999_999_999_999_999_999),
    ),
    (
        b"PUT / HTTP/1.1\r\nContent-Length: 5\r\n\r\nhell",
        WireFault::Truncated(41),
    ),
];

#[test]
fn refusals_come_in_their_order(rt: HostRuntime) -> Result<(), Fail> {
    let alloc = rt.alloc();
    for (input, fault) in &REFUSALS {
        for piece in [1, 3, 4_096] {
            assert_eq!(rt; fault_of(alloc, input, piece)?, Some(*fault));
        }
    }
    Ok(())
}

#[test]
fn a_message_cut_short_is_truncated(rt: HostRuntime) -> Result<(), Fail> {
    let alloc = rt.alloc();
    for end in 1..UPLOAD.len() {
        let (front, _) = UPLOAD.split_at(end);
        assert_eq!(rt;
            fault_of(alloc, front, 16)?,
            Some(WireFault::Truncated(end as u64))
        );
    }
    Ok(())
}

#[test]
fn a_head_has_16_384_bytes(rt: HostRuntime) -> Result<(), Fail> {
    let alloc = rt.alloc();
    let mut head = Vec::from_slice(alloc, b"GET /".as_slice())?;
    head.resize(16_384 - 13, b'a')?;
    head.extend_from_slice(b" HTTP/1.1\r\n\r\n".as_slice())?;
    assert_eq!(rt; head.len(), 16_384);
    assert_eq!(rt; fault_of(alloc, &head, 1_000)?, None);
    let mut long = Vec::from_slice(alloc, b"\r\n".as_slice())?;
    long.extend_from_slice(&head)?;
    assert_eq!(rt;
        fault_of(alloc, &long, 1_000)?,
        Some(WireFault::HeadTooLong)
    );
    let mut pairs = Vec::new(alloc);
    for _ in 0..8_192 {
        pairs.extend_from_slice(b"\r\n".as_slice())?;
    }
    assert_eq!(rt;
        fault_of(alloc, &pairs, 4_096)?,
        Some(WireFault::HeadTooLong)
    );
    Ok(())
}
