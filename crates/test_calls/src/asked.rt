//! What a request asks, from its bytes.
use api_forms::{FormFault, print, read_call};
use http_wire::{Buffer, read_request};
use lake_base::MemorySource;
use lake_calls::CallReply;
use std::alloc::Global;
use std::process::Abort;
use std::test::Fail;

/// A request with what is due: its method and target, further lines of its head, its body, and what it asks.
pub(crate) type Row = [&'static str; 4];

// What a request asks: its call as it is shown for debugging, or the status and body by which it is refused.
fn asked(alloc: Global, message: &str) -> Result<String, Fail> {
    let bytes = Vec::from_slice(alloc, message.as_bytes())?;
    let mut source = MemorySource::new(bytes, 4_096, Vec::new(alloc));
    let mut buffer = Buffer::new(alloc);
    let request = read_request(alloc, &mut source, &mut buffer)?;
    match read_call(alloc, request) {
        Ok(call) => Ok(format!(in alloc; "{call:?}")?),
        Err(FormFault::Refused(refusal)) => {
            let reply = print(alloc, CallReply::Malformed(refusal))?;
            let body = str::from_utf8(reply.body.as_slice())?;
            Ok(format!(in alloc; "{} {body}", reply.status)?)
        }
        Err(FormFault::NoMemory) => Ok(String::from_str(alloc, "out of memory")?),
    }
}

// Each request asks what its row has.
pub(crate) fn ask_what_is_due(rt: &impl Abort, alloc: Global, rows: &[Row]) -> Result<(), Fail> {
    for [line, fields, body, due] in rows {
        let length = body.len();
        let message = format!(in alloc;
            "{line} HTTP/1.1\r\n{fields}Content-Length: {length}\r\n\r\n{body}"
        )?;
        let found = asked(alloc, message.as_str())?;
        assert_eq!(rt; found.as_str(), *due, "at {line}");
    }
    Ok(())
}
