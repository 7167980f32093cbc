//! Messages: what a client asks for, and what it is told.

use lake_base::{Sequence, Text};

/// A field of a message's head. The value is bytes.
#[derive(Debug, Drop)]
pub struct Field {
    pub name: Text,
    pub value: Sequence<u8>,
}

/// What a client asks for.
#[derive(Debug, Drop)]
pub struct Request {
    pub method: Text,
    /// The path and the query, as they were sent.
    pub target: Sequence<u8>,
    pub fields: Sequence<Field>,
    pub body: Sequence<u8>,
    /// The client wants no further reply on this connection.
    pub close: bool,
}

/// What a client is told. A status of 204 has neither a content type nor a body.
#[derive(Debug, Drop)]
pub struct Reply {
    pub status: u16,
    pub content_type: Text,
    pub body: Sequence<u8>,
    /// The connection closes behind it.
    pub close: bool,
}
