//! What a batch shows beside what is answered to its lines.

/// No memory is left.
pub const OUT_OF_MEMORY: &[u8] = b"Error: out of memory [507]\n";

/// More bytes than a batch may have.
pub const TOO_LONG: &[u8] = b"Error: batch too long\n";
