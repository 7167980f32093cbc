//! The limit of a batch: the greatest count that is taken.

/// Bytes of a batch.
pub const BATCH_LIMIT: u64 = 1_073_741_824;
