//! Words of an image.

/// Bytes of a stub.
pub const STUB_BYTES: u64 = 16;
