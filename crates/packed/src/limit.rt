/// The largest number of bytes of a file, a metadata root or a heap: 2^30.
///
/// Longer input is rejected before anything is read, so that each offset in it fits in 31 bits.
pub const BYTE_LIMIT: usize = 1 << 30;

/// The largest number of bytes of a blob, a user string or a signature: 2^29 - 1, the greatest length that can be
/// encoded (II.23.2, II.24.2.4).
pub const BLOB_LIMIT: usize = (1 << 29) - 1;
