/// The greatest depth to which types may nest in a signature. This limit is the library's own.
pub const DEPTH_LIMIT: u8 = 128;
