/// The greatest length of a head, in bytes. The empty lines before it and the empty line behind it count.
pub const HEAD_MOST: usize = 16_384;

/// The greatest number of headers of a request.
pub const HEADERS_MOST: usize = 64;

/// The greatest length of a body, in bytes.
pub const BODY_MOST: usize = 104_857_600;
