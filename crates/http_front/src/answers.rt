use super::raw::Raw;
use thiserror::Error;

/// What a call of the reader answers where it meets no fault.
#[derive(Drop)]
pub enum Next {
    /// The next complete request.
    Request(Raw),
    /// The input is at its end and nothing is left over, or an earlier call answered its last.
    Ended,
}

/// Why bytes are refused whatever follows them. The first three are of bytes that have no whole head yet, the others of the whole
/// head at their front, where the first that holds of `NoLength`, `BadLength` and `BodyTooLarge` is answered.
#[derive(Clone, Copy, Debug, PartialEq, Eq, Error)]
pub enum BadHttp {
    /// No continuation of the bytes begins with a head (RFC 9112, section 2.2).
    #[error("no head of a request")]
    NoHead,
    /// 16,384 bytes hold no whole head.
    #[error("a head of more than 16,384 bytes")]
    HeadTooLong,
    /// A header line more than 64 has begun (RFC 9112, section 5).
    #[error("a head of more than 64 headers")]
    TooManyHeaders,
    /// Content-Length stands there twice, or is not 1 to 19 decimal digits (RFC 9112, section 6.2).
    #[error("a bad Content-Length")]
    BadLength,
    /// A Transfer-Encoding is there (RFC 9112, section 6.1): the length of the body isn't told before the body.
    #[error("a Transfer-Encoding in place of a Content-Length")]
    NoLength,
    /// Content-Length is over 104,857,600 (RFC 9110, section 15.5.14).
    #[error("a body of more than 104,857,600 bytes")]
    BodyTooLarge,
}

/// Why a call of the reader answers no request. The reader keeps no byte behind any of these.
#[derive(Clone, Copy, Debug, PartialEq, Eq, Error)]
pub enum FrontFault {
    /// The bytes are refused.
    #[error("bad request: {0}")]
    Bad(BadHttp),
    /// The input is at its end, and so many bytes, at least one, came behind the request before that are the beginning of one.
    #[error("the input ends within a request, {0} bytes behind the one before")]
    CutShort(u64),
    /// A read failed, and the source counted it.
    #[error("the input failed")]
    ReadFault,
    /// There is no memory for the bytes or for the request.
    #[error("out of memory")]
    NoMemory,
}
