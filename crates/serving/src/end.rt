use commit_journal::Full;
use http_front::BadHttp;

/// How the serving of a connection ended.
#[derive(Clone, Copy, Debug, PartialEq, Eq)]
pub enum End {
    /// The source was at its end between two requests, or the last request asked for the connection to be closed.
    Done,
    /// As many requests were answered as a connection may send, and the last did not ask for it to be closed.
    Spent,
    /// The source was at its end within a request, so many bytes behind the last whole one.
    CutShort(u64),
    /// The bytes are no request that the service takes. A last reply says so.
    BadRequest(BadHttp),
    /// The journal has no room for a further request. A last reply says so.
    Busy(Full),
    /// The source failed, and counted it.
    ReadFault,
    /// The sink failed, and counted it.
    WriteFault,
    /// There was no memory for a further request or for a last reply.
    NoMemory,
}
