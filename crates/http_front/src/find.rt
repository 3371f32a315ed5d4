ghost use Rattle.std.specs.Prelude.{◌≡◌, ◌≤◌, ◌<◌, length, map, take, All, IfOk};
ghost use Rattle.httparse.specs.Grammar.{HasNoRequest, MayBecomeRequest};
ghost use Rattle.httparse.specs.Spans.{header_bytes, IsHeaderWithin, IsRequestWithin, IsRequestOf};
ghost use Rattle.http_front.specs.Requests.{TellsBody};
ghost use Rattle.http_front.specs.Finds.{FindsAt, parts_at, fault_of};

use super::answers::BadHttp;
use super::framing::{Framing, framing_of};
use super::limits::{HEAD_MOST, HEADERS_MOST};
use super::lines::is_crowded;
use super::raw::Parts;
use file_data::Piece;
use head_text::HeaderList;
use httparse::spans::{EMPTY_HEADER_SPAN, HeaderSpan, RequestSpans, parse_request};
use httparse::{Error, Status};
use std::alloc::{AllocError, Global};

/// A head, and where its body stands.
#[derive(Drop)]
pub struct Head {
    /// The parts that it tells.
    pub parts: Parts,
    /// How many bytes it has.
    pub head_bytes: usize,
    /// How many bytes the body behind it has.
    pub body_bytes: usize,
}

/// What stands at the front of bytes.
#[derive(Drop)]
pub enum Found {
    /// A head that tells a body.
    Head(Head),
    /// The beginning of one, or nothing.
    Unfinished,
    /// No request that is taken, whatever follows.
    Bad(BadHttp),
}

// The names and the values that the spans cover.
fn copy_headers(alloc: Global, bytes: &[u8], spans: &[HeaderSpan]) -> Result<HeaderList, AllocError>
    requires { All (IsHeaderWithin (length bytes.now)) spans.now }
    ensures { IfOk result (λ list. list ≡ map (header_bytes bytes.now) spans.now) }
{
    let mut pairs = Vec::with_capacity(alloc, spans.len())?;
    for span in spans {
        let name = span.name.of(bytes).to_vec(alloc)?;
        let value = span.value.of(bytes).to_vec(alloc)?;
        pairs.push((name, value))?;
    }
    Ok(HeaderList::new(pairs))
}

// The parts that the spans of a head cover.
fn copy_parts(
    alloc: Global,
    bytes: &[u8],
    spans: &[HeaderSpan],
    head: &RequestSpans,
) -> Result<Parts, AllocError>
    requires { IsRequestWithin bytes.now spans.now head.now }
    ensures { IfOk result (λ parts. parts ≡ parts_at bytes.now spans.now head.now) }
{
    Ok(Parts {
        method: Piece::new(head.method.of(bytes).to_vec(alloc)?),
        target: Piece::new(head.path.of(bytes).to_vec(alloc)?),
        minor: head.version,
        headers: copy_headers(alloc, bytes, &spans[..head.headers])?,
    })
}

// A whole head at the front whose body has so many bytes.
fn take_head(
    alloc: Global,
    bytes: &[u8],
    spans: &[HeaderSpan],
    head: &RequestSpans,
    body_bytes: usize,
) -> Result<Found, AllocError>
    requires within { IsRequestWithin bytes.now spans.now head.now }
    requires is_head { IsRequestOf bytes.now spans.now head.now }
    requires short { length bytes.now ≤ HEAD_MOST }
    requires few { length spans.now ≤ HEADERS_MOST }
    requires tells { TellsBody (map (header_bytes bytes.now) (take head.now.headers spans.now)) body_bytes }
    ensures { IfOk result (FindsAt bytes.now) }
{
    let parts = copy_parts(alloc, bytes, spans, head)?;
    Ok(Found::Head(Head {
        parts,
        head_bytes: head.len,
        body_bytes,
    }))
}

// What a whole head at the front says.
fn judge_head(
    alloc: Global,
    bytes: &[u8],
    spans: &[HeaderSpan],
    head: &RequestSpans,
) -> Result<Found, AllocError>
    requires within { IsRequestWithin bytes.now spans.now head.now }
    requires is_head { IsRequestOf bytes.now spans.now head.now }
    requires short { length bytes.now ≤ HEAD_MOST }
    requires few { length spans.now ≤ HEADERS_MOST }
    ensures { IfOk result (FindsAt bytes.now) }
{
    match framing_of(bytes, &spans[..head.headers]) {
        Framing::Body(body_bytes) => take_head(alloc, bytes, spans, head, body_bytes),
        Framing::Coded => Ok(Found::Bad(BadHttp::NoLength)),
        Framing::BadLength => Ok(Found::Bad(BadHttp::BadLength)),
        Framing::TooLarge => Ok(Found::Bad(BadHttp::BodyTooLarge)),
    }
}

// What bytes say that begin with no head yet.
fn wait_for_head(bytes: &[u8]) -> Found
    requires short { length bytes.now ≤ HEAD_MOST }
    requires none { HasNoRequest bytes.now }
    requires goes_on { MayBecomeRequest bytes.now }
    ensures { FindsAt bytes.now result }
{
    if bytes.len() == HEAD_MOST {
        return Found::Bad(BadHttp::HeadTooLong);
    }
    if is_crowded(bytes) {
        return Found::Bad(BadHttp::TooManyHeaders);
    }
    Found::Unfinished
}

// The fault of bytes that the parser refuses.
fn fault_of(error: Error) -> BadHttp
    ensures { result ≡ fault_of error }
{
    match error {
        Error::TooManyHeaders => BadHttp::TooManyHeaders,
        _ => BadHttp::NoHead,
    }
}

/// What stands at the front of these bytes, at least one. The one error is want of memory.
pub fn find_head(alloc: Global, bytes: &[u8]) -> Result<Found, AllocError>
    requires some { 1 ≤ length bytes.now }
    requires short { length bytes.now ≤ HEAD_MOST }
    ensures { IfOk result (FindsAt bytes.now) }
{
    let mut spans = [EMPTY_HEADER_SPAN; HEADERS_MOST];
    match parse_request(bytes, &mut spans) {
        Ok(Status::Complete(head)) => judge_head(alloc, bytes, &spans, &head),
        Ok(Status::Partial) => Ok(wait_for_head(bytes)),
        Err(error) => Ok(Found::Bad(fault_of(error))),
    }
}
