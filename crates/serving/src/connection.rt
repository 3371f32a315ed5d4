ghost use Rattle.std.specs.Prelude.{◌≡◌, [], length, map, IfOk, IfErr, OnErr};
ghost use Rattle.op_decode.specs.Decoded.{decoded};
ghost use Rattle.serving.specs.Answered.{Answered, HasFull};
ghost use Rattle.serving.specs.Completes.{Completes};
ghost use Rattle.serving.specs.Ends.{ReadCounts, WriteCounts};
ghost use Rattle.serving.specs.Known.{HasItsOwn, Grew};
ghost use Rattle.serving.specs.Moments.{Paced};
ghost use Rattle.serving.specs.Served.{Served};

use super::desk::Desk;
use super::end::End;
use super::last::{refuse_bytes, refuse_request};
use super::refusal::SubmitRefusal;
use super::writing::write_all;
use conn_io::{Clock, Sink, Source};
use http_front::{Next, Raw, Reader};
use op_decode::decode;
use std::alloc::Global;

/// Serves one connection: takes requests from the source, one after the other, has the desk answer each and writes its
/// reply to the sink, up to `requests_max` of the limits or to the first request that asks for the connection to be
/// closed. It answers how many replies were written whole, and how the serving ended.
///
/// `Done` comes where the source is at its end between two requests, and behind the reply to a request that closes;
/// `CutShort` where the source is at its end within a request; `BadRequest` where the bytes are no request that is
/// taken, and `Busy` where the journal is full for a request, each with a last reply; `ReadFault` and `WriteFault`
/// where the source or the sink failed, after which nothing more is written; `NoMemory` for want of memory.
pub fn serve<D: Desk, S: Source, K: Sink, C: Clock>(
    alloc: Global,
    desk: &mut D,
    source: &mut S,
    sink: &mut K,
    clock: &mut C,
) -> (u64, End)
    ensures served { Served D.entry_of (D.is_own desk.old) D.entered (Paced D.asks 0)
        (D.conn desk.old) (D.limits desk.old) (S.left source.old) (S.left source.new) (K.out sink.old) (K.out sink.new)
        (C.ahead clock.old) (D.known desk.old) (D.known desk.new) result.0 result.1 }
    ensures reads { ReadCounts (S.faults source.old) (S.faults source.new) result.1 }
    ensures writes { WriteCounts (K.faults sink.old) (K.faults sink.new) result.1 }
    ensures complete { Completes D.entry_of (D.is_own desk.old) D.entered
        (S.left source.old) (S.faults source.old) (S.faults source.new)
        (K.faults sink.old) (K.faults sink.new) (D.known desk.old) (D.known desk.new) result.1 }
    ensures same_limits { D.limits desk.new ≡ D.limits desk.old }
    ensures same_conn { D.conn desk.new ≡ D.conn desk.old }
    ensures same_own { D.is_own desk.new ≡ D.is_own desk.old }
    ensures same_over { D.over desk.new ≡ D.over desk.old }
{
    let most = desk.requests_max();
    let mut reader = Reader::new(alloc);
    'serving: for index in 0..most {
        let raw = match reader.next(source) {
            Ok(Next::Request(raw)) => raw,
            Ok(Next::Ended) => return (index, End::Done),
            Err(fault) => return (index, refuse_bytes(alloc, sink, fault)),
        };
        let response = match answer(alloc, desk, clock, index as u32, &raw) {
            Ok(response) => response,
            Err(refusal) => return (index, refuse_request(alloc, sink, refusal)),
        };
        match write_all(sink, response.text.as_slice()) {
            Ok(()) => {}
            Err(_) => return (index, End::WriteFault),
        }
        if response.closes {
            return (index + 1, End::Done);
        }
    }
    (most, End::Spent)
}

// The text of a reply, and whether the connection ends behind it.
#[derive(Drop)]
struct Response {
    text: Vec<u8>,
    closes: bool,
}

// Has the desk answer one raw request.
fn answer<D: Desk, C: Clock>(
    alloc: Global,
    desk: &mut D,
    clock: &mut C,
    index: u32,
    raw: &Raw,
) -> Result<Response, SubmitRefusal>
    requires own { HasItsOwn (D.is_own desk.old) (D.known desk.old) }
    ensures answered { IfOk result (λ response. Answered D.entry_of (D.is_own desk.old) D.entered D.asks
        (D.conn desk.old) (D.known desk.old) (D.known desk.new)
        (C.ahead clock.old) (C.ahead clock.new) index (decoded raw.now) response.text.items) }
    ensures closes { IfOk result (λ response. response.closes ≡ (decoded raw.now).close) }
    ensures refused { OnErr result (Grew (D.is_own desk.old) (D.known desk.old) (D.known desk.new) []) }
    ensures full { IfErr result (λ refusal.
        HasFull refusal (map D.entry_of (D.known desk.new).seen) (D.limits desk.old) (length raw.now.body)) }
    ensures same_limits { D.limits desk.new ≡ D.limits desk.old }
    ensures same_conn { D.conn desk.new ≡ D.conn desk.old }
    ensures same_own { D.is_own desk.new ≡ D.is_own desk.old }
    ensures same_over { D.over desk.new ≡ D.over desk.old }
{
    let request = decode(alloc, raw)?;
    let closes = request.close;
    let text = desk.answer(alloc, clock, index, request)?;
    Ok(Response { text, closes })
}
