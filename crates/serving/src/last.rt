ghost use Rattle.std.specs.Prelude.{◌≡◌, IfOk};
ghost use Rattle.reply_text.specs.LastReply.{last_reply_text};
ghost use Rattle.serving.specs.Ends.{WriteCounts};
ghost use Rattle.serving.specs.Refuses.{RefusesBytes, RefusesRequest};
ghost use Rattle.serving.specs.Written.{WritesLast, LastCounts};

use super::end::End;
use super::refusal::SubmitRefusal;
use super::writing::write_all;
use conn_io::Sink;
use http_front::FrontFault;
use reply_text::{Last, last_reply};
use std::alloc::{AllocError, Global};
use thiserror::Error;

/// Ends a connection at a fault of the reader, with a last reply where the bytes are no request that is taken.
pub fn refuse_bytes<K: Sink>(alloc: Global, sink: &mut K, fault: FrontFault) -> End
    ensures refused { RefusesBytes (K.out sink.old) (K.out sink.new) fault result }
    ensures counts { WriteCounts (K.faults sink.old) (K.faults sink.new) result }
{
    match fault {
        FrontFault::Bad(bad) => match write_last(alloc, sink, Last::Bad(bad)) {
            Ok(()) => End::BadRequest(bad),
            Err(LastStop::WriteFault) => End::WriteFault,
            Err(LastStop::NoMemory) => End::NoMemory,
        },
        FrontFault::CutShort(count) => End::CutShort(count),
        FrontFault::ReadFault => End::ReadFault,
        FrontFault::NoMemory => End::NoMemory,
    }
}

/// Ends a connection at a request that was not taken, with a last reply where the journal is full.
pub fn refuse_request<K: Sink>(alloc: Global, sink: &mut K, refusal: SubmitRefusal) -> End
    ensures refused { RefusesRequest (K.out sink.old) (K.out sink.new) refusal result }
    ensures counts { WriteCounts (K.faults sink.old) (K.faults sink.new) result }
{
    match refusal {
        SubmitRefusal::Full(kind) => match write_last(alloc, sink, Last::Busy) {
            Ok(()) => End::Busy(kind),
            Err(LastStop::WriteFault) => End::WriteFault,
            Err(LastStop::NoMemory) => End::NoMemory,
        },
        SubmitRefusal::NoMemory => End::NoMemory,
    }
}

/// Why a last reply is not out whole.
#[derive(Clone, Copy, Debug, PartialEq, Eq, Error)]
pub enum LastStop {
    /// The sink failed, and counted it.
    #[error("the output failed")]
    WriteFault,
    /// There is no memory for its text, and nothing of it is out.
    #[error("out of memory")]
    NoMemory,
}

/// Writes the reply that ends a connection.
pub fn write_last<K: Sink>(alloc: Global, sink: &mut K, last: Last) -> Result<(), LastStop>
    ensures written { WritesLast (K.out sink.old) (K.out sink.new) (last_reply_text last) result }
    ensures counts { LastCounts (K.faults sink.old) (K.faults sink.new) result }
{
    let Ok(text) = spell_last(alloc, last) else {
        return Err(LastStop::NoMemory);
    };
    match write_all(sink, text.as_slice()) {
        Ok(()) => Ok(()),
        Err(_) => Err(LastStop::WriteFault),
    }
}

/// The text of the reply that ends a connection. The one error is want of memory.
pub fn spell_last(alloc: Global, last: Last) -> Result<Vec<u8>, AllocError>
    ensures { IfOk result (λ text. text.items ≡ last_reply_text last) }
{
    let mut text = Vec::new(alloc);
    last_reply(alloc, last, &mut text)?;
    Ok(text)
}
