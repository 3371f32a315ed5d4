//! The sequential engine as a desk, and the server of one connection over it.
ghost use Rattle.std.specs.Prelude.{◌≡◌};
ghost use Rattle.engine.specs.Solos.{as_asked};
ghost use Rattle.serving.specs.Completes.{Completes};
ghost use Rattle.serving.specs.Ends.{ReadCounts, WriteCounts};
ghost use Rattle.serving.specs.Served.{ServedAlone, itself, all_own, known_alone};

use super::solo::{Answer, Solo};
use conn_io::{Clock, Sink, Source};
use namespace_model::{Entry, Request};
use serving::{Desk, End, SubmitRefusal, serve};
use std::alloc::Global;

impl Desk for Solo {
    ghost use Rattle.serving.specs.Moments.{AsksOnce};

    type Kept = Entry;

    type Over = ();

    ghost entry_of = { itself };

    ghost entered = { as_asked };

    ghost known = { λ s. known_alone s.entries };

    ghost is_own = { λ s. all_own };

    ghost limits = { λ s. s.limits };

    ghost over = { λ s. tt };

    ghost conn = { λ s. 0 };

    ghost asks = { AsksOnce };

    fn requests_max(&self) -> u64 {
        self.journal().limits().requests_max()
    }

    fn answer<C: Clock>(
        &mut self,
        alloc: Global,
        clock: &mut C,
        index: u32,
        request: Request,
    ) -> Result<Vec<u8>, SubmitRefusal> {
        let moment = clock.now();
        let Answer { bytes, .. } = self.submit(alloc, 0, index, request, moment)?;
        Ok(bytes)
    }
}

/// Serves one connection: takes requests from the source, one after the other, puts each into the journal and writes its reply to the
/// sink, up to `requests_max` of the limits or to the first request that asks for the connection to be closed. It answers how many
/// replies were written whole, and how the serving ended.
///
/// `Done` comes where the source is at its end between two requests, and behind the reply to a request that closes; `CutShort` where the
/// source is at its end within a request; `BadRequest` where the bytes are no request that is taken, and `Busy` where the journal is full
/// for a request, each with a last reply; `ReadFault` and `WriteFault` where the source or the sink failed, after which nothing more is
/// written; `NoMemory` for want of memory.
pub fn serve_solo<S: Source, K: Sink, C: Clock>(
    alloc: Global,
    solo: &mut Solo,
    source: &mut S,
    sink: &mut K,
    clock: &mut C,
) -> (u64, End)
    ensures served { ServedAlone as_asked solo.old.limits (S.left source.old) (S.left source.new) (K.out sink.old) (K.out sink.new)
        (C.ahead clock.old) solo.old.entries solo.new.entries result.0 result.1 }
    ensures reads { ReadCounts (S.faults source.old) (S.faults source.new) result.1 }
    ensures writes { WriteCounts (K.faults sink.old) (K.faults sink.new) result.1 }
    ensures complete { Completes itself all_own as_asked (S.left source.old) (S.faults source.old) (S.faults source.new)
        (K.faults sink.old) (K.faults sink.new) (known_alone solo.old.entries) (known_alone solo.new.entries) result.1 }
    ensures limits { solo.new.limits ≡ solo.old.limits }
{
    serve(alloc, solo, source, sink, clock)
}
