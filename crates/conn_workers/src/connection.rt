//! One connection, served by a worker.
ghost use Rattle.std.specs.Prelude.{◌≡◌};
ghost use Rattle.engine.specs.Solos.{as_asked};
ghost use Rattle.path_locks.specs.Alike.{limits_of};
ghost use Rattle.path_locks.specs.Views.{HoldsNothing, IsSeatAgain};
ghost use Rattle.serving.specs.Completes.{Completes};
ghost use Rattle.serving.specs.Ends.{ReadCounts, WriteCounts};
ghost use Rattle.serving.specs.Moments.{Paced};
ghost use Rattle.serving.specs.Served.{Served};
ghost use Rattle.striped_store.specs.Views.{FindsOneJournal, number_of_pass};
ghost use Rattle.parted_namespace.specs.Namespace.{namespace};
ghost use Rattle.conn_workers.specs.Counted.{entry_in, is_by};
ghost use Rattle.conn_workers.specs.Desks.{AsksLast, IsSeated, known_by};
ghost use Rattle.conn_workers.specs.Workers.{IsReady};

use super::counted::CountedPass;
use super::desk::{PassDesk, Place};
use super::workers::Worker;
use commit_journal::Keeper;
use conn_io::{Clock, Sink, Source};
use inode_tree::Placed;
use service_workers::Service;
use serving::{End, serve};
use std::sync::Wait;

/// How the serving of a connection ended.
#[derive(Clone, Copy, Debug, PartialEq, Eq)]
pub struct Closed {
    /// How many replies were written whole.
    pub answered: u64,
    pub end: End,
}

/// Serves one connection: takes requests from the source, one after the other, puts each into the journal and writes its reply to the
/// sink, up to `requests_max` of the limits or to the first request that asks for the connection to be closed. It may wait for other
/// passes, whose entries may come between its own.
///
/// The worker's pass is one of the service, with its limits, and holds nothing, before and after. `Done` comes where the source is at its
/// end between two requests, and behind the reply to a request that closes; `Spent` where as many requests were answered as a connection
/// may send; `CutShort` where the source is at its end within a request; `BadRequest` where the bytes are no request that is taken, and
/// `Busy` where the journal is full for a request, each with a last reply; `ReadFault` and `WriteFault` where the source or the sink failed,
/// after which nothing more is written; `NoMemory` for want of memory, and where the journal's keeper failed.
pub fn serve_connection<R: Wait, K: Keeper<Placed>, C: Clock, S: Source, O: Sink>(
    rt: &R,
    service: &Service<K>,
    worker: &mut Worker<K, C>,
    conn: u32,
    source: &mut S,
    sink: &mut O,
) -> Closed
    requires ready { IsReady service.now worker.old.pass.pass }
    ensures ready { IsReady service.now worker.new.pass.pass }
    ensures again { IsSeatAgain worker.old.pass.pass.seat worker.new.pass.pass.seat }
    ensures found { FindsOneJournal namespace worker.new.pass.pass }
    ensures served { Served entry_in (is_by (number_of_pass worker.old.pass.pass)) as_asked (Paced AsksLast 0) conn service.now.limits
        (S.left source.old) (S.left source.new) (O.out sink.old) (O.out sink.new) (C.ahead worker.old.clock)
        (known_by worker.old.pass.pass) (known_by worker.new.pass.pass) result.answered result.end }
    ensures reads { ReadCounts (S.faults source.old) (S.faults source.new) result.end }
    ensures writes { WriteCounts (O.faults sink.old) (O.faults sink.new) result.end }
    ensures complete { Completes entry_in (is_by (number_of_pass worker.old.pass.pass)) as_asked
        (S.left source.old) (S.faults source.old) (S.faults source.new) (O.faults sink.old) (O.faults sink.new)
        (known_by worker.old.pass.pass) (known_by worker.new.pass.pass) result.end }
{
    worker.pass.settle(rt, service);
    let Worker { pass, clock } = worker;
    let place = Place { rt, service };
    serve_by(place, pass, clock, conn, source, sink)
}

// Serves one connection by a pass that has settled.
fn serve_by<R: Wait, K: Keeper<Placed>, C: Clock, S: Source, O: Sink>(
    place: Place<'_, R, K>,
    pass: &mut CountedPass<K>,
    clock: &mut C,
    conn: u32,
    source: &mut S,
    sink: &mut O,
) -> Closed
    requires seated { IsSeated place.service.now pass.old.pass }
    ensures again { IsSeatAgain pass.old.pass.seat pass.new.pass.seat }
    ensures nothing { HoldsNothing pass.new.pass.seat }
    ensures found { FindsOneJournal namespace pass.new.pass }
    ensures served { Served entry_in (is_by (number_of_pass pass.old.pass)) as_asked (Paced AsksLast 0) conn (limits_of pass.old.pass.seat)
        (S.left source.old) (S.left source.new) (O.out sink.old) (O.out sink.new) (C.ahead clock.old)
        (known_by pass.old.pass) (known_by pass.new.pass) result.answered result.end }
    ensures reads { ReadCounts (S.faults source.old) (S.faults source.new) result.end }
    ensures writes { WriteCounts (O.faults sink.old) (O.faults sink.new) result.end }
    ensures complete { Completes entry_in (is_by (number_of_pass pass.old.pass)) as_asked
        (S.left source.old) (S.faults source.old) (S.faults source.new) (O.faults sink.old) (O.faults sink.new)
        (known_by pass.old.pass) (known_by pass.new.pass) result.end }
{
    let Place { rt, service } = place;
    let mut desk = PassDesk {
        rt,
        service,
        pass,
        conn,
    };
    let (answered, end) = serve(service.alloc(), &mut desk, source, sink, clock);
    let PassDesk {
        rt: _,
        service: _,
        pass: _pass,
        conn: _,
    } = desk;
    Closed { answered, end }
}
