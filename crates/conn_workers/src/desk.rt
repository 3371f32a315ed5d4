//! A pass of the service as a desk, which answers the requests of one connection.
ghost use Rattle.std.specs.Prelude.{◌≡◌};
ghost use Rattle.conn_workers.specs.Desks.{refusal_of};

use super::counted::CountedPass;
use commit_journal::Keeper;
use conn_io::Clock;
use engine::Answer;
use inode_tree::Placed;
use namespace_model::Request;
use service_workers::{Asked, Service};
use serving::{Desk, SubmitRefusal};
use std::alloc::Global;
use std::marker::Model;
use std::sync::Wait;
use striped_store::CommitRefusal;

/// The service, and what lets wait for its locks.
#[derive(Drop)]
pub(crate) struct Place<'a, R: Wait, K: Keeper<Placed>> {
    pub(crate) rt: &'a R,
    pub(crate) service: &'a Service<K>,
}

/// A pass of the service that answers the requests of one connection. A contract sees which reference to the pass it has, the pass,
/// and the number of the connection.
#[derive(Drop)]
pub(crate) struct PassDesk<'a, R: Wait, K: Keeper<Placed>> {
    pub(crate) rt: &'a R,
    pub(crate) service: &'a Service<K>,
    pub(crate) pass: &'a mut CountedPass<K>,
    pub(crate) conn: u32,
}

impl<'a, R: Wait, K: Keeper<Placed>> Model for PassDesk<'a, R, K> {
    ghost use Rattle.std.specs.Coded.{codes};
    ghost use Rattle.inode_tree.specs.Stripes.{stripe_code};
    ghost use Rattle.conn_workers.specs.Desks.{Sitter, IsSeated};

    ghost Value = { Sitter K };

    ghost coded = { Prim.hlevel (codes, stripe_code (Prim.hlevel codes)) };

    ghost view = { λ d. record { name = d.pass.ghost_name; pass = d.pass.now.pass; conn = d.conn } };

    ghost invariant = { λ d. IsSeated d.service.now d.pass.now.pass };
}

impl<'a, R: Wait, K: Keeper<Placed>> Desk for PassDesk<'a, R, K> {
    ghost use Rattle.path_locks.specs.Alike.{limits_of};
    ghost use Rattle.striped_store.specs.Views.{number_of_pass};
    ghost use Rattle.engine.specs.Solos.{as_asked};
    ghost use Rattle.conn_workers.specs.Counted.{entry_in, is_by};
    ghost use Rattle.conn_workers.specs.Desks.{AsksLast, known_by, unserved};

    type Kept = Placed;

    type Over = PassDesk<'a, R, K>;

    ghost entry_of = { entry_in };

    ghost entered = { as_asked };

    ghost known = { λ d. known_by d.pass };

    ghost is_own = { λ d. is_by (number_of_pass d.pass) };

    ghost limits = { λ d. limits_of d.pass.seat };

    ghost over = { unserved };

    ghost conn = { λ d. d.conn };

    ghost asks = { AsksLast };

    fn requests_max(&self) -> u64 {
        self.service.limits().requests_max()
    }

    fn answer<C: Clock>(
        &mut self,
        _alloc: Global,
        clock: &mut C,
        index: u32,
        request: Request,
    ) -> Result<Vec<u8>, SubmitRefusal> {
        let asked = Asked {
            conn: self.conn,
            index,
            request,
        };
        let answer = match self.pass.submit(self.rt, self.service, clock, asked) {
            Ok(answer) => answer,
            Err(refusal) => return Err(refusal_of(refusal)),
        };
        let Answer { bytes, .. } = answer;
        Ok(bytes)
    }
}

// A keeper that failed is told as want of memory is: the request has no entry, and the connection ends without a last reply.
fn refusal_of(refusal: CommitRefusal) -> SubmitRefusal
    ensures { result ≡ refusal_of refusal }
{
    match refusal {
        CommitRefusal::Full(full) => SubmitRefusal::Full(full),
        CommitRefusal::Tape => SubmitRefusal::NoMemory,
        CommitRefusal::NoMemory => SubmitRefusal::NoMemory,
    }
}
