//! A pass that counts the replies to its entries.
ghost use Rattle.std.specs.Prelude.{◌≡◌, ◌≤◌, ◌-◌, ◌*◌, [], IfOk, IfErr, OnOk, OnErr, length};
ghost use Rattle.conn_io.specs.Moments.{HasTicked};
ghost use Rattle.namespace_model.specs.Sound.{IsSound};
ghost use Rattle.path_locks.specs.Views.{HoldsNothing, IsSeatAgain};
ghost use Rattle.striped_store.specs.Views.{FindsOneJournal, IsOf, seen_by, made_by};
ghost use Rattle.parted_namespace.specs.Namespace.{namespace};
ghost use Rattle.service_workers.specs.Submits.{Submits, IsRefused, IsCaused};
ghost use Rattle.conn_workers.specs.Counted.{tally_by, OwnsWhatItSaw};

use commit_journal::{JOURNAL_MOST, Keeper};
use conn_io::Clock;
use engine::Answer;
use inode_tree::Placed;
use parted_namespace::Namespace;
use reply_marks::Tally;
use service_workers::{Asked, Service};
use std::marker::Model;
use std::sync::Wait;
use striped_store::{CommitRefusal, Pass};

/// A pass of the service, with the tally of the replies to its entries.
#[derive(Drop)]
pub struct CountedPass<K: Keeper<Placed>> {
    pass: Pass<Namespace, K>,
    tally: Tally,
}

impl<K: Keeper<Placed>> Model for CountedPass<K> {
    ghost use Rattle.std.specs.Coded.{codes};
    ghost use Rattle.inode_tree.specs.Stripes.{stripe_code};
    ghost use Rattle.conn_workers.specs.Counted.{Counted, IsCounted};

    ghost Value = { Counted K };

    ghost coded = { Prim.hlevel (codes, stripe_code (Prim.hlevel codes)) };

    ghost view = { λ p. record { pass = p.pass; tally = p.tally } };

    ghost invariant = { λ p. IsCounted p.pass p.tally };
}

impl<K: Keeper<Placed>> CountedPass<K> {
    /// A pass that has seen no entry yet.
    pub fn new(pass: Pass<Namespace, K>) -> CountedPass<K>
        requires seen { seen_by pass ≡ [] }
        requires made { made_by pass ≡ [] }
        ensures { result.pass ≡ pass }
    {
        CountedPass {
            pass,
            tally: Tally::none(),
        }
    }

    /// The pass, and how many replies to its entries count as what.
    pub fn into_parts(self) -> (Pass<Namespace, K>, Tally)
        ensures pass { result.0 ≡ self.pass }
        ensures tally { result.1 ≡ tally_by self.pass }
        ensures own { OwnsWhatItSaw self.pass }
        ensures ok { result.1.ok ≤ JOURNAL_MOST }
        ensures refused { result.1.refused ≤ JOURNAL_MOST }
        ensures denied { result.1.denied ≤ JOURNAL_MOST }
    {
        let _few = self.pass.number();
        let CountedPass { pass, tally } = self;
        (pass, tally)
    }

    // From this it is known that the pass's own entries are those of what it has seen.
    pub(crate) fn settle<R: Wait>(&mut self, rt: &R, service: &Service<K>)
        requires own { IsOf service.now self.old.pass }
        requires nothing { HoldsNothing self.old.pass.seat }
        ensures again { IsSeatAgain self.old.pass.seat self.new.pass.seat }
        ensures seen { seen_by self.new.pass ≡ seen_by self.old.pass }
        ensures mine { made_by self.new.pass ≡ made_by self.old.pass }
        ensures found { FindsOneJournal namespace self.new.pass }
        ensures nothing { HoldsNothing self.new.pass.seat }
    {
        service.settle(rt, &mut self.pass);
    }

    // Submits what is asked, and counts its reply.
    pub(crate) fn submit<R: Wait, C: Clock>(
        &mut self,
        rt: &R,
        service: &Service<K>,
        clock: &mut C,
        asked: Asked,
    ) -> Result<Answer, CommitRefusal>
        requires own { IsOf service.now self.old.pass }
        requires nothing { HoldsNothing self.old.pass.seat }
        requires found { FindsOneJournal namespace self.old.pass }
        requires sound { IsSound asked.request }
        ensures again { IsSeatAgain self.old.pass.seat self.new.pass.seat }
        ensures nothing { HoldsNothing self.new.pass.seat }
        ensures found { FindsOneJournal namespace self.new.pass }
        ensures ok { IfOk result (λ answer. Submits self.old.pass self.new.pass (C.ahead clock.old) asked answer) }
        ensures ticked { IfOk result (λ answer. HasTicked (C.ahead clock.old) (C.ahead clock.new) answer.receipt.rounds) }
        ensures rounds { IfOk result (λ answer. (1 ≤ answer.receipt.rounds) × (answer.receipt.rounds ≤ 129)) }
        ensures refused { OnErr result (IsRefused self.old.pass self.new.pass) }
        ensures caused { IfErr result (IsCaused self.old.pass self.new.pass (length asked.request.body)) }
    {
        let _few = self.pass.number();
        match service.submit(rt, service.alloc(), &mut self.pass, clock, asked) {
            Ok(answer) => {
                self.tally.count(answer.mark);
                Ok(answer)
            }
            Err(refusal) => Err(refusal),
        }
    }
}
