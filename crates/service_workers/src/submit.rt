//! A submit, in rounds.
ghost use Rattle.std.specs.Prelude.{◌≡◌, ◌≤◌, ◌-◌, ◌*◌, IfOk, IfErr, OnOk, OnErr, length};
ghost use Rattle.conn_io.specs.Moments.{HasTicked};
ghost use Rattle.commit_journal.specs.Journal.{IsWithin};
ghost use Rattle.namespace_model.specs.Sound.{IsSound};
ghost use Rattle.path_locks.specs.Views.{HoldsNothing, IsSeatAgain};
ghost use Rattle.striped_store.specs.Views.{journal_seen, FindsOneJournal, IsOf};
ghost use Rattle.parted_namespace.specs.Namespace.{namespace};
ghost use Rattle.service_workers.specs.Drafts.{body_in};
ghost use Rattle.service_workers.specs.Submits.{Submits, IsRefused, IsCaused};

use crate::asked::Asked;
use crate::round::Round;
use crate::rounds::{begin_rounds, raise};
use crate::service::Service;
use commit_journal::Keeper;
use conn_io::Clock;
use engine::Answer;
use inode_tree::Placed;
use parted_namespace::Namespace;
use std::alloc::Global;
use std::sync::Wait;
use striped_store::{CommitRefusal, Pass, Receipt};

impl<K: Keeper<Placed>> Service<K> {
    /// Puts a request into the journal, and answers the text of its reply and the receipt of its entry. It may wait for other passes.
    ///
    /// It goes in rounds, at most 129. Each asks the clock once, in milliseconds since 1970, and works the request out on what is held,
    /// at first nothing. A stripe that is lacking is taken beside the rest, in ascending order, and the next round starts. Once none is
    /// lacking all is given back that the entry neither reads nor writes, and the entry is committed, with the moment of that round.
    ///
    /// The pass is one of this service, and holds nothing. At a refusal, too, it holds nothing, and there is no entry: `Full` comes where a limit of
    /// the journal stands against the entry, `Tape` where the keeper failed to keep it, and `NoMemory` at any time. All memory is
    /// taken before the commit.
    pub fn submit<R: Wait, C: Clock>(
        &self,
        rt: &R,
        alloc: Global,
        pass: &mut Pass<Namespace, K>,
        clock: &mut C,
        asked: Asked,
    ) -> Result<Answer, CommitRefusal>
        requires own { IsOf self.now pass.old }
        requires nothing { HoldsNothing pass.old.seat }
        requires sound { IsSound asked.request }
        ensures again { IsSeatAgain pass.old.seat pass.new.seat }
        ensures nothing { HoldsNothing pass.new.seat }
        ensures found { FindsOneJournal namespace pass.new }
        ensures ok { IfOk result (λ answer. Submits pass.old pass.new (C.ahead clock.old) asked answer) }
        ensures within { OnOk result (IsWithin body_in (journal_seen pass.new.seat)) }
        ensures ticked { IfOk result (λ answer. HasTicked (C.ahead clock.old) (C.ahead clock.new) answer.receipt.rounds) }
        ensures rounds { IfOk result (λ answer. (1 ≤ answer.receipt.rounds) × (answer.receipt.rounds ≤ 129)) }
        ensures wide { IfOk result (λ answer. pass.new.wide ≤ 2 * (answer.receipt.rounds - 1)) }
        ensures refused { OnErr result (IsRefused pass.old pass.new) }
        ensures caused { IfErr result (IsCaused pass.old pass.new (length asked.request.body)) }
    {
        let mut holding = begin_rounds(rt, &self.store, pass);
        let mut asked = asked;
        for done in 0..129u32 {
            match self.play_round(rt, alloc, pass, clock, holding, asked) {
                Round::Answered(answer) => return Ok(with_rounds(answer, done + 1)),
                Round::Refused(refusal) => return Err(refusal),
                Round::Lacks(same, held, need) => {
                    holding = raise(rt, &self.store, pass, held, need);
                    asked = same;
                }
            }
        }
        unreachable!()
    }
}

// The answer, with how many rounds it took.
fn with_rounds(answer: Answer, rounds: u32) -> Answer
    ensures bytes { result.bytes.items ≡ answer.bytes.items }
    ensures mark { result.mark ≡ answer.mark }
    ensures receipt { result.receipt ≡ record answer.receipt { rounds = rounds } }
{
    let Answer {
        bytes,
        mark,
        receipt,
    } = answer;
    Answer {
        bytes,
        mark,
        receipt: Receipt { rounds, ..receipt },
    }
}
