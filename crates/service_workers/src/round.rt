//! One round of a submit.
ghost use Rattle.std.specs.Prelude.{◌≡◌, ◌≤◌, ◌<◌, IfOk, IfErr, OnOk, OnErr, length};
ghost use Rattle.conn_io.specs.Moments.{HasTicked};
ghost use Rattle.commit_journal.specs.Journal.{IsWithin};
ghost use Rattle.inode_tree.specs.Promises.{IsDraft, IsEvaluated};
ghost use Rattle.lease_state.specs.declared.lease.TheConstants.{LAST_MOMENT};
ghost use Rattle.namespace_model.specs.Sound.{IsSound};
ghost use Rattle.path_locks.specs.Views.{HoldsNothing, IsHeldBy, IsSeatAgain};
ghost use Rattle.striped_store.specs.Views.{number_of_pass, journal_seen, FindsOneJournal, IsOf};
ghost use Rattle.parted_namespace.specs.Opening.{bare_stripe};
ghost use Rattle.parted_namespace.specs.Namespace.{namespace};
ghost use Rattle.service_workers.specs.Drafts.{body_in, fresh_of};
ghost use Rattle.service_workers.specs.Looks.{mode_in, shown_by};
ghost use Rattle.service_workers.specs.RoundEnds.{EndsRound};
ghost use Rattle.service_workers.specs.Rounds.{IsPlan, IsHolding};
ghost use Rattle.service_workers.specs.Submits.{Commits, IsRefused, IsCaused};

use crate::asked::Asked;
use crate::commit::commit_draft;
use crate::held_nodes::HeldNodes;
use crate::prepare::{Prepared, prepare};
use crate::rounds::Holding;
use crate::service::Service;
use commit_journal::Keeper;
use conn_io::Clock;
use engine::{Answer, eval};
use inode_tree::{Draft, EvalStop, Fresh, Need, Placed};
use namespace_model::{Entry, Request};
use parted_namespace::Namespace;
use path_locks::Held;
use reply_marks::Mark;
use reply_text::fill;
use std::alloc::Global;
use std::sync::Wait;
use striped_store::{CommitRefusal, Pass};

/// How a round ended.
#[derive(Drop)]
pub(crate) enum Round<K: Keeper<Placed>> {
    /// The entry was committed, and nothing is held. The receipt counts no rounds yet.
    Answered(Answer),
    /// There is no entry, and nothing is held.
    Refused(CommitRefusal),
    /// A stripe was lacking. What was asked and what is held are handed back.
    Lacks(Asked, Holding<K>, Need),
}

impl<K: Keeper<Placed>> Service<K> {
    // Asks the clock, works out what is asked on what is held, and commits the draft where nothing was lacking.
    pub(crate) fn play_round<R: Wait, C: Clock>(
        &self,
        rt: &R,
        alloc: Global,
        pass: &mut Pass<Namespace, K>,
        clock: &mut C,
        holding: Holding<K>,
        asked: Asked,
    ) -> Round<K>
        requires own { IsOf self.now pass.old }
        requires holds { IsHeldBy bare_stripe pass.old.seat holding.held }
        requires found { FindsOneJournal namespace pass.old }
        requires planned { IsPlan holding.held holding.plan }
        requires sound { IsSound asked.request }
        ensures ticked { HasTicked (C.ahead clock.old) (C.ahead clock.new) 1 }
        ensures again { IsSeatAgain pass.old.seat pass.new.seat }
        ensures found { FindsOneJournal namespace pass.new }
        ensures ended { EndsRound self.now pass.old pass.new (C.ahead clock.old) holding asked result }
    {
        let moment = clock.now();
        match self.evaluate(rt, alloc, pass, &holding, &asked.request, moment) {
            Ok(draft) => {
                let Asked {
                    conn,
                    index,
                    request,
                } = asked;
                let entry = Entry {
                    conn,
                    index,
                    moment,
                    request,
                };
                match self.answer_draft(rt, alloc, pass, holding.held, draft, entry) {
                    Ok(answer) => Round::Answered(answer),
                    Err(refusal) => Round::Refused(refusal),
                }
            }
            Err(EvalStop::NoMemory) => {
                self.store.finish(pass, holding.held);
                Round::Refused(CommitRefusal::NoMemory)
            }
            Err(EvalStop::Need(need)) => Round::Lacks(asked, holding, need),
        }
    }

    // Works out what a request comes to at a moment, on what is held.
    fn evaluate<R: Wait>(
        &self,
        rt: &R,
        alloc: Global,
        pass: &mut Pass<Namespace, K>,
        holding: &Holding<K>,
        request: &Request,
        moment: u64,
    ) -> Result<Draft, EvalStop>
        requires own { IsOf self.now pass.old }
        requires holds { IsHeldBy bare_stripe pass.old.seat holding.now.held }
        requires found { FindsOneJournal namespace pass.old }
        requires planned { IsPlan holding.now.held holding.now.plan }
        requires sound { IsSound request.now }
        requires moment { moment ≤ LAST_MOMENT }
        ensures holding { IsHolding self.now pass.old pass.new holding.now.held holding.now.plan }
        ensures evaluated { IsEvaluated (mode_in holding.now.held) (shown_by pass.new) request.now moment (fresh_of pass.new) result }
    {
        let fresh = Fresh {
            pass: pass.number(),
            used: pass.used(),
        };
        let mut view = HeldNodes {
            rt,
            store: &self.store,
            pass,
            held: &holding.held,
            plan: &holding.plan,
        };
        let result = eval(alloc, &mut view, request, moment, &fresh);
        let HeldNodes {
            rt: _,
            store: _,
            pass: _pass,
            held: _,
            plan: _,
        } = view;
        result
    }

    // Commits the draft of an entry. Behind it nothing is held.
    fn answer_draft<R: Wait>(
        &self,
        rt: &R,
        alloc: Global,
        pass: &mut Pass<Namespace, K>,
        held: Held<Namespace, K>,
        draft: Draft,
        entry: Entry,
    ) -> Result<Answer, CommitRefusal>
        requires own { IsOf self.now pass.old }
        requires holds { IsHeldBy bare_stripe pass.old.seat held }
        requires found { FindsOneJournal namespace pass.old }
        requires sound { IsSound entry.request }
        requires moment { entry.moment ≤ LAST_MOMENT }
        requires drafts { IsDraft (mode_in held) (shown_by pass.old) entry.request entry.moment (fresh_of pass.old) draft }
        ensures again { IsSeatAgain pass.old.seat pass.new.seat }
        ensures nothing { HoldsNothing pass.new.seat }
        ensures found { FindsOneJournal namespace pass.new }
        ensures ok { IfOk result (λ answer. Commits pass.old pass.new entry answer) }
        ensures within { OnOk result (IsWithin body_in (journal_seen pass.new.seat)) }
        ensures wide { OnOk result (pass.new.wide ≡ held.wide) }
        ensures refused { OnErr result (IsRefused pass.old pass.new) }
        ensures caused { IfErr result (IsCaused pass.old pass.new (length entry.request.body)) }
    {
        let fresh = Fresh {
            pass: pass.number(),
            used: pass.used(),
        };
        let Ok(prepared) = prepare(alloc, &draft.reply, entry, &fresh, draft.drawn) else {
            self.store.finish(pass, held);
            return Err(CommitRefusal::NoMemory);
        };
        let mark = Mark::of(&draft.reply);
        let Prepared {
            mut text,
            slots,
            placed,
        } = prepared;
        match commit_draft(rt, &self.store, pass, held, draft, placed) {
            Ok(receipt) => {
                fill(text.as_mut_slice(), slots, receipt.number);
                Ok(Answer {
                    bytes: text,
                    mark,
                    receipt,
                })
            }
            Err((held, refusal)) => {
                self.store.finish(pass, held);
                Err(refusal)
            }
        }
    }
}
