//! The store: its start, how passes use it, and its end.
ghost use Rattle.std.specs.Prelude.{◌≡◌, ◌≢◌, ◌↔◌, ◌<◌, ◌≤◌, ◌+◌, ◌++◌, ◌∷◌, [], ℕ, List, min, Some, IfOk, IfErr, OnOk, MatchResult, length, map, slice_get, slice_set};
ghost use Rattle.std.specs.Fn.{FnOnceReturnsAt};
ghost use mathlib.Core.Option.{some};
ghost use Rattle.lock_core.specs.declared.object.LockMode.TheVariants as locked;
ghost use Rattle.lock_core.specs.Object.{replay};
ghost use Rattle.lock_core.specs.Machine.{hold_at};
ghost use Rattle.lock_core.specs.Sound.{StartsWith, AllFit};
ghost use Rattle.commit_journal.specs.Journal.{IsFull, IsFullFor, IsWithin as IsWithinLimits};
ghost use Rattle.commit_journal.specs.Keeper.{AreKept, IsAbove};
ghost use Rattle.path_locks.specs.Plans.{width, wide_of};
ghost use Rattle.path_locks.specs.Narrow.{IsWithin, AreNarrowed};
ghost use Rattle.path_locks.specs.Views.{HoldsNothing, IsHeldBy, IsSameSeat, IsSeatAgain};
ghost use Rattle.striped_store.specs.Views.{PassView, seen_by, made_by, taken_by, tape_by, found_by, journal_seen, parts_found, FindsOneJournal, AreNewPasses, AreOpenPasses, IsHeld, IsOf};
ghost use Rattle.striped_store.specs.Commits.{CanCommit, GrewBy, ArePartsOf, IsHandedBack};
ghost use Rattle.striped_store.specs.UsedIds.{AreBelow};
ghost use Rattle.striped_store.specs.Receipts.{TellsHolds, TellsFootprint};
ghost use Rattle.striped_store.specs.Closed.{AreEveryPass, IsOfPass, AreByPasses};

use crate::commit::commit_seat;
use crate::pass::Pass;
use crate::receipt::{CommitRefusal, Receipt, stripes_in};
use crate::seats::{make_passes, take_seats};
use crate::used::used_ids;
use commit_journal::{Full, Journal, Keeper, Limits};
use lock_core::{Bodied, LockMode, Parted};
use path_locks::{Held, LockTable, Plan};
use std::alloc::{AllocError, Global};
use std::marker::Model;
use std::sync::Wait;

/// A store of an object in 64 parts, shared by its passes. A contract sees its table of locks, and so its
/// limits.
#[derive(Drop)]
pub struct Store<P: Parted, K: Keeper<P::Entry>> {
    table: LockTable<P, K>,
}

impl<P: Parted, K: Keeper<P::Entry>> Model for Store<P, K> {
    ghost use Rattle.path_locks.specs.Views.{TableView};
    ghost use Rattle.striped_store.specs.Passes.{IsOpened};

    ghost Value = { TableView P.Entry };

    ghost view = { λ s. s.table };

    ghost invariant = { λ s. IsOpened P.object s.table };
}

/// What a store leaves behind.
#[derive(Drop)]
pub struct Closing<P: Parted, K: Keeper<P::Entry>> {
    /// The one journal.
    pub journal: Journal<P::Entry>,
    /// The 64 parts.
    pub parts: Vec<P::Part>,
    /// The keeper.
    pub keeper: K,
}

impl<P: Parted, K: Keeper<P::Entry>> Store<P, K> {
    /// A store of the object as it is at the start, with an empty journal of these limits, and its passes with the numbers 0,
    /// 1, 2 and so on, in this order; the limits say how many. The one error is want of memory.
    pub fn start(
        alloc: Global,
        limits: &Limits,
        keeper: K,
    ) -> Result<(Store<P, K>, Vec<Pass<P, K>>), AllocError>
        requires kept { AreKept (K.tells keeper).kept [] }
        ensures limits { IfOk result (λ r. r.0.limits ≡ limits.now) }
        ensures faults { IfOk result (λ r. r.0.faults ≡ (K.tells keeper).faults) }
        ensures many { IfOk result (λ r. (r.0.seats ≡ limits.now.passes) × (length r.1.items ≡ limits.now.passes)) }
        ensures new { IfOk result (λ r. AreNewPasses r.0 r.1.items) }
    {
        let count = limits.passes();
        let parts = P::opening_parts(alloc)?;
        let journal = Journal::new(alloc, limits);
        let (table, seats) = LockTable::start(alloc, parts, journal, count, keeper)?;
        let passes = make_passes(alloc, &table, seats, &[0; 64])?;
        Ok((Store { table }, passes))
    }

    /// Takes the stripes of the plan in ascending order, and waits for each. What is then held is the plan.
    ///
    /// The pass is one of this store, and holds nothing.
    pub fn begin<R: Wait>(&self, rt: &R, pass: &mut Pass<P, K>, plan: &Plan) -> Held<P, K>
        requires own { IsOf self.now pass.old }
        requires nothing { HoldsNothing pass.old.seat }
        ensures same { IsSameSeat pass.old.seat pass.new.seat }
        ensures seen { seen_by pass.new ≡ seen_by pass.old }
        ensures mine { made_by pass.new ≡ made_by pass.old }
        ensures found { FindsOneJournal P.object pass.new }
        ensures held { IsHeldBy P.bare pass.new.seat result }
        ensures plan { result.modes ≡ plan.now }
        ensures wide { result.wide ≡ wide_of plan.now }
        ensures last { pass.new.wide ≡ pass.old.wide }
    {
        let held = self.table.acquire(rt, &mut pass.seat, plan);
        pass.plan = *plan;
        held
    }

    /// Answers what `f` says of the part of a stripe that is held, with which it is called once: under the latch, for which
    /// it waits, where the stripe is held shared.
    ///
    /// What is held is held by the pass, which is one of this store. `f` may be called on every part.
    pub fn look<R: Wait, T, F: FnOnce(&P::Part) -> T>(
        &self,
        rt: &R,
        pass: &mut Pass<P, K>,
        held: &Held<P, K>,
        stripe: u8,
        f: F,
    ) -> T
        requires own { IsOf self.now pass.old }
        requires held { IsHeldBy P.bare pass.old.seat held.now }
        requires stripe { stripe < 64 }
        requires some { IsHeld held.now stripe }
        requires call { F.IsAlwaysCallable f }
        ensures same { IsSameSeat pass.old.seat pass.new.seat }
        ensures seen { seen_by pass.new ≡ seen_by pass.old }
        ensures mine { made_by pass.new ≡ made_by pass.old }
        ensures found { FindsOneJournal P.object pass.new }
        ensures held { IsHeldBy P.bare pass.new.seat held.now }
        ensures looked { (part : P.Part) × FnOnceReturnsAt F.FnOnce f part result × (found_by pass.new stripe ≡ some (P.bare part)) }
        ensures again { (x : P.Part) → found_by pass.old stripe ≡ some x → found_by pass.new stripe ≡ some x }
        ensures others { (k : ℕ) → k ≢ stripe → hold_at pass.new.seat.me.0.at.holds k ≡ hold_at pass.old.seat.me.0.at.holds k }
        ensures last { pass.new.wide ≡ pass.old.wide }
    {
        self.table.look(rt, &mut pass.seat, held, stripe, f)
    }

    /// Takes one stripe more, which is greater than every held one, and waits for it. What is held has grown by just that.
    ///
    /// What is held is held by the pass, which is one of this store.
    pub fn extend<R: Wait>(
        &self,
        rt: &R,
        pass: &mut Pass<P, K>,
        held: &mut Held<P, K>,
        stripe: u8,
        mode: LockMode,
    )
        requires own { IsOf self.now pass.old }
        requires held { IsHeldBy P.bare pass.old.seat held.old }
        requires stripe { stripe < 64 }
        requires above { (k : ℕ) → stripe ≤ k → k < 64 → slice_get held.old.modes k ≡ Some locked.None }
        requires asks { mode ≢ locked.None }
        ensures same { IsSameSeat pass.old.seat pass.new.seat }
        ensures seen { seen_by pass.new ≡ seen_by pass.old }
        ensures mine { made_by pass.new ≡ made_by pass.old }
        ensures found { FindsOneJournal P.object pass.new }
        ensures held { IsHeldBy P.bare pass.new.seat held.new }
        ensures plan { held.new.modes ≡ slice_set held.old.modes stripe mode }
        ensures wide { held.new.wide ≡ min (held.old.wide + width mode) 4294967295 }
        ensures others { (k : ℕ) → k ≢ stripe → hold_at pass.new.seat.me.0.at.holds k ≡ hold_at pass.old.seat.me.0.at.holds k }
        ensures last { pass.new.wide ≡ pass.old.wide }
    {
        self.table.extend(rt, &mut pass.seat, held, stripe, mode);
        pass.plan.set(stripe, mode);
    }

    /// Leaves of what is held exactly what a plan keeps, which is below it or equal to it. A stripe that stays held keeps the
    /// part that was found there.
    ///
    /// What is held is held by the pass, which is one of this store.
    pub fn narrow(&self, pass: &mut Pass<P, K>, held: &mut Held<P, K>, keep: &Plan)
        requires own { IsOf self.now pass.old }
        requires held { IsHeldBy P.bare pass.old.seat held.old }
        requires within { IsWithin keep.now held.old.modes }
        ensures same { IsSameSeat pass.old.seat pass.new.seat }
        ensures seen { seen_by pass.new ≡ seen_by pass.old }
        ensures mine { made_by pass.new ≡ made_by pass.old }
        ensures found { FindsOneJournal P.object pass.new }
        ensures held { IsHeldBy P.bare pass.new.seat held.new }
        ensures kept { AreNarrowed keep.now pass.old.seat.me.0.at.holds pass.new.seat.me.0.at.holds }
        ensures plan { held.new.modes ≡ keep.now }
        ensures wide { held.new.wide ≡ held.old.wide }
        ensures last { pass.new.wide ≡ pass.old.wide }
    {
        self.table.drop_extra(&mut pass.seat, held, keep);
        pass.plan = *keep;
    }

    /// Commits the entry: does its work in the parts that it writes, adds it to the journal, for which it waits, and gives back
    /// all that is held. The receipt tells its number and what was held.
    ///
    /// What is held is held by the pass, which is one of this store, and is the footprint of the entry, whatever its number will
    /// be, with every stripe looked at. The entry is by the pass and fits, and the work is the entry's.
    ///
    /// At a refusal the entry and the work are dropped, what was held is handed back, and nothing has changed but that the pass
    /// may have seen more of the journal: `Full` comes exactly where the journal, all of which the pass has then seen, shows the
    /// cause, and comes before want of memory. All memory is taken before the journal and the parts change.
    pub fn commit<R: Wait>(
        &self,
        rt: &R,
        pass: &mut Pass<P, K>,
        held: Held<P, K>,
        entry: P::Entry,
        work: P::Work,
    ) -> Result<Receipt, (Held<P, K>, CommitRefusal)>
        requires own { IsOf self.now pass.old }
        requires held { IsHeldBy P.bare pass.old.seat held }
        requires can { CanCommit P.object pass.old.seat entry }
        requires does { P.does work (parts_found P.object pass.old) entry }
        ensures same { IsSeatAgain pass.old.seat pass.new.seat }

        // The journal, and the pass's own entries.
        ensures seen { MatchResult result (λ _. GrewBy entry (seen_by pass.old) (seen_by pass.new)) (λ _. StartsWith (seen_by pass.new) (seen_by pass.old)) }
        ensures mine { MatchResult result (λ _. made_by pass.new ≡ made_by pass.old ++ entry ∷ []) (λ _. made_by pass.new ≡ made_by pass.old) }
        ensures fit { AllFit P.object (seen_by pass.new) }
        ensures within { IsWithinLimits P.Entry.body (journal_seen pass.new.seat) }
        ensures parts { OnOk result ((h : List P.Entry) → seen_by pass.new ≡ h ++ entry ∷ [] → ArePartsOf P.object h pass.old.seat) }

        // The receipt.
        ensures number { IfOk result (λ r. r.number ≡ length (seen_by pass.new)) }
        ensures holds { IfOk result (TellsHolds pass.old.seat.me.0.at.holds) }
        ensures footprint { IfOk result (λ r. (h : List P.Entry) → seen_by pass.new ≡ h ++ entry ∷ [] → TellsFootprint P.object (replay P.object h) entry r) }
        ensures rounds { IfOk result (λ r. r.rounds ≡ 0) }

        // What is held.
        ensures nothing { OnOk result (HoldsNothing pass.new.seat) }
        ensures back { IfErr result (λ stop. IsHandedBack P.bare pass.old.seat held pass.new.seat stop.0) }
        ensures found { FindsOneJournal P.object pass.new }
        ensures wide { MatchResult result (λ _. pass.new.wide ≡ held.wide) (λ _. pass.new.wide ≡ pass.old.wide) }

        // The causes.
        ensures tape { IfErr result (λ stop. stop.1 ≡ CommitRefusal.Tape → IsAbove (tape_by pass.new) (taken_by pass.new)) }
        ensures rose { (tape_by pass.old ≤ taken_by pass.new) × (taken_by pass.new ≤ tape_by pass.new) }
        ensures full { IfErr result (λ stop. (stop.1 ≡ CommitRefusal.Full Full.JournalFull) ↔ IsFull (journal_seen pass.new.seat)) }
        ensures bytes_full { IfErr result (λ stop. (stop.1 ≡ CommitRefusal.Full Full.JournalBytesFull) ↔ IsFullFor P.Entry.body (journal_seen pass.new.seat) (P.Entry.body entry)) }
    {
        let wide = held.wide();
        let shared = stripes_in(&pass.plan, LockMode::Shared);
        let exclusive = stripes_in(&pass.plan, LockMode::Exclusive);
        let uses = entry.uses_len();
        match commit_seat(&self.table, rt, &mut pass.seat, held, entry, &work) {
            Err(stop) => Err(stop),
            Ok(number) => {
                pass.plan = Plan::none();
                pass.used += u64::from(uses);
                pass.wide = wide;
                Ok(Receipt {
                    number,
                    shared,
                    exclusive,
                    rounds: 0,
                })
            }
        }
    }

    /// Gives back all that is held, without a commit. The pass holds nothing then.
    ///
    /// What is held is held by the pass, which is one of this store.
    pub fn finish(&self, pass: &mut Pass<P, K>, held: Held<P, K>)
        requires own { IsOf self.now pass.old }
        requires held { IsHeldBy P.bare pass.old.seat held }
        ensures same { IsSameSeat pass.old.seat pass.new.seat }
        ensures seen { seen_by pass.new ≡ seen_by pass.old }
        ensures mine { made_by pass.new ≡ made_by pass.old }
        ensures found { FindsOneJournal P.object pass.new }
        ensures nothing { HoldsNothing pass.new.seat }
        ensures last { pass.new.wide ≡ pass.old.wide }
    {
        self.table.release(&mut pass.seat, held);
        pass.plan = Plan::none();
    }

    /// Ends the store and answers its journal and its parts. It takes all passes that `start` made, in any order, each of which
    /// holds nothing.
    pub fn close(self, passes: Vec<Pass<P, K>>) -> Closing<P, K>
        requires { AreEveryPass self passes.items }
        ensures parts { map P.bare result.parts.items ≡ replay P.object result.journal.entries }
        ensures fit { AllFit P.object result.journal.entries }
        ensures limits { result.journal.limits ≡ self.limits }
        ensures kept { AreKept (K.tells result.keeper).kept result.journal.entries }
        ensures passes { (k : ℕ) (p : PassView P.Part P.Entry K) → slice_get passes.items k ≡ Some p → IsOfPass P.object result.journal.entries p }
        ensures entries { AreByPasses P.object result.journal.entries passes.items }
    {
        let Store { table } = self;
        let seats = take_seats(passes);
        let (parts, journal, keeper) = table.close(seats);
        Closing {
            journal,
            parts,
            keeper,
        }
    }
}

impl<P: Parted, K: Keeper<P::Entry>> Store<P, K> {
    /// A store of the object as it is after a journal, with so many passes, from 1 to 64, in the order of their numbers. Each
    /// has seen the journal, and its entries of it are its own.
    ///
    /// The parts are those of the replay of the journal, each of its entries fits and is by one of the passes, and the keeper
    /// has kept it. The one error is want of memory.
    pub fn start_from(
        alloc: Global,
        parts: Vec<P::Part>,
        journal: Journal<P::Entry>,
        passes: u32,
        keeper: K,
    ) -> Result<(Store<P, K>, Vec<Pass<P, K>>), AllocError>
        requires parts { map P.bare parts.items ≡ replay P.object journal.entries }
        requires fit { AllFit P.object journal.entries }
        requires passes { (1 ≤ passes) × (passes ≤ 64) }
        requires by { AreBelow P.object passes journal.entries }
        requires kept { AreKept (K.tells keeper).kept journal.entries }
        ensures opening { IfOk result (λ r. r.0.opening ≡ journal.entries) }
        ensures limits { IfOk result (λ r. r.0.limits ≡ journal.limits) }
        ensures faults { IfOk result (λ r. r.0.faults ≡ (K.tells keeper).faults) }
        ensures many { IfOk result (λ r. (r.0.seats ≡ passes) × (length r.1.items ≡ passes)) }
        ensures new { IfOk result (λ r. AreOpenPasses P.object r.0 r.1.items) }
    {
        let used = used_ids::<P>(&journal);
        let _few = journal.len();
        let _within = journal.limits().passes();
        let (table, seats) = LockTable::start(alloc, parts, journal, passes, keeper)?;
        let passes = make_passes(alloc, &table, seats, &used)?;
        Ok((Store { table }, passes))
    }
}
