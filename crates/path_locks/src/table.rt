//! The table of locks: its start, and how seats take and give back the stripes of a plan.
ghost use Rattle.std.specs.Prelude.{◌≡◌, ◌≢◌, ◌≤◌, ◌<◌, ◌+◌, ℕ, [], ◌∷◌, ◌++◌, min, true, false, Some, IfOk, length, map, slice_get, slice_set};
ghost use Rattle.std.specs.Fn.{FnOnceReturnsAt};
ghost use mathlib.Core.Option.{some};
ghost use Rattle.lock_core.specs.declared.object.LockMode.TheVariants as locked;
ghost use Rattle.lock_core.specs.Object.{replay};
ghost use Rattle.lock_core.specs.Machine.{hold_at, HeldIn, note_of, notes, downgraded, committed};
ghost use Rattle.lock_core.specs.Sound.{StartsWith, AllFit, MadeBelow};
ghost use Rattle.commit_journal.specs.Keeper.{AreKept};
ghost use Rattle.path_locks.specs.Stands.{Stands};
ghost use Rattle.path_locks.specs.Plans.{width, wide_of};
ghost use Rattle.path_locks.specs.Moves.{AreNotesSeen};
ghost use Rattle.path_locks.specs.Committing.{MayCommit};
ghost use Rattle.path_locks.specs.Working.{AreReady, AreChanged, worked};
ghost use Rattle.path_locks.specs.Narrow.{IsWithin, AreNarrowed};
ghost use Rattle.path_locks.specs.Alike.{limits_of, HoldsAlike};
ghost use Rattle.path_locks.specs.Views.{SeatView, seen_of, mine_of, has_journal, taken_of, tape_of, HoldsNothing, IsHeldBy, IsSameSeat, IsSeatAgain, AreNewSeats, AreEverySeat, SawOf};

use crate::ending::{join_all, take_out};
use crate::held::{Held, Seat};
use crate::plan::{Plan, width};
use crate::rule::{LockMemory, Opening};
use crate::seating::make_seats;
use crate::start::{empty_rooms, fill_slots, make_memory};
use crate::steps::{
    apply_all, give_all, lock_journal, look_exclusive, look_shared, narrow_all, put_journal,
    put_longer, take_all, take_stripe,
};
use commit_journal::{Journal, Keeper};
use lock_core::{LockMode, Parted};
use std::alloc::{AllocError, Global};
use std::marker::{Model, PhantomData};
use std::mem;
use std::snapshot::Snapshot;
use std::sync::Wait;

/// A table of locks over an object in 64 parts, shared by its seats. A contract sees which table it is, the journal at
/// its start, the limits of the journal, and how many seats it was started with.
#[derive(Drop)]
pub struct LockTable<P: Parted, K: Keeper<P::Entry>> {
    memory: LockMemory<P, K>,
    alloc: Global,
    // room for the parts when the table is closed
    spare: Vec<P::Part>,
}

impl<P: Parted, K: Keeper<P::Entry>> Model for LockTable<P, K> {
    ghost use Rattle.std.specs.Prelude.{◌≡◌, ◌≤◌, [], vec_capacity};
    ghost use Rattle.path_locks.specs.Holding.{IsSized};
    ghost use Rattle.path_locks.specs.Views.{TableView};

    ghost Value = { TableView P.Entry };

    ghost view = { λ t. record {
      id = t.memory.shared.table_id;
      opening = t.memory.shared.key.journal.value.entries;
      limits = t.memory.shared.key.journal.value.limits;
      seats = t.memory.shared.key.seats;
      faults = (K.tells t.memory.shared.key.keeper.value).faults;
    } };

    ghost invariant = { λ t. IsSized t.memory.shared.table_id × (1 ≤ t.memory.shared.key.seats) × (t.spare.items ≡ []) × (64 ≤ vec_capacity t.spare) };
}

impl<P: Parted, K: Keeper<P::Entry>> LockTable<P, K> {
    /// A table with these parts and this journal, and so many seats, from 1 to 64, in the order of their numbers.
    ///
    /// The parts are those of the replay of the journal, and each of its entries fits. The one error is want of memory.
    pub fn start(
        alloc: Global,
        parts: Vec<P::Part>,
        journal: Journal<P::Entry>,
        seats: u32,
        keeper: K,
    ) -> Result<(LockTable<P, K>, Vec<Seat<P, K>>), AllocError>
        requires parts { map P.bare parts.items ≡ replay P.object journal.entries }
        requires fit { AllFit P.object journal.entries }
        requires kept { AreKept (K.tells keeper).kept journal.entries }
        requires seats { (1 ≤ seats) × (seats ≤ 64) }
        ensures opening { IfOk result (λ r. r.0.opening ≡ journal.entries) }
        ensures limits { IfOk result (λ r. r.0.limits ≡ journal.limits) }
        ensures seats { IfOk result (λ r. (r.0.seats ≡ seats) × (length r.1.items ≡ seats)) }
        ensures faults { IfOk result (λ r. r.0.faults ≡ (K.tells keeper).faults) }
        ensures new { IfOk result (λ r. AreNewSeats P.object r.0 r.1.items) }
    {
        let rooms = empty_rooms(alloc, seats)?;
        let places = Vec::with_capacity(alloc, seats as usize)?;
        let spare = Vec::with_capacity(alloc, 64)?;
        let about = Opening {
            journal: Snapshot::of(&journal),
            keeper: Snapshot::of(&keeper),
            seats,
        };
        let slots = fill_slots(alloc, parts, journal, keeper)?;
        let (memory, first) = make_memory::<P, K>(alloc, slots, &about)?;
        let places = make_seats(&memory.shared, first, rooms, places);
        let table = LockTable {
            memory,
            alloc,
            spare,
        };
        Ok((table, places))
    }

    /// Takes the stripes of the plan in ascending order, and waits for each. What is then held is the plan.
    ///
    /// The seat is one of this table, and holds nothing.
    pub fn acquire<R: Wait>(&self, rt: &R, seat: &mut Seat<P, K>, plan: &Plan) -> Held<P, K>
        requires own { seat.old.table ≡ self.now.id }
        requires nothing { HoldsNothing seat.old }
        ensures same { IsSameSeat seat.old seat.new }
        ensures seen { seen_of seat.new ≡ seen_of seat.old }
        ensures mine { mine_of seat.new ≡ mine_of seat.old }
        ensures stands { Stands P.object seat.new.me.0.at }
        ensures held { IsHeldBy P.bare seat.new result }
        ensures journal { has_journal seat.new ≡ false }
        ensures plan { result.modes ≡ plan.now }
        ensures wide { result.wide ≡ wide_of plan.now }
    {
        let mut parts = mem::replace(&mut seat.room, Vec::new(self.alloc));
        take_all(&self.memory.shared, rt, &mut seat.seat, &mut parts, plan);
        Held {
            plan: *plan,
            parts,
            wide: plan.wide(),
            keeper: PhantomData,
        }
    }

    /// Takes one stripe more, which is greater than every held one, and waits for it. What is held has grown by just that.
    ///
    /// What is held is held by the seat, which is one of this table and doesn't have the journal.
    pub fn extend<R: Wait>(
        &self,
        rt: &R,
        seat: &mut Seat<P, K>,
        held: &mut Held<P, K>,
        stripe: u8,
        mode: LockMode,
    )
        requires own { seat.old.table ≡ self.now.id }
        requires held { IsHeldBy P.bare seat.old held.old }
        requires journal { has_journal seat.old ≡ false }
        requires stripe { stripe < 64 }
        requires above { (k : ℕ) → stripe ≤ k → k < 64 → slice_get held.old.modes k ≡ Some locked.None }
        requires asks { mode ≢ locked.None }
        ensures same { IsSameSeat seat.old seat.new }
        ensures journal { has_journal seat.new ≡ false }
        ensures seen { seen_of seat.new ≡ seen_of seat.old }
        ensures mine { mine_of seat.new ≡ mine_of seat.old }
        ensures held { IsHeldBy P.bare seat.new held.new }
        ensures modes { held.new.modes ≡ slice_set held.old.modes stripe mode }
        ensures wide { held.new.wide ≡ min (held.old.wide + width mode) 4294967295 }
        ensures there { HeldIn mode (hold_at seat.new.me.0.at.holds stripe) }
        ensures others { (k : ℕ) → k ≢ stripe → hold_at seat.new.me.0.at.holds k ≡ hold_at seat.old.me.0.at.holds k }
        ensures stands { Stands P.object seat.new.me.0.at }
    {
        take_stripe(
            &self.memory.shared,
            rt,
            &mut seat.seat,
            &mut held.parts,
            stripe,
            mode,
        );
        held.plan.set(stripe, mode);
        held.wide = held.wide.saturating_add(width(mode));
    }

    /// Gives back all that is held. The seat holds nothing then.
    ///
    /// What is held is held by the seat, which is one of this table and doesn't have the journal.
    pub fn release(&self, seat: &mut Seat<P, K>, held: Held<P, K>)
        requires own { seat.old.table ≡ self.now.id }
        requires held { IsHeldBy P.bare seat.old held }
        requires journal { has_journal seat.old ≡ false }
        ensures same { IsSameSeat seat.old seat.new }
        ensures seen { seen_of seat.new ≡ seen_of seat.old }
        ensures mine { mine_of seat.new ≡ mine_of seat.old }
        ensures nothing { HoldsNothing seat.new }
        ensures stands { Stands P.object seat.new.me.0.at }
    {
        let Held {
            plan,
            mut parts,
            wide: _,
            keeper: _,
        } = held;
        give_all(&self.memory.shared, &mut seat.seat, &mut parts, &plan);
        seat.room = parts;
    }

    /// Holds the stripe, which is held exclusively, shared from now on, with the note of its part.
    ///
    /// What is held is held by the seat, which is one of this table and doesn't have the journal.
    pub fn downgrade(&self, seat: &mut Seat<P, K>, held: &mut Held<P, K>, stripe: u8)
        requires own { seat.old.table ≡ self.now.id }
        requires held { IsHeldBy P.bare seat.old held.old }
        requires journal { has_journal seat.old ≡ false }
        requires stripe { stripe < 64 }
        requires exclusive { slice_get held.old.modes stripe ≡ Some locked.Exclusive }
        ensures same { IsSameSeat seat.old seat.new }
        ensures journal { has_journal seat.new ≡ false }
        ensures seen { seen_of seat.new ≡ seen_of seat.old }
        ensures mine { mine_of seat.new ≡ mine_of seat.old }
        ensures held { IsHeldBy P.bare seat.new held.new }
        ensures modes { held.new.modes ≡ slice_set held.old.modes stripe locked.Shared }
        ensures wide { held.new.wide ≡ held.old.wide }
        ensures note { hold_at seat.new.me.0.at.holds stripe ≡ downgraded (hold_at seat.old.me.0.at.holds stripe) }
        ensures others { (k : ℕ) → k < 64 → k ≢ stripe → hold_at seat.new.me.0.at.holds k ≡ hold_at seat.old.me.0.at.holds k }
        ensures stands { Stands P.object seat.new.me.0.at }
    {
        let keep = held.plan.shared_at(stripe);
        self.drop_extra(seat, held, &keep);
    }

    /// Leaves of what is held exactly what a plan keeps, which is below it or equal to it. A stripe that stays held keeps its
    /// note.
    ///
    /// What is held is held by the seat, which is one of this table and doesn't have the journal.
    pub fn drop_extra(&self, seat: &mut Seat<P, K>, held: &mut Held<P, K>, keep: &Plan)
        requires own { seat.old.table ≡ self.now.id }
        requires held { IsHeldBy P.bare seat.old held.old }
        requires journal { has_journal seat.old ≡ false }
        requires within { IsWithin keep.now held.old.modes }
        ensures same { IsSameSeat seat.old seat.new }
        ensures journal { has_journal seat.new ≡ false }
        ensures seen { seen_of seat.new ≡ seen_of seat.old }
        ensures mine { mine_of seat.new ≡ mine_of seat.old }
        ensures held { IsHeldBy P.bare seat.new held.new }
        ensures modes { held.new.modes ≡ keep.now }
        ensures wide { held.new.wide ≡ held.old.wide }
        ensures kept { AreNarrowed keep.now seat.old.me.0.at.holds seat.new.me.0.at.holds }
        ensures stands { Stands P.object seat.new.me.0.at }
    {
        narrow_all(
            &self.memory.shared,
            &mut seat.seat,
            &mut held.parts,
            &held.plan,
            keep,
        );
        held.plan = *keep;
    }

    /// Answers what `f` says of the part of a stripe that is held, with which it is called once: under the latch, for which
    /// it waits, where the stripe is held shared.
    ///
    /// What is held is held by the seat, which is one of this table and doesn't have the journal. `f` may be called on every
    /// part.
    pub fn look<R: Wait, T, F: FnOnce(&P::Part) -> T>(
        &self,
        rt: &R,
        seat: &mut Seat<P, K>,
        held: &Held<P, K>,
        stripe: u8,
        f: F,
    ) -> T
        requires own { seat.old.table ≡ self.now.id }
        requires held { IsHeldBy P.bare seat.old held.now }
        requires journal { has_journal seat.old ≡ false }
        requires stripe { stripe < 64 }
        requires some { slice_get held.now.modes stripe ≢ Some locked.None }
        requires call { F.IsAlwaysCallable f }
        ensures same { IsSameSeat seat.old seat.new }
        ensures journal { has_journal seat.new ≡ false }
        ensures seen { seen_of seat.new ≡ seen_of seat.old }
        ensures mine { mine_of seat.new ≡ mine_of seat.old }
        ensures held { IsHeldBy P.bare seat.new held.now }
        ensures looked { (part : P.Part) × FnOnceReturnsAt F.FnOnce f part result × (note_of (hold_at seat.new.me.0.at.holds stripe) ≡ some (P.bare part)) }
        ensures again { (x : P.Part) → note_of (hold_at seat.old.me.0.at.holds stripe) ≡ some x → note_of (hold_at seat.new.me.0.at.holds stripe) ≡ some x }
        ensures others { (k : ℕ) → k ≢ stripe → hold_at seat.new.me.0.at.holds k ≡ hold_at seat.old.me.0.at.holds k }
        ensures stands { Stands P.object seat.new.me.0.at }
    {
        match held.plan.mode(stripe) {
            LockMode::None => unreachable!(),
            LockMode::Shared => look_shared(&self.memory.shared, rt, &mut seat.seat, stripe, f),
            LockMode::Exclusive => look_exclusive(&held.parts, stripe, f),
        }
    }

    /// Waits for the journal and answers it whole, with the limits that it had at the start of the table. The seat has it
    /// then, and has seen all of it.
    ///
    /// The seat is one of this table and doesn't have the journal.
    pub fn take_journal<R: Wait>(&self, rt: &R, seat: &mut Seat<P, K>) -> (Journal<P::Entry>, K)
        requires own { seat.old.table ≡ self.now.id }
        requires journal { has_journal seat.old ≡ false }
        ensures same { IsSeatAgain seat.old seat.new }
        ensures journal { has_journal seat.new ≡ true }
        ensures seen { seen_of seat.new ≡ result.0.entries }
        ensures begins { StartsWith result.0.entries (seen_of seat.old) }
        ensures mine { mine_of seat.new ≡ mine_of seat.old }
        ensures limits { result.0.limits ≡ limits_of seat.old }
        ensures kept { AreKept (K.tells result.1).kept result.0.entries }
        ensures counts { (taken_of seat.new ≡ (K.tells result.1).faults) × (tape_of seat.new ≡ (K.tells result.1).faults) }
        ensures rose { tape_of seat.old ≤ taken_of seat.new }
        ensures fit { AllFit P.object result.0.entries }
        ensures notes { AreNotesSeen P.object seat.new.me.0.at }
        ensures stands { Stands P.object seat.new.me.0.at }
        ensures held { HoldsAlike seat.old seat.new }
    {
        lock_journal(&self.memory.shared, rt, &mut seat.seat)
    }

    /// Gives the journal back as it was when the seat took it, with its entries and its limits.
    ///
    /// The seat is one of this table and has the journal.
    pub fn give_journal(&self, seat: &mut Seat<P, K>, journal: Journal<P::Entry>, keeper: K)
        requires own { seat.old.table ≡ self.now.id }
        requires journal { has_journal seat.old ≡ true }
        requires entries { journal.entries ≡ seen_of seat.old }
        requires limits { journal.limits ≡ limits_of seat.old }
        requires kept { AreKept (K.tells keeper).kept journal.entries }
        requires counts { taken_of seat.old ≤ (K.tells keeper).faults }
        ensures same { IsSeatAgain seat.old seat.new }
        ensures journal { has_journal seat.new ≡ false }
        ensures counts { (taken_of seat.new ≡ taken_of seat.old) × (tape_of seat.new ≡ (K.tells keeper).faults) }
        ensures seen { seen_of seat.new ≡ seen_of seat.old }
        ensures mine { mine_of seat.new ≡ mine_of seat.old }
        ensures stands { Stands P.object seat.new.me.0.at }
        ensures held { HoldsAlike seat.old seat.new }
    {
        put_journal(&self.memory.shared, &mut seat.seat, journal, keeper);
    }

    /// Commits the last entry of the journal: does its work, with its number, in the parts of the stripes that it writes, which
    /// are those held exclusively, and gives the journal back with it.
    ///
    /// The journal is the one that the seat took, with one entry more, which the seat may make. What is held is held by the
    /// seat, which is one of this table, and is the footprint of the entry, with every stripe looked at. The work is that of
    /// the entry and was reserved.
    pub fn commit(
        &self,
        seat: &mut Seat<P, K>,
        held: &mut Held<P, K>,
        journal: Journal<P::Entry>,
        keeper: K,
        work: &P::Work,
    )
        requires own { seat.old.table ≡ self.now.id }
        requires held { IsHeldBy P.bare seat.old held.old }
        requires journal { has_journal seat.old ≡ true }
        requires entry { (e : P.Entry) × (journal.entries ≡ seen_of seat.old ++ e ∷ []) × MayCommit P.object seat.old.me.0.at e × P.does work.now (notes P.object seat.old.me.0.at) e }
        requires limits { journal.limits ≡ limits_of seat.old }
        requires kept { AreKept (K.tells keeper).kept journal.entries }
        requires counts { taken_of seat.old ≤ (K.tells keeper).faults }
        requires ready { AreReady P.ready work.now held.old.parts }
        ensures same { IsSeatAgain seat.old seat.new }
        ensures journal { has_journal seat.new ≡ false }
        ensures counts { (taken_of seat.new ≡ taken_of seat.old) × (tape_of seat.new ≡ (K.tells keeper).faults) }
        ensures seen { seen_of seat.new ≡ journal.entries }
        ensures mine { (e : P.Entry) → journal.entries ≡ seen_of seat.old ++ e ∷ [] → mine_of seat.new ≡ mine_of seat.old ++ e ∷ [] }
        ensures commits { (e : P.Entry) → journal.entries ≡ seen_of seat.old ++ e ∷ [] → seat.new.me.0.at ≡ committed P.object seat.old.me.0.at e (length (seen_of seat.old) + 1) }
        ensures held { IsHeldBy P.bare seat.new held.new }
        ensures modes { held.new.modes ≡ held.old.modes }
        ensures wide { held.new.wide ≡ held.old.wide }
        ensures applied { AreChanged P.bare (worked P.applied work.now (length journal.entries)) held.old.parts held.new.parts }
        ensures fit { AllFit P.object (seen_of seat.new) }
        ensures notes { AreNotesSeen P.object seat.new.me.0.at }
        ensures stands { Stands P.object seat.new.me.0.at }
    {
        let number = journal.len();
        put_longer(&self.memory.shared, &mut seat.seat, journal, keeper);
        apply_all::<P>(&mut held.parts, work, number);
    }

    /// Ends the table and answers its parts and its journal. It takes every seat that `start` made, in any order, each of
    /// which holds nothing.
    pub fn close(self, seats: Vec<Seat<P, K>>) -> (Vec<P::Part>, Journal<P::Entry>, K)
        requires every { AreEverySeat self seats.items }
        ensures parts { map P.bare result.0.items ≡ replay P.object result.1.entries }
        ensures limits { result.1.limits ≡ self.limits }
        ensures fit { AllFit P.object result.1.entries }
        ensures kept { AreKept (K.tells result.2).kept result.1.entries }
        ensures made { MadeBelow P.object self.opening self.seats result.1.entries }
        ensures saw { (k : ℕ) (s : SeatView P.Part P.Entry K) → slice_get seats.items k ≡ Some s → SawOf P.object result.1.entries s }
    {
        let LockTable {
            memory,
            alloc: _,
            spare,
        } = self;
        let last = join_all(&memory.shared, seats);
        take_out::<P, K>(memory.close_with(last), spare)
    }
}
