ghost use Rattle.std.specs.Prelude.{◌≡◌, ◌<◌, [], IfOk, IfErr};
ghost use Rattle.lock_core.specs.declared.machine.Event.TheVariants as event;
ghost use Rattle.lock_core.specs.Clauses.{IsStop};
ghost use Rattle.lock_core.specs.Machine.{seat_at, plain, Steps, NamesStripe};
ghost use Rattle.lock_core.specs.Sound.{IsSound};
ghost use Rattle.lock_core.specs.Marks.{Looks, IsReady, FreeFrom, asks_ready, asks_rising};

use super::Core;
use crate::machine::{Clause, Event, StepStop};
use crate::marks::{Glance, Mark};
use crate::object::{LockMode, Played};

/// The word of a stripe that is held exclusively.
const EXCLUSIVE: u64 = 4_294_967_296;

impl<P: Played> Core<P> {
    /// How a seat stands that is live and has neither journal nor latch.
    fn ready(&self, seat: u32) -> Result<Glance, StepStop>
        ensures ok { IfOk result (λ glance. Looks glance (seat_at self.now.seats seat) × IsReady (seat_at self.now.seats seat)
            × IsSound P.object [] self.now) }
        ensures stop { IfErr result (λ stop. IsStop (asks_ready (seat_at self.now.seats seat)) stop) }
    {
        let glance = self.glance(seat);
        if !glance.live {
            return Err(StepStop::NotAllowed(Clause::Live));
        }
        if glance.journal {
            return Err(StepStop::NotAllowed(Clause::NoJournal));
        }
        if glance.latch.is_some() {
            return Err(StepStop::NotAllowed(Clause::NoLatch));
        }
        Ok(glance)
    }

    /// How a seat stands that is ready and holds nothing from this stripe on.
    fn rising(&self, seat: u32, stripe: u8) -> Result<Glance, StepStop>
        ensures ok { IfOk result (λ glance. Looks glance (seat_at self.now.seats seat) × IsReady (seat_at self.now.seats seat)
            × IsSound P.object [] self.now × FreeFrom glance.marks stripe) }
        ensures stop { IfErr result (λ stop. IsStop (asks_rising (seat_at self.now.seats seat) stripe) stop) }
    {
        let glance = self.ready(seat)?;
        if !glance.is_free_from(stripe) {
            return Err(StepStop::NotAllowed(Clause::Ascending));
        }
        Ok(glance)
    }

    /// The seat takes the stripe shared.
    fn lock_shared(&mut self, seat: u32, stripe: u8) -> Result<(), StepStop>
        requires { stripe < 64 }
        ensures { Steps P.object self.old self.new (plain (event.LockShared seat stripe)) result }
    {
        let mut glance = self.rising(seat, stripe)?;
        let word = self.word(stripe as usize);
        if word >= EXCLUSIVE - 1 {
            return Err(StepStop::NotAllowed(Clause::Free));
        }
        glance.marks[stripe as usize] = Mark::Shared;
        self.put(seat, stripe, word + 1, glance);
        Ok(())
    }

    /// The seat takes the stripe exclusively, and its part.
    fn lock_exclusive(&mut self, seat: u32, stripe: u8) -> Result<(), StepStop>
        requires { stripe < 64 }
        ensures { Steps P.object self.old self.new (plain (event.LockExclusive seat stripe)) result }
    {
        let mut glance = self.rising(seat, stripe)?;
        if self.word(stripe as usize) != 0 {
            return Err(StepStop::NotAllowed(Clause::Free));
        }
        glance.marks[stripe as usize] = Mark::Exclusive;
        self.put(seat, stripe, EXCLUSIVE, glance);
        Ok(())
    }

    /// The seat gives back a stripe that it holds shared.
    fn unlock_shared(&mut self, seat: u32, stripe: u8) -> Result<(), StepStop>
        requires { stripe < 64 }
        ensures { Steps P.object self.old self.new (plain (event.UnlockShared seat stripe)) result }
    {
        let mut glance = self.ready(seat)?;
        if !glance.holds(stripe, LockMode::Shared) {
            return Err(StepStop::NotAllowed(Clause::Holds));
        }
        let word = self.word(stripe as usize);
        glance.marks[stripe as usize] = Mark::Free;
        self.put(seat, stripe, word - 1, glance);
        Ok(())
    }

    /// The seat gives back a stripe that it holds exclusively, and its part.
    fn unlock_exclusive(&mut self, seat: u32, stripe: u8) -> Result<(), StepStop>
        requires { stripe < 64 }
        ensures { Steps P.object self.old self.new (plain (event.UnlockExclusive seat stripe)) result }
    {
        let mut glance = self.ready(seat)?;
        if !glance.holds(stripe, LockMode::Exclusive) {
            return Err(StepStop::NotAllowed(Clause::Holds));
        }
        glance.marks[stripe as usize] = Mark::Free;
        self.put(seat, stripe, 0, glance);
        Ok(())
    }

    /// The seat gives the part back and holds the stripe shared.
    fn downgrade(&mut self, seat: u32, stripe: u8) -> Result<(), StepStop>
        requires { stripe < 64 }
        ensures { Steps P.object self.old self.new (plain (event.Downgrade seat stripe)) result }
    {
        let mut glance = self.ready(seat)?;
        if !glance.holds(stripe, LockMode::Exclusive) {
            return Err(StepStop::NotAllowed(Clause::Holds));
        }
        glance.marks[stripe as usize] = Mark::Looked;
        self.put(seat, stripe, 1, glance);
        Ok(())
    }

    /// The seat takes the part of a stripe that it holds shared, to look at it.
    fn latch_take(&mut self, seat: u32, stripe: u8) -> Result<(), StepStop>
        requires { stripe < 64 }
        ensures { Steps P.object self.old self.new (plain (event.LatchTake seat stripe)) result }
    {
        let mut glance = self.ready(seat)?;
        let is_held = glance.holds(stripe, LockMode::Shared);
        if !is_held {
            return Err(StepStop::NotAllowed(Clause::Holds));
        }
        if self.word(64 + stripe as usize) != 0 {
            return Err(StepStop::NotAllowed(Clause::Free));
        }
        glance.marks[stripe as usize] = Mark::Looked;
        glance.latch = Some(stripe);
        self.put(seat, 64 + stripe, 1, glance);
        Ok(())
    }

    /// The seat gives that part back.
    fn latch_give(&mut self, seat: u32, stripe: u8) -> Result<(), StepStop>
        requires { stripe < 64 }
        ensures { Steps P.object self.old self.new (plain (event.LatchGive seat stripe)) result }
    {
        let mut glance = self.glance(seat);
        if !glance.live {
            return Err(StepStop::NotAllowed(Clause::Live));
        }
        if glance.latch != Some(stripe) {
            return Err(StepStop::NotAllowed(Clause::Holds));
        }
        glance.latch = None;
        self.put(seat, 64 + stripe, 0, glance);
        Ok(())
    }

    /// The seat takes the journal.
    fn journal_take(&mut self, seat: u32) -> Result<(), StepStop>
        ensures { Steps P.object self.old self.new (plain (event.JournalTake seat)) result }
    {
        let mut glance = self.ready(seat)?;
        if self.word(128) != 0 {
            return Err(StepStop::NotAllowed(Clause::Free));
        }
        glance.journal = true;
        glance.seen = self.journal().len();
        self.put(seat, 128, 1, glance);
        Ok(())
    }

    /// The seat gives the journal back as it was.
    fn journal_give(&mut self, seat: u32) -> Result<(), StepStop>
        ensures { Steps P.object self.old self.new (plain (event.JournalGive seat)) result }
    {
        let mut glance = self.glance(seat);
        if !glance.live {
            return Err(StepStop::NotAllowed(Clause::Live));
        }
        if !glance.journal {
            return Err(StepStop::NotAllowed(Clause::HoldsJournal));
        }
        glance.journal = false;
        self.put(seat, 128, 0, glance);
        Ok(())
    }

    /// The seat gives the journal back with the entry.
    fn commit(&mut self, seat: u32, entry: P::Entry) -> Result<(), StepStop>
        ensures { Steps P.object self.old self.new (plain (event.Commit seat entry)) result }
    {
        let glance = self.glance(seat);
        if !glance.live {
            return Err(StepStop::NotAllowed(Clause::Live));
        }
        if !glance.journal {
            return Err(StepStop::NotAllowed(Clause::HoldsJournal));
        }
        if !glance.is_noted() {
            return Err(StepStop::NotAllowed(Clause::Looked));
        }
        let Some(number) = (self.journal().len() as u64).checked_add(1) else {
            return Err(StepStop::NoMemory);
        };
        if !self.is_footprint(&glance, &entry, number)? {
            return Err(StepStop::NotAllowed(Clause::Footprint));
        }
        if !self.may_make(seat, &entry)? {
            return Err(StepStop::NotAllowed(Clause::Fits));
        }
        self.add_entry(seat, entry, number)?;
        Ok(())
    }

    /// The seat makes a new one.
    fn split(&mut self, seat: u32) -> Result<(), StepStop>
        ensures { Steps P.object self.old self.new (plain (event.Split seat)) result }
    {
        if !self.glance(seat).live {
            return Err(StepStop::NotAllowed(Clause::Live));
        }
        self.add_seat(seat)?;
        Ok(())
    }

    /// The seat `from` goes into the seat `to`.
    fn join(&mut self, from: u32, to: u32) -> Result<(), StepStop>
        ensures { Steps P.object self.old self.new (plain (event.Join from to)) result }
    {
        let gone = self.glance(from);
        let kept = self.glance(to);
        if !gone.live || !kept.live || from == to {
            return Err(StepStop::NotAllowed(Clause::Live));
        }
        if !gone.is_idle() {
            return Err(StepStop::NotAllowed(Clause::Idle));
        }
        if !kept.is_idle() {
            return Err(StepStop::NotAllowed(Clause::Idle));
        }
        self.join_seats(from, to)?;
        Ok(())
    }

    /// The seat reads a word.
    fn load(&self, seat: u32) -> Result<(), StepStop>
        ensures { Steps P.object self.now self.now (plain (event.Load seat)) result }
    {
        if !self.glance(seat).live {
            return Err(StepStop::NotAllowed(Clause::Live));
        }
        Ok(())
    }

    /// One event.
    pub(super) fn make(&mut self, happening: Event<P>) -> Result<(), StepStop>
        requires { NamesStripe happening }
        ensures { Steps P.object self.old self.new happening result }
    {
        match happening {
            Event::Load(seat) => self.load(seat),
            Event::LockShared(seat, stripe) => self.lock_shared(seat, stripe),
            Event::LockExclusive(seat, stripe) => self.lock_exclusive(seat, stripe),
            Event::UnlockShared(seat, stripe) => self.unlock_shared(seat, stripe),
            Event::UnlockExclusive(seat, stripe) => self.unlock_exclusive(seat, stripe),
            Event::Downgrade(seat, stripe) => self.downgrade(seat, stripe),
            Event::LatchTake(seat, stripe) => self.latch_take(seat, stripe),
            Event::LatchGive(seat, stripe) => self.latch_give(seat, stripe),
            Event::JournalTake(seat) => self.journal_take(seat),
            Event::JournalGive(seat) => self.journal_give(seat),
            Event::Commit(seat, entry) => self.commit(seat, entry),
            Event::Split(seat) => self.split(seat),
            Event::Join(from, to) => self.join(from, to),
        }
    }
}
