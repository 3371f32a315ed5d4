ghost use Rattle.std.specs.Prelude.{◌≡◌, ℕ, ◌+◌, ◌<◌, ◌↔◌, IsTrue, List, [], ◌∷◌, ◌++◌, length, IfOk, IfErr, OnErr, MatchResult, slice_index, true};
ghost use Rattle.lock_core.specs.declared.machine.Event.TheVariants as event;
ghost use Rattle.lock_core.specs.Object.{replay};
ghost use Rattle.lock_core.specs.Machine.{LockState, seat_at, plain, NamesStripe, asked, IsAllowed, stepped};
ghost use Rattle.lock_core.specs.Clauses.{IsStop};
ghost use Rattle.lock_core.specs.Invariant.{Invariant};
ghost use Rattle.lock_core.specs.Sound.{IsSound, opened};
ghost use Rattle.lock_core.specs.Marks.{Looks, Put, HeldAsPlayed, MayPlay};
ghost use mathlib.Core.Option.{some};
ghost use lib.ListN.{get_elem?};

mod steps;

use crate::machine::{Event, StepStop};
use crate::marks::{Glance, Past, Row};
use crate::object::Played;
use std::alloc::{AllocError, Global};
use std::marker::Model;

/// The pure lock machine over an object. A contract sees its state: words, places, journal, replies and seats.
///
/// Each part stands here once, as it is after the journal, and a seat keeps only how it holds each stripe: what is home
/// and what is noted is always the replay's.
#[derive(Drop)]
pub struct Core<P: Played> {
    alloc: Global,
    words: Vec<u64>,
    parts: Vec<P::Part>,
    journal: Vec<P::Entry>,
    replies: Vec<P::Reply>,
    rows: Vec<Row>,
}

impl<P: Played> Model for Core<P> {
    ghost use Rattle.lock_core.specs.Machine.{LockState};

    ghost Value = { LockState P.Part P.Entry P.Reply };

    ghost use Rattle.lock_core.specs.CoreView.{shown, IsCore};

    ghost view = { shown P.object P.bare };

    ghost invariant = { IsCore P.object P.bare };
}

impl<P: Played> Core<P> {
    /// The machine at its start: nothing is held, the journal is empty, and seat 0 is there alone. The one error is want
    /// of memory.
    pub fn new(alloc: Global) -> Result<Core<P>, AllocError>
        ensures opened { IfOk result (λ core. core ≡ opened P.object []) }
        ensures kept { IfOk result (λ core. Invariant P.object [] core) }
    {
        let words = Vec::from_elem(alloc, 0u64, 129)?;
        let parts = P::opening_parts(alloc)?;
        let mut rows = Vec::new(alloc);
        rows.push(Row {
            number: 0,
            glance: Glance::new(0),
            olds: Vec::new(alloc),
        })?;
        Ok(Core {
            alloc,
            words,
            parts,
            journal: Vec::new(alloc),
            replies: Vec::new(alloc),
            rows,
        })
    }

    /// One event. A stripe that it names is below 64.
    ///
    /// It is `Ok` exactly where every clause of the event holds, and the state is then the machine's next one. Else
    /// `NotAllowed` names the first clause that is broken. `NoMemory` may come at any time. After an error the state is as
    /// it was.
    pub fn step(&mut self, event: Event<P>) -> Result<(), StepStop>
        requires { NamesStripe event }
        ensures allowed { IfOk result (λ _. IsAllowed P.object self.old event) }
        ensures stepped { IfOk result (λ _. self.new ≡ stepped P.object self.old event) }
        ensures stopped { IfErr result (λ stop. IsStop (asked P.object self.old event) stop) }
        ensures unchanged { OnErr result (self.new ≡ self.old) }
        ensures kept { Invariant P.object [] self.new }
    {
        let _ = &self.alloc;
        self.make(event)
    }

    /// The journal.
    pub fn journal(&self) -> &[P::Entry]
        ensures { result.now ≡ self.now.journal }
    {
        self.journal.as_slice()
    }

    /// The reply of each entry of the journal.
    pub fn replies(&self) -> &[P::Reply]
        ensures { result.now ≡ self.now.replies }
    {
        self.replies.as_slice()
    }

    /// The part of a stripe, which is below 64, as it is after the journal.
    pub fn part(&self, stripe: u8) -> &P::Part
        requires { stripe < 64 }
        ensures { get_elem? (replay P.object self.now.journal) stripe ≡ some (P.bare result.now) }
    {
        &self.parts[stripe as usize]
    }

    /// A word of the machine.
    fn word(&self, at: usize) -> u64
        requires { at < 129 }
        ensures { result ≡ slice_index self.now.words at }
    {
        self.words[at]
    }

    /// How a seat stands.
    fn glance(&self, seat: u32) -> Glance
        ensures looks { Looks result (seat_at self.now.seats seat) }
        ensures sound { IsSound P.object [] self.now }
    {
        let seat = seat as usize;
        if seat < self.rows.len() {
            self.rows[seat].glance
        } else {
            Glance::spent()
        }
    }

    /// One word becomes another, and one seat what the glance says.
    fn put(&mut self, seat: u32, at: u8, word: u64, glance: Glance)
        requires { (m : LockState P.Part P.Entry P.Reply) × Put self.old m seat at word glance × IsSound P.object [] m }
        ensures { (m : LockState P.Part P.Entry P.Reply)
            → Put self.old m seat at word glance → IsSound P.object [] m → self.new ≡ m }
    {
        self.words[at as usize] = word;
        let row = &mut self.rows[seat as usize];
        row.glance = glance;
    }

    /// Whether the seat that stands so holds exactly what the entry with this number reads and writes. The one error is
    /// want of memory.
    fn is_footprint(
        &self,
        glance: &Glance,
        entry: &P::Entry,
        number: u64,
    ) -> Result<bool, AllocError>
        ensures { IfOk result (λ held. IsTrue held
            ↔ HeldAsPlayed P.object (replay P.object self.now.journal) entry.now number glance.now.marks) }
    {
        let modes = P::footprint(self.alloc, self.parts.as_slice(), entry, number)?;
        Ok(glance.holds_as(&modes))
    }

    /// Whether the entry is the seat's, and may be made after the journal. The one error is want of memory.
    fn may_make(&self, seat: u32, entry: &P::Entry) -> Result<bool, AllocError>
        ensures { IfOk result (λ may. IsTrue may ↔ MayPlay P.object self.now.journal seat entry.now) }
    {
        if P::pass_of(entry) != seat {
            return Ok(false);
        }
        P::fitting(
            self.alloc,
            seat,
            self.journal.as_slice(),
            self.parts.as_slice(),
            entry,
        )
    }

    /// The seat gives the journal back with the entry, which has this number. The one error is want of memory, which
    /// changes nothing.
    fn add_entry(&mut self, seat: u32, entry: P::Entry, number: u64) -> Result<(), AllocError>
        requires allowed { IsAllowed P.object self.old (plain (event.Commit seat entry)) }
        requires counted { number ≡ length self.old.journal + 1 }
        ensures { MatchResult result (λ _. self.new ≡ stepped P.object self.old (plain (event.Commit seat entry)))
            (λ _. self.new ≡ self.old) }
    {
        self.journal.reserve(1)?;
        self.replies.reserve(1)?;
        let reply = P::play(self.alloc, self.parts.as_mut_slice(), &entry, number)?;
        let Ok(()) = self.journal.push(entry) else {
            unreachable!()
        };
        let Ok(()) = self.replies.push(reply) else {
            unreachable!()
        };
        self.words[128] = 0;
        let seen = self.journal.len();
        let row = &mut self.rows[seat as usize];
        row.glance.journal = false;
        row.glance.seen = seen;
        Ok(())
    }

    /// A new seat that saw what this one did. The one error is want of memory, which changes nothing.
    fn add_seat(&mut self, seat: u32) -> Result<(), AllocError>
        requires { IsAllowed P.object self.old (plain (event.Split seat)) }
        ensures { MatchResult result (λ _. self.new ≡ stepped P.object self.old (plain (event.Split seat)))
            (λ _. self.new ≡ self.old) }
    {
        let row = Row {
            number: self.rows.len() as u64,
            glance: Glance::new(self.rows[seat as usize].glance.seen),
            olds: Vec::new(self.alloc),
        };
        self.rows.push(row)?;
        Ok(())
    }

    /// The seat `from` goes into the seat `to`. The one error is want of memory, which changes nothing.
    fn join_seats(&mut self, from: u32, to: u32) -> Result<(), AllocError>
        requires { IsAllowed P.object self.old (plain (event.Join from to)) }
        ensures { MatchResult result (λ _. self.new ≡ stepped P.object self.old (plain (event.Join from to)))
            (λ _. self.new ≡ self.old) }
    {
        let gone = &self.rows[from as usize];
        let past = Past {
            number: gone.number,
            seen: gone.glance.seen,
        };
        let olds = olds_of(self.alloc, &self.rows[to as usize].olds, past, &gone.olds)?;
        let row = &mut self.rows[to as usize];
        row.olds = olds;
        row.glance.seen = row.glance.seen.max(past.seen);
        self.rows[from as usize] = Row {
            number: 0,
            glance: Glance::spent(),
            olds: Vec::new(self.alloc),
        };
        Ok(())
    }
}

/// Those who were joined into one seat, then another seat, then those who were joined into that one.
fn olds_of(
    alloc: Global,
    first: &Vec<Past>,
    past: Past,
    last: &Vec<Past>,
) -> Result<Vec<Past>, AllocError>
    ensures { IfOk result (λ olds. olds.items ≡ first.now.items ++ past ∷ last.now.items) }
{
    let mut olds = Vec::new(alloc);
    olds.extend_from_slice(first.as_slice())?;
    olds.push(past)?;
    olds.extend_from_slice(last.as_slice())?;
    Ok(olds)
}
