ghost use Rattle.std.specs.Prelude.{◌≡◌, ℕ, ◌≤◌, ◌<◌, ◌↔◌, IsTrue, true, false};
ghost use Rattle.lock_core.specs.Marks.{free_marks, mark_at, MarkedIn, IsNotedMark, FreeFrom, AllNoted, HeldAs};

use crate::object::LockMode;

/// How a seat holds one stripe. The part that it found is that of the replay.
#[derive(Clone, Copy, Debug, PartialEq, Eq)]
pub enum Mark {
    Free,
    Shared,
    Looked,
    Exclusive,
}

/// A seat that was joined into another: its number, and how long the journal was that it saw.
#[derive(Clone, Copy, Debug, PartialEq, Eq)]
pub struct Past {
    pub number: u64,
    pub seen: usize,
}

/// How a seat stands: what it holds, and how long the journal was that it saw.
#[derive(Clone, Copy)]
pub struct Glance {
    pub live: bool,
    pub marks: [Mark; 64],
    pub latch: Option<u8>,
    pub journal: bool,
    pub seen: usize,
}

/// A seat, with those that were joined into it.
#[derive(Drop)]
pub struct Row {
    pub number: u64,
    pub glance: Glance,
    pub olds: Vec<Past>,
}

impl Mark {
    /// Whether a stripe with this mark is held in the mode.
    pub fn is_in(self, mode: LockMode) -> bool
        ensures { IsTrue result ↔ MarkedIn mode self }
    {
        match self {
            Mark::Free => mode == LockMode::None,
            Mark::Shared | Mark::Looked => mode == LockMode::Shared,
            Mark::Exclusive => mode == LockMode::Exclusive,
        }
    }

    /// Whether the stripe has a note, if it is held.
    pub fn is_noted(self) -> bool
        ensures { IsTrue result ↔ IsNotedMark self }
    {
        self != Mark::Shared
    }
}

impl Glance {
    /// A live seat that holds nothing and saw this many entries.
    pub fn new(seen: usize) -> Glance
        ensures { (result.live ≡ true) × (result.marks ≡ free_marks) × (result.latch ≡ None) × (result.journal ≡ false)
            × (result.seen ≡ seen) }
    {
        Glance {
            live: true,
            marks: [Mark::Free; 64],
            latch: None,
            journal: false,
            seen,
        }
    }

    /// A seat that isn't live.
    pub fn spent() -> Glance
        ensures { (result.live ≡ false) × (result.marks ≡ free_marks) × (result.latch ≡ None) × (result.journal ≡ false)
            × (result.seen ≡ 0) }
    {
        Glance {
            live: false,
            marks: [Mark::Free; 64],
            latch: None,
            journal: false,
            seen: 0,
        }
    }

    /// Whether the stripe is held in the mode.
    pub fn holds(&self, stripe: u8, mode: LockMode) -> bool
        requires { stripe < 64 }
        ensures { IsTrue result ↔ MarkedIn mode (mark_at self.now.marks stripe) }
    {
        self.marks[stripe as usize].is_in(mode)
    }

    /// Whether nothing is held from this stripe on.
    pub fn is_free_from(&self, stripe: u8) -> bool
        ensures { IsTrue result ↔ FreeFrom self.now.marks stripe }
    {
        for at in stripe as usize..64 {
            if !self.marks[at].is_in(LockMode::None) {
                return false;
            }
        }
        true
    }

    /// Whether each stripe that is held has a note.
    pub fn is_noted(&self) -> bool
        ensures { IsTrue result ↔ AllNoted self.now.marks }
    {
        for at in 0..64 {
            if !self.marks[at].is_noted() {
                return false;
            }
        }
        true
    }

    /// Whether each stripe is held in its mode.
    pub fn holds_as(&self, modes: &[LockMode; 64]) -> bool
        ensures { IsTrue result ↔ HeldAs modes.now self.now.marks }
    {
        for at in 0..64 {
            if !self.marks[at].is_in(modes[at]) {
                return false;
            }
        }
        true
    }

    /// Whether the seat holds nothing.
    pub fn is_idle(&self) -> bool
        ensures { IsTrue result ↔ (FreeFrom self.now.marks 0 × (self.now.latch ≡ None) × (self.now.journal ≡ false)) }
    {
        self.is_free_from(0) && self.latch.is_none() && !self.journal
    }
}
