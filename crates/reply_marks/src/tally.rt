ghost use Rattle.std.specs.Prelude.{◌≡◌, ◌<◌, ◌≤◌, ◌+◌, ◌-◌, ◌^◌};
ghost use Rattle.reply_marks.specs.Tallies.{one_more};

use super::mark::Mark;

/// How many replies there were of each mark.
#[derive(Clone, Copy, Debug, PartialEq, Eq)]
pub struct Tally {
    pub ok: u64,
    pub refused: u64,
    pub denied: u64,
}

impl Tally {
    /// No reply.
    pub fn none() -> Tally
        ensures { result ≡ record { ok = 0; refused = 0; denied = 0 } }
    {
        Tally {
            ok: 0,
            refused: 0,
            denied: 0,
        }
    }

    /// Counts one reply more.
    pub fn count(&mut self, mark: Mark)
        requires ok { self.old.ok < 2 ^ 64 - 1 }
        requires refused { self.old.refused < 2 ^ 64 - 1 }
        requires denied { self.old.denied < 2 ^ 64 - 1 }
        ensures { self.new ≡ one_more self.old mark }
    {
        match mark {
            Mark::Ok => self.ok += 1,
            Mark::Refused => self.refused += 1,
            Mark::Denied => self.denied += 1,
        }
    }

    /// The replies of both.
    pub fn plus(self, other: Tally) -> Tally
        requires ok { self.ok + other.ok < 2 ^ 64 }
        requires refused { self.refused + other.refused < 2 ^ 64 }
        requires denied { self.denied + other.denied < 2 ^ 64 }
        ensures ok { result.ok ≡ self.ok + other.ok }
        ensures refused { result.refused ≡ self.refused + other.refused }
        ensures denied { result.denied ≡ self.denied + other.denied }
    {
        Tally {
            ok: self.ok + other.ok,
            refused: self.refused + other.refused,
            denied: self.denied + other.denied,
        }
    }
}
