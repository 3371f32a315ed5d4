//! Passes, by which a store is used.
ghost use Rattle.std.specs.Prelude.{◌≡◌, ◌<◌, ◌≤◌, ◌*◌, length, sum_by};
ghost use Rattle.striped_store.specs.Views.{number_of_pass, seen_by, made_by};

use commit_journal::{JOURNAL_MOST, Keeper};
use lock_core::Parted;
use path_locks::{Plan, Seat};
use std::marker::Model;

/// A pass of a store, which one thread at a time commits by. A contract sees its number, the journal as far as the pass knows
/// it, the pass's own entries in their order, what it holds, and how wide that was which it last committed with.
#[derive(Drop)]
pub struct Pass<P: Parted, K: Keeper<P::Entry>> {
    pub(crate) seat: Seat<P, K>,
    pub(crate) plan: Plan,
    pub(crate) number: u32,
    pub(crate) used: u64,
    pub(crate) wide: u32,
    // room for all seats when the store is closed, which a store that is shared can't keep itself
    pub(crate) room: Vec<Seat<P, K>>,
}

impl<P: Parted, K: Keeper<P::Entry>> Model for Pass<P, K> {
    ghost use Rattle.std.specs.Prelude.{◌≡◌, ◌≤◌, [], vec_capacity};
    ghost use Rattle.striped_store.specs.Views.{PassView};
    ghost use Rattle.striped_store.specs.Passes.{KeepsCount};

    ghost Value = { PassView P.Part P.Entry K };

    ghost view = { λ p. record { seat = p.seat; wide = p.wide } };

    ghost invariant = { λ p. KeepsCount P.Entry.uses p.seat p.plan p.number p.used × (p.room.items ≡ []) × (64 ≤ vec_capacity p.room) };
}

impl<P: Parted, K: Keeper<P::Entry>> Pass<P, K> {
    /// The number of the pass, which is below 64. It has seen at most 4,194,304 entries.
    pub fn number(&self) -> u32
        ensures value { result ≡ number_of_pass self.now }
        ensures small { result < 64 }
        ensures seen { length (seen_by self.now) ≤ JOURNAL_MOST }
    {
        self.number
    }

    /// How many ids the pass's own entries have used up, of which there are at most 4,194,304.
    pub fn used(&self) -> u64
        ensures value { result ≡ sum_by P.Entry.uses (made_by self.now) }
        ensures light { result ≤ 255 * length (made_by self.now) }
        ensures mine { length (made_by self.now) ≤ JOURNAL_MOST }
    {
        self.used
    }

    /// How wide that was which was handed to the pass's last commit that succeeded: the number of stripes that were taken
    /// shared, and twice that of those taken exclusively. It is 0 before the first.
    pub fn wide(&self) -> u32
        ensures { result ≡ self.now.wide }
    {
        self.wide
    }
}
