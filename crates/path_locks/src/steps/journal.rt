ghost use Rattle.std.specs.Prelude.{◌≡◌, ◌≤◌, true, [], ◌∷◌, ◌++◌, MatchOption};
ghost use Rattle.path_locks.specs.declared.rule.Slot.TheVariants.{Empty};
ghost use Rattle.atomic_table.specs.Table.{rest};
ghost use Rattle.path_locks.specs.Plays.{IsQuiet};
ghost use Rattle.path_locks.specs.Holding.{IsSized};
ghost use Rattle.path_locks.specs.Moves.{TookJournal, GaveJournal, Commits};
ghost use Rattle.commit_journal.specs.Keeper.{AreKept};
ghost use Rattle.path_locks.specs.Committing.{MayCommit};

use super::pause;
use crate::plays::{GivesJournal, GivesLonger, TakesJournal};
use crate::rule::{LockSeat, LockWords, Slot};
use commit_journal::{Journal, Keeper};
use lock_core::Parted;
use std::sync::Wait;

/// Takes the journal, where nobody has it. Its slot stays in hand, empty.
fn try_journal<P: Parted, K: Keeper<P::Entry>>(
    words: &LockWords<P, K>,
    seat: &mut LockSeat<P, K>,
) -> Option<(Journal<P::Entry>, K)>
    requires own { (seat.old.table_id ≡ words.now.table_id) × IsSized words.now.table_id }
    requires quiet { IsQuiet seat.old.me.0.at }
    ensures own { (seat.new.table_id ≡ seat.old.table_id) × (seat.new.id ≡ seat.old.id) }
    ensures taken { MatchOption result
        (seat.new.me ≡ seat.old.me)
        (λ book. TookJournal P.object K.tells seat.old.me book.0 book.1 ((64, Empty) ∷ seat.old.me.1) seat.new.me) }
{
    if words.compare_exchange::<TakesJournal<P, K>>(seat, 128, 0, 1) != 0 {
        return None;
    }
    match words.exchange(seat, 64, Slot::Empty) {
        Slot::Book(journal, keeper) => Some((journal, keeper)),
        _ => unreachable!(),
    }
}

/// Waits for the journal and takes it.
pub(crate) fn lock_journal<R: Wait, P: Parted, K: Keeper<P::Entry>>(
    words: &LockWords<P, K>,
    rt: &R,
    seat: &mut LockSeat<P, K>,
) -> (Journal<P::Entry>, K)
    requires own { (seat.old.table_id ≡ words.now.table_id) × IsSized words.now.table_id }
    requires quiet { IsQuiet seat.old.me.0.at }
    ensures own { (seat.new.table_id ≡ seat.old.table_id) × (seat.new.id ≡ seat.old.id) }
    ensures taken { TookJournal P.object K.tells seat.old.me result.0 result.1 ((64, Empty) ∷ seat.old.me.1) seat.new.me }
{
    let mut turns = 0u8;
    for _ in rt.forever() {
        if let Some(book) = try_journal(words, seat) {
            return book;
        }
        turns = pause(turns);
    }
    unreachable!()
}

/// Gives the journal back as it was when the seat took it.
pub(crate) fn put_journal<P: Parted, K: Keeper<P::Entry>>(
    words: &LockWords<P, K>,
    seat: &mut LockSeat<P, K>,
    journal: Journal<P::Entry>,
    keeper: K,
)
    requires own { (seat.old.table_id ≡ words.now.table_id) × IsSized words.now.table_id }
    requires has { (seat.old.me.0.at.live ≡ true) × (seat.old.me.0.at.journal ≡ true) }
    requires last { seat.old.me.1 ≡ (64, Empty) ∷ rest seat.old.me.1 }
    requires unchanged { (journal.entries ≡ seat.old.me.0.at.seen) × (journal.limits ≡ seat.old.me.0.limits) }
    requires keeper { AreKept (K.tells keeper).kept journal.entries × (seat.old.me.0.taken ≤ (K.tells keeper).faults) }
    ensures own { (seat.new.table_id ≡ seat.old.table_id) × (seat.new.id ≡ seat.old.id) }
    ensures given { GaveJournal P.object K.tells seat.old.me keeper seat.new.me }
{
    words.exchange(seat, 64, Slot::Book(journal, keeper));
    words.store::<GivesJournal<P, K>>(seat, 128, 0);
}

/// Gives the journal back with one entry more, which the seat commits.
pub(crate) fn put_longer<P: Parted, K: Keeper<P::Entry>>(
    words: &LockWords<P, K>,
    seat: &mut LockSeat<P, K>,
    journal: Journal<P::Entry>,
    keeper: K,
)
    requires own { (seat.old.table_id ≡ words.now.table_id) × IsSized words.now.table_id }
    requires has { (seat.old.me.0.at.live ≡ true) × (seat.old.me.0.at.journal ≡ true) }
    requires last { seat.old.me.1 ≡ (64, Empty) ∷ rest seat.old.me.1 }
    requires entry { (e : P.Entry) × (journal.entries ≡ seat.old.me.0.at.seen ++ e ∷ []) × MayCommit P.object seat.old.me.0.at e }
    requires limits { journal.limits ≡ seat.old.me.0.limits }
    requires keeper { AreKept (K.tells keeper).kept journal.entries × (seat.old.me.0.taken ≤ (K.tells keeper).faults) }
    ensures own { (seat.new.table_id ≡ seat.old.table_id) × (seat.new.id ≡ seat.old.id) }
    ensures given { (e : P.Entry) → journal.entries ≡ seat.old.me.0.at.seen ++ e ∷ [] → Commits P.object K.tells seat.old.me e keeper seat.new.me }
{
    words.exchange(seat, 64, Slot::Book(journal, keeper));
    words.store::<GivesLonger<P, K>>(seat, 128, 0);
}
