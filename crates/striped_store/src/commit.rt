//! A commit at a seat.
ghost use Rattle.std.specs.Prelude.{◌≡◌, ◌↔◌, ◌++◌, ◌∷◌, [], ◌≤◌, List, true, false, IsOk, IfOk, IfErr, OnOk, MatchResult, IsErrOf, length};
ghost use Rattle.lock_core.specs.Machine.{notes};
ghost use Rattle.lock_core.specs.Sound.{StartsWith, AllFit};
ghost use Rattle.commit_journal.specs.Journal.{IsFull, IsFullFor, IsWithin, HasRoom};
ghost use Rattle.commit_journal.specs.Keeper.{AreKept, kept_with, IsAbove};
ghost use Rattle.path_locks.specs.Alike.{limits_of};
ghost use Rattle.path_locks.specs.Committing.{MayCommit};
ghost use Rattle.path_locks.specs.Stands.{Stands};
ghost use Rattle.path_locks.specs.Views.{SeatView, seen_of, mine_of, has_journal, HoldsNothing, IsHeldBy, IsSeatAgain, taken_of, tape_of};
ghost use Rattle.path_locks.specs.Working.{AreReady, AreSameParts};
ghost use Rattle.striped_store.specs.Views.{journal_seen};
ghost use Rattle.striped_store.specs.Commits.{CanCommit, GrewBy, ArePartsOf, IsHandedBack};

use crate::receipt::CommitRefusal;
use commit_journal::{Full, Journal, KeepStop, Keeper, ReserveStop};
use lock_core::{Bodied, Parted};
use path_locks::{Held, LockTable, Seat};
use std::alloc::AllocError;
use std::sync::Wait;

/// Makes room for the entry in the journal, once memory for its work was or wasn't had. `Full` comes exactly where the journal
/// shows the cause, and takes no memory. Then the keeper keeps the entry.
fn make_room<E: Bodied + Drop, K: Keeper<E>>(
    journal: &mut Journal<E>,
    keeper: &mut K,
    entry: &E,
    ready: Result<(), AllocError>,
) -> Result<(), CommitRefusal>
    ensures entries { journal.new.entries ≡ journal.old.entries }
    ensures limits { journal.new.limits ≡ journal.old.limits }
    ensures within { IsWithin E.body journal.new }
    ensures room { OnOk result (HasRoom E.body journal.new (E.body entry.now)) }
    ensures full { IsErrOf result (CommitRefusal.Full Full.JournalFull) ↔ IsFull journal.old }
    ensures bytes_full { IsErrOf result (CommitRefusal.Full Full.JournalBytesFull) ↔ IsFullFor E.body journal.old (E.body entry.now) }
    ensures ready { OnOk result (IsOk ready) }
    ensures kept { MatchResult result
        (λ _. (K.tells keeper.new).kept ≡ kept_with entry.now (K.tells keeper.old).kept)
        (λ _. (K.tells keeper.new).kept ≡ (K.tells keeper.old).kept) }
    ensures faults { (K.tells keeper.old).faults ≤ (K.tells keeper.new).faults }
    ensures tape { IsErrOf result CommitRefusal.Tape → IsAbove (K.tells keeper.new).faults (K.tells keeper.old).faults }
{
    match journal.reserve(entry.body_len()) {
        Ok(()) => {}
        Err(ReserveStop::Full(full)) => return Err(CommitRefusal::Full(full)),
        Err(ReserveStop::NoMemory) => return Err(CommitRefusal::NoMemory),
    }
    match ready {
        Ok(()) => {}
        Err(_) => return Err(CommitRefusal::NoMemory),
    }
    match keeper.keep(entry) {
        Ok(()) => Ok(()),
        Err(KeepStop::Failed) => Err(CommitRefusal::Tape),
        Err(KeepStop::NoMemory) => Err(CommitRefusal::NoMemory),
    }
}

/// The journal that a seat took, and its keeper.
#[derive(Drop)]
struct Taken<P: Parted, K: Keeper<P::Entry>> {
    journal: Journal<P::Entry>,
    keeper: K,
}

/// Adds the entry to the journal, does its work, gives the journal back, and then all that is held.
fn enter<P: Parted, K: Keeper<P::Entry>>(
    table: &LockTable<P, K>,
    seat: &mut Seat<P, K>,
    mut held: Held<P, K>,
    taken: Taken<P, K>,
    entry: P::Entry,
    work: &P::Work,
) -> u64
    requires own { seat.old.table ≡ table.now.id }
    requires held { IsHeldBy P.bare seat.old held }
    requires journal { has_journal seat.old ≡ true }
    requires entries { taken.journal.entries ≡ seen_of seat.old }
    requires limits { taken.journal.limits ≡ limits_of seat.old }
    requires room { HasRoom P.Entry.body taken.journal (P.Entry.body entry) }
    requires kept { AreKept (K.tells taken.keeper).kept (taken.journal.entries ++ entry ∷ []) }
    requires counts { taken_of seat.old ≤ (K.tells taken.keeper).faults }
    requires may { MayCommit P.object seat.old.me.0.at entry }
    requires does { P.does work.now (notes P.object seat.old.me.0.at) entry }
    requires ready { AreReady P.ready work.now held.parts }
    ensures same { IsSeatAgain seat.old seat.new }
    ensures seen { seen_of seat.new ≡ seen_of seat.old ++ entry ∷ [] }
    ensures mine { mine_of seat.new ≡ mine_of seat.old ++ entry ∷ [] }
    ensures nothing { HoldsNothing seat.new }
    ensures counts { (taken_of seat.new ≡ taken_of seat.old) × (tape_of seat.new ≡ (K.tells taken.keeper).faults) }
    ensures number { result ≡ length (seen_of seat.new) }
    ensures stands { Stands P.object seat.new.me.0.at }
    ensures fit { AllFit P.object (seen_of seat.new) }
    ensures within { IsWithin P.Entry.body (journal_seen seat.new) }
{
    let Taken {
        mut journal,
        keeper,
    } = taken;
    let number = journal.push(entry);
    table.commit(seat, &mut held, journal, keeper, work);
    table.release(seat, held);
    number
}

/// Takes the journal, and commits the entry at the seat where there is room for it.
pub(crate) fn commit_seat<R: Wait, P: Parted, K: Keeper<P::Entry>>(
    table: &LockTable<P, K>,
    rt: &R,
    seat: &mut Seat<P, K>,
    mut held: Held<P, K>,
    entry: P::Entry,
    work: &P::Work,
) -> Result<u64, (Held<P, K>, CommitRefusal)>
    requires own { seat.old.table ≡ table.now.id }
    requires held { IsHeldBy P.bare seat.old held }
    requires journal { has_journal seat.old ≡ false }
    requires can { CanCommit P.object seat.old entry }
    requires does { P.does work.now (notes P.object seat.old.me.0.at) entry }
    ensures same { IsSeatAgain seat.old seat.new }
    ensures journal { has_journal seat.new ≡ false }
    ensures seen { MatchResult result (λ _. GrewBy entry (seen_of seat.old) (seen_of seat.new)) (λ _. StartsWith (seen_of seat.new) (seen_of seat.old)) }
    ensures mine { MatchResult result (λ _. mine_of seat.new ≡ mine_of seat.old ++ entry ∷ []) (λ _. mine_of seat.new ≡ mine_of seat.old) }
    ensures own { length (mine_of seat.new) ≤ length (seen_of seat.new) }
    ensures number { IfOk result (λ number. number ≡ length (seen_of seat.new)) }
    ensures parts { OnOk result ((h : List P.Entry) → seen_of seat.new ≡ h ++ entry ∷ [] → ArePartsOf P.object h seat.old) }
    ensures nothing { OnOk result (HoldsNothing seat.new) }
    ensures back { IfErr result (λ stop. IsHandedBack P.bare seat.old held seat.new stop.0) }
    ensures stands { Stands P.object seat.new.me.0.at }
    ensures rose { (tape_of seat.old ≤ taken_of seat.new) × (taken_of seat.new ≤ tape_of seat.new) }
    ensures tape { IfErr result (λ stop. stop.1 ≡ CommitRefusal.Tape → IsAbove (tape_of seat.new) (taken_of seat.new)) }
    ensures fit { AllFit P.object (seen_of seat.new) }
    ensures within { IsWithin P.Entry.body (journal_seen seat.new) }
    ensures full { IfErr result (λ stop. (stop.1 ≡ CommitRefusal.Full Full.JournalFull) ↔ IsFull (journal_seen seat.new)) }
    ensures bytes_full { IfErr result (λ stop. (stop.1 ≡ CommitRefusal.Full Full.JournalBytesFull) ↔ IsFullFor P.Entry.body (journal_seen seat.new) (P.Entry.body entry)) }
{
    let ready = held.reserve(work);
    let (mut journal, mut keeper) = table.take_journal(rt, seat);
    match make_room(&mut journal, &mut keeper, &entry, ready) {
        Ok(()) => {
            let taken = Taken { journal, keeper };
            Ok(enter(table, seat, held, taken, entry, work))
        }
        Err(stop) => {
            table.give_journal(seat, journal, keeper);
            Err((held, stop))
        }
    }
}
