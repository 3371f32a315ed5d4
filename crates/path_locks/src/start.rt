//! What a table of locks is made of: rooms for parts, slots with the parts and the journal, and seats.
ghost use Rattle.std.specs.Prelude.{◌≡◌, ◌+◌, ◌<◌, ◌≤◌, [], ◌∷◌, ◌++◌, List, map, replicate, IfOk, None, vec_len, vec_capacity};
ghost use Rattle.lock_core.specs.Object.{replay};
ghost use Rattle.lock_core.specs.Sound.{AllFit};
ghost use Rattle.path_locks.specs.Rule.{shelf, first_view};
ghost use Rattle.commit_journal.specs.Keeper.{AreKept};
ghost use Rattle.path_locks.specs.Holding.{IsSized};

use crate::rule::{LockMemory, LockSeat, LockSlot, Opening, Slot};
use commit_journal::{Journal, Keeper};
use lock_core::{Bodied, Parted};
use std::alloc::{AllocError, Global};

/// Adds a value to a list that has room for it.
pub(crate) fn add<T: Drop>(list: &mut Vec<T>, value: T)
    requires { vec_len list.old < vec_capacity list.old }
    ensures items { list.new.items ≡ list.old.items ++ value ∷ [] }
    ensures capacity { vec_capacity list.old ≤ vec_capacity list.new }
{
    match list.push(value) {
        Ok(()) => {}
        Err(_) => unreachable!(),
    }
}

/// Places for 64 parts, all empty.
fn empty_room<T: Drop>(alloc: Global) -> Result<Vec<Option<T>>, AllocError>
    ensures { IfOk result (λ room. room.items ≡ replicate 64 None) }
{
    let mut room = Vec::new(alloc);
    for _place in 0..64u8 {
        room.push(None)?;
    }
    Ok(room)
}

/// As many of them as there are seats.
pub(crate) fn empty_rooms<T: Drop>(
    alloc: Global,
    seats: u32,
) -> Result<Vec<Vec<Option<T>>>, AllocError>
    ensures { IfOk result (λ rooms. map (λ room. room.items) rooms.items ≡ replicate seats (replicate 64 None)) }
{
    let mut rooms = Vec::new(alloc);
    for _seat in 0..seats {
        rooms.push(empty_room(alloc)?)?;
    }
    Ok(rooms)
}

/// The slots at the start.
pub(crate) fn fill_slots<T: Drop, E: Bodied + Drop, K: Drop>(
    alloc: Global,
    mut parts: Vec<T>,
    journal: Journal<E>,
    keeper: K,
) -> Result<Vec<Slot<T, E, K>>, AllocError>
    ensures { IfOk result (λ slots. slots.items ≡ shelf parts.items journal keeper) }
{
    let mut slots = Vec::new(alloc);
    slots.push(Slot::Book(journal, keeper))?;
    while let Some(part) = parts.pop() {
        slots.push(Slot::Part(part))?;
    }
    slots.reverse();
    Ok(slots)
}

/// The memory of a table with these slots, and its first seat.
pub(crate) fn make_memory<P: Parted, K: Keeper<P::Entry>>(
    alloc: Global,
    slots: Vec<LockSlot<P, K>>,
    about: &Opening<P::Entry, K>,
) -> Result<(LockMemory<P, K>, LockSeat<P, K>), AllocError>
    requires slots { (parts : List P.Part) × (slots.items ≡ shelf parts about.now.journal.value about.now.keeper.value) × (map P.bare parts ≡ replay P.object about.now.journal.value.entries) }
    requires kept { AreKept (K.tells about.now.keeper.value).kept about.now.journal.value.entries }
    requires fit { AllFit P.object about.now.journal.value.entries }
    requires some { 1 ≤ about.now.seats }
    ensures own { IfOk result (λ r. IsSized r.0.shared.table_id × (r.1.table_id ≡ r.0.shared.table_id)) }
    ensures first { IfOk result (λ r. r.1.me ≡ (first_view P.object K.tells about.now, [])) }
    ensures key { IfOk result (λ r. r.0.shared.key ≡ about.now) }
{
    match LockMemory::<P, K>::new(alloc, &[0; 129], slots, about) {
        Ok(made) => Ok(made),
        Err(_) => Err(AllocError),
    }
}
