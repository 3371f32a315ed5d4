//! Sixty-four shelves, to which deliveries come: an object whose entries have bodies and ids, whose parts keep room ready, and
//! which asks the next number of a pass.
ghost use Rattle.std.specs.Prelude.{◌≡◌, ◌<◌, ℕ, Some, false, slice_get, nat_eq};
ghost use Rattle.lock_core.specs.declared.object.LockMode.TheVariants as mode;
ghost use Rattle.lock_core.specs.Object.{mode_of};
ghost use Rattle.path_locks.specs.Views.{HoldsNothing, IsSeatAgain};
ghost use Rattle.striped_store.specs.Views.{IsOf};

use commit_journal::Keeper;
use lock_core::{Bodied, LockMode, Parted};
use path_locks::Plan;
use std::alloc::{AllocError, Global};
use std::sync::Wait;
use striped_store::{CommitRefusal, Pass, Receipt, Store};

/// One shelf.
#[derive(Clone, Copy, Debug, PartialEq, Eq)]
pub struct Shelf {
    /// The number of the last delivery, 0 before the first.
    pub last: u64,
    /// Whether there is room for one more.
    pub room: bool,
}

/// A delivery to one shelf.
#[derive(Clone, Copy, Debug, PartialEq, Eq)]
pub struct Delivery {
    /// The pass that made it.
    pub pass: u32,
    /// How many ids the pass used up before.
    pub turn: u64,
    /// The shelf, which is below 64.
    pub shelf: u8,
    /// The bytes of its body.
    pub weight: u64,
    /// How many ids it uses up.
    pub ids: u8,
    ghost shelf_below: { shelf < 64 },
}

impl Bodied for Delivery {
    ghost body = { λ d. d.weight };

    ghost uses = { λ d. d.ids };

    fn body_len(&self) -> u64 {
        self.weight
    }

    fn uses_len(&self) -> u8 {
        self.ids
    }
}

/// The object.
#[derive(Drop)]
pub struct Shelves;

impl Parted for Shelves {
    ghost use Rattle.std.specs.Prelude.{◌≡◌, true};
    ghost use Rattle.lock_tests.specs.Shelved.{shelves, bare_shelf, shelf_does, shelf_applied, shelves_lawful, shelves_work};

    type Entry = Delivery;

    type Reply = u64;

    type Part = Shelf;

    type Work = ();

    ghost object = { shelves };

    ghost bare = { bare_shelf };

    ghost ready = { λ s _. s.room ≡ true };

    ghost applied = { shelf_applied };

    ghost does = { shelf_does };

    fn pass_of(entry: &Delivery) -> u32 {
        entry.pass
    }

    fn opening_parts(alloc: Global) -> Result<Vec<Shelf>, AllocError> {
        let empty = Shelf {
            last: 0,
            room: false,
        };
        Vec::from_elem(alloc, empty, 64)
    }

    fn reserve(_alloc: Global, part: &mut Shelf, _work: &()) -> Result<(), AllocError> {
        part.room = true;
        Ok(())
    }

    fn apply(part: &mut Shelf, _work: &(), number: u64) {
        *part = Shelf {
            last: number,
            room: false,
        };
    }

    ghost lawful = { shelves_lawful };

    ghost works = { shelves_work };
}

/// What a delivery to the shelf holds: the shelf alone, exclusively.
pub fn shelf_plan(shelf: u8) -> Plan
    requires { shelf < 64 }
    ensures { (k : ℕ) → k < 64 → slice_get result k ≡ Some (mode_of (nat_eq k shelf) false) }
{
    let mut plan = Plan::none();
    plan.set(shelf, LockMode::Exclusive);
    plan
}

/// Commits a delivery with a body of `weight` bytes and so many ids.
pub fn delivered<R: Wait, K: Keeper<Delivery>>(
    rt: &R,
    store: &Store<Shelves, K>,
    pass: &mut Pass<Shelves, K>,
    shelf: u8,
    weight: u64,
    ids: u8,
) -> Result<Receipt, CommitRefusal>
    requires own { IsOf store.now pass.old }
    requires nothing { HoldsNothing pass.old.seat }
    requires shelf { shelf < 64 }
    ensures same { IsSeatAgain pass.old.seat pass.new.seat }
    ensures nothing { HoldsNothing pass.new.seat }
{
    let plan = shelf_plan(shelf);
    let held = store.begin(rt, pass, &plan);
    let entry = Delivery {
        pass: pass.number(),
        turn: pass.used(),
        shelf,
        weight,
        ids,
    };
    match store.commit(rt, pass, held, entry, ()) {
        Ok(receipt) => Ok(receipt),
        Err((held, why)) => {
            store.finish(pass, held);
            Err(why)
        }
    }
}
