//! Stores of one pass.
ghost use Rattle.std.specs.Prelude.{◌≡◌, [], true, length};
ghost use Rattle.commit_journal.specs.Keeper.{AreKept};
ghost use Rattle.lock_tests.specs.Pairs.{AreIdlePasses};

use commit_journal::{Keeper, Limits};
use lock_core::Parted;
use std::alloc::{AllocError, Global};
use std::marker::Model;
use std::test::Fail;
use striped_store::{Closing, Pass, Store};

/// A store and its one pass, which holds nothing.
#[derive(Drop)]
pub(super) struct Lone<P: Parted, K: Keeper<P::Entry>> {
    pub(super) store: Store<P, K>,
    /// Empty, with room for the pass.
    pub(super) passes: Vec<Pass<P, K>>,
    pub(super) pass: Pass<P, K>,
}

impl<P: Parted, K: Keeper<P::Entry>> Model for Lone<P, K> {
    ghost use Rattle.lock_tests.specs.Pairs.{IsOnlyPass};

    ghost Value = { Unit {0} };

    ghost view = { λ _. tt };

    ghost invariant = { λ l. IsOnlyPass l.store l.passes.items l.pass };
}

/// Whether no pass is left.
pub(super) fn is_none<P: Parted, K: Keeper<P::Entry>>(passes: &Vec<Pass<P, K>>) -> bool
    ensures { result ≡ true → passes.now.items ≡ [] }
{
    passes.is_empty()
}

/// A store with its one pass.
fn alone<P: Parted, K: Keeper<P::Entry>>(
    store: Store<P, K>,
    mut passes: Vec<Pass<P, K>>,
) -> Result<Lone<P, K>, Fail>
    requires many { length passes.items ≡ store.seats }
    requires idle { AreIdlePasses store passes.items }
{
    let Some(pass) = passes.pop() else {
        return Err(Fail::new("no pass"));
    };
    if is_none(&passes) {
        Ok(Lone {
            store,
            passes,
            pass,
        })
    } else {
        Err(Fail::new("more than one pass"))
    }
}

impl<P: Parted, K: Keeper<P::Entry>> Lone<P, K> {
    /// A store with a journal of at most so many entries and bytes.
    pub(super) fn open(
        alloc: Global,
        entries: u64,
        bytes: u64,
        keeper: K,
    ) -> Result<Lone<P, K>, Fail>
        requires kept { AreKept (K.tells keeper).kept [] }
    {
        let limits = Limits::new(1, entries, bytes, 1).ok_or("no limits")?;
        let (store, passes) = Store::<P, K>::start(alloc, &limits, keeper)?;
        alone(store, passes)
    }

    /// Closes the store, and starts one with what it left.
    pub(super) fn restart(self, alloc: Global) -> Result<Lone<P, K>, Fail> {
        let Lone {
            store,
            mut passes,
            pass,
        } = self;
        passes.push(pass)?;
        let Closing {
            journal,
            parts,
            keeper,
        } = store.close(passes);
        let (store, passes) = Store::<P, K>::start_from(alloc, parts, journal, 1, keeper)?;
        alone(store, passes)
    }

    /// Closes the store.
    pub(super) fn close(self) -> Result<Closing<P, K>, AllocError> {
        let Lone {
            store,
            mut passes,
            pass,
        } = self;
        passes.push(pass)?;
        Ok(store.close(passes))
    }
}
