//! The service: its start, and its end.
ghost use Rattle.std.specs.Prelude.{◌≡◌, [], IfOk, length, map};
ghost use Rattle.lock_core.specs.Object.{replay};
ghost use Rattle.lock_core.specs.Sound.{AllFit};
ghost use Rattle.commit_journal.specs.Keeper.{AreKept};
ghost use Rattle.namespace_model.specs.Step.{tree_after};
ghost use Rattle.inode_tree.specs.Stands.{Stands};
ghost use Rattle.path_locks.specs.Views.{HoldsNothing, IsSeatAgain};
ghost use Rattle.striped_store.specs.Closed.{AreEveryPass, AreByPasses};
ghost use Rattle.striped_store.specs.Views.{AreNewPasses, FindsOneJournal, IsOf, seen_by, made_by};
ghost use Rattle.parted_namespace.specs.Journals.{entries_of};
ghost use Rattle.parted_namespace.specs.Namespace.{parts_of, namespace};
ghost use Rattle.parted_namespace.specs.Opening.{bare_stripe};
ghost use Rattle.service_workers.specs.Closes.{AreOfPasses};

use commit_journal::{Keeper, Limits};
use inode_tree::Placed;
use parted_namespace::Namespace;
use path_locks::Plan;
use std::alloc::{AllocError, Global};
use std::marker::Model;
use std::sync::Wait;
use striped_store::{Closing, Pass, Store};

/// The namespace in a store of 64 stripes, shared by its passes, with the keeper of its journal. A contract sees the store's table
/// of locks, and so the limits.
#[derive(Drop)]
pub struct Service<K: Keeper<Placed>> {
    pub(crate) store: Store<Namespace, K>,
    pub(crate) limits: Limits,
    pub(crate) alloc: Global,
}

impl<K: Keeper<Placed>> Model for Service<K> {
    ghost use Rattle.std.specs.Prelude.{◌≡◌};
    ghost use Rattle.inode_tree.specs.declared.placed.Placed.{Placed};
    ghost use Rattle.path_locks.specs.Views.{TableView};

    ghost Value = { TableView Placed };

    ghost view = { λ s. s.store };

    ghost invariant = { λ s. s.limits ≡ s.store.limits };
}

impl<K: Keeper<Placed>> Service<K> {
    /// A service with an empty journal of these limits and the account alone, and its passes with the numbers 0, 1, 2 and so on, in
    /// this order; the limits say how many. The keeper has kept nothing. The one error is want of memory.
    pub fn start(
        alloc: Global,
        limits: &Limits,
        keeper: K,
    ) -> Result<(Service<K>, Vec<Pass<Namespace, K>>), AllocError>
        requires kept { AreKept (K.tells keeper).kept [] }
        ensures limits { IfOk result (λ r. r.0.limits ≡ limits.now) }
        ensures faults { IfOk result (λ r. r.0.faults ≡ (K.tells keeper).faults) }
        ensures many { IfOk result (λ r. (r.0.seats ≡ limits.now.passes) × (length r.1.items ≡ limits.now.passes)) }
        ensures new { IfOk result (λ r. AreNewPasses r.0 r.1.items) }
    {
        let (store, passes) = Store::start(alloc, limits, keeper)?;
        let limits = *limits;
        let service = Service {
            store,
            limits,
            alloc,
        };
        Ok((service, passes))
    }

    /// The allocator that it was started with.
    pub fn alloc(&self) -> Global {
        self.alloc
    }

    /// Lets a pass of the service, which holds nothing, take the locks of no stripe and give them back. From this it is known that the
    /// pass's own entries are those of what it has seen.
    pub fn settle<R: Wait>(&self, rt: &R, pass: &mut Pass<Namespace, K>)
        requires own { IsOf self.now pass.old }
        requires nothing { HoldsNothing pass.old.seat }
        ensures again { IsSeatAgain pass.old.seat pass.new.seat }
        ensures seen { seen_by pass.new ≡ seen_by pass.old }
        ensures mine { made_by pass.new ≡ made_by pass.old }
        ensures found { FindsOneJournal namespace pass.new }
        ensures nothing { HoldsNothing pass.new.seat }
    {
        let held = self.store.begin(rt, pass, &Plan::none());
        self.store.finish(pass, held);
    }

    /// The limits that it was started with.
    pub fn limits(&self) -> &Limits
        ensures { result.now ≡ self.now.limits }
    {
        &self.limits
    }

    /// Ends the service and answers its journal, its stripes and its keeper. It takes all passes that `start` made, in any order,
    /// each of which holds nothing.
    pub fn close(self, passes: Vec<Pass<Namespace, K>>) -> Closing<Namespace, K>
        requires { AreEveryPass self passes.items }
        ensures stands { Stands (parts_of result.parts.items) (tree_after (entries_of result.journal.entries)) }
        ensures parts { map bare_stripe result.parts.items ≡ replay namespace result.journal.entries }
        ensures fit { AllFit namespace result.journal.entries }
        ensures limits { result.journal.limits ≡ self.limits }
        ensures kept { AreKept (K.tells result.keeper).kept result.journal.entries }
        ensures passes { AreOfPasses result.journal.entries passes.items }
        ensures entries { AreByPasses namespace result.journal.entries passes.items }
    {
        let Service { store, .. } = self;
        store.close(passes)
    }
}
