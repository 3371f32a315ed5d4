//! The nodes of the stripes that a pass holds, as an evaluator looks at them.
ghost use Rattle.std.specs.Prelude.{◌≡◌};
ghost use Rattle.inode_tree.specs.Views.{covers};

use commit_journal::Keeper;
use inode_tree::{GetStop, Need, NodeId, NodeRef, Placed, View};
use lock_core::LockMode;
use parted_namespace::Namespace;
use path_locks::{Held, Plan};
use std::marker::Model;
use std::sync::Wait;
use striped_store::{Pass, Store};

/// A look at the nodes of the stripes that a pass holds, which waits for the latch of a stripe that is held shared. A contract
/// sees which reference to the pass it has, the pass, and what is held.
///
/// The pass is one of the store, what is held is held by it, and is the plan. The parts that were found are those of the replay
/// of one journal, which stands for the tree of its run: so every id that a directory leads to is found, and what was shown
/// stays what it was.
#[derive(Drop)]
pub struct HeldNodes<'a, R: Wait, K: Keeper<Placed>> {
    pub(crate) rt: &'a R,
    pub(crate) store: &'a Store<Namespace, K>,
    pub(crate) pass: &'a mut Pass<Namespace, K>,
    pub(crate) held: &'a Held<Namespace, K>,
    pub(crate) plan: &'a Plan,
}

impl<'a, R: Wait, K: Keeper<Placed>> Model for HeldNodes<'a, R, K> {
    ghost use Rattle.std.specs.Coded.{codes};
    ghost use Rattle.inode_tree.specs.Stripes.{stripe_code};
    ghost use Rattle.service_workers.specs.Looks.{Looker, IsLooking};

    ghost Value = { Looker K };

    ghost coded = { Prim.hlevel (codes, stripe_code (Prim.hlevel codes)) };

    ghost view = { λ v. record { name = v.pass.ghost_name; pass = v.pass.now; held = v.held.now } };

    ghost invariant = { λ v. IsLooking v.store.now v.pass.now v.held.now v.plan.now };
}

impl<'a, R: Wait, K: Keeper<Placed>> View for HeldNodes<'a, R, K> {
    ghost use Rattle.service_workers.specs.Looks.{mode_in, shown_by, unlooked};

    type Over = HeldNodes<'a, R, K>;

    ghost held = { λ v. mode_in v.held };

    ghost shown = { λ v. shown_by v.pass };

    ghost over = { unlooked };

    fn get(&mut self, id: NodeId, mode: LockMode) -> Result<NodeRef, GetStop> {
        let stripe = (id.0 % 64) as u8;
        if !covers(self.plan.mode(stripe), mode) {
            return Err(GetStop::Need(Need { stripe, mode }));
        }
        match self.store.look(self.rt, self.pass, self.held, stripe, |part| part.node(id)) {
            Ok(Some(node)) => Ok(node),
            Ok(None) => unreachable!(),
            Err(_) => Err(GetStop::NoMemory),
        }
    }

    fn mode(&self, stripe: u8) -> LockMode {
        self.plan.mode(stripe)
    }

    fn stands(&self) {
        let _plan = self.plan;
    }
}

// Whether who holds a stripe in the first mode may do what asks for the second.
fn covers(held: LockMode, asked: LockMode) -> bool
    ensures { result ≡ covers held asked }
{
    match asked {
        LockMode::None => true,
        LockMode::Shared => held != LockMode::None,
        LockMode::Exclusive => held == LockMode::Exclusive,
    }
}
