//! What a pass holds between the rounds of a submit.
ghost use Rattle.std.specs.Prelude.{◌≡◌, ◌↔◌, ◌<◌, false, slice_set, IsTrue};
ghost use Rattle.inode_tree.specs.Views.{covers};
ghost use Rattle.path_locks.specs.Views.{HoldsNothing, IsHeldBy};
ghost use Rattle.striped_store.specs.Views.{IsOf};
ghost use Rattle.parted_namespace.specs.Opening.{bare_stripe};
ghost use Rattle.path_locks.specs.Plans.{no_plan};
ghost use Rattle.service_workers.specs.Looks.{mode_in};
ghost use Rattle.service_workers.specs.Rounds.{IsAboveAll, IsPlan, IsHolding, IsRound};

use commit_journal::Keeper;
use inode_tree::{Need, Placed};
use lock_core::LockMode;
use parted_namespace::Namespace;
use path_locks::{Held, Plan};
use std::sync::Wait;
use striped_store::{Pass, Store};

// What a pass holds, and the plan that it is.
#[derive(Drop)]
pub(crate) struct Holding<K: Keeper<Placed>> {
    pub(crate) held: Held<Namespace, K>,
    pub(crate) plan: Plan,
}

// Before the first round nothing is held.
pub(crate) fn begin_rounds<R: Wait, K: Keeper<Placed>>(
    rt: &R,
    store: &Store<Namespace, K>,
    pass: &mut Pass<Namespace, K>,
) -> Holding<K>
    requires own { IsOf store.now pass.old }
    requires nothing { HoldsNothing pass.old.seat }
    ensures { IsRound store.now pass.old pass.new result.held result.plan 0 }
{
    let plan = Plan::none();
    let held = store.begin(rt, pass, &plan);
    Holding { held, plan }
}

// Takes what was lacking beside what is held: where its stripe is above all of that it is added, else all is given back and taken
// again with it, in ascending order.
pub(crate) fn raise<R: Wait, K: Keeper<Placed>>(
    rt: &R,
    store: &Store<Namespace, K>,
    pass: &mut Pass<Namespace, K>,
    holding: Holding<K>,
    need: Need,
) -> Holding<K>
    requires own { IsOf store.now pass.old }
    requires holds { IsHeldBy bare_stripe pass.old.seat holding.held }
    requires planned { IsPlan holding.held holding.plan }
    requires stripe { need.stripe < 64 }
    requires lacks { covers (mode_in holding.held need.stripe) need.mode ≡ false }
    ensures holding { IsHolding store.now pass.old pass.new result.held result.plan }
    ensures plan { result.plan ≡ slice_set holding.plan need.stripe need.mode }
{
    let Holding { mut held, mut plan } = holding;
    let above = is_above(&plan, need.stripe);
    plan.set(need.stripe, need.mode);
    if above {
        store.extend(rt, pass, &mut held, need.stripe, need.mode);
        return Holding { held, plan };
    }
    store.finish(pass, held);
    let held = store.begin(rt, pass, &plan);
    Holding { held, plan }
}

// Whether the plan holds no stripe from this one on.
fn is_above(plan: &Plan, stripe: u8) -> bool
    ensures { IsTrue result ↔ IsAboveAll stripe plan.now }
{
    for at in stripe..64u8 {
        if plan.mode(at) != LockMode::None {
            return false;
        }
    }
    true
}
