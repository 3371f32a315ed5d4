//! The 64 stripes of nodes, all of which the sequential engine holds.
ghost use Rattle.std.specs.Prelude.{◌≡◌, length, OnOk};
ghost use Rattle.engine.specs.Stripes.{AreReady, AreChanged, AreSame, applied_where};

use inode_tree::{Change, GetStop, NodeId, NodeRef, Stripe, View};
use lock_core::{LockMode, Parted};
use parted_namespace::Namespace;
use std::alloc::{AllocError, Global};
use std::marker::Model;

/// The stripes, by number. A contract sees the list of them. Their parts stand for a tree in which each node has a date.
#[derive(Drop)]
pub(crate) struct Stripes {
    stripes: Vec<Stripe>,
}

impl Model for Stripes {
    ghost use Rattle.std.specs.Coded.{codes};
    ghost use Rattle.std.specs.Prelude.{List};
    ghost use Rattle.engine.specs.Solos.{stripes_code};
    ghost use Rattle.engine.specs.Stripes.{AreStripes};
    ghost use Rattle.inode_tree.specs.Stripes.{StripeRecord};

    ghost Value = { List StripeRecord };

    ghost coded = { stripes_code (Prim.hlevel codes) };

    ghost view = { λ s. s.stripes.items };

    ghost invariant = { λ s. AreStripes s.stripes.items };
}

impl Stripes {
    ghost use Rattle.std.specs.Prelude.{◌≡◌, IfOk, OnOk};
    ghost use Rattle.inode_tree.specs.Parts.{tree_of};
    ghost use Rattle.inode_tree.specs.Promises.{applied_all};
    ghost use Rattle.inode_tree.specs.Stands.{Stands};
    ghost use Rattle.inode_tree.specs.Views.{HasDates};
    ghost use Rattle.parted_namespace.specs.Namespace.{parts_of};
    ghost use Rattle.parted_namespace.specs.Opening.{AreOpening};
    ghost use Rattle.engine.specs.Stripes.{AreReady, LeaveOthers};

    /// The stripes with the account alone. The one error is want of memory.
    pub(crate) fn start(alloc: Global) -> Result<Stripes, AllocError>
        ensures { IfOk result (λ stripes. AreOpening (parts_of stripes)) }
    {
        Ok(Stripes {
            stripes: Namespace::opening_parts(alloc)?,
        })
    }

    /// Makes ready what the changes make of the stripes that are written: bit k of `written` is set for stripe k. The others aren't
    /// visited, and the parts stay as they are. The one error is want of memory.
    pub(crate) fn reserve(
        &mut self,
        alloc: Global,
        written: u64,
        changes: &[Change],
    ) -> Result<(), AllocError>
        ensures ready { OnOk result (AreReady written self.new changes.now) }
        ensures parts { parts_of self.new ≡ parts_of self.old }
    {
        reserve_written(alloc, self.stripes.as_mut_slice(), written, changes)
    }

    /// Puts in what is ready in the stripes that are written, with the number of the entry. It takes no memory.
    ///
    /// These are the changes for which it was made ready. They leave the other stripes, and the parts with them stand for a tree in which
    /// each node has a date.
    pub(crate) fn apply(&mut self, written: u64, changes: &[Change], number: u64)
        requires ready { AreReady written self.old changes.now }
        requires others { LeaveOthers written number changes.now (parts_of self.old) }
        requires stands { Stands (applied_all number changes.now (parts_of self.old)) (tree_of (applied_all number changes.now (parts_of self.old))) }
        requires dates { HasDates (tree_of (applied_all number changes.now (parts_of self.old))) }
        ensures { parts_of self.new ≡ applied_all number changes.now (parts_of self.old) }
    {
        apply_written(self.stripes.as_mut_slice(), written, changes, number);
    }
}

impl View for Stripes {
    ghost use Rattle.std.specs.Prelude.{slice_get};
    ghost use Rattle.lock_core.specs.declared.object.LockMode.TheVariants.{Exclusive};
    ghost use Rattle.parted_namespace.specs.Namespace.{parts_of};

    type Over = Stripes;

    ghost held = { λ s. λ stripe. Exclusive };

    ghost shown = { λ s. λ stripe. slice_get (parts_of s) stripe };

    ghost over = { λ s. s };

    fn get(&mut self, id: NodeId, _mode: LockMode) -> Result<NodeRef, GetStop> {
        let stripe = (id.0 % 64) as usize;
        match self.stripes[stripe].node(id)? {
            Some(node) => Ok(node),
            None => unreachable!(),
        }
    }

    fn mode(&self, _stripe: u8) -> LockMode {
        LockMode::Exclusive
    }

    fn stands(&self) {
        let _count = self.stripes.len();
    }
}

// In place of a visit to each stripe, the bits of those that are left are taken from the lowest on.
fn reserve_written(
    alloc: Global,
    stripes: &mut [Stripe],
    written: u64,
    changes: &[Change],
) -> Result<(), AllocError>
    requires { length stripes.old ≡ 64 }
    ensures ready { OnOk result (AreReady written stripes.new changes.now) }
    ensures same { AreSame stripes.old stripes.new }
{
    let mut left = written;
    'each: while left != 0 {
        let stripe = left.trailing_zeros();
        left &= !(1u64 << stripe);
        stripes[stripe as usize].reserve(alloc, changes)?;
    }
    Ok(())
}

fn apply_written(stripes: &mut [Stripe], written: u64, changes: &[Change], number: u64)
    requires long { length stripes.old ≡ 64 }
    requires ready { AreReady written stripes.old changes.now }
    ensures { AreChanged (applied_where written number changes.now) stripes.old stripes.new }
{
    let mut left = written;
    'each: while left != 0 {
        let stripe = left.trailing_zeros();
        left &= !(1u64 << stripe);
        stripes[stripe as usize].apply(changes, number);
    }
}
