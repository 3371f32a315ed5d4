ghost use Rattle.inode_tree.specs.Views.{Held, Shown, Grows, Agreeing, IsKnown, covers, shown_at};
ghost use Rattle.inode_tree.specs.declared.need.GetStop.TheVariants as stop;
ghost use Rattle.inode_tree.specs.declared.need.Need.{Need};
ghost use Rattle.lock_core.specs.declared.object.LockMode.TheVariants.{None as Unlocked};
ghost use Rattle.std.specs.Prelude.{◌≡◌, ◌≢◌, ℕ, ◌%◌, ◌<◌, true, false, Some, Err, IfOk, OnOk};

use super::id::NodeId;
use super::need::GetStop;
use super::node_ref::NodeRef;
use lock_core::LockMode;

/// A look at the nodes of the stripes that are held.
pub trait View {
    /// What tells which view it is.
    type Over;

    // The mode in which each stripe is held.
    ghost held: { Self → Held };
    // The parts that were looked at so far.
    ghost shown: { Self → Shown };
    // What it is a view of.
    ghost over: { Self → Self.Over };

    /// A look at a node, for which its stripe has to be held in this mode or more. Where it fails with `Need` the stripe isn't held
    /// so, and where it succeeds it is. Want of memory may come in either case. A look asks for a mode other than `None`, and for
    /// an id that may be asked: the account's, or one to which a directory leads that was looked at.
    fn get(&mut self, id: NodeId, mode: LockMode) -> Result<NodeRef, GetStop>
        requires known { IsKnown (shown self.old) id.0 }
        requires asks { mode ≢ Unlocked }
        ensures held { held self.new ≡ held self.old }
        ensures over { over self.new ≡ over self.old }
        ensures grows { Grows (shown self.old) (shown self.new) }
        ensures others { (stripe : ℕ) → stripe ≢ id.0 % 64 → shown self.new stripe ≡ shown self.old stripe }
        ensures inode { IfOk result (λ node. shown_at (shown self.new) id.0 ≡ Some node) }
        ensures enough { OnOk result (covers (held self.old (id.0 % 64)) mode ≡ true) }
        ensures need { (n : Need) → result ≡ Err (stop.Need n)
            → (n.stripe ≡ id.0 % 64) × (n.mode ≡ mode) × (covers (held self.old (id.0 % 64)) mode ≡ false) };

    /// The mode in which a stripe below 64 is held.
    fn mode(&self, stripe: u8) -> LockMode
        requires { stripe < 64 }
        ensures { result ≡ held self.now stripe };

    /// Some list of parts that stands for a tree, in which each node has a date, agrees with what was shown. It does nothing.
    fn stands(&self)
        ensures { ∥ Agreeing (shown self.now) ∥₁ };
}
