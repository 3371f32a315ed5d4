//! A node and all that is below it.
ghost use Rattle.std.specs.Prelude.{◌≡◌, ◌∷◌, ℕ, Err, IfOk};
ghost use Rattle.inode_tree.specs.Promises.{numbers_of};
ghost use Rattle.inode_tree.specs.declared.draft.EvalStop.TheVariants as stop;
ghost use Rattle.inode_tree.specs.declared.need.Need.{Need};
ghost use Rattle.namespace_model.specs.Trees.{Path};
ghost use Rattle.path_walk.specs.Calls.{GoesOn};
ghost use Rattle.path_order.specs.PagesBelow.{ids_in};
ghost use Rattle.path_order.specs.Subtrees.{IsTop, IsSubtree, NeedsSubtree};

use super::cursor::{Cursor, Seen};
use super::paging::next_page;
use inode_tree::{EvalStop, NodeId, View};
use std::alloc::{AllocError, Global};

/// The node of a path and the nodes of all that is below it, in path order.
#[derive(Drop)]
pub struct Subtree {
    /// The node of the path.
    pub top: Seen,
    /// The nodes below it.
    pub below: Vec<Seen>,
}

/// The node of a path, which was looked at, with all that is below it. Each node below it is looked at, for which its
/// stripe has to be held at least shared: where it isn't, the answer is `Need`. `NoMemory` may come at any time.
pub fn walk_subtree<V: View>(alloc: Global, view: &mut V, top: Seen) -> Result<Subtree, EvalStop>
    requires top { (p : Path) × IsTop (V.shown view.old) p top }
    ensures on { GoesOn (V.held view.old) (V.held view.new) (V.over view.old) (V.over view.new) (V.shown view.old) (V.shown view.new) }
    ensures top { IfOk result (λ s. s.top ≡ top) }
    ensures nodes { IfOk result (λ s. (p : Path) → IsTop (V.shown view.old) p top
        → IsSubtree (V.held view.new) (V.shown view.new) p s) }
    ensures need { (n : Need) → result ≡ Err (stop.Need n) → (p : Path) → IsTop (V.shown view.old) p top
        → NeedsSubtree (V.held view.new) (V.shown view.new) p n }
{
    let mut cursor = Cursor::start(alloc, top.node.copy()?);
    let page = match next_page(alloc, view, &mut cursor, usize::MAX) {
        Ok(page) => page,
        Err(stop) => return Err(stop),
    };
    if page.more {
        return Err(EvalStop::NoMemory);
    }
    Ok(Subtree {
        top,
        below: page.seen,
    })
}

impl Subtree {
    /// The ids of its nodes, in path order. The one error is want of memory.
    pub fn ids(&self, alloc: Global) -> Result<Vec<NodeId>, AllocError>
        ensures { IfOk result (λ ids. numbers_of ids.items ≡ ids_in (self.now.top ∷ self.now.below.items)) }
    {
        let mut ids = Vec::new(alloc);
        ids.push(self.top.id)?;
        for seen in &self.below {
            ids.push(seen.id)?;
        }
        Ok(ids)
    }
}
