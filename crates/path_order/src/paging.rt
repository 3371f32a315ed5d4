ghost use Rattle.std.specs.Prelude.{◌≡◌, ◌≤◌, ℕ, Err, IfOk};
ghost use Rattle.inode_tree.specs.declared.draft.EvalStop.TheVariants as stop;
ghost use Rattle.inode_tree.specs.declared.need.Need.{Need};
ghost use Rattle.namespace_model.specs.Trees.{Path};
ghost use Rattle.path_walk.specs.Calls.{GoesOn};
ghost use Rattle.path_order.specs.Cursors.{IsWalk, IsCursor};
ghost use Rattle.path_order.specs.PagesBelow.{IsPageBelow, NeedsOfPage};

use super::cursor::{Cursor, Seen};
use inode_tree::{EvalStop, View};
use std::alloc::Global;

/// Nodes of a page, in path order.
#[derive(Drop)]
pub struct Page {
    /// The nodes.
    pub seen: Vec<Seen>,
    /// Whether more is left behind the last of them.
    pub more: bool,
}

/// The next nodes of a walk, at most so many, and at least one where one is left. Each is looked at, for which its stripe
/// has to be held at least shared: where it isn't, the answer is `Need`. `NoMemory` may come at any time. After an error
/// nothing is said of the walk.
pub fn next_page<V: View>(
    alloc: Global,
    view: &mut V,
    cursor: &mut Cursor,
    max: usize,
) -> Result<Page, EvalStop>
    requires some { 1 ≤ max }
    requires walk { IsWalk (V.shown view.old) cursor.old }
    ensures on { GoesOn (V.held view.old) (V.held view.new) (V.over view.old) (V.over view.new) (V.shown view.old) (V.shown view.new) }
    ensures page { IfOk result (λ page. (root token : Path) → IsCursor (V.shown view.old) root token cursor.old
        → IsPageBelow (V.held view.new) (V.shown view.new) root token max cursor.new page) }
    ensures need { (n : Need) → result ≡ Err (stop.Need n) → (root token : Path) → IsCursor (V.shown view.old) root token cursor.old
        → NeedsOfPage (V.held view.new) (V.shown view.new) root token max n }
{
    let mut seen = Vec::new(alloc);
    for _count in 0..max {
        match cursor.next(alloc, view) {
            Ok(Some(node)) => seen.push(node)?,
            Ok(None) => return Ok(Page { seen, more: false }),
            Err(stop) => return Err(stop),
        }
    }
    let more = !cursor.is_at_end();
    Ok(Page { seen, more })
}
