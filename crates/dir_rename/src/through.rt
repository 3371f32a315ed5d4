//! A look through all that moves along, where a path may come out too long.
ghost use Rattle.std.specs.Prelude.{◌≡◌, Err, IfOk};
ghost use Rattle.dir_rename.specs.Through.{IsThrough, IsOverlongToo};
ghost use Rattle.inode_tree.specs.declared.draft.EvalStop.TheVariants as stop;
ghost use Rattle.inode_tree.specs.declared.need.Need.{Need};
ghost use Rattle.namespace_model.specs.Trees.{Path};
ghost use Rattle.path_order.specs.Subtrees.{IsTop, NeedsSubtree};
ghost use Rattle.path_walk.specs.Calls.{GoesOn};
ghost use Rattle.path_walk.specs.Visits.{IsHeldAndShown};

use super::lengths::{Room, is_overlong};
use inode_tree::{EvalStop, NodeId, View};
use path_order::{Cursor, Seen};
use std::alloc::{AllocError, Global};

// A subtree that was looked through.
#[derive(Drop)]
pub(crate) struct Through {
    // The ids of its nodes, in path order.
    pub(crate) ids: Vec<NodeId>,
    // Whether one of their paths comes out too long.
    pub(crate) too_long: bool,
}

// Looks through a node that moves below this room, which was looked at, and all that stands below it, and counts the lengths of their
// paths; all of it is looked at, also behind a path that comes out too long. Where a stripe isn't held at least shared, the answer is
// `Need`. Want of memory may come at any time.
pub(crate) fn look_through<V: View>(
    alloc: Global,
    view: &mut V,
    room: Room,
    top: Seen,
) -> Result<Through, EvalStop>
    requires top { (p : Path) × IsTop (V.shown view.old) p top }
    requires looked { IsHeldAndShown (V.held view.old) (V.shown view.old) top.id.0 }
    ensures on { GoesOn (V.held view.old) (V.held view.new) (V.over view.old) (V.over view.new) (V.shown view.old) (V.shown view.new) }
    ensures through { IfOk result (λ through. (p : Path) → IsTop (V.shown view.old) p top
        → IsThrough (V.held view.new) (V.shown view.new) p room through) }
    ensures need { (n : Need) → result ≡ Err (stop.Need n) → (p : Path) → IsTop (V.shown view.old) p top
        → NeedsSubtree (V.held view.new) (V.shown view.new) p n }
{
    let mut ids = Vec::new(alloc);
    ids.push(top.id)?;
    let mut too_long = is_overlong(room, &[]);
    let mut cursor = Cursor::start(alloc, top.node);
    for _count in 0..u64::MAX {
        match cursor.next(alloc, view) {
            Ok(Some(seen)) => {
                ids.push(seen.id)?;
                too_long = is_overlong_too(alloc, too_long, room, &cursor)?;
            }
            Ok(None) => return Ok(Through { ids, too_long }),
            Err(stop) => return Err(stop),
        }
    }
    Err(EvalStop::NoMemory)
}

// Whether a path so far comes out too long, or the one to which a walk has come.
fn is_overlong_too(
    alloc: Global,
    before: bool,
    room: Room,
    cursor: &Cursor,
) -> Result<bool, AllocError>
    ensures { IfOk result (IsOverlongToo before room cursor.now) }
{
    if before {
        return Ok(true);
    }
    let names = cursor.names(alloc)?;
    Ok(is_overlong(room, names.as_slice()))
}
