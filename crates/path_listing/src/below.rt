//! The page of all that is below a directory.
ghost use Rattle.std.specs.Prelude.{◌≡◌, ◌≢◌, ◌≤◌, [], true, Err, IfOk};
ghost use Rattle.inode_tree.specs.declared.draft.EvalStop.TheVariants as stop;
ghost use Rattle.inode_tree.specs.declared.need.Need.{Need};
ghost use Rattle.namespace_model.specs.Trees.{Path};
ghost use Rattle.path_listing.specs.Listed.{IsPage, IsPageFrom, NeedsPage};
ghost use Rattle.path_order.specs.Cursors.{IsWalk, IsCursor};
ghost use Rattle.path_order.specs.PagesBelow.{NeedsOfPage};
ghost use Rattle.path_order.specs.Starts.{IsAtFor};
ghost use Rattle.path_walk.specs.Calls.{GoesOn};

use super::rows::{Page, Wanted, no_page, put_row};
use inode_tree::{EvalStop, NodeRef, View};
use path_order::{Start, start_at};
use path_text::Path;
use std::alloc::Global;

// The page of all that is below a directory, behind the token, with the nodes on the way to it. Each of them is looked at, for which its
// stripe has to be held at least shared: where it isn't, the answer is `Need`. Want of memory may come at any time.
pub(crate) fn read_below<V: View>(
    alloc: Global,
    view: &mut V,
    dir: &Path,
    wanted: &Wanted<'_>,
    root: NodeRef,
) -> Result<Page, EvalStop>
    requires path { dir.now ≢ [] }
    requires root { IsAtFor (V.shown view.old) dir.now root }
    requires some { 1 ≤ wanted.now.max }
    ensures on { GoesOn (V.held view.old) (V.held view.new) (V.over view.old) (V.over view.new) (V.shown view.old) (V.shown view.new) }
    ensures page { IfOk result (λ page. IsPage (V.held view.new) (V.shown view.new) dir.now true wanted.now.token.now wanted.now.max page) }
    ensures need { (n : Need) → result ≡ Err (stop.Need n)
        → NeedsPage (V.held view.new) (V.shown view.new) dir.now true wanted.now.token.now wanted.now.max n }
{
    match start_at(alloc, view, dir, root, wanted.token.as_ref()) {
        Ok(None) => Ok(no_page(alloc)),
        Ok(Some(start)) => read_from(alloc, view, start, wanted.max as usize),
        Err(stop) => Err(stop),
    }
}

// The page of a walk that began.
fn read_from<V: View>(
    alloc: Global,
    view: &mut V,
    start: Start,
    max: usize,
) -> Result<Page, EvalStop>
    requires walk { IsWalk (V.shown view.old) start.cursor }
    requires some { 1 ≤ max }
    ensures on { GoesOn (V.held view.old) (V.held view.new) (V.over view.old) (V.over view.new) (V.shown view.old) (V.shown view.new) }
    ensures way { IfOk result (λ page. page.way.items ≡ start.seen.items) }
    ensures page { IfOk result (λ page. (dir token : Path) → IsCursor (V.shown view.old) dir token start.cursor
        → IsPageFrom (V.held view.new) (V.shown view.new) dir token max page) }
    ensures need { (n : Need) → result ≡ Err (stop.Need n) → (dir token : Path) → IsCursor (V.shown view.old) dir token start.cursor
        → NeedsOfPage (V.held view.new) (V.shown view.new) dir token max n }
{
    let Start {
        mut cursor,
        seen: way,
    } = start;
    let mut rows = Vec::new(alloc);
    for _count in 0..max {
        match cursor.next(alloc, view) {
            Ok(Some(seen)) => {
                let names = cursor.names(alloc)?;
                put_row(&mut rows, seen, names)?;
            }
            Ok(None) => {
                return Ok(Page {
                    way,
                    rows,
                    more: false,
                });
            }
            Err(stop) => return Err(stop),
        }
    }
    let more = !cursor.is_at_end();
    Ok(Page { way, rows, more })
}
