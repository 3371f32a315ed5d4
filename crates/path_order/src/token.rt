ghost use Rattle.std.specs.Prelude.{◌≡◌, ◌≢◌, ℕ, [], Some, Err, option_map, IfOk};
ghost use Rattle.inode_tree.specs.Views.{Shown};
ghost use Rattle.inode_tree.specs.declared.draft.EvalStop.TheVariants as stop;
ghost use Rattle.inode_tree.specs.declared.need.Need.{Need};
ghost use Rattle.namespace_model.specs.Trees.{Path};
ghost use Rattle.path_walk.specs.Calls.{GoesOn};
ghost use Rattle.path_order.specs.Cursors.{IsCursor};
ghost use Rattle.path_order.specs.Starts.{IsAtFor, IsStartAt, NeedsOnTheWay};

use super::begin::{Start, behind};
use super::cursor::Cursor;
use inode_tree::{EvalStop, NodeRef, View};
use path_text::Path;
use std::alloc::Global;
use std::cmp::Ordering;

/// A walk below the node of a path, behind a token where one is given. It is `None` where the token stands behind all that
/// can be below the path. Each node below the path that is there on the way to the token is looked at, for which its stripe
/// has to be held at least shared: where it isn't, the answer is `Need`. `NoMemory` may come at any time.
pub fn start_at<V: View>(
    alloc: Global,
    view: &mut V,
    dir: &Path,
    root: NodeRef,
    token: Option<&Path>,
) -> Result<Option<Start>, EvalStop>
    requires path { dir.now ≢ [] }
    requires root { IsAtFor (V.shown view.old) dir.now root }
    ensures on { GoesOn (V.held view.old) (V.held view.new) (V.over view.old) (V.over view.new) (V.shown view.old) (V.shown view.new) }
    ensures start { IfOk result (λ start. IsStartAt (V.held view.new) (V.shown view.new) dir.now
        (option_map (λ t. t.now) token.entry) start) }
    ensures need { (n : Need) → result ≡ Err (stop.Need n) → NeedsOnTheWay (V.held view.new) (V.shown view.new) dir.now
        (option_map (λ t. t.now) token.entry) n }
{
    let Some(token) = token else {
        return Ok(Some(at_start(alloc, root)));
    };
    if dir.is_prefix_of(token) {
        let names = &token.names()[dir.names().len()..];
        return match behind(alloc, view, root, names) {
            Ok(start) => Ok(Some(start)),
            Err(stop) => Err(stop),
        };
    }
    match dir.cmp(token) {
        Ordering::Less => Ok(None),
        _ => Ok(Some(at_start(alloc, root))),
    }
}

// A walk at its beginning.
fn at_start(alloc: Global, root: NodeRef) -> Start
    ensures walk { (shown : Shown) (p : Path) → IsAtFor shown p root → IsCursor shown p p result.cursor }
    ensures seen { result.seen.items ≡ [] }
{
    Start {
        cursor: Cursor::start(alloc, root),
        seen: Vec::new(alloc),
    }
}
