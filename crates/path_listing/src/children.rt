//! The page of a directory's children.
ghost use Rattle.std.specs.Prelude.{◌≡◌, ◌≢◌, ◌≤◌, [], ◌∷◌, false, Err, IfOk, option_map};
ghost use Rattle.inode_tree.specs.Views.{IsKnown};
ghost use Rattle.inode_tree.specs.declared.draft.EvalStop.TheVariants as stop;
ghost use Rattle.inode_tree.specs.declared.need.Need.{Need};
ghost use Rattle.namespace_model.specs.Trees.{Path};
ghost use Rattle.path_listing.specs.Listed.{IsBegin, IsLookOf, IsPage, IsPageOfChildren, NeedsPage, NeedsChildren};
ghost use Rattle.path_order.specs.Starts.{IsAtFor, IsRoot};
ghost use Rattle.path_order.specs.Needs.{NeedsNode};
ghost use Rattle.path_walk.specs.Calls.{GoesOn};

use super::rows::{Page, Wanted, no_page, put_row};
use inode_tree::{EvalStop, NodeId, NodeRef, View};
use lock_core::LockMode;
use path_order::Seen;
use path_text::{Name, Path};
use path_walk::child_above;
use std::alloc::{AllocError, Global};
use std::cmp::Ordering;

// Where a page of children begins.
pub(crate) enum Begin<'a> {
    // Behind a name, or at the first child.
    Behind(Option<&'a Name>),
    // Behind all of them.
    AtEnd,
}

// The page of a directory's children, behind the token. Each of them is looked at, for which its stripe has to be held at least shared:
// where it isn't, the answer is `Need`. Want of memory may come at any time.
pub(crate) fn read_children<V: View>(
    alloc: Global,
    view: &mut V,
    dir: &Path,
    wanted: &Wanted<'_>,
    node: &NodeRef,
) -> Result<Page, EvalStop>
    requires path { dir.now ≢ [] }
    requires root { IsAtFor (V.shown view.old) dir.now node.now }
    requires some { 1 ≤ wanted.now.max }
    ensures on { GoesOn (V.held view.old) (V.held view.new) (V.over view.old) (V.over view.new) (V.shown view.old) (V.shown view.new) }
    ensures page { IfOk result (λ page. IsPage (V.held view.new) (V.shown view.new) dir.now false wanted.now.token.now wanted.now.max page) }
    ensures need { (n : Need) → result ≡ Err (stop.Need n)
        → NeedsPage (V.held view.new) (V.shown view.new) dir.now false wanted.now.token.now wanted.now.max n }
{
    match begin_at(dir, wanted.token) {
        Begin::Behind(last) => read_behind(alloc, view, node, last, wanted.max as usize),
        Begin::AtEnd => Ok(no_page(alloc)),
    }
}

// Where the page of a directory's children begins that stand behind the token.
fn begin_at<'a>(dir: &Path, token: &'a Option<Path>) -> Begin<'a>
    requires path { dir.now ≢ [] }
    ensures { IsBegin dir.now token.now result }
{
    let Some(token) = token else {
        return Begin::Behind(None);
    };
    if dir.is_prefix_of(token) {
        let names = &token.names()[dir.names().len()..];
        return Begin::Behind(names.first());
    }
    match dir.cmp(token) {
        Ordering::Less => Begin::AtEnd,
        _ => Begin::Behind(None),
    }
}

// The children behind a name, at most so many.
fn read_behind<V: View>(
    alloc: Global,
    view: &mut V,
    node: &NodeRef,
    behind: Option<&Name>,
    max: usize,
) -> Result<Page, EvalStop>
    requires root { IsRoot (V.shown view.old) node.now }
    requires some { 1 ≤ max }
    ensures on { GoesOn (V.held view.old) (V.held view.new) (V.over view.old) (V.over view.new) (V.shown view.old) (V.shown view.new) }
    ensures page { IfOk result (λ page. (dir : Path) → IsAtFor (V.shown view.old) dir node.now
        → IsPageOfChildren (V.held view.new) (V.shown view.new) dir (option_map (λ n. n.now) behind.entry) max page) }
    ensures need { (n : Need) → result ≡ Err (stop.Need n) → (dir : Path) → IsAtFor (V.shown view.old) dir node.now
        → NeedsChildren (V.held view.new) (V.shown view.new) dir (option_map (λ n. n.now) behind.entry) max n }
{
    let mut rows = Vec::new(alloc);
    let mut last = behind;
    for _count in 0..max {
        match child_above(node, last) {
            Some((name, id)) => {
                let seen = match look(view, id) {
                    Ok(seen) => seen,
                    Err(stop) => return Err(stop),
                };
                put_row(&mut rows, seen, one_name(alloc, name)?)?;
                last = Some(name);
            }
            None => {
                return Ok(Page {
                    way: Vec::new(alloc),
                    rows,
                    more: false,
                });
            }
        }
    }
    let more = child_above(node, last).is_some();
    Ok(Page {
        way: Vec::new(alloc),
        rows,
        more,
    })
}

// A look at a node, shared.
fn look<V: View>(view: &mut V, id: NodeId) -> Result<Seen, EvalStop>
    requires known { IsKnown (V.shown view.old) id.0 }
    ensures on { GoesOn (V.held view.old) (V.held view.new) (V.over view.old) (V.over view.new) (V.shown view.old) (V.shown view.new) }
    ensures looks { IfOk result (λ seen. IsLookOf (V.held view.new) (V.shown view.new) id seen) }
    ensures need { (n : Need) → result ≡ Err (stop.Need n) → NeedsNode (V.held view.new) id.0 n }
{
    let node = view.get(id, LockMode::Shared)?;
    Ok(Seen { id, node })
}

// A name alone.
fn one_name(alloc: Global, name: &Name) -> Result<Vec<Name>, AllocError>
    ensures { IfOk result (λ names. names.items ≡ name.now ∷ []) }
{
    let mut names = Vec::new(alloc);
    names.push(name.copy(alloc)?)?;
    Ok(names)
}
