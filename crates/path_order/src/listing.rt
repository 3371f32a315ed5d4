ghost use Rattle.std.specs.Prelude.{◌≡◌, ◌≢◌, ◌≤◌, [], true, Some, None, Err, option_map, IfOk, if◌then◌else◌};
ghost use Rattle.inode_tree.specs.declared.draft.EvalStop.TheVariants as stop;
ghost use Rattle.inode_tree.specs.declared.need.Need.{Need};
ghost use Rattle.path_order.specs.PagesBelow.{NeedsOfPage};
ghost use Rattle.path_order.specs.Cursors.{names_of, IsWalk, IsCursor};
ghost use Rattle.path_order.specs.Listings.{IsListing, IsListedFrom, NeedsListing, items_of};
ghost use Rattle.path_order.specs.Starts.{IsAtFor};
ghost use Rattle.namespace_model.specs.Trees.{Path};
ghost use Rattle.path_walk.specs.Calls.{GoesOn};

use super::begin::Start;
use super::cursor::{Cursor, Seen};
use super::paging::next_page;
use super::token::start_at;
use inode_tree::{EvalStop, NodeRef, View};
use path_text::{Name, Path};
use std::alloc::{AllocError, Global};

/// What a page of all that is below a directory reads and shows.
#[derive(Drop)]
pub struct Listing {
    /// The nodes on the way to the token.
    pub way: Vec<Seen>,
    /// The nodes of the page.
    pub seen: Vec<Seen>,
    /// The names below the directory of the last path, where more is left.
    pub next: Option<Vec<Name>>,
}

/// A page of all that is below the node of a path, at most so many nodes, behind a token where one is given. Each node of
/// the page and each on the way to the token is looked at, for which its stripe has to be held at least shared: where it
/// isn't, the answer is `Need`. `NoMemory` may come at any time.
pub fn list_below<V: View>(
    alloc: Global,
    view: &mut V,
    dir: &Path,
    root: NodeRef,
    token: Option<&Path>,
    max: usize,
) -> Result<Listing, EvalStop>
    requires path { dir.now ≢ [] }
    requires root { IsAtFor (V.shown view.old) dir.now root }
    requires some { 1 ≤ max }
    ensures on { GoesOn (V.held view.old) (V.held view.new) (V.over view.old) (V.over view.new) (V.shown view.old) (V.shown view.new) }
    ensures listing { IfOk result (λ listing. IsListing (V.held view.new) (V.shown view.new) dir.now
        (option_map (λ t. t.now) token.entry) max listing) }
    ensures need { (n : Need) → result ≡ Err (stop.Need n) → NeedsListing (V.held view.new) (V.shown view.new) dir.now
        (option_map (λ t. t.now) token.entry) max n }
{
    match start_at(alloc, view, dir, root, token) {
        Ok(None) => Ok(Listing {
            way: Vec::new(alloc),
            seen: Vec::new(alloc),
            next: None,
        }),
        Ok(Some(start)) => list_from(alloc, view, start, max),
        Err(stop) => Err(stop),
    }
}

// A page of a walk that began.
fn list_from<V: View>(
    alloc: Global,
    view: &mut V,
    start: Start,
    max: usize,
) -> Result<Listing, EvalStop>
    requires walk { IsWalk (V.shown view.old) start.cursor }
    requires some { 1 ≤ max }
    ensures on { GoesOn (V.held view.old) (V.held view.new) (V.over view.old) (V.over view.new) (V.shown view.old) (V.shown view.new) }
    ensures listing { IfOk result (λ listing. (listing.way.items ≡ start.seen.items)
        × ((dir token : Path) → IsCursor (V.shown view.old) dir token start.cursor
        → IsListedFrom (V.held view.new) (V.shown view.new) dir token max listing)) }
    ensures need { (n : Need) → result ≡ Err (stop.Need n) → (dir token : Path) → IsCursor (V.shown view.old) dir token start.cursor
        → NeedsOfPage (V.held view.new) (V.shown view.new) dir token max n }
{
    let Start {
        mut cursor,
        seen: way,
    } = start;
    let page = match next_page(alloc, view, &mut cursor, max) {
        Ok(page) => page,
        Err(stop) => return Err(stop),
    };
    let next = next_names(alloc, &cursor, page.more)?;
    Ok(Listing {
        way,
        seen: page.seen,
        next,
    })
}

// The names of the last path, where more is left.
fn next_names(alloc: Global, cursor: &Cursor, more: bool) -> Result<Option<Vec<Name>>, AllocError>
    ensures { IfOk result (λ next. items_of next ≡ (if more then Some (names_of cursor.now) else None)) }
{
    if more {
        return Ok(Some(cursor.names(alloc)?));
    }
    Ok(None)
}
