//! What a listing asks of the nodes that it reads.
ghost use Rattle.std.specs.Prelude.{◌≡◌, ◌≢◌, ℕ, suc, ◌+◌, ◌<◌, ◌≤◌, [], length, take, IfOk};
ghost use Rattle.inode_tree.specs.Inodes.{node_of};
ghost use Rattle.namespace_model.specs.ListPaths.{is_closed};
ghost use Rattle.path_listing.specs.Listed.{IsWayWithin, page_closed, path_in, refusal_of, rows_closed, way_closed};

use super::rows::{Page, Row, Wanted};
use acl_check::check;
use acl_text::Perm;
use inode_tree::NodeRef;
use namespace_model::{Caller, Code, Denied, Reply};
use path_order::{Seen, path_below};
use path_text::Path;
use path_walk::{denial, is_directory, lacks, lacks_above, refuse_if};
use std::alloc::{AllocError, Global};

// What is asked of the node of the path: that it is a directory, and the rights on it.
pub(crate) fn refused(
    alloc: Global,
    caller: &Caller,
    dir: &Path,
    node: &NodeRef,
) -> Result<Option<Reply>, AllocError>
    ensures { IfOk result (λ reply. reply ≡ refusal_of caller.now dir.now node.now) }
{
    if let Some(reply) = refuse_if(alloc, !is_directory(node), Code::ResourceTypeMismatch) {
        return Ok(Some(reply));
    }
    lacks(alloc, caller, Perm::READ_EXECUTE, dir, node)
}

// The first closed directory that a page reads, where all that is below the directory is listed.
pub(crate) fn page_closed(
    alloc: Global,
    caller: &Caller,
    dir: &Path,
    wanted: &Wanted<'_>,
    page: &Page,
) -> Result<Option<Reply>, AllocError>
    requires path { dir.now ≢ [] }
    requires way { IsWayWithin dir.now wanted.now.token.now page.now.way.items }
    ensures { IfOk result (λ reply. reply ≡ page_closed caller.now dir.now wanted.now.recursive wanted.now.token.now page.now) }
{
    if !wanted.recursive {
        return Ok(None);
    }
    if let Some(token) = wanted.token {
        if let Some(reply) = way_closed(alloc, caller, token, dir.depth(), page.way.as_slice())? {
            return Ok(Some(reply));
        }
    }
    rows_closed(alloc, caller, dir, page.rows.as_slice())
}

// The first closed directory on the way to a token, from the one at the path of one name more than so many.
fn way_closed(
    alloc: Global,
    caller: &Caller,
    token: &Path,
    names: usize,
    way: &[Seen],
) -> Result<Option<Reply>, AllocError>
    requires within { (k : ℕ) → k < length way.now → names + suc k ≤ length token.now }
    ensures { IfOk result (λ reply. reply ≡ way_closed caller.now token.now names way.now) }
{
    let mut depth = names;
    let _most = token.depth();
    for seen in way {
        depth += 1;
        if let Some(reply) = front_closed(alloc, caller, token, depth, &seen.node)? {
            return Ok(Some(reply));
        }
    }
    Ok(None)
}

// The refusal where the node at the first so many names of a path is a directory that the caller may not read and execute.
fn front_closed(
    alloc: Global,
    caller: &Caller,
    path: &Path,
    names: usize,
    node: &NodeRef,
) -> Result<Option<Reply>, AllocError>
    requires within { names ≤ length path.now }
    ensures { IfOk result (λ reply. reply ≡ is_closed caller.now (take names path.now) (node_of node.now)) }
{
    if !is_directory(node) {
        return Ok(None);
    }
    lacks_above(alloc, caller, Perm::READ_EXECUTE, path, names, node)
}

// The first closed directory of these rows.
fn rows_closed(
    alloc: Global,
    caller: &Caller,
    dir: &Path,
    rows: &[Row],
) -> Result<Option<Reply>, AllocError>
    requires path { dir.now ≢ [] }
    ensures { IfOk result (λ reply. reply ≡ rows_closed caller.now dir.now rows.now) }
{
    for row in rows {
        if let Some(reply) = row_closed(alloc, caller, dir, row)? {
            return Ok(Some(reply));
        }
    }
    Ok(None)
}

// The refusal where the row is a directory that the caller may not read and execute. Its path is made only there.
fn row_closed(
    alloc: Global,
    caller: &Caller,
    dir: &Path,
    row: &Row,
) -> Result<Option<Reply>, AllocError>
    requires path { dir.now ≢ [] }
    ensures { IfOk result (λ reply. reply ≡ is_closed caller.now (path_in dir.now row.now) (node_of row.now.seen.node)) }
{
    let node = &row.seen.node;
    if !is_directory(node) {
        return Ok(None);
    }
    let meta = &node.inode().meta;
    let want = Perm::READ_EXECUTE;
    match check(&meta.acl.access, &meta.owner, &meta.group, caller, want) {
        Ok(()) => Ok(None),
        Err(refusal) => Ok(Some(denial(
            alloc,
            Denied {
                rule: refusal.rule,
                at: path_below(alloc, dir, row.names.as_slice())?,
                want,
                have: refusal.have,
            },
        ))),
    }
}
