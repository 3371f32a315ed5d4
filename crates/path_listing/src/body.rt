//! The reply by a page that was read.
ghost use Rattle.std.specs.Prelude.{◌≡◌, ◌≢◌, ◌≤◌, [], true, slice_get, IfOk};
ghost use Rattle.body_text.specs.Told.{AreContents};
ghost use Rattle.inode_tree.specs.Inodes.{node_of};
ghost use Rattle.lease_state.specs.declared.lease.TheConstants.{LAST_MOMENT};
ghost use Rattle.namespace_model.specs.ListPaths.{path_data, paths_body};
ghost use Rattle.namespace_model.specs.Replies.{page_fields};
ghost use Rattle.namespace_model.specs.Trees.{Tree};
ghost use Rattle.path_listing.specs.Listed.{AreShown, AreTimely, IsWayWithin, next_of, page_reply, page_told, path_in, paths_in};
ghost use Rattle.path_order.specs.PagesBelow.{last_of};
ghost use Rattle.path_text.specs.Tokens.{is_on_page, token_text};
ghost use Rattle.serde_json.specs.View.{view};

use super::questions::page_closed;
use super::rows::{Page, Row, Wanted};
use body_text::{Contents, PathEntry, name_below, path_value, paths_body};
use file_data::Piece;
use inode_tree::{Content, NodeRef};
use namespace_model::{Caller, Field, Media, Reply};
use path_order::path_below;
use path_text::{Path, write_token};
use path_walk::success;
use serde_json::Value;
use std::alloc::{AllocError, Global};

// The reply by a page: the first closed directory of it, or what it tells.
pub(crate) fn page_reply(
    alloc: Global,
    caller: &Caller,
    dir: &Path,
    wanted: &Wanted<'_>,
    page: &Page,
) -> Result<Reply, AllocError>
    requires path { dir.now ≢ [] }
    requires way { IsWayWithin dir.now wanted.now.token.now page.now.way.items }
    requires timely { AreTimely page.now.rows.items }
    ensures { IfOk result (λ reply. (t : Tree) → AreShown t dir.now page.now.rows.items → reply ≡ page_reply t caller.now dir.now wanted.now page.now) }
{
    match page_closed(alloc, caller, dir, wanted, page)? {
        Some(reply) => Ok(reply),
        None => page_told(alloc, dir, page),
    }
}

// What a page tells.
fn page_told(alloc: Global, dir: &Path, page: &Page) -> Result<Reply, AllocError>
    requires path { dir.now ≢ [] }
    requires timely { AreTimely page.now.rows.items }
    ensures { IfOk result (λ reply. (t : Tree) → AreShown t dir.now page.now.rows.items → reply ≡ page_told t dir.now page.now) }
{
    let fields = page_fields(alloc, dir, page)?;
    let body = rows_body(alloc, dir, page.rows.as_slice())?;
    let mut reply = success(alloc, 200, fields);
    reply.body = Piece::new(body);
    Ok(reply)
}

// The lines: that the body is JSON, and the token by which the page goes on, where it goes on.
fn page_fields(alloc: Global, dir: &Path, page: &Page) -> Result<Vec<Field>, AllocError>
    requires path { dir.now ≢ [] }
    ensures { IfOk result (λ fields. fields.items ≡ page_fields (slice_get dir.now 0) (next_of dir.now page.now)) }
{
    let mut fields = Vec::new(alloc);
    fields.push(Field::ContentType(Media::Json))?;
    if page.more {
        let last = last_path(alloc, dir, page.rows.as_slice())?;
        fields.push(Field::Continuation(token_of(alloc, dir, &last)?))?;
    }
    Ok(fields)
}

// The path of the last row, and the directory's own where there is none.
fn last_path(alloc: Global, dir: &Path, rows: &[Row]) -> Result<Path, AllocError>
    requires path { dir.now ≢ [] }
    ensures { IfOk result (λ path. path ≡ last_of dir.now (paths_in dir.now rows.now)) }
{
    match rows.last() {
        Some(row) => path_below(alloc, dir, row.names.as_slice()),
        None => dir.copy(alloc),
    }
}

// The token of a path of the directory's filesystem.
fn token_of(alloc: Global, dir: &Path, path: &Path) -> Result<Piece, AllocError>
    requires page { is_on_page (slice_get dir.now 0) path.now ≡ true }
    ensures { IfOk result (λ token. token ≡ token_text (slice_get dir.now 0) path.now) }
{
    let mut text = Vec::new(alloc);
    write_token(dir.fs(), path, &mut text)?;
    Ok(Piece::new(text))
}

// The body: the value of each row, in their order.
fn rows_body(alloc: Global, dir: &Path, rows: &[Row]) -> Result<Vec<u8>, AllocError>
    requires path { dir.now ≢ [] }
    requires timely { AreTimely rows.now }
    ensures { IfOk result (λ body. (t : Tree) → AreShown t dir.now rows.now → body.items ≡ paths_body t (paths_in dir.now rows.now)) }
{
    let mut entries = Vec::new(alloc);
    for row in rows {
        entries.push(row_value(alloc, dir, row)?)?;
    }
    paths_body(alloc, entries)
}

// The value of a row.
fn row_value(alloc: Global, dir: &Path, row: &Row) -> Result<Value, AllocError>
    requires path { dir.now ≢ [] }
    requires timely { row.now.seen.node.meta.moment ≤ LAST_MOMENT }
    ensures { IfOk result (λ value. view value ≡ path_data (path_in dir.now row.now) (node_of row.now.seen.node)) }
{
    let name = name_below(alloc, dir, row.names.as_slice())?;
    let node = &row.seen.node;
    let meta = &node.inode().meta;
    let entry = PathEntry {
        contents: contents_of(node),
        number: node.number(),
        moment: meta.moment,
        owner: &meta.owner,
        group: &meta.group,
        access: &meta.acl.access,
        sticky: meta.sticky,
    };
    path_value(alloc, name, &entry)
}

// What stands there.
fn contents_of(node: &NodeRef) -> Contents
    ensures { AreContents result (node_of node.now).content }
{
    match &node.inode().content {
        Content::Directory(_) => Contents::Directory,
        Content::File(data) => Contents::File(data.len()),
    }
}
