//! What a request is refused for.
ghost use Rattle.std.specs.Prelude.{◌≡◌, ◌≤◌, length, take, IfOk};
ghost use Rattle.inode_tree.specs.Inodes.{node_of};
ghost use Rattle.namespace_model.specs.Access.{write_execute};
ghost use Rattle.namespace_model.specs.Refusals.{lacks, or_else, is_unmet_without};
ghost use Rattle.namespace_model.specs.Nodes.{has_kind};
ghost use Rattle.op_create.specs.Creates.{asked, refusal_over, refusal_by};

use acl_text::Perm;
use inode_tree::NodeRef;
use namespace_model::{Code, Kind, Reply};
use path_walk::{
    Call, Found, guarded, has_children, is_directory, lacks_above, refuse_if, taken, unmet,
    unmet_without,
};
use std::alloc::{AllocError, Global};

// The first refusal where a directory is missing below the one at the first so many names of the path.
pub(crate) fn refused_below(
    alloc: Global,
    call: &Call<'_>,
    names: usize,
    node: &NodeRef,
) -> Result<Option<Reply>, AllocError>
    requires { names ≤ length call.now.path.now }
    ensures { IfOk result (λ reply. reply
        ≡ or_else (lacks call.now.caller.now write_execute (take names call.now.path.now) (node_of node.now)) (is_unmet_without (asked call.now))) }
{
    let denied = lacks_above(
        alloc,
        call.caller,
        Perm::WRITE_EXECUTE,
        call.path,
        names,
        node,
    )?;
    match denied {
        Some(reply) => Ok(Some(reply)),
        None => Ok(unmet_without(alloc, &call.request.cond)),
    }
}

// The first refusal by what was found in a directory.
pub(crate) fn refused(
    alloc: Global,
    call: &Call<'_>,
    kind: Kind,
    dir: &NodeRef,
    found: &Found,
) -> Result<Option<Reply>, AllocError>
    ensures { IfOk result (λ reply. reply ≡ refusal_by call.now kind (node_of dir.now) found.now) }
{
    match found {
        Found::Nothing => Ok(unmet_without(alloc, &call.request.cond)),
        Found::Node(_, node) => refused_over(alloc, call, kind, dir, node),
        Found::Stopped(_) => Ok(None),
    }
}

// The first refusal where a node is there.
fn refused_over(
    alloc: Global,
    call: &Call<'_>,
    kind: Kind,
    dir: &NodeRef,
    node: &NodeRef,
) -> Result<Option<Reply>, AllocError>
    ensures { IfOk result (λ reply. reply ≡ refusal_over call.now kind (node_of dir.now) node.now) }
{
    let cond = &call.request.cond;
    if let Some(reply) = guarded(alloc, call.caller, dir, call.path, node)? {
        return Ok(Some(reply));
    }
    if let Some(reply) = taken(alloc, cond) {
        return Ok(Some(reply));
    }
    if let Some(reply) = unmet(alloc, cond, node) {
        return Ok(Some(reply));
    }
    if let Some(reply) = refuse_if(alloc, !is_of_kind(kind, node), Code::ResourceTypeMismatch) {
        return Ok(Some(reply));
    }
    Ok(refuse_if(alloc, has_children(node), Code::DirectoryNotEmpty))
}

// Whether the node is of a kind.
fn is_of_kind(kind: Kind, node: &NodeRef) -> bool
    ensures { result ≡ has_kind kind (node_of node.now) }
{
    match kind {
        Kind::Directory => is_directory(node),
        Kind::File => !is_directory(node),
    }
}
