//! What is asked of both ends, once they were found.
ghost use Rattle.std.specs.Prelude.{◌≡◌, IfOk};
ghost use Rattle.dir_rename.specs.Questions.{refusal_new, refusal_over, refusal_of};
ghost use Rattle.inode_tree.specs.Inodes.{node_of};
ghost use Rattle.namespace_model.specs.Nodes.{has_kind, kind_of};

use super::eval::Ends;
use inode_tree::{Content, NodeRef};
use namespace_model::{Code, Reply};
use path_walk::{
    Call, guarded, has_children, is_directory, lease_refuses, refuse_if, taken, unmet,
    unmet_without,
};
use std::alloc::{AllocError, Global};

// The first refusal by what was found at both ends.
pub(crate) fn refused(
    alloc: Global,
    call: &Call<'_>,
    ends: &Ends<'_>,
) -> Result<Option<Reply>, AllocError>
    ensures { IfOk result (λ reply. reply ≡ refusal_of call.now ends.now) }
{
    let node = &ends.top.node;
    match &ends.old {
        Some(old) => refused_over(alloc, call, &ends.to.node, node, &old.node),
        None => Ok(refused_new(alloc, call, node)),
    }
}

// The first refusal where nothing stands at the destination: the conditions, and the lease of the source.
fn refused_new(alloc: Global, call: &Call<'_>, node: &NodeRef) -> Option<Reply>
    ensures { result ≡ refusal_new call.now node.now }
{
    if let Some(reply) = unmet_without(alloc, &call.request.cond) {
        return Some(reply);
    }
    lease_refuses(alloc, call.request.source_lease, call.moment, node)
}

// The first refusal where a node stands there: the sticky bit of its directory, the conditions, the lease of the source, the kinds, and
// that nothing stands below it.
fn refused_over(
    alloc: Global,
    call: &Call<'_>,
    dir: &NodeRef,
    node: &NodeRef,
    old: &NodeRef,
) -> Result<Option<Reply>, AllocError>
    ensures { IfOk result (λ reply. reply ≡ refusal_over call.now dir.now node.now old.now) }
{
    let cond = &call.request.cond;
    if let Some(reply) = guarded(alloc, call.caller, dir, call.path, old)? {
        return Ok(Some(reply));
    }
    if let Some(reply) = taken(alloc, cond) {
        return Ok(Some(reply));
    }
    if let Some(reply) = unmet(alloc, cond, old) {
        return Ok(Some(reply));
    }
    if let Some(reply) = lease_refuses(alloc, call.request.source_lease, call.moment, node) {
        return Ok(Some(reply));
    }
    if let Some(reply) = refuse_if(alloc, !is_of_kind_of(node, old), Code::ResourceTypeMismatch) {
        return Ok(Some(reply));
    }
    Ok(refuse_if(alloc, has_children(old), Code::DirectoryNotEmpty))
}

// Whether the second node is of the kind of the first.
fn is_of_kind_of(node: &NodeRef, other: &NodeRef) -> bool
    ensures { result ≡ has_kind (kind_of (node_of node.now)) (node_of other.now) }
{
    match &node.inode().content {
        Content::Directory(_) => is_directory(other),
        Content::File(_) => !is_directory(other),
    }
}
