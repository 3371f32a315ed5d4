//! What comes of one node.
ghost use Rattle.std.specs.Prelude.{◌≡◌, IfOk, false, true};
ghost use Rattle.acl_text.specs.Stops as stops;
ghost use Rattle.inode_tree.specs.Inodes.{node_of};
ghost use Rattle.namespace_model.specs.SetAccessRecursive.{changed_pair, turn_of};
ghost use Rattle.acl_recursive.specs.Batched.{for_kind};

use super::asked::Asked;
use acl_check::may_chmod;
use acl_text::{AclPair, AclStop, Scope, modify, remove, set};
use inode_tree::NodeRef;
use namespace_model::{BatchChange, Caller, Code};
use path_walk::is_directory;
use std::alloc::{AllocError, Global};

// What a change is for a file: what of it is of the access scope.
pub(crate) fn for_files(alloc: Global, change: &BatchChange) -> Result<BatchChange, AllocError>
    ensures { IfOk result (λ files. files ≡ for_kind false change.now) }
{
    Ok(match change {
        BatchChange::Set(list) => BatchChange::Set(list.of_scope(alloc, Scope::Access)?),
        BatchChange::Modify(list) => BatchChange::Modify(list.of_scope(alloc, Scope::Access)?),
        BatchChange::Remove(list) => BatchChange::Remove(list.of_scope(alloc, Scope::Access)?),
    })
}

// The new lists of a node, or why it fails: who asks is neither its owner nor the superuser, or a list would be too
// long.
pub(crate) fn turn(
    alloc: Global,
    caller: &Caller,
    asked: &Asked<'_>,
    node: &NodeRef,
) -> Result<Result<AclPair, Code>, AllocError>
    requires files { asked.now.for_files.now ≡ for_kind false asked.now.change.now }
    ensures { IfOk result (λ turn. turn ≡ turn_of caller.now asked.now.change.now (node_of node.now)) }
{
    let meta = &node.inode().meta;
    if !may_chmod(&meta.owner, caller) {
        return Ok(Err(Code::AuthorizationPermissionMismatch));
    }
    let change = if is_directory(node) {
        asked.change
    } else {
        asked.for_files
    };
    match changed(alloc, change, &meta.acl) {
        Ok(pair) => Ok(Ok(pair)),
        Err(AclStop::Fault(_)) => Ok(Err(Code::InvalidAcl)),
        Err(AclStop::NoMemory) => Err(AllocError),
    }
}

// The lists by a change, all of whose entries are for the node.
fn changed(alloc: Global, change: &BatchChange, pair: &AclPair) -> Result<AclPair, AclStop>
    ensures { stops.Answers result (changed_pair change.now true pair.now) }
{
    match change {
        BatchChange::Set(list) => set(alloc, list),
        BatchChange::Modify(list) => modify(alloc, pair, list),
        BatchChange::Remove(list) => remove(alloc, pair, list),
    }
}
