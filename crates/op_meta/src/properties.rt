//! The properties of a node: they are asked for, or replaced.
ghost use Rattle.std.specs.Prelude.{◌≡◌, IfOk};
ghost use Rattle.inode_tree.specs.Inodes.{node_of};
ghost use Rattle.namespace_model.specs.GetProperties.{properties_of, properties_shown};
ghost use Rattle.namespace_model.specs.Outcomes.{answered};
ghost use Rattle.namespace_model.specs.SetProperties.{set_properties_of, properties_set};
ghost use Rattle.path_walk.specs.Calls.{IsCall, entry_of};
ghost use Rattle.path_walk.specs.Edits.{IsVerdict};

use acl_text::Perm;
use head_text::Props;
use inode_tree::NodeRef;
use lease_state::after_write;
use namespace_model::Reply;
use path_walk::{
    Call, Verdict, lacks, lease_refuses, one_edit, put_access, put_kind, put_lease, put_length,
    put_properties, put_stamps, stamp, stamped, success, unmet, unmet_look,
};
use std::alloc::{AllocError, Global};

// ---- they are asked for

// That a condition isn't met, or what the node is.
pub(crate) fn get_properties(
    alloc: Global,
    call: &Call<'_>,
    status: bool,
    node: &NodeRef,
) -> Result<Reply, AllocError>
    ensures { IfOk result (λ reply. properties_of (entry_of call.now) status (node_of node.now) ≡ answered reply) }
{
    if let Some(reply) = unmet_look(alloc, &call.request.cond, node) {
        return Ok(reply);
    }
    properties_shown(alloc, call, status, node)
}

// What the node is.
fn properties_shown(
    alloc: Global,
    call: &Call<'_>,
    status: bool,
    node: &NodeRef,
) -> Result<Reply, AllocError>
    ensures { IfOk result (λ reply. properties_shown (entry_of call.now) status (node_of node.now) ≡ answered reply) }
{
    let mut fields = Vec::new(alloc);
    put_stamps(&mut fields, node)?;
    put_kind(&mut fields, node)?;
    put_access(alloc, &mut fields, node)?;
    put_properties(alloc, &mut fields, node, status)?;
    put_lease(&mut fields, node, call.moment)?;
    put_length(&mut fields, node)?;
    Ok(success(alloc, 200, fields))
}

// ---- they are replaced

// The first refusal of what is asked (write on it, the conditions, the lease), or the node with these properties.
pub(crate) fn set_properties(
    alloc: Global,
    call: &Call<'_>,
    props: &Props,
    node: &NodeRef,
) -> Result<Verdict, AllocError>
    requires call { IsCall call.now }
    ensures { IfOk result (λ v. IsVerdict (set_properties_of (entry_of call.now) call.now.path.now props.now (node_of node.now)) call.now.path.now node.now v) }
{
    if let Some(reply) = lacks(alloc, call.caller, Perm::WRITE, call.path, node)? {
        return Ok(Verdict::Answer(reply));
    }
    if let Some(reply) = unmet(alloc, &call.request.cond, node) {
        return Ok(Verdict::Answer(reply));
    }
    if let Some(reply) = lease_refuses(alloc, call.request.lease, call.moment, node) {
        return Ok(Verdict::Answer(reply));
    }
    properties_set(alloc, call, props, node)
}

// The node has these properties, a lease that has ended is gone, and the node is stamped.
fn properties_set(
    alloc: Global,
    call: &Call<'_>,
    props: &Props,
    node: &NodeRef,
) -> Result<Verdict, AllocError>
    ensures { IfOk result (λ v. IsVerdict (properties_set (entry_of call.now) call.now.path.now props.now (node_of node.now)) call.now.path.now node.now v) }
{
    let mut meta = node.meta(alloc)?;
    meta.props = props.copy(alloc)?;
    meta.lease = after_write(&meta.lease, call.moment);
    let reply = stamped(alloc, 200, call.moment)?;
    one_edit(alloc, stamp(meta, call.moment), reply)
}
