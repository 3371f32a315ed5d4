//! Actions on the lease of a node.
ghost use Rattle.std.specs.Prelude.{◌≡◌, ◌≤◌, ◌+◌, ◌/◌, ◌++◌, Ok, IfOk, OnOk};
ghost use Rattle.inode_tree.specs.Inodes.{node_of};
ghost use Rattle.lease_state.specs.declared.lease.TheConstants.{LAST_MOMENT};
ghost use Rattle.namespace_model.specs.LeaseNode.{seconds_left, action_status, action_fields, lease_node, lease_put};
ghost use Rattle.namespace_model.specs.Replies.{success, node_fields};
ghost use Rattle.path_walk.specs.Calls.{IsCall, entry_of};
ghost use Rattle.path_walk.specs.Edits.{IsVerdict};

use acl_text::Perm;
use inode_tree::NodeRef;
use lease_state::{Lease, LeaseAction, act};
use namespace_model::{Field, Reply};
use path_walk::{
    Call, Verdict, keep, lacks, lease_code, one_edit, put_stamps, refusal, success, unmet,
};
use std::alloc::{AllocError, Global};

// The first refusal of what is asked (write on it, the conditions), or what the lease table says.
pub(crate) fn act_on_lease(
    alloc: Global,
    call: &Call<'_>,
    action: &LeaseAction,
    node: &NodeRef,
) -> Result<Verdict, AllocError>
    requires call { IsCall call.now }
    requires moment { call.now.moment ≤ LAST_MOMENT }
    ensures { IfOk result (λ v. IsVerdict (lease_node (entry_of call.now) call.now.path.now action.now (node_of node.now)) call.now.path.now node.now v) }
{
    if let Some(reply) = lacks(alloc, call.caller, Perm::WRITE, call.path, node)? {
        return Ok(Verdict::Answer(reply));
    }
    if let Some(reply) = unmet(alloc, &call.request.cond, node) {
        return Ok(Verdict::Answer(reply));
    }
    match act(&node.inode().meta.lease, action, call.moment) {
        Ok(lease) => lease_put(alloc, call, action, node, lease),
        Err(fault) => Ok(Verdict::Answer(refusal(alloc, lease_code(fault)))),
    }
}

// The node has this lease, and keeps its number and its moment.
fn lease_put(
    alloc: Global,
    call: &Call<'_>,
    action: &LeaseAction,
    node: &NodeRef,
    lease: Lease,
) -> Result<Verdict, AllocError>
    ensures { IfOk result (λ v. IsVerdict (lease_put (entry_of call.now) call.now.path.now action.now (node_of node.now) (Ok lease)) call.now.path.now node.now v) }
{
    let mut meta = node.meta(alloc)?;
    meta.lease = lease;
    let reply = acted(alloc, call.moment, action, &lease, node)?;
    one_edit(alloc, keep(meta), reply)
}

// The reply to an action that gave this lease: the number and the moment of the node, and what the action gave.
fn acted(
    alloc: Global,
    moment: u64,
    action: &LeaseAction,
    lease: &Lease,
    node: &NodeRef,
) -> Result<Reply, AllocError>
    ensures { IfOk result (λ reply. reply ≡ success (action_status action.now) (node_fields (node_of node.now) ++ action_fields action.now lease.now moment)) }
{
    let mut fields = Vec::new(alloc);
    put_stamps(&mut fields, node)?;
    put_action(&mut fields, action, lease, moment)?;
    Ok(success(alloc, action_status(action), fields))
}

fn action_status(action: &LeaseAction) -> u16
    ensures { result ≡ action_status action.now }
{
    match action {
        LeaseAction::Acquire { .. } => 201,
        LeaseAction::Renew { .. } | LeaseAction::Change { .. } | LeaseAction::Release { .. } => 200,
        LeaseAction::Break { .. } => 202,
    }
}

// Puts the id that is held from now on, and for a break the time that is left.
fn put_action(
    fields: &mut Vec<Field>,
    action: &LeaseAction,
    lease: &Lease,
    moment: u64,
) -> Result<(), AllocError>
    ensures { OnOk result (fields.new.items ≡ fields.old.items ++ action_fields action.now lease.now moment) }
{
    match action {
        LeaseAction::Acquire { .. } | LeaseAction::Renew { .. } | LeaseAction::Change { .. } => {
            fields.push(Field::LeaseId(lease.kept_id()))?;
        }
        LeaseAction::Release { .. } => {}
        LeaseAction::Break { .. } => {
            fields.push(Field::LeaseTime(seconds_left(lease, moment)))?;
        }
    }
    Ok(())
}

// The seconds that a lease still holds once it is broken, rounded up.
fn seconds_left(lease: &Lease, now: u64) -> u64
    ensures { result ≡ seconds_left lease.now now }
{
    match *lease {
        Lease::Breaking { until, .. } => in_seconds(until.saturating_sub(now)),
        Lease::Available | Lease::Leased { .. } | Lease::Broken { .. } => 0,
    }
}

// Milliseconds in seconds, rounded up.
fn in_seconds(millis: u64) -> u64
    ensures { result ≡ (millis + 999) / 1000 }
{
    let whole = millis / 1000;
    if millis % 1000 == 0 {
        return whole;
    }
    whole + 1
}
