//! Questions about a node that was looked at: each is answered by a refusal, or by none.
ghost use Rattle.std.specs.Prelude.{◌≡◌, ◌≤◌, Some, None, IfOk, false, length, take};
ghost use Rattle.std.specs.Option.{option_map_or};
ghost use Rattle.head_text.specs.ConditionsOf.{conditions_of};
ghost use Rattle.inode_tree.specs.Inodes.{node_of};
ghost use Rattle.lease_state.specs.LeaseTable.{lease_may_write};
ghost use Rattle.namespace_model.specs.declared.code.Code.TheVariants.{PathAlreadyExists};
ghost use Rattle.namespace_model.specs.Refusals.{lacks, is_guarded, is_no_superuser, may_not_set_access, may_not_set_owner, may_not_set_group};
ghost use Rattle.namespace_model.specs.Refusals.{deny_unless, refuse_if, stamps_of, unmet_for_change, unmet_for_look, code_of_fault, refused_by_lease};

use super::answer::{denial, refusal};
use super::lines::not_met;
use acl_check::{check, is_superuser, may_chgrp, may_chmod, may_chown, sticky_allows};
use acl_text::{Id, Perm};
use head_text::{Conditions, Unmet, conditions_hold};
use inode_tree::NodeRef;
use lease_state::{LeaseFault, may_write};
use namespace_model::{Caller, Code, Denied, Reply, Rule};
use path_text::Path;
use std::alloc::{AllocError, Global};

/// The refusal by a code where something is so.
pub fn refuse_if(alloc: Global, refused: bool, code: Code) -> Option<Reply>
    ensures { result ≡ refuse_if refused code }
{
    if refused {
        return Some(refusal(alloc, code));
    }
    None
}

/// The refusal of a caller that lacks some of these permissions on the node at a path. The path is copied only there; the one error
/// is want of memory.
pub fn lacks(
    alloc: Global,
    caller: &Caller,
    want: Perm,
    at: &Path,
    node: &NodeRef,
) -> Result<Option<Reply>, AllocError>
    ensures { IfOk result (λ reply. reply ≡ lacks caller.now want at.now (node_of node.now)) }
{
    let meta = &node.inode().meta;
    match check(&meta.acl.access, &meta.owner, &meta.group, caller, want) {
        Ok(()) => Ok(None),
        Err(refusal) => Ok(Some(denial(
            alloc,
            Denied {
                rule: refusal.rule,
                at: at.copy(alloc)?,
                want,
                have: refusal.have,
            },
        ))),
    }
}

/// The refusal of a caller that lacks some of these permissions on the directory at the first so many names of a path. They are copied
/// only there; the one error is want of memory.
pub fn lacks_above(
    alloc: Global,
    caller: &Caller,
    want: Perm,
    path: &Path,
    names: usize,
    node: &NodeRef,
) -> Result<Option<Reply>, AllocError>
    requires { names ≤ length path.now }
    ensures { IfOk result (λ reply. reply ≡ lacks caller.now want (take names path.now) (node_of node.now)) }
{
    let meta = &node.inode().meta;
    match check(&meta.acl.access, &meta.owner, &meta.group, caller, want) {
        Ok(()) => Ok(None),
        Err(refusal) => Ok(Some(denial(
            alloc,
            Denied {
                rule: refusal.rule,
                at: path.front(alloc, names)?,
                want,
                have: refusal.have,
            },
        ))),
    }
}

/// The refusal of a caller that may not take the child at a path out of a sticky directory, or put another in its place. The path is
/// copied only there; the one error is want of memory.
pub fn guarded(
    alloc: Global,
    caller: &Caller,
    dir: &NodeRef,
    at: &Path,
    node: &NodeRef,
) -> Result<Option<Reply>, AllocError>
    ensures { IfOk result (λ reply. reply ≡ is_guarded caller.now (node_of dir.now) at.now (node_of node.now)) }
{
    let meta = &dir.inode().meta;
    let owner = &node.inode().meta.owner;
    let allowed = sticky_allows(meta.sticky, &meta.owner, owner, caller);
    deny_unless(alloc, allowed, Rule::Sticky, at)
}

/// The refusal of another caller than the superuser, in a call on the filesystem of a path. The path is copied only there; the one error
/// is want of memory.
pub fn superuser_only(
    alloc: Global,
    caller: &Caller,
    at: &Path,
) -> Result<Option<Reply>, AllocError>
    ensures { IfOk result (λ reply. reply ≡ is_no_superuser caller.now at.now) }
{
    deny_unless(alloc, is_superuser(caller), Rule::SuperuserOnly, at)
}

/// The refusal of a caller that may not set the lists and the permissions of the node at a path. The path is copied only there; the
/// one error is want of memory.
pub fn may_not_chmod(
    alloc: Global,
    caller: &Caller,
    at: &Path,
    node: &NodeRef,
) -> Result<Option<Reply>, AllocError>
    ensures { IfOk result (λ reply. reply ≡ may_not_set_access caller.now at.now (node_of node.now)) }
{
    let allowed = may_chmod(&node.inode().meta.owner, caller);
    deny_unless(alloc, allowed, Rule::AclOwner, at)
}

/// The refusal of a caller that may not name this owner, where one is named, for the node at a path. The path is copied only there; the
/// one error is want of memory.
pub fn may_not_chown(
    alloc: Global,
    caller: &Caller,
    at: &Path,
    node: &NodeRef,
    owner: &Option<Id>,
) -> Result<Option<Reply>, AllocError>
    ensures { IfOk result (λ reply. reply ≡ may_not_set_owner caller.now at.now (node_of node.now) owner.now) }
{
    match owner {
        None => Ok(None),
        Some(owner) => {
            let allowed = may_chown(&node.inode().meta.owner, owner, caller);
            deny_unless(alloc, allowed, Rule::UserOwner, at)
        }
    }
}

/// The refusal of a caller that may not name this group, where one is named, for the node at a path. The path is copied only there; the
/// one error is want of memory.
pub fn may_not_chgrp(
    alloc: Global,
    caller: &Caller,
    at: &Path,
    node: &NodeRef,
    group: &Option<Id>,
) -> Result<Option<Reply>, AllocError>
    ensures { IfOk result (λ reply. reply ≡ may_not_set_group caller.now at.now (node_of node.now) group.now) }
{
    match group {
        None => Ok(None),
        Some(group) => {
            let meta = &node.inode().meta;
            let allowed = may_chgrp(&meta.owner, &meta.group, group, caller);
            deny_unless(alloc, allowed, Rule::GroupOwner, at)
        }
    }
}

// The denial by a rule that compares no bits, unless it allows.
fn deny_unless(
    alloc: Global,
    allowed: bool,
    rule: Rule,
    at: &Path,
) -> Result<Option<Reply>, AllocError>
    ensures { IfOk result (λ reply. reply ≡ deny_unless allowed rule at.now) }
{
    if allowed {
        return Ok(None);
    }
    Ok(Some(denial(
        alloc,
        Denied {
            rule,
            at: at.copy(alloc)?,
            want: Perm::NONE,
            have: Perm::NONE,
        },
    )))
}

// What conditions are judged on: the number of a node, and its moment in milliseconds since 1970.
fn stamps_of(node: &NodeRef) -> (u64, u64)
    ensures { result ≡ stamps_of (node_of node.now) }
{
    (node.number(), node.inode().meta.moment)
}

/// The refusal of a request that would change something, where a condition on the node that is there isn't met. It takes no memory.
pub fn unmet(alloc: Global, cond: &Conditions, node: &NodeRef) -> Option<Reply>
    ensures { result ≡ unmet_for_change (conditions_of cond.now (Some (stamps_of (node_of node.now)))) }
{
    unmet_for_change(alloc, conditions_hold(cond, Some(stamps_of(node))))
}

/// The refusal of a request that only looks, where a condition on the node that is there isn't met: 304 for the two by which one asks
/// whether there is anything new. It takes no memory.
pub fn unmet_look(alloc: Global, cond: &Conditions, node: &NodeRef) -> Option<Reply>
    ensures { result ≡ unmet_for_look (conditions_of cond.now (Some (stamps_of (node_of node.now)))) }
{
    match conditions_hold(cond, Some(stamps_of(node))) {
        Ok(()) => None,
        Err(unmet) => Some(not_met(alloc, unmet)),
    }
}

/// The refusal where a condition asks for a node, and none is there. It takes no memory.
pub fn unmet_without(alloc: Global, cond: &Conditions) -> Option<Reply>
    ensures { result ≡ unmet_for_change (conditions_of cond.now None) }
{
    unmet_for_change(alloc, conditions_hold(cond, None))
}

fn unmet_for_change(alloc: Global, judged: Result<(), Unmet>) -> Option<Reply>
    ensures { result ≡ unmet_for_change judged }
{
    match judged {
        Ok(()) => None,
        Err(_) => Some(refusal(alloc, Code::ConditionNotMet)),
    }
}

/// The refusal where If-None-Match is `*`, which is asked where a node is there. It takes no memory.
pub fn taken(alloc: Global, cond: &Conditions) -> Option<Reply>
    ensures { result ≡ refuse_if (option_map_or (λ tags. tags.any) cond.now.none false) PathAlreadyExists }
{
    let none_may_be = match &cond.none {
        Some(tags) => tags.any(),
        None => false,
    };
    refuse_if(alloc, none_may_be, Code::PathAlreadyExists)
}

/// The refusal of a write that the lease of a node doesn't let through at a moment, in milliseconds since 1970, with the id that is
/// given or without one. It takes no memory.
pub fn lease_refuses(
    alloc: Global,
    given: Option<u128>,
    moment: u64,
    node: &NodeRef,
) -> Option<Reply>
    ensures { result ≡ refused_by_lease (lease_may_write (node_of node.now).lease given moment) }
{
    match may_write(&node.inode().meta.lease, given, moment) {
        Ok(()) => None,
        Err(fault) => Some(refusal(alloc, lease_code(fault))),
    }
}

/// The code of what the lease table refuses.
pub fn lease_code(fault: LeaseFault) -> Code
    ensures { result ≡ code_of_fault fault }
{
    match fault {
        LeaseFault::LeaseIdMissing => Code::LeaseIdMissing,
        LeaseFault::LeaseIdMismatchWithBlobOperation => Code::LeaseIdMismatchWithBlobOperation,
        LeaseFault::LeaseLost => Code::LeaseLost,
        LeaseFault::LeaseAlreadyPresent => Code::LeaseAlreadyPresent,
        LeaseFault::LeaseIdMismatchWithLeaseOperation => Code::LeaseIdMismatchWithLeaseOperation,
        LeaseFault::LeaseNotPresentWithLeaseOperation => Code::LeaseNotPresentWithLeaseOperation,
        LeaseFault::LeaseIsBreakingAndCannotBeAcquired => {
            Code::LeaseIsBreakingAndCannotBeAcquired
        }
        LeaseFault::LeaseIsBreakingAndCannotBeChanged => Code::LeaseIsBreakingAndCannotBeChanged,
        LeaseFault::LeaseIsBrokenAndCannotBeRenewed => Code::LeaseIsBrokenAndCannotBeRenewed,
    }
}
