//! The owner, the group and the access control lists of a node: they are asked for or set, or the caller asks what it may do.
ghost use Rattle.std.specs.Prelude.{◌≡◌, Ok, IfOk, unwrap_or};
ghost use Rattle.acl_text.specs.AclWriting.{acl_text};
ghost use Rattle.acl_text.specs.Stops as stops;
ghost use Rattle.inode_tree.specs.Inodes.{node_of};
ghost use Rattle.namespace_model.specs.CheckAccess.{checked_on};
ghost use Rattle.namespace_model.specs.GetAccess.{access_of, access_shown};
ghost use Rattle.namespace_model.specs.Outcomes.{answered};
ghost use Rattle.namespace_model.specs.SetAccess.{set_access_of, access_put, has_default, by_mode, pair_set, sticky_set};
ghost use Rattle.op_meta.specs.Metas.{setting_of, access_meta, access_set};
ghost use Rattle.path_walk.specs.Calls.{IsCall, entry_of};
ghost use Rattle.path_walk.specs.Edits.{IsVerdict};

use acl_text::{AclList, AclPair, AclStop, Id, ModeBits, Perm, Scope, set, with_mode, write_acl};
use file_data::Piece;
use inode_tree::{Meta, NodeRef};
use lease_state::after_write;
use namespace_model::{Code, Field, Reply};
use path_walk::{
    Call, Verdict, is_directory, lacks, lease_refuses, may_not_chgrp, may_not_chmod, may_not_chown,
    one_edit, put_access, put_stamps, refusal, refuse_if, stamp, stamped, success, unmet,
    unmet_look,
};
use std::alloc::{AllocError, Global};

// ---- they are asked for

// That a condition isn't met, or who may do what with the node.
pub(crate) fn get_access(
    alloc: Global,
    call: &Call<'_>,
    node: &NodeRef,
) -> Result<Reply, AllocError>
    ensures { IfOk result (λ reply. access_of (entry_of call.now) (node_of node.now) ≡ answered reply) }
{
    if let Some(reply) = unmet_look(alloc, &call.request.cond, node) {
        return Ok(reply);
    }
    access_shown(alloc, node)
}

// Who may do what with the node.
fn access_shown(alloc: Global, node: &NodeRef) -> Result<Reply, AllocError>
    ensures { IfOk result (λ reply. access_shown (node_of node.now) ≡ answered reply) }
{
    let mut fields = Vec::new(alloc);
    put_stamps(&mut fields, node)?;
    put_access(alloc, &mut fields, node)?;
    fields.push(Field::Acl(lists(alloc, node)?))?;
    Ok(success(alloc, 200, fields))
}

// The access control lists as a text.
fn lists(alloc: Global, node: &NodeRef) -> Result<Piece, AllocError>
    ensures { IfOk result (λ text. text ≡ acl_text (node_of node.now).acl) }
{
    let mut text = Vec::new(alloc);
    write_acl(&node.inode().meta.acl, &mut text)?;
    Ok(Piece::new(text))
}

// ---- the caller asks what it may do

// That a condition isn't met, that the caller lacks some of the permissions, or a reply without lines.
pub(crate) fn check_access(
    alloc: Global,
    call: &Call<'_>,
    want: Perm,
    node: &NodeRef,
) -> Result<Reply, AllocError>
    requires call { IsCall call.now }
    ensures { IfOk result (λ reply. checked_on (entry_of call.now) call.now.path.now want (node_of node.now) ≡ answered reply) }
{
    if let Some(reply) = unmet_look(alloc, &call.request.cond, node) {
        return Ok(reply);
    }
    if let Some(reply) = lacks(alloc, call.caller, want, call.path, node)? {
        return Ok(reply);
    }
    Ok(success(alloc, 200, Vec::new(alloc)))
}

// ---- they are set

// What is asked for.
#[derive(Clone, Copy)]
pub(crate) struct Setting<'a> {
    pub(crate) owner: &'a Option<Id>,
    pub(crate) group: &'a Option<Id>,
    pub(crate) permissions: &'a Option<ModeBits>,
    pub(crate) acl: &'a Option<AclList>,
}

// The first refusal by who asks (who sets the lists is the owner or the superuser; the owner and the group that are asked for), and then
// what comes of the node.
pub(crate) fn set_access(
    alloc: Global,
    call: &Call<'_>,
    setting: &Setting<'_>,
    node: &NodeRef,
) -> Result<Verdict, AllocError>
    requires call { IsCall call.now }
    ensures { IfOk result (λ v. IsVerdict (set_access_of (entry_of call.now) call.now.path.now (setting_of setting.now) (node_of node.now)) call.now.path.now node.now v) }
{
    if let Some(reply) = may_not_chmod(alloc, call.caller, call.path, node)? {
        return Ok(Verdict::Answer(reply));
    }
    if let Some(reply) = may_not_chown(alloc, call.caller, call.path, node, setting.owner)? {
        return Ok(Verdict::Answer(reply));
    }
    if let Some(reply) = may_not_chgrp(alloc, call.caller, call.path, node, setting.group)? {
        return Ok(Verdict::Answer(reply));
    }
    access_set(alloc, call, setting, node)
}

// The first refusal by the conditions and the lease, and of default entries for a file; or the node as it is asked for. A list that can't
// be one is refused too.
fn access_set(
    alloc: Global,
    call: &Call<'_>,
    setting: &Setting<'_>,
    node: &NodeRef,
) -> Result<Verdict, AllocError>
    ensures { IfOk result (λ v. IsVerdict (access_set (entry_of call.now) call.now.path.now (setting_of setting.now) (node_of node.now)) call.now.path.now node.now v) }
{
    if let Some(reply) = unmet(alloc, &call.request.cond, node) {
        return Ok(Verdict::Answer(reply));
    }
    if let Some(reply) = lease_refuses(alloc, call.request.lease, call.moment, node) {
        return Ok(Verdict::Answer(reply));
    }
    let unfit = !is_directory(node) && has_default(setting.acl);
    if let Some(reply) = refuse_if(alloc, unfit, Code::InvalidAcl) {
        return Ok(Verdict::Answer(reply));
    }
    match pair_set(alloc, setting, &node.inode().meta.acl) {
        Ok(pair) => access_put(alloc, call, setting, node, pair),
        Err(AclStop::Fault(_)) => Ok(Verdict::Answer(refusal(alloc, Code::InvalidAcl))),
        Err(AclStop::NoMemory) => Err(AllocError),
    }
}

// Whether a list names the default scope.
fn has_default(acl: &Option<AclList>) -> bool
    ensures { result ≡ has_default acl.now }
{
    match acl {
        Some(list) => list.names_scope(Scope::Default),
        None => false,
    }
}

// The lists from now on: a list replaces the pair, and permissions change the access list alone.
fn pair_set(alloc: Global, setting: &Setting<'_>, pair: &AclPair) -> Result<AclPair, AclStop>
    ensures { stops.Answers result (pair_set (setting_of setting.now) pair.now) }
{
    match setting.acl {
        Some(list) => set(alloc, list),
        None => Ok(by_mode(alloc, setting.permissions, pair)?),
    }
}

// The pair with these permissions, where any are given.
fn by_mode(
    alloc: Global,
    permissions: &Option<ModeBits>,
    pair: &AclPair,
) -> Result<AclPair, AllocError>
    ensures { IfOk result (λ changed. changed ≡ by_mode permissions.now pair.now) }
{
    match permissions {
        Some(bits) => with_mode(alloc, pair, bits),
        None => pair.copy(alloc),
    }
}

// The node has the owner, the group and the sticky bit that are asked for and this pair of lists, a lease that has ended is gone, and the
// node is stamped.
fn access_put(
    alloc: Global,
    call: &Call<'_>,
    setting: &Setting<'_>,
    node: &NodeRef,
    pair: AclPair,
) -> Result<Verdict, AllocError>
    ensures { IfOk result (λ v. IsVerdict (access_put (entry_of call.now) call.now.path.now (setting_of setting.now) (node_of node.now) (Ok pair)) call.now.path.now node.now v) }
{
    let kept = node.meta(alloc)?;
    let meta = access_meta(alloc, setting, pair, call.moment, kept)?;
    let reply = stamped(alloc, 200, call.moment)?;
    one_edit(alloc, stamp(meta, call.moment), reply)
}

// What is kept of the node from then on, but for the stamp.
fn access_meta(
    alloc: Global,
    setting: &Setting<'_>,
    pair: AclPair,
    moment: u64,
    kept: Meta,
) -> Result<Meta, AllocError>
    ensures { IfOk result (λ meta. meta ≡ access_meta (setting_of setting.now) pair moment kept) }
{
    let mut meta = kept;
    meta.owner = named_or(alloc, setting.owner, &meta.owner)?;
    meta.group = named_or(alloc, setting.group, &meta.group)?;
    meta.acl = pair;
    meta.sticky = sticky_set(setting.permissions, meta.sticky);
    meta.lease = after_write(&meta.lease, moment);
    Ok(meta)
}

// The id that is asked for, and else the one that is kept.
fn named_or(alloc: Global, named: &Option<Id>, kept: &Id) -> Result<Id, AllocError>
    ensures { IfOk result (λ id. id ≡ unwrap_or named.now kept.now) }
{
    match named {
        Some(id) => id.copy(alloc),
        None => kept.copy(alloc),
    }
}

// The sticky bit of the permissions, where any are given.
fn sticky_set(permissions: &Option<ModeBits>, sticky: bool) -> bool
    ensures { result ≡ sticky_set permissions.now sticky }
{
    match permissions {
        Some(bits) => bits.sticky,
        None => sticky,
    }
}
