ghost use Rattle.std.specs.Prelude.{◌≡◌, ◌<◌, ◌≤◌, ◌++◌, Ok, IfOk, IsSome, OnOk, false, true, length};
ghost use Rattle.inode_tree.specs.Inodes.{node_of};
ghost use Rattle.file_data.specs.FileRecord.{stage_answer, append_flush_answer};
ghost use Rattle.lease_state.specs.declared.lease.TheConstants.{LAST_MOMENT};
ghost use Rattle.lease_state.specs.LeaseAppends.{NeedsId};
ghost use Rattle.namespace_model.specs.Append.{append_data, append_lease_fields, appended, refused_flush_too};
ghost use Rattle.namespace_model.specs.Contents.{data_of, refused_staging};
ghost use Rattle.namespace_model.specs.Nodes.{is_directory};
ghost use Rattle.namespace_model.specs.Refusals.{or_else};
ghost use Rattle.op_data.specs.declared.task.Task.TheVariants as task;
ghost use Rattle.op_data.specs.Tasks.{IsFileOf, IsVerdictOfFile, appending};
ghost use Rattle.path_walk.specs.Edits.{IsVerdict};
ghost use Rattle.path_walk.specs.Calls.{entry_of};

use super::file::{flush_refused, staging_refused};
use super::task::Appending;
use file_data::{FileData, SharedPiece};
use inode_tree::{Edit, NodeRef};
use lease_state::{AppendLease, Lease, act_append};
use namespace_model::{Field, Reply};
use path_walk::{Call, Verdict, keep, lease_code, refusal, stamp, success, two_edits};
use std::alloc::{AllocError, Global};

// What comes of an append to a file.
pub(crate) fn append(
    alloc: Global,
    call: &Call<'_>,
    asked: &Appending,
    node: &NodeRef,
    file: &FileData,
) -> Result<Verdict, AllocError>
    requires file { IsFileOf node.now file.now }
    requires moment { call.now.moment ≤ LAST_MOMENT }
    requires id { NeedsId asked.now.action → IsSome call.now.request.now.lease }
    requires body { 0 < length call.now.request.now.body }
    ensures { IfOk result (λ v. IsVerdictOfFile call.now (task.Append asked.now) node.now v) }
{
    let lease = &node.inode().meta.lease;
    match act_append(lease, &asked.action, call.request.lease, call.moment) {
        Ok(lease) => append_under(alloc, call, asked, node, file, lease),
        Err(fault) => Ok(Verdict::Answer(refusal(alloc, lease_code(fault)))),
    }
}

// The same with the lease as it is afterwards.
fn append_under(
    alloc: Global,
    call: &Call<'_>,
    asked: &Appending,
    node: &NodeRef,
    file: &FileData,
    lease: Lease,
) -> Result<Verdict, AllocError>
    requires file { IsFileOf node.now file.now }
    requires body { 0 < length call.now.request.now.body }
    ensures { IfOk result (λ v. IsVerdict (append_data (entry_of call.now) call.now.path.now (appending asked.now) (node_of node.now) lease) call.now.path.now node.now v) }
{
    if let Some(reply) = refused(alloc, &call.request.body, asked, file) {
        return Ok(Verdict::Answer(reply));
    }
    if asked.flush {
        return staged_and_flushed(alloc, call, asked, node, lease);
    }
    staged(alloc, call, asked, node, lease)
}

// What is asked of the file: that the body can be staged, and where the append flushes, that the file can be flushed to its end then.
// Nothing is staged for this.
fn refused(alloc: Global, body: &SharedPiece, asked: &Appending, file: &FileData) -> Option<Reply>
    requires { 0 < length body.now }
    ensures { result ≡ or_else (refused_staging (stage_answer file.now asked.now.position body.now))
        (refused_flush_too asked.now.flush (append_flush_answer file.now asked.now.position body.now)) }
{
    let len = body.bytes().len() as u64;
    if let Some(reply) = staging_refused(alloc, file.can_stage(asked.position, len)) {
        return Some(reply);
    }
    if !asked.flush {
        return None;
    }
    flush_refused(alloc, file.can_append_flush(asked.position, len))
}

// The body is staged, and the number and the moment of the file stay.
fn staged(
    alloc: Global,
    call: &Call<'_>,
    asked: &Appending,
    node: &NodeRef,
    lease: Lease,
) -> Result<Verdict, AllocError>
    requires file { is_directory (node_of node.now) ≡ false }
    requires body { 0 < length call.now.request.now.body }
    requires plain { asked.now.flush ≡ false }
    requires allowed { stage_answer (data_of (node_of node.now).content) asked.now.position call.now.request.now.body ≡ Ok tt }
    ensures { IfOk result (λ v. IsVerdict (appended (entry_of call.now) call.now.path.now (appending asked.now) (node_of node.now) lease) call.now.path.now node.now v) }
{
    let mut meta = node.meta(alloc)?;
    meta.lease = lease;
    let stage = Edit::Stage(asked.position, call.request.body.copy()?);
    let mut fields = Vec::new(alloc);
    put_lease_id(&mut fields, &asked.action, &lease)?;
    two_edits(alloc, stage, keep(meta), success(alloc, 202, fields))
}

// The body is staged, and the file is flushed to its end and stamped.
fn staged_and_flushed(
    alloc: Global,
    call: &Call<'_>,
    asked: &Appending,
    node: &NodeRef,
    lease: Lease,
) -> Result<Verdict, AllocError>
    requires file { is_directory (node_of node.now) ≡ false }
    requires body { 0 < length call.now.request.now.body }
    requires flush { asked.now.flush ≡ true }
    requires allowed { stage_answer (data_of (node_of node.now).content) asked.now.position call.now.request.now.body ≡ Ok tt }
    requires allowed_too { append_flush_answer (data_of (node_of node.now).content) asked.now.position call.now.request.now.body ≡ Ok tt }
    ensures { IfOk result (λ v. IsVerdict (appended (entry_of call.now) call.now.path.now (appending asked.now) (node_of node.now) lease) call.now.path.now node.now v) }
{
    let mut meta = node.meta(alloc)?;
    meta.lease = lease;
    let body = &call.request.body;
    let end = asked.position + body.bytes().len() as u64;
    let mut edits = Vec::new(alloc);
    edits.push(Edit::Stage(asked.position, body.copy()?))?;
    edits.push(Edit::Flush(end, asked.retain))?;
    edits.push(stamp(meta, call.moment))?;
    let mut fields = Vec::new(alloc);
    fields.push(Field::ETag(None))?;
    fields.push(Field::LastModified(call.moment))?;
    put_lease_id(&mut fields, &asked.action, &lease)?;
    Ok(Verdict::Edits(edits, success(alloc, 202, fields)))
}

// Puts the id that is held from now on, where the append took or renewed the lease.
fn put_lease_id(
    fields: &mut Vec<Field>,
    action: &AppendLease,
    lease: &Lease,
) -> Result<(), AllocError>
    ensures { OnOk result (fields.new.items ≡ fields.old.items ++ append_lease_fields action.now lease.now) }
{
    match action {
        AppendLease::Acquire { .. } | AppendLease::AutoRenew => {
            fields.push(Field::LeaseId(lease.kept_id()))?;
            Ok(())
        }
        AppendLease::Plain | AppendLease::Release | AppendLease::AcquireRelease { .. } => Ok(()),
    }
}
