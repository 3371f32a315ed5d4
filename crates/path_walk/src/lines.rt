//! Lines of replies, and the replies that consist of them. Where lines are put, they come behind those that are there; the one error is
//! want of memory.
ghost use Rattle.std.specs.Prelude.{◌≡◌, ◌∷◌, ◌++◌, [], Some, IfOk, OnOk};
ghost use Rattle.acl_text.specs.AclWriting.{permissions_text};
ghost use Rattle.inode_tree.specs.Inodes.{node_of};
ghost use Rattle.namespace_model.specs.declared.field.Field.TheVariants.{ResourceType};
ghost use Rattle.namespace_model.specs.GetProperties.{access_fields, user_fields, length_fields};
ghost use Rattle.namespace_model.specs.Nodes.{kind_of};
ghost use Rattle.namespace_model.specs.Replies.{node_fields, stamp_fields, duration_fields, is_locked, lease_fields, success};
ghost use Rattle.namespace_model.specs.Refusals.{unmet_part};
ghost use Rattle.namespace_model.specs.Walks.{missing_code};
ghost use Rattle.lease_state.specs.LeaseTable.{kept_secs};

use super::answer::refusal;
use super::look::is_directory;
use acl_text::{Id, write_permissions};
use file_data::Piece;
use head_text::Unmet;
use inode_tree::{Content, NodeRef};
use lease_state::{Lease, State, state_at};
use namespace_model::{Code, Field, FieldList, Kind, Reply};
use path_text::Path;
use std::alloc::{AllocError, Global};

/// Puts the ETag and the moment of a node.
pub fn put_stamps(fields: &mut Vec<Field>, node: &NodeRef) -> Result<(), AllocError>
    ensures { OnOk result (fields.new.items ≡ fields.old.items ++ node_fields (node_of node.now)) }
{
    fields.push(Field::ETag(Some(node.number())))?;
    fields.push(Field::LastModified(node.inode().meta.moment))?;
    Ok(())
}

/// Puts the kind of a node.
pub fn put_kind(fields: &mut Vec<Field>, node: &NodeRef) -> Result<(), AllocError>
    ensures { OnOk result (fields.new.items ≡ fields.old.items ++ ResourceType (kind_of (node_of node.now)) ∷ []) }
{
    let kind = if is_directory(node) {
        Kind::Directory
    } else {
        Kind::File
    };
    fields.push(Field::ResourceType(kind))?;
    Ok(())
}

/// Puts the owner, the group and the permissions of a node.
pub fn put_access(alloc: Global, fields: &mut Vec<Field>, node: &NodeRef) -> Result<(), AllocError>
    ensures { OnOk result (fields.new.items ≡ fields.old.items ++ access_fields (node_of node.now)) }
{
    fields.push(Field::Owner(owner(alloc, node)?))?;
    fields.push(Field::Group(group(alloc, node)?))?;
    fields.push(Field::Permissions(permissions(alloc, node)?))?;
    Ok(())
}

fn owner(alloc: Global, node: &NodeRef) -> Result<Id, AllocError>
    ensures { IfOk result (λ id. id ≡ (node_of node.now).owner) }
{
    node.inode().meta.owner.copy(alloc)
}

fn group(alloc: Global, node: &NodeRef) -> Result<Id, AllocError>
    ensures { IfOk result (λ id. id ≡ (node_of node.now).group) }
{
    node.inode().meta.group.copy(alloc)
}

// The permissions as nine characters.
fn permissions(alloc: Global, node: &NodeRef) -> Result<Piece, AllocError>
    ensures { IfOk result (λ text. text ≡ permissions_text (node_of node.now).sticky (node_of node.now).acl.access) }
{
    let meta = &node.inode().meta;
    let mut text = Vec::new(alloc);
    write_permissions(&meta.acl.access, meta.sticky, &mut text)?;
    Ok(Piece::new(text))
}

/// Puts the properties of a node, unless the status alone is asked for or there are none.
pub fn put_properties(
    alloc: Global,
    fields: &mut Vec<Field>,
    node: &NodeRef,
    status: bool,
) -> Result<(), AllocError>
    ensures { OnOk result (fields.new.items ≡ fields.old.items ++ user_fields status (node_of node.now)) }
{
    if status {
        return Ok(());
    }
    let props = &node.inode().meta.props;
    if props.pairs().len() == 0 {
        return Ok(());
    }
    fields.push(Field::Properties(props.copy(alloc)?))?;
    Ok(())
}

/// Puts the state of the lease of a node at a moment, in milliseconds since 1970, whether it is locked, and its duration while it is
/// leased.
pub fn put_lease(fields: &mut Vec<Field>, node: &NodeRef, moment: u64) -> Result<(), AllocError>
    ensures { OnOk result (fields.new.items ≡ fields.old.items ++ lease_fields (node_of node.now).lease moment) }
{
    let lease = &node.inode().meta.lease;
    let state = state_at(lease, moment);
    fields.push(Field::LeaseState(state))?;
    fields.push(Field::LeaseStatus {
        locked: is_locked(state),
    })?;
    put_duration(fields, lease, state)
}

fn is_locked(state: State) -> bool
    ensures { result ≡ is_locked state }
{
    matches!(state, State::Leased | State::Breaking)
}

fn put_duration(fields: &mut Vec<Field>, lease: &Lease, state: State) -> Result<(), AllocError>
    ensures { OnOk result (fields.new.items ≡ fields.old.items ++ duration_fields state (kept_secs lease.now)) }
{
    if let State::Leased = state {
        let infinite = match lease {
            Lease::Leased { secs, .. } => secs.is_none(),
            _ => true,
        };
        fields.push(Field::LeaseDuration { infinite })?;
    }
    Ok(())
}

/// Puts the length of a file, in bytes.
pub fn put_length(fields: &mut Vec<Field>, node: &NodeRef) -> Result<(), AllocError>
    ensures { OnOk result (fields.new.items ≡ fields.old.items ++ length_fields (node_of node.now).content) }
{
    match &node.inode().content {
        Content::Directory(_) => Ok(()),
        Content::File(data) => {
            fields.push(Field::ContentLength(data.len()))?;
            Ok(())
        }
    }
}

/// A reply of this status with these lines and no body. It takes no memory.
pub fn success(alloc: Global, status: u16, fields: Vec<Field>) -> Reply
    ensures { result ≡ success status fields.items }
{
    Reply {
        status,
        code: None,
        fields: FieldList::new(fields),
        body: Piece::new(Vec::new(alloc)),
        denied: None,
    }
}

/// A reply of this status with the ETag of the very entry that is answered and its moment, in milliseconds since 1970. The one error is
/// want of memory.
pub fn stamped(alloc: Global, status: u16, moment: u64) -> Result<Reply, AllocError>
    ensures { IfOk result (λ reply. reply ≡ success status (stamp_fields moment)) }
{
    let mut fields = Vec::new(alloc);
    fields.push(Field::ETag(None))?;
    fields.push(Field::LastModified(moment))?;
    Ok(success(alloc, status, fields))
}

/// The code of a path at which nothing is: one of one name is a filesystem, and for another one it is the given code.
pub fn missing_code(path: &Path, code: Code) -> Code
    ensures { result ≡ missing_code path.now code }
{
    if path.depth() == 1 {
        return Code::FilesystemNotFound;
    }
    code
}

/// The refusal where a request only looks and this condition isn't met: 304 for the two by which one asks whether there is anything
/// new, else 412. It takes no memory.
pub fn not_met(alloc: Global, unmet: Unmet) -> Reply
    ensures { result ≡ unmet_part unmet }
{
    let mut reply = refusal(alloc, Code::ConditionNotMet);
    match unmet {
        Unmet::Match | Unmet::Unmodified => {}
        Unmet::NoneMatch | Unmet::Modified => reply.status = 304,
    }
    reply
}
