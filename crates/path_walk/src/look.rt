//! Questions about a node that was looked at.
ghost use Rattle.std.specs.Prelude.{◌≡◌, Option, option_map};
ghost use Rattle.inode_tree.specs.FirstChild.{IsChildAbove};
ghost use Rattle.inode_tree.specs.Inodes.{node_of};
ghost use Rattle.inode_tree.specs.Parts.{child_of};
ghost use Rattle.inode_tree.specs.declared.id.NodeId.{NodeId};
ghost use Rattle.namespace_model.specs.Nodes.{is_directory};
ghost use Rattle.namespace_model.specs.Ways.{may_enter};
ghost use Rattle.path_walk.specs.Children.{has_children};

use acl_check::check;
use acl_text::Perm;
use inode_tree::{Content, NodeId, NodeRef};
use namespace_model::{Caller, Refusal};
use path_text::Name;

/// The id of a directory's child of this name. It is `None` exactly where there is no such child; a file has none.
pub fn child_of(node: &NodeRef, name: &Name) -> Option<NodeId>
    ensures { option_map (λ (id : NodeId). id.0) result ≡ child_of node.now name.now }
{
    match &node.inode().content {
        Content::Directory(children) => children.get(name),
        Content::File(_) => None,
    }
}

/// The first child of a directory whose name is greater than a name, and the first of all where none is given. A file has no children.
pub fn child_above<'a>(node: &'a NodeRef, name: Option<&Name>) -> Option<(&'a Name, NodeId)>
    ensures { IsChildAbove node.now (option_map (λ n. n.now) name.entry)
        (option_map (λ c. (c.0.now, c.1.0)) result) }
{
    match &node.inode().content {
        Content::Directory(children) => match children.above(name) {
            Some((name, id)) => Some((name, id)),
            None => None,
        },
        Content::File(_) => None,
    }
}

/// Whether the node is a directory that isn't empty.
pub fn has_children(node: &NodeRef) -> bool
    ensures { result ≡ has_children node.now }
{
    match &node.inode().content {
        Content::Directory(children) => !children.is_empty(),
        Content::File(_) => false,
    }
}

/// Whether the node is a directory.
pub fn is_directory(node: &NodeRef) -> bool
    ensures { result ≡ is_directory (node_of node.now) }
{
    match &node.inode().content {
        Content::Directory(_) => true,
        Content::File(_) => false,
    }
}

/// Whether the node lets the caller through, by the check of execute: else why not.
pub fn may_enter(node: &NodeRef, caller: &Caller) -> Result<(), Refusal>
    ensures { result ≡ may_enter caller.now (node_of node.now) }
{
    let meta = &node.inode().meta;
    check(
        &meta.acl.access,
        &meta.owner,
        &meta.group,
        caller,
        Perm::EXECUTE,
    )
}
