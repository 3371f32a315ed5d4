use inode_tree::NodeId;
use path_text::Name;
use path_walk::Base;

// Where new nodes are to stand: below a directory that was looked at, each below the one before it.
#[derive(Drop)]
pub(crate) struct Place<'a> {
    // The nodes that were read.
    pub(crate) reads: Vec<NodeId>,
    // The directory.
    pub(crate) base: Base,
    // What stands where the first of them is to stand.
    pub(crate) replaced: Option<NodeId>,
    // Their names.
    pub(crate) names: &'a [Name],
}
