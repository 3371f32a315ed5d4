use inode_tree::{Need, NodeId, NodeIds, NodeRef};
use namespace_model::Denied;

/// How the way to the parent of a path ends. A number is how many names the path has at which it ends.
#[derive(Drop)]
pub enum End {
    /// All is there and lets the caller through.
    Reached,
    /// There is nothing at this path.
    NotFound(usize),
    /// There is a file at this path.
    NotDirectory(usize),
    /// The directory at a path doesn't let the caller through.
    Denied(Denied),
}

/// A directory that was passed, or the account.
#[derive(Drop)]
pub struct Base {
    /// Its id.
    pub id: NodeId,
    /// The look at it.
    pub node: NodeRef,
}

/// The way to the parent of a path, as far as it goes.
#[derive(Drop)]
pub struct Visit {
    /// The nodes of the way that were looked at, from the account on.
    pub ids: NodeIds,
    /// The last directory that was passed.
    pub base: Base,
    /// How the way ends.
    pub end: End,
}

/// The whole way to the parent of a path.
#[derive(Drop)]
pub struct Walk {
    /// The nodes from the account to the parent.
    pub ids: NodeIds,
}

/// Why the parent of a path isn't reached. A number is how many names the path has at which the way ends.
#[derive(Drop)]
pub enum WalkStop {
    /// There is nothing at this path.
    NotFound(usize),
    /// There is a file at this path.
    NotDirectory(usize),
    /// The directory at a path doesn't let the caller through.
    Denied(Denied),
    /// A stripe isn't held, in which a node of the way lies.
    Need(Need),
    /// There was no memory left.
    NoMemory,
}
