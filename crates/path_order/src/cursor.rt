ghost use Rattle.std.specs.Prelude.{◌≡◌, ℕ, [], Ok, Err, Some, None, IfOk, OnOk};
ghost use Rattle.inode_tree.specs.Parts.{Parts};
ghost use Rattle.inode_tree.specs.Stands.{Stands};
ghost use Rattle.inode_tree.specs.Views.{Shown};
ghost use Rattle.inode_tree.specs.declared.draft.EvalStop.TheVariants as stop;
ghost use Rattle.inode_tree.specs.declared.need.Need.{Need};
ghost use Rattle.namespace_model.specs.Trees.{Path, Tree};
ghost use Rattle.path_walk.specs.Calls.{GoesOn};
ghost use Rattle.path_order.specs.Cursors.{names_of, IsWalk, IsCursor, IsCursorIn, IsAdvanced, IsEnd, IsNextSeen, LooksAtNext, NeedsNext};
ghost use Rattle.path_order.specs.Starts.{IsAtFor};

use inode_tree::{EvalStop, NodeId, NodeRef, View};
use lock_core::LockMode;
use path_text::Name;
use path_walk::child_above;
use std::alloc::{AllocError, Global};

// A directory on the way to where a walk is, and the name by which the way goes on.
#[derive(Drop)]
pub(crate) struct Level {
    pub(crate) node: NodeRef,
    pub(crate) name: Name,
}

/// A walk below a node, in path order.
#[derive(Drop)]
pub struct Cursor {
    // The directories on the way to the last path, from the one at which the walk began. What is below the last name was
    // passed, unless it is still to come.
    pub(crate) levels: Vec<Level>,
    // The node of the last path, where all that is below it is still to come.
    pub(crate) ahead: Option<NodeRef>,
}

/// A node that was looked at.
#[derive(Drop)]
pub struct Seen {
    /// Its id.
    pub id: NodeId,
    /// The look at it.
    pub node: NodeRef,
}

impl Cursor {
    /// A walk below a node, at its beginning. It takes no memory.
    pub fn start(alloc: Global, root: NodeRef) -> Cursor
        ensures { (shown : Shown) (p : Path) → IsAtFor shown p root → IsCursor shown p p result }
    {
        Cursor {
            levels: Vec::new(alloc),
            ahead: Some(root),
        }
    }

    /// The node of the next path, which is looked at, for which its stripe has to be held at least shared: where it isn't,
    /// the answer is `Need`. Nothing else is looked at. It is `None` at the end of the walk. `NoMemory` may come at any time.
    /// After an error nothing is said of the walk: who goes on begins anew.
    pub fn next<V: View>(&mut self, alloc: Global, view: &mut V) -> Result<Option<Seen>, EvalStop>
        requires walk { IsWalk (V.shown view.old) self.old }
        ensures on { GoesOn (V.held view.old) (V.held view.new) (V.over view.old) (V.over view.new) (V.shown view.old) (V.shown view.new) }
        ensures next { IfOk result (λ seen. (root token : Path) → IsCursor (V.shown view.old) root token self.old
            → IsNextSeen (V.held view.new) (V.shown view.new) root token self.new seen) }
        ensures looks { IfOk result (λ seen. LooksAtNext (V.shown view.old) (V.shown view.new) seen) }
        ensures need { (n : Need) → result ≡ Err (stop.Need n) → (root token : Path)
            → IsCursor (V.shown view.old) root token self.old → NeedsNext (V.held view.new) (V.shown view.old) root token n }
    {
        match self.advance(alloc)? {
            None => Ok(None),
            Some(id) => {
                let node = view.get(id, LockMode::Shared)?;
                self.ahead = Some(node.copy()?);
                Ok(Some(Seen { id, node }))
            }
        }
    }

    /// Whether nothing of what is below the node is behind the last path. It looks at nothing.
    pub fn is_at_end(&self) -> bool
        ensures { (parts : Parts) (t : Tree) (root token : Path) → Stands parts t → IsCursorIn parts t root token self.now
            → IsEnd t root token result }
    {
        if let Some(node) = &self.ahead {
            if let Some((_name, _id)) = child_above(node, None) {
                return false;
            }
        }
        let mut left = self.levels.len();
        while left > 0 {
            left -= 1;
            let level = &self.levels[left];
            if let Some((_name, _id)) = child_above(&level.node, Some(&level.name)) {
                return false;
            }
        }
        true
    }

    /// The names by which the last path stands below the node at which the walk began. The one error is want of memory.
    pub fn names(&self, alloc: Global) -> Result<Vec<Name>, AllocError>
        ensures { IfOk result (λ names. names.items ≡ names_of self.now) }
    {
        let mut names = Vec::new(alloc);
        for level in self.levels.as_slice() {
            names.push(level.name.copy(alloc)?)?;
        }
        Ok(names)
    }

    // The id of the next path, to which the way is made.
    fn advance(&mut self, alloc: Global) -> Result<Option<NodeId>, AllocError>
        ensures { IfOk result (λ next. (parts : Parts) (t : Tree) (root token : Path) → Stands parts t
            → IsCursorIn parts t root token self.old → IsAdvanced parts t root token self.new next) }
    {
        if let Some(node) = self.ahead.take() {
            if let Some((name, id)) = child_above(&node, None) {
                let name = name.copy(alloc)?;
                self.levels.push(Level { node, name })?;
                return Ok(Some(id));
            }
        }
        while let Some(level) = self.levels.pop() {
            if let Some((name, id)) = child_above(&level.node, Some(&level.name)) {
                let name = name.copy(alloc)?;
                self.levels.push(Level {
                    node: level.node,
                    name,
                })?;
                return Ok(Some(id));
            }
        }
        Ok(None)
    }
}
