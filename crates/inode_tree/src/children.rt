ghost use Rattle.std.specs.Prelude.{◌≡◌, ℕ, List, [], Option, option_map, length, slice_get, IfOk, OnOk, OnErr, IsTrue, ◌↔◌};
ghost use Rattle.std.specs.FinMap.{find, put};
ghost use Rattle.std.specs.FinMap.Entries.{where_key};
ghost use Rattle.inode_tree.specs.ChildLists.{ChildRecord, no_children, name_cmp, AscendsByName, first_above};
ghost use Rattle.inode_tree.specs.Pages.{ArePages, with_link, without_link};
ghost use Rattle.inode_tree.specs.Ascending.{differs};
ghost use Rattle.inode_tree.specs.declared.id.NodeId.{NodeId};

use super::id::NodeId;
use super::page::Page;
use super::pages::{copied_pages, first_above, found, link, unlink};
use path_text::Name;
use std::alloc::{AllocError, Global};
use std::marker::Model;

/// The children of a directory, in pages that several states of it share. A contract sees the list of their names and ids,
/// ascending by name, the pages that have them one behind the other, and how many more pages there is room for.
#[derive(Drop)]
pub struct Children {
    pages: Vec<Page>,
}

impl Model for Children {
    ghost use Rattle.std.specs.Prelude.{◌-◌, vec_len, vec_capacity};
    ghost use Rattle.inode_tree.specs.ChildLists.{ChildRecord};
    ghost use Rattle.inode_tree.specs.Pages.{ArePages, together};

    ghost Value = { ChildRecord };

    ghost view = { λ c. record { links = together c.pages.items; spare = vec_capacity c.pages - vec_len c.pages; pages = c.pages.items } };

    ghost invariant = { λ c. ArePages c.pages.items };
}

impl Children {
    /// No children. It takes no memory.
    pub fn new(alloc: Global) -> Children
        ensures { result ≡ no_children }
    {
        Children {
            pages: Vec::new(alloc),
        }
    }

    /// The id of the child of a name. It is `None` exactly where there is none.
    pub fn get(&self, name: &Name) -> Option<NodeId>
        ensures id { option_map (λ (id : NodeId). id.0) result ≡ find name_cmp name.now self.now.links }
        ensures ascends { AscendsByName self.now.links }
    {
        match found(self.pages.as_slice(), name) {
            Some(id) => Some(NodeId(id)),
            None => None,
        }
    }

    /// The first child whose name is greater than a name, and the first of all where none is given.
    pub fn above(&self, name: Option<&Name>) -> Option<(&Name, NodeId)>
        ensures child { option_map (λ c. (c.0.now, c.1.0)) result ≡ first_above (option_map (λ n. n.now) name.entry) self.now.links }
        ensures ascends { AscendsByName self.now.links }
    {
        match first_above(self.pages.as_slice(), name) {
            Some(link) => Some((&link.0, NodeId(link.1))),
            None => None,
        }
    }

    /// Whether there is no child.
    pub fn is_empty(&self) -> bool
        ensures none { IsTrue result ↔ (self.now.links ≡ []) }
        ensures ascends { AscendsByName self.now.links }
    {
        self.pages.as_slice().is_empty()
    }

    /// How many children a page has. It is `None` exactly where there is no page of this place, counted from 0.
    pub fn page_len(&self, k: usize) -> Option<usize>
        ensures len { result ≡ option_map length (slice_get self.now.pages k) }
        ensures pages { ArePages self.now.pages }
    {
        if k < self.pages.len() {
            return Some(self.pages[k].links().len());
        }
        None
    }

    /// Gives a name to a child. What had the name is replaced. Only the page of the name is copied. The one error is want of
    /// memory; then nothing changes.
    pub fn link(&mut self, alloc: Global, name: Name, id: NodeId) -> Result<(), AllocError>
        ensures pages { OnOk result (self.new.pages ≡ with_link name id.0 self.old.pages) }
        ensures links { OnOk result (self.new.links ≡ put name_cmp name id.0 self.old.links) }
        ensures refused { OnErr result (self.new ≡ self.old) }
    {
        link(alloc, &mut self.pages, name, id.0)
    }

    /// Takes the child of a name away. Where there is none nothing changes. Only the page of the name is copied, and one that
    /// is joined with it. The one error is want of memory; then nothing changes.
    pub fn unlink(&mut self, alloc: Global, name: &Name) -> Result<(), AllocError>
        ensures pages { OnOk result (self.new.pages ≡ without_link name.now self.old.pages) }
        ensures links { OnOk result (self.new.links ≡ where_key name_cmp (differs name_cmp name.now) self.old.links) }
        ensures refused { OnErr result (self.new ≡ self.old) }
    {
        unlink(alloc, &mut self.pages, name)
    }

    /// Other children with the same names and ids in the same pages, which are shared, and the same room. The one error is want
    /// of memory.
    pub fn copy(&self, alloc: Global) -> Result<Children, AllocError>
        ensures { IfOk result (λ children. children ≡ self.now) }
    {
        Ok(Children {
            pages: copied_pages(alloc, &self.pages)?,
        })
    }
}
