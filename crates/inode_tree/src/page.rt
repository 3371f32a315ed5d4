ghost use Rattle.std.specs.Prelude.{◌≡◌, ◌+◌, ◌≤◌, ◌++◌, length, IfOk, OnOk};
ghost use Rattle.inode_tree.specs.Pages.{begins_by};

use path_text::Name;
use std::alloc::{AllocError, Global};
use std::cmp::Ordering;
use std::marker::Model;
use std::sync::Arc;

// A name and the id to which it leads.
pub(crate) type Link = (Name, u64);

// A run of children that several directories have together. A contract sees the list of the names and ids.
#[derive(Drop)]
pub(crate) struct Page {
    links: Arc<Vec<(Name, u64)>>,
}

impl Model for Page {
    ghost use Rattle.std.specs.Prelude.{List, ℕ};
    ghost use Rattle.std.specs.Arc.{arc_value};

    ghost Value = { List (List ℕ × ℕ) };

    ghost view = { λ p. (arc_value p.links).items };
}

impl Page {
    // A page of these links. The one error is want of memory.
    pub(crate) fn new(alloc: Global, links: Vec<Link>) -> Result<Page, AllocError>
        ensures { IfOk result (λ page. page ≡ links.items) }
    {
        Ok(Page {
            links: Arc::new(alloc, links)?,
        })
    }

    // The links.
    pub(crate) fn links(&self) -> &[Link]
        ensures { result.now ≡ self.now }
    {
        self.links.as_slice()
    }

    // One owner more of the same links, which are not copied. The one error is that no more owners can be counted.
    pub(crate) fn copy(&self) -> Result<Page, AllocError>
        ensures { IfOk result (λ page. page ≡ self.now) }
    {
        Ok(Page {
            links: Arc::try_clone(&self.links)?,
        })
    }
}

// Whether the first name isn't greater than a name.
pub(crate) fn begins_by(links: &[Link], name: &Name) -> bool
    ensures { result ≡ begins_by name.now links.now }
{
    if links.is_empty() {
        return false;
    }
    match name.cmp(&links[0].0) {
        Ordering::Less => false,
        _ => true,
    }
}

// Other links with the same names and ids, with room for so many more. The one error is want of memory.
pub(crate) fn copied(alloc: Global, links: &[Link], room: usize) -> Result<Vec<Link>, AllocError>
    requires { length links.now + room ≤ 512 }
    ensures { IfOk result (λ copied. copied.items ≡ links.now) }
{
    let mut copied = Vec::with_capacity(alloc, links.len() + room)?;
    put_copies(alloc, links, &mut copied)?;
    Ok(copied)
}

// Puts copies of links behind others. The one error is want of memory.
pub(crate) fn put_copies(
    alloc: Global,
    links: &[Link],
    into: &mut Vec<Link>,
) -> Result<(), AllocError>
    ensures { OnOk result (into.new.items ≡ into.old.items ++ links.now) }
{
    for link in links {
        into.push((link.0.copy(alloc)?, link.1))?;
    }
    Ok(())
}
