ghost use Rattle.std.specs.Prelude.{◌≡◌, IfOk};

use acl_text::Id;
use std::alloc::{AllocError, Global};
use std::marker::Model;

/// Ids in order. A contract sees the list of them.
#[derive(Drop)]
pub struct IdList {
    items: Vec<Id>,
}

impl Model for IdList {
    ghost use Rattle.std.specs.Prelude.{List, ℕ};

    ghost Value = { List (List ℕ) };

    ghost view = { λ l. l.items.items };
}

impl IdList {
    /// Keeps the ids that it is given.
    pub fn new(items: Vec<Id>) -> IdList
        ensures { result ≡ items.items }
    {
        IdList { items }
    }

    /// The ids.
    pub fn items(&self) -> &[Id]
        ensures { result.now ≡ self.now }
    {
        self.items.as_slice()
    }

    /// A list of the same ids. The one error is want of memory.
    pub fn copy(&self, alloc: Global) -> Result<IdList, AllocError>
        ensures { IfOk result (λ list. list ≡ self.now) }
    {
        Ok(IdList {
            items: copy_ids(alloc, self.items.as_slice())?,
        })
    }
}

fn copy_ids(alloc: Global, ids: &[Id]) -> Result<Vec<Id>, AllocError>
    ensures { IfOk result (λ copied. copied.items ≡ ids.now) }
{
    let mut copied = Vec::with_capacity(alloc, ids.len())?;
    for id in ids {
        copied.push(id.copy(alloc)?)?;
    }
    Ok(copied)
}

/// Who sent a request: an id, and the groups that it belongs to.
#[derive(Drop)]
pub struct Caller {
    pub id: Id,
    pub groups: IdList,
}

impl Caller {
    /// An equal caller. The one error is want of memory.
    pub fn copy(&self, alloc: Global) -> Result<Caller, AllocError>
        ensures { IfOk result (λ caller. caller ≡ self.now) }
    {
        Ok(Caller {
            id: self.id.copy(alloc)?,
            groups: self.groups.copy(alloc)?,
        })
    }
}
