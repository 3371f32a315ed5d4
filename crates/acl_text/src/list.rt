ghost use Rattle.std.specs.Prelude.{◌≡◌, IfOk, filter};
ghost use Rattle.acl_text.specs.Scopes.{in_scope};
ghost use Rattle.acl_text.specs.Held.{AreWhose, AreWritable};
ghost use Rattle.acl_text.specs.AclChanges.{names, names_item};

use crate::item::{copy_items, has_scope, of_scope};
use crate::perm::Perm;
use crate::scope::Scope;
use crate::who::Who;
use std::alloc::{AllocError, Global};
use std::marker::Model;

/// How many items a text of entries, or of items to remove, has at most.
pub const ITEMS_MAX: usize = 64;

/// A list of entries as a text gives them, in its order. A contract sees the list of the scope of each entry, whom it is for,
/// and the permissions.
#[derive(Debug, Drop)]
pub struct AclList {
    pub(crate) items: Vec<(Scope, Who, Perm)>,
}

impl Model for AclList {
    ghost use Rattle.std.specs.Prelude.{List, ℕ};
    ghost use Rattle.acl_text.specs.declared.scope.Scope.{Scope};
    ghost use Rattle.acl_text.specs.declared.who.Who.{Who};
    ghost use Rattle.acl_text.specs.Held.{AreWritable};

    ghost Value = { List (Scope × Who × ℕ) };

    ghost view = { λ l. l.items.items };

    ghost invariant = { λ l. AreWritable l.items.items };
}

impl AclList {
    /// The entries.
    pub fn entries(&self) -> &[(Scope, Who, Perm)]
        ensures entries { result.now ≡ self.now }
        ensures writable { AreWritable self.now }
    {
        self.items.as_slice()
    }

    /// Whether an entry of the list is of a scope.
    pub fn names_scope(&self, scope: Scope) -> bool
        ensures { result ≡ names scope self.now }
    {
        has_scope(self.items.as_slice(), scope)
    }

    /// The entries of one scope, in their order. The one error is want of memory.
    pub fn of_scope(&self, alloc: Global, scope: Scope) -> Result<AclList, AllocError>
        ensures { IfOk result (λ list. list ≡ filter (λ e. in_scope scope e.0) self.now) }
    {
        Ok(AclList {
            items: of_scope(alloc, self.items.as_slice(), scope)?,
        })
    }

    /// Another list that is equal. The one error is want of memory.
    pub fn copy(&self, alloc: Global) -> Result<AclList, AllocError>
        ensures { IfOk result (λ list. list ≡ self.now) }
    {
        Ok(AclList {
            items: copy_items(alloc, self.items.as_slice())?,
        })
    }
}

/// A list of entries to remove as a text gives them, in its order. A contract sees the list of the scope of each
/// item, and whom it is for.
#[derive(Debug, Drop)]
pub struct RemoveList {
    pub(crate) items: Vec<(Scope, Who)>,
}

impl Model for RemoveList {
    ghost use Rattle.std.specs.Prelude.{List};
    ghost use Rattle.acl_text.specs.declared.scope.Scope.{Scope};
    ghost use Rattle.acl_text.specs.declared.who.Who.{Who};
    ghost use Rattle.acl_text.specs.Held.{AreWhose};

    ghost Value = { List (Scope × Who) };

    ghost view = { λ l. l.items.items };

    ghost invariant = { λ l. AreWhose l.items.items };
}

impl RemoveList {
    /// The items.
    pub fn entries(&self) -> &[(Scope, Who)]
        ensures entries { result.now ≡ self.now }
        ensures ids { AreWhose self.now }
    {
        self.items.as_slice()
    }

    /// Whether an item of the list is of a scope.
    pub fn names_scope(&self, scope: Scope) -> bool
        ensures { result ≡ names_item scope self.now }
    {
        has_scope(self.items.as_slice(), scope)
    }

    /// The items of one scope, in their order. The one error is want of memory.
    pub fn of_scope(&self, alloc: Global, scope: Scope) -> Result<RemoveList, AllocError>
        ensures { IfOk result (λ list. list ≡ filter (λ e. in_scope scope e.0) self.now) }
    {
        Ok(RemoveList {
            items: of_scope(alloc, self.items.as_slice(), scope)?,
        })
    }

    /// Another list that is equal. The one error is want of memory.
    pub fn copy(&self, alloc: Global) -> Result<RemoveList, AllocError>
        ensures { IfOk result (λ list. list ≡ self.now) }
    {
        Ok(RemoveList {
            items: copy_items(alloc, self.items.as_slice())?,
        })
    }
}
