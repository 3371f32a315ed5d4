ghost use Rattle.std.specs.Prelude.{◌≡◌, ℕ, List, Option, IfOk, filter};
ghost use Rattle.std.specs.List.{list_any};
ghost use Rattle.acl_text.specs.declared.scope.Scope.{Scope};
ghost use Rattle.acl_text.specs.declared.who.Who.{Who};
ghost use Rattle.acl_text.specs.Scopes.{in_scope};
ghost use Rattle.acl_text.specs.AclTexts.{entry_of, item_of, same_of};

use crate::perm::Perm;
use crate::read_entry::{entry_of, item_of};
use crate::scope::Scope;
use crate::who::Who;
use std::alloc::{AllocError, Global};

// What a list holds, an entry or an item to remove: it is of a scope, and for someone, and a text spells it.
pub(crate) trait Item: Drop {
    ghost scope_of: { Self → Scope };

    ghost whom: { Self → Who };

    ghost read_of: { List ℕ → Option Self };

    fn scope(&self) -> Scope
        ensures { result ≡ scope_of self.now };

    fn who(&self) -> &Who
        ensures { result.now ≡ whom self.now };

    fn copy(&self, alloc: Global) -> Result<Self, AllocError>
        ensures { IfOk result (λ item. item ≡ self.now) };

    fn read(alloc: Global, text: &[u8]) -> Result<Option<Self>, AllocError>
        ensures { IfOk result (λ item. item ≡ read_of text.now) };
}

impl Item for (Scope, Who, Perm) {
    ghost scope_of = { λ e. e.0 };

    ghost whom = { λ e. e.1 };

    ghost read_of = { entry_of };

    fn scope(&self) -> Scope {
        self.0
    }

    fn who(&self) -> &Who {
        &self.1
    }

    fn copy(&self, alloc: Global) -> Result<(Scope, Who, Perm), AllocError> {
        Ok((self.0, self.1.copy(alloc)?, self.2))
    }

    fn read(alloc: Global, text: &[u8]) -> Result<Option<(Scope, Who, Perm)>, AllocError> {
        entry_of(alloc, text)
    }
}

impl Item for (Scope, Who) {
    ghost scope_of = { λ e. e.0 };

    ghost whom = { λ e. e.1 };

    ghost read_of = { item_of };

    fn scope(&self) -> Scope {
        self.0
    }

    fn who(&self) -> &Who {
        &self.1
    }

    fn copy(&self, alloc: Global) -> Result<(Scope, Who), AllocError> {
        Ok((self.0, self.1.copy(alloc)?))
    }

    fn read(alloc: Global, text: &[u8]) -> Result<Option<(Scope, Who)>, AllocError> {
        item_of(alloc, text)
    }
}

// Whether two are for the same one in the same scope.
pub(crate) fn is_same<T: Item>(a: &T, b: &T) -> bool
    ensures { result ≡ same_of T.scope_of T.whom a.now b.now }
{
    a.scope().has(b.scope()) && *a.who() == *b.who()
}

// Whether one of a list is of a scope.
pub(crate) fn has_scope<T: Item>(items: &[T], scope: Scope) -> bool
    ensures { result ≡ list_any (λ e. in_scope scope (T.scope_of e)) items.now }
{
    items.iter().any(|item| scope.has(item.scope()))
}

// Those of a list that are of a scope.
pub(crate) fn of_scope<T: Item>(
    alloc: Global,
    items: &[T],
    scope: Scope,
) -> Result<Vec<T>, AllocError>
    ensures { IfOk result (λ kept. kept.items ≡ filter (λ e. in_scope scope (T.scope_of e)) items.now) }
{
    let mut kept = Vec::new(alloc);
    for item in items {
        if scope.has(item.scope()) {
            kept.push(item.copy(alloc)?)?;
        }
    }
    Ok(kept)
}

pub(crate) fn copy_items<T: Item>(alloc: Global, items: &[T]) -> Result<Vec<T>, AllocError>
    ensures { IfOk result (λ copied. copied.items ≡ items.now) }
{
    let mut copied = Vec::new(alloc);
    for item in items {
        copied.push(item.copy(alloc)?)?;
    }
    Ok(copied)
}
