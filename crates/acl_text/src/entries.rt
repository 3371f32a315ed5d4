ghost use Rattle.std.specs.Prelude.{◌≡◌, ◌||◌, not, IfOk, is_ok, if◌then◌else◌};
ghost use Rattle.std.specs.FinMap as fin;
ghost use Rattle.std.specs.FinMap.{find, put};
ghost use Rattle.std.specs.Ordering.{eq_by_cmp};
ghost use Rattle.acl_text.specs.declared.who.Who.TheVariants.{User};
ghost use Rattle.acl_text.specs.Held.{AreHeld};
ghost use Rattle.acl_text.specs.Whos.{who_cmp, is_named, is_base, is_mask, is_limited};
ghost use Rattle.acl_text.specs.AclMaps.{has_named, union_of, base_of, without_mask};
ghost use Rattle.acl_text.specs.AclChanges.{lists, without};
ghost use Rattle.acl_text.specs.Places.{place_of, stands_in};

use crate::id::Id;
use crate::perm::Perm;
use crate::scope::Scope;
use crate::who::Who;
use std::alloc::{AllocError, Global};
use std::cmp::Ordering;
use std::marker::Model;

// The entries of one scope in printed order, each at most once. A contract sees the finite map.
#[derive(Debug, Drop)]
pub(crate) struct Entries {
    items: Vec<(Who, Perm)>,
}

impl Model for Entries {
    ghost use Rattle.std.specs.Prelude.{IsTrue, ℕ};
    ghost use Rattle.std.specs.FinMap as fin;
    ghost use Rattle.std.specs.FinMap.{FinMap, is_sorted};
    ghost use Rattle.std.specs.Coded.{codes, coded_ℕ};
    ghost use Rattle.acl_text.specs.Whos.{who_cmp};
    ghost use Rattle.acl_text.specs.Held.{AreHeld};

    ghost Value = { FinMap who_cmp ℕ };

    ghost coded = { fin.code (Prim.hlevel codes) coded_ℕ };

    ghost view = { λ e. fin.from_sorted e.items.items };

    ghost invariant = { λ e. IsTrue (is_sorted who_cmp e.items.items) × AreHeld e.items.items };
}

impl Entries {
    pub(crate) fn new(alloc: Global) -> Entries
        ensures { result ≡ fin.empty }
    {
        Entries {
            items: Vec::new(alloc),
        }
    }

    pub(crate) fn as_slice(&self) -> &[(Who, Perm)]
        ensures value { result.now ≡ fin.entries self.now }
        ensures held { AreHeld (fin.entries self.now) }
    {
        self.items.as_slice()
    }

    pub(crate) fn get(&self, who: &Who) -> Option<Perm>
        ensures { result ≡ fin.get self.now who.now }
    {
        find(self.items.as_slice(), who)
    }

    // Sets the permissions of one, who has an entry from then on.
    pub(crate) fn put(&mut self, who: Who, perm: Perm) -> Result<(), AllocError>
        ensures { self.new ≡ (if is_ok result then fin.insert self.old who perm else self.old) }
    {
        // What every entry keeps: an id that is one, and three bits.
        let (_id, _bits) = (who.id(), perm.bits());
        put_in_order(&mut self.items, who, perm)
    }

    pub(crate) fn copy(&self, alloc: Global) -> Result<Entries, AllocError>
        ensures { IfOk result (λ entries. entries ≡ self.now) }
    {
        Ok(Entries {
            items: copy_entries(alloc, self.items.as_slice())?,
        })
    }

    // Keeps the three base entries alone.
    pub(crate) fn keep_base(&mut self)
        ensures { self.new ≡ base_of self.old }
    {
        self.items.retain(|entry| entry.0.is_base());
    }

    pub(crate) fn drop_mask(&mut self)
        ensures { self.new ≡ without_mask self.old }
    {
        self.items.retain(|entry| !entry.0.is_mask());
    }

    // Keeps the base entries, and those that a list doesn't name in a scope.
    pub(crate) fn drop_listed(&mut self, listed: &[(Scope, Who)], scope: Scope)
        ensures { self.new ≡ without scope listed.now self.old }
    {
        self.items.retain(|entry| stays(listed, scope, &entry.0));
    }

    pub(crate) fn has_named(&self) -> bool
        ensures { result ≡ has_named self.now }
    {
        self.as_slice().iter().any(|entry| entry.0.is_named())
    }
}

// What the entry of one gives.
pub(crate) fn find(items: &[(Who, Perm)], who: &Who) -> Option<Perm>
    ensures { result ≡ find who_cmp who.now items.now }
{
    for entry in items {
        if *who == entry.0 {
            return Some(entry.1);
        }
    }
    None
}

fn is_user(who: &Who, id: &Id) -> bool
    ensures { result ≡ eq_by_cmp who_cmp (User id.now) who.now }
{
    match who {
        Who::User(user) => id == user,
        _ => false,
    }
}

// What the entry of a named user gives.
pub(crate) fn find_user(items: &[(Who, Perm)], id: &Id) -> Option<Perm>
    ensures { result ≡ find who_cmp (User id.now) items.now }
{
    for entry in items {
        if is_user(&entry.0, id) {
            return Some(entry.1);
        }
    }
    None
}

// The place of the entry of one, or else the place at which it would stand.
fn place(items: &[(Who, Perm)], who: &Who) -> Result<usize, usize>
    ensures { result ≡ (if stands_in who.now items.now then Ok (place_of who.now items.now) else Err (place_of who.now items.now)) }
{
    let mut at = 0;
    for entry in items {
        match who.cmp(&entry.0) {
            Ordering::Less => return Err(at),
            Ordering::Equal => return Ok(at),
            Ordering::Greater => at += 1,
        }
    }
    Err(at)
}

fn put_in_order(items: &mut Vec<(Who, Perm)>, who: Who, perm: Perm) -> Result<(), AllocError>
    ensures { items.new.items ≡ (if is_ok result then put who_cmp who perm items.old.items else items.old.items) }
{
    match place(items.as_slice(), &who) {
        Ok(at) => items[at].1 = perm,
        Err(at) => items.insert(at, (who, perm))?,
    }
    Ok(())
}

fn copy_entries(alloc: Global, items: &[(Who, Perm)]) -> Result<Vec<(Who, Perm)>, AllocError>
    ensures { IfOk result (λ copied. copied.items ≡ items.now) }
{
    let mut copied = Vec::new(alloc);
    for entry in items {
        copied.push((entry.0.copy(alloc)?, entry.1))?;
    }
    Ok(copied)
}

// Whether a list of items to remove has one for someone in a scope.
pub(crate) fn lists(items: &[(Scope, Who)], scope: Scope, who: &Who) -> bool
    ensures { result ≡ lists scope items.now who.now }
{
    items.iter().any(|item| scope.has(item.0) && item.1 == *who)
}

fn stays(listed: &[(Scope, Who)], scope: Scope, who: &Who) -> bool
    ensures { result ≡ (is_base who.now || not (lists scope listed.now who.now)) }
{
    who.is_base() || !lists(listed, scope, who)
}
