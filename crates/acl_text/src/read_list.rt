ghost use Rattle.std.specs.Prelude.{◌≡◌, [], ℕ, List, Ok, Err, IfOk, IfErr, map};
ghost use Rattle.std.specs.List.{list_any};
ghost use Rattle.acl_text.specs.Stops.{Answers, Stops};
ghost use Rattle.acl_text.specs.AclTexts.{items_of, values_of, repeat_from, list_of, same_of};
ghost use Rattle.acl_text.specs.AclTexts.{acl_list_of, remove_list_of, same_entry, same_item};
ghost use Rattle.acl_text.specs.AclTexts.{IsAclText, IsRemoveText, IsListFault, SpellsEntry, SpellsItem};
ghost use Rattle.acl_text.specs.declared.scope.Scope.{Scope};
ghost use Rattle.acl_text.specs.declared.who.Who.{Who};
ghost use Rattle.acl_text.specs.declared.acl.AclFault.{AclFault};

use crate::acl::{AclFault, AclStop};
use crate::item::{Item, is_same};
use crate::list::{AclList, ITEMS_MAX, RemoveList};
use std::alloc::{AllocError, Global};

// The items that commas part.
fn items_of(alloc: Global, text: &[u8]) -> Result<Vec<&[u8]>, AllocError>
    ensures { IfOk result (λ items. map (λ item. item.now) items.items ≡ items_of text.now) }
{
    text.split(|byte| *byte == b',').collect(alloc)
}

fn values_of<T: Item>(alloc: Global, items: &[&[u8]]) -> Result<Vec<T>, AclStop>
    ensures read { IfOk result (λ values. values_of T.read_of (map (λ item. item.now) items.now) ≡ Ok values.items) }
    ensures refused { IfErr result (λ stop. Stops stop (values_of T.read_of (map (λ item. item.now) items.now))) }
{
    let mut values = Vec::new(alloc);
    for (at, item) in items.iter().enumerate() {
        match T::read(alloc, item)? {
            Some(value) => values.push(value)?,
            None => return Err(AclStop::Fault(AclFault::BadEntry(at))),
        }
    }
    Ok(values)
}

fn has<T: Item>(items: &[T], item: &T) -> bool
    ensures { result ≡ list_any (same_of T.scope_of T.whom item.now) items.now }
{
    items.iter().any(|other| is_same(item, other))
}

// The first that is the same as one before it.
fn repeated<T: Item>(items: &[T]) -> Option<usize>
    ensures { result ≡ repeat_from (same_of T.scope_of T.whom) [] items.now }
{
    for at in 0..items.len() {
        let item = &items[at];
        if has(&items[..at], item) {
            return Some(at);
        }
    }
    None
}

fn list_of<T: Item>(alloc: Global, text: &[u8]) -> Result<Vec<T>, AclStop>
    ensures read { IfOk result (λ values. list_of T.read_of (same_of T.scope_of T.whom) text.now ≡ Ok values.items) }
    ensures refused { IfErr result (λ stop. Stops stop (list_of T.read_of (same_of T.scope_of T.whom) text.now)) }
{
    if text.is_empty() {
        return Ok(Vec::new(alloc));
    }
    let items = items_of(alloc, text)?;
    if ITEMS_MAX < items.len() {
        return Err(AclStop::Fault(AclFault::TooMany));
    }
    let values = values_of::<T>(alloc, items.as_slice())?;
    match repeated(values.as_slice()) {
        Some(at) => Err(AclStop::Fault(AclFault::Twice(at))),
        None => Ok(values),
    }
}

fn acl_of(alloc: Global, text: &[u8]) -> Result<AclList, AclStop>
    ensures { Answers result (acl_list_of text.now) }
{
    Ok(AclList {
        items: list_of(alloc, text)?,
    })
}

/// Reads entries `[default:]type:id:perms` that commas part. The type is `user`, `group`, `mask` or `other`; the id is empty for the
/// owner, the owning group, the mask and the others; the permissions are three characters, `r` or `-`, `w` or `-`, `x` or `-`. The
/// empty text has no entries.
///
/// The faults, in this order: `TooMany` for over 64 items, `BadEntry` for the first item that is no entry, and `Twice` for the
/// first one whose scope and who stood before; and `NoMemory`.
pub fn read_acl(alloc: Global, text: &[u8]) -> Result<AclList, AclStop>
    ensures found { IfOk result (IsAclText text.now) }
    ensures only { (es : List (Scope × Who × ℕ)) → IsAclText text.now es → Answers result (Ok es) }
    ensures fault { (f : AclFault) → result ≡ Err (AclStop.Fault f) → IsListFault SpellsEntry same_entry text.now f }
    ensures refused { (f : AclFault) → IsListFault SpellsEntry same_entry text.now f → Answers result (Err f) }
    ensures exact { Answers result (acl_list_of text.now) }
{
    acl_of(alloc, text)
}

fn remove_list_of(alloc: Global, text: &[u8]) -> Result<RemoveList, AclStop>
    ensures { Answers result (remove_list_of text.now) }
{
    Ok(RemoveList {
        items: list_of(alloc, text)?,
    })
}

/// Reads items `[default:]type`, `[default:]type:` or `[default:]type:id` that commas part, with types and ids as in `read_acl`. The
/// empty text has no items.
///
/// The faults, in this order: `TooMany` for over 64 items, `BadEntry` for the first item that is not of this form, and `Twice` for
/// the first one whose scope and who stood before; and `NoMemory`.
pub fn read_remove_list(alloc: Global, text: &[u8]) -> Result<RemoveList, AclStop>
    ensures found { IfOk result (IsRemoveText text.now) }
    ensures only { (es : List (Scope × Who)) → IsRemoveText text.now es → Answers result (Ok es) }
    ensures fault { (f : AclFault) → result ≡ Err (AclStop.Fault f) → IsListFault SpellsItem same_item text.now f }
    ensures refused { (f : AclFault) → IsListFault SpellsItem same_item text.now f → Answers result (Err f) }
    ensures exact { Answers result (remove_list_of text.now) }
{
    remove_list_of(alloc, text)
}
