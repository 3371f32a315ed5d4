ghost use Rattle.std.specs.Prelude.{◌≡◌, IfOk, IfSome, slice_index, ◌+◌, ◌<◌, length, take, drop};
ghost use Rattle.acl_text.specs.AclTexts.{scope_of, person_of, who_of, bare_of, who_and_perm_of, entry_of, or_bare, item_of};
ghost use Rattle.acl_text.specs.declared.who.Who.TheVariants.{Owner, User, OwningGroup, Group};

use crate::id::{Id, read_id};
use crate::perm::{Perm, perm_at};
use crate::scope::Scope;
use crate::who::Who;
use std::alloc::{AllocError, Global};

// The scope, and the text behind it.
fn scope_of(text: &[u8]) -> (Scope, &[u8])
    ensures scope { result.0 ≡ (scope_of text.now).0 }
    ensures rest { result.1.now ≡ (scope_of text.now).1 }
{
    match text.strip_prefix(b"default:".as_slice()) {
        Some(rest) => (Scope::Default, rest),
        None => (Scope::Access, text),
    }
}

fn user_of(alloc: Global, id: &[u8]) -> Result<Option<Who>, AllocError>
    ensures { IfOk result (λ who. who ≡ person_of Owner User id.now) }
{
    if id.is_empty() {
        return Ok(Some(Who::Owner));
    }
    match read_id(alloc, id)? {
        Some(id) => Ok(Some(Who::User(id))),
        None => Ok(None),
    }
}

fn group_of(alloc: Global, id: &[u8]) -> Result<Option<Who>, AllocError>
    ensures { IfOk result (λ who. who ≡ person_of OwningGroup Group id.now) }
{
    if id.is_empty() {
        return Ok(Some(Who::OwningGroup));
    }
    match read_id(alloc, id)? {
        Some(id) => Ok(Some(Who::Group(id))),
        None => Ok(None),
    }
}

// Whom `type:id` is for.
#[tactic(auto, unfolding(crate::specs::AclTexts::who_of))]
fn who_of(alloc: Global, text: &[u8]) -> Result<Option<Who>, AllocError>
    ensures { IfOk result (λ who. who ≡ who_of text.now) }
{
    if let Some(id) = text.strip_prefix(b"user:".as_slice()) {
        return user_of(alloc, id);
    }
    if let Some(id) = text.strip_prefix(b"group:".as_slice()) {
        return group_of(alloc, id);
    }
    if text == b"mask:".as_slice() {
        Ok(Some(Who::Mask))
    } else if text == b"other:".as_slice() {
        Ok(Some(Who::Other))
    } else {
        Ok(None)
    }
}

// Whom a type alone is for.
#[tactic(auto, unfolding(crate::specs::AclTexts::bare_of))]
fn bare_of(text: &[u8]) -> Option<Who>
    ensures { result ≡ bare_of text.now }
{
    if text == b"user".as_slice() {
        Some(Who::Owner)
    } else if text == b"group".as_slice() {
        Some(Who::OwningGroup)
    } else if text == b"mask".as_slice() {
        Some(Who::Mask)
    } else if text == b"other".as_slice() {
        Some(Who::Other)
    } else {
        None
    }
}

// What `type:id:perms` spells.
#[tactic(auto, unfolding(crate::specs::AclTexts::who_and_perm_of))]
fn who_and_perm_of(alloc: Global, text: &[u8]) -> Result<Option<(Who, Perm)>, AllocError>
    ensures { IfOk result (λ entry. entry ≡ who_and_perm_of text.now) }
{
    if text.len() < 4 {
        return Ok(None);
    }
    let at = text.len() - 4;
    if text[at] != b':' {
        return Ok(None);
    }
    let Some(perm) = perm_at(text, at + 1) else {
        return Ok(None);
    };
    match who_of(alloc, &text[..at])? {
        Some(who) => Ok(Some((who, perm))),
        None => Ok(None),
    }
}

// What an entry of a list spells.
#[tactic(auto, unfolding(crate::specs::AclTexts::entry_of))]
pub(crate) fn entry_of(alloc: Global, text: &[u8]) -> Result<Option<(Scope, Who, Perm)>, AllocError>
    ensures { IfOk result (λ entry. entry ≡ entry_of text.now) }
{
    let (scope, rest) = scope_of(text);
    match who_and_perm_of(alloc, rest)? {
        Some((who, perm)) => Ok(Some((scope, who, perm))),
        None => Ok(None),
    }
}

fn who_or_bare(alloc: Global, text: &[u8]) -> Result<Option<Who>, AllocError>
    ensures { IfOk result (λ who. who ≡ or_bare (who_of text.now) text.now) }
{
    match who_of(alloc, text)? {
        Some(who) => Ok(Some(who)),
        None => Ok(bare_of(text)),
    }
}

// What an item of a list to remove spells.
#[tactic(auto, unfolding(crate::specs::AclTexts::item_of))]
pub(crate) fn item_of(alloc: Global, text: &[u8]) -> Result<Option<(Scope, Who)>, AllocError>
    ensures { IfOk result (λ item. item ≡ item_of text.now) }
{
    let (scope, rest) = scope_of(text);
    match who_or_bare(alloc, rest)? {
        Some(who) => Ok(Some((scope, who))),
        None => Ok(None),
    }
}
