ghost use Rattle.std.specs.Prelude.{◌≡◌, ◌↔◌, ◌<◌, ◌++◌, not, length, Ok, IfErr, is_ok, if◌then◌else◌};
ghost use Rattle.std.specs.List.{list_any};
ghost use Rattle.acl_text.specs.AclWriting.{access_bits, permissions_text};
ghost use Rattle.acl_text.specs.Whos.{who_cmp, is_base};
ghost use Rattle.acl_text.specs.PermTexts.{octal_digit, sticky_digit, sticky_letter, octal_mode, symbolic_mode, has_symbolic_length, mode_fault, permissions_of, umask_of, SpellsMode, SpellsUmask};
ghost use Rattle.acl_text.specs.declared.perm.ModeBits.{ModeBits};

use crate::acl::{Acl, AclFault};
use crate::perm::{ModeBits, Perm, perm_at};
use std::alloc::AllocError;

fn octal_digit(byte: u8) -> Option<Perm>
    ensures { result ≡ octal_digit byte }
{
    if b'0' <= byte && byte < b'8' {
        Perm::new(byte - b'0')
    } else {
        None
    }
}

fn sticky_digit(byte: u8) -> Option<bool>
    ensures { result ≡ sticky_digit byte }
{
    match byte {
        b'0' => Some(false),
        b'1' => Some(true),
        _ => None,
    }
}

#[tactic(auto, unfolding(crate::specs::PermTexts::octal_mode))]
fn octal_mode(text: &[u8]) -> Option<ModeBits>
    requires { length text.now ≡ 4 }
    ensures { result ≡ octal_mode text.now }
{
    Some(ModeBits {
        sticky: sticky_digit(text[0])?,
        owner: octal_digit(text[1])?,
        group: octal_digit(text[2])?,
        other: octal_digit(text[3])?,
    })
}

// Whether the last letter has the sticky bit, and the letter without it.
fn sticky_letter(byte: u8) -> (bool, u8)
    ensures { result ≡ sticky_letter byte }
{
    match byte {
        b't' => (true, b'x'),
        b'T' => (true, b'-'),
        _ => (false, byte),
    }
}

fn has_symbolic_length(text: &[u8]) -> bool
    ensures value { result ≡ has_symbolic_length text.now }
{
    if text.len() == 9 {
        true
    } else {
        text.len() == 10 && text[9] == b'+'
    }
}

#[tactic(auto, unfolding(crate::specs::PermTexts::symbolic_mode))]
fn symbolic_mode(text: &[u8]) -> Option<ModeBits>
    requires { 8 < length text.now }
    ensures { result ≡ symbolic_mode text.now }
{
    let owner = perm_at(text, 0)?;
    let group = perm_at(text, 3)?;
    let (sticky, execute) = sticky_letter(text[8]);
    let other = Perm::read(text[6], text[7], execute)?;
    Some(ModeBits {
        sticky,
        owner,
        group,
        other,
    })
}

/// Reads permissions: four octal digits, the first 0 or 1 for the sticky bit, or nine characters, of which the last may be `t`
/// (execute and sticky) or `T` (sticky alone), and behind which a `+` may stand and is ignored.
///
/// The fault is `BadOctal` for another text of four bytes, and `BadSymbolic` for any other text.
pub fn read_permissions(text: &[u8]) -> Result<ModeBits, AclFault>
    ensures spelled { (bits : ModeBits) → ((result ≡ Ok bits) ↔ SpellsMode text.now bits) }
    ensures fault { IfErr result (λ fault. fault ≡ mode_fault text.now) }
    ensures exact { result ≡ permissions_of text.now }
{
    permissions_of(text)
}

fn permissions_of(text: &[u8]) -> Result<ModeBits, AclFault>
    ensures { result ≡ permissions_of text.now }
{
    if text.len() == 4 {
        return octal_mode(text).ok_or(AclFault::BadOctal);
    }
    if !has_symbolic_length(text) {
        return Err(AclFault::BadSymbolic);
    }
    symbolic_mode(text).ok_or(AclFault::BadSymbolic)
}

/// Reads a umask: four octal digits, the first 0.
///
/// The fault is `BadOctal` for another text of four bytes, and `BadSymbolic` for any other text.
pub fn read_umask(text: &[u8]) -> Result<ModeBits, AclFault>
    ensures spelled { (bits : ModeBits) → ((result ≡ Ok bits) ↔ SpellsUmask text.now bits) }
    ensures fault { IfErr result (λ fault. fault ≡ mode_fault text.now) }
    ensures exact { result ≡ umask_of text.now }
{
    umask_of(text)
}

fn umask_of(text: &[u8]) -> Result<ModeBits, AclFault>
    ensures { result ≡ umask_of text.now }
{
    if text.len() != 4 {
        return Err(AclFault::BadSymbolic);
    }
    if text[0] != b'0' {
        return Err(AclFault::BadOctal);
    }
    octal_mode(text).ok_or(AclFault::BadOctal)
}

// Whether there are other entries than the three base ones.
fn has_more_than_base(access: &Acl) -> bool
    ensures { result ≡ list_any (λ e. not (is_base e.0)) access.now }
{
    access.entries().iter().any(|entry| !entry.0.is_base())
}

/// Writes the permissions of an access ACL at the end of a text, as nine characters: what the owner may do, what the mask gives where
/// there is one and else the owning group, and what the others may do, with `t` or `T` for the sticky bit. Behind them stands a `+`
/// where there are other entries than the three base ones.
///
/// What is written is read by `read_permissions` as the same bits. The one error is want of memory, and leaves the text as it was.
pub fn write_permissions(access: &Acl, sticky: bool, out: &mut Vec<u8>) -> Result<(), AllocError>
    ensures text { out.new.items ≡ (if is_ok result then out.old.items ++ permissions_text sticky access.now else out.old.items) }
    ensures read_back { permissions_of (permissions_text sticky access.now) ≡ Ok (access_bits sticky access.now) }
{
    let text = access.mode(sticky).symbolic();
    let length = if has_more_than_base(access) { 10 } else { 9 };
    out.extend_from_slice(&text[..length])
}
