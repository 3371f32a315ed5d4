ghost use Rattle.std.specs.Prelude.{◌≡◌, ◌++◌, fold, IfOk, IfSome, OnOk, Ok, is_ok, if◌then◌else◌};
ghost use Rattle.acl_text.specs.declared.scope.Scope.TheVariants.{Default};
ghost use Rattle.acl_text.specs.AclTexts.{who_text, kind_text, acl_list_of};
ghost use Rattle.acl_text.specs.AclWriting.{scoped, default_entries, entries_of, acl_text, with_entry};
ghost use Rattle.acl_text.specs.Acls.{IsAcl};
ghost use Rattle.acl_text.specs.AclChanges.{acl_set};
ghost use Rattle.acl_text.specs.AclLaws.{IsAclPair};

use crate::acl::{Acl, AclPair};
use crate::perm::Perm;
use crate::scope::Scope;
use crate::who::Who;
use std::alloc::{AllocError, Global};

fn kind_text(who: &Who) -> &'static [u8]
    ensures { result.now ≡ kind_text who.now }
{
    match who {
        Who::Owner | Who::User(_) => b"user".as_slice(),
        Who::OwningGroup | Who::Group(_) => b"group".as_slice(),
        Who::Mask => b"mask".as_slice(),
        Who::Other => b"other".as_slice(),
    }
}

fn append_who(text: &mut Vec<u8>, who: &Who) -> Result<(), AllocError>
    ensures { OnOk result (text.new.items ≡ text.old.items ++ who_text who.now) }
{
    text.extend_from_slice(kind_text(who))?;
    text.push(b':')?;
    text.extend_from_slice(who.id())
}

fn append_entry(text: &mut Vec<u8>, scope: Scope, who: &Who, perm: Perm) -> Result<(), AllocError>
    ensures { OnOk result (text.new.items ≡ with_entry text.old.items (scope, who.now, perm)) }
{
    if !text.is_empty() {
        text.push(b',')?;
    }
    if scope == Scope::Default {
        text.extend_from_slice(b"default:".as_slice())?;
    }
    append_who(text, who)?;
    text.push(b':')?;
    text.extend_from_slice(perm.text().as_slice())
}

fn append_entries(
    text: &mut Vec<u8>,
    scope: Scope,
    entries: &[(Who, Perm)],
) -> Result<(), AllocError>
    ensures { OnOk result (text.new.items ≡ fold with_entry text.old.items (scoped scope entries.now)) }
{
    for (who, perm) in entries {
        append_entry(text, scope, who, *perm)?;
    }
    Ok(())
}

// The entries of a default ACL, none where there is no default ACL.
fn default_entries(default: &Option<Acl>) -> &[(Who, Perm)]
    ensures entries { scoped Default result.now ≡ default_entries default.now }
    ensures acl { IfSome default.now IsAcl }
{
    match default {
        Some(acl) => acl.entries(),
        None => &[],
    }
}

fn acl_text(alloc: Global, pair: &AclPair) -> Result<Vec<u8>, AllocError>
    ensures text { IfOk result (λ text. text.items ≡ acl_text pair.now) }
    ensures acl { IsAclPair pair.now }
{
    let access = pair.access.entries();
    let default = default_entries(&pair.default);
    let mut text = Vec::new(alloc);
    append_entries(&mut text, Scope::Access, access)?;
    append_entries(&mut text, Scope::Default, default)?;
    Ok(text)
}

/// Writes the entries of a pair at the end of a text in printed order, with commas between: the access scope first, and then the
/// default scope with `default:` before each entry.
///
/// What is written is read by `read_acl`, and `set` of that list gives the pair. The one error is want of memory, and leaves the
/// text as it was.
pub fn write_acl(pair: &AclPair, out: &mut Vec<u8>) -> Result<(), AllocError>
    ensures text { out.new.items ≡ (if is_ok result then out.old.items ++ acl_text pair.now else out.old.items) }
    ensures read_back { acl_list_of (acl_text pair.now) ≡ Ok (entries_of pair.now) }
    ensures set_back { acl_set (entries_of pair.now) ≡ Ok pair.now }
{
    let text = acl_text(*out.allocator(), pair)?;
    out.extend_from_slice(text.as_slice())
}
