//! Path Get Properties with `getAccessControl` and `checkAccess`, and Path Update with `setAccessControl`.

ghost use Rattle.std.specs.Prelude.{◌≡◌};
ghost use Rattle.op_decode.specs.Access.{acl_in, check_access_of, get_access_of, has_setting, not_both, set_access_of};
ghost use Rattle.op_decode.specs.Access.{some_setting, wanted_in};
ghost use Rattle.op_decode.specs.Orders.{Answers};

use super::acl_texts::whole_entries_of;
use super::headers::{has_header, header};
use super::stop::Stop;
use super::values::{id_in, permissions_in};
use acl_text::{AclList, ModeBits, Perm, read_perm};
use http_front::Raw;
use namespace_model::{Code, Op};
use path_text::{Path, Query};
use std::alloc::Global;

/// Path Get Properties with `getAccessControl`.
#[tactic(auto, unfolding(crate::specs::Access::get_access_of))]
pub fn get_access_row(path: Path) -> Result<Op, Code>
    ensures { result ≡ get_access_of path }
{
    Ok(Op::GetAccess { path })
}

#[tactic(auto, unfolding(crate::specs::Access::wanted_in))]
fn wanted_in(query: &Query) -> Result<Perm, Code>
    ensures { result ≡ wanted_in query.now }
{
    match query.first(b"fsAction") {
        Some(text) => match read_perm(text) {
            Some(want) => Ok(want),
            None => Err(Code::InvalidQueryParameterValue),
        },
        None => Err(Code::MissingRequiredQueryParameter),
    }
}

/// Path Get Properties with `checkAccess`: the permissions that `fsAction` asks for, three characters. Without it it is
/// `MissingRequiredQueryParameter`, and another text is `InvalidQueryParameterValue`.
#[tactic(auto, unfolding(crate::specs::Access::check_access_of))]
pub fn check_access_row(path: Path, query: &Query) -> Result<Op, Code>
    ensures { result ≡ check_access_of path query.now }
{
    let want = wanted_in(query)?;
    Ok(Op::CheckAccess { path, want })
}

#[tactic(auto, unfolding(crate::specs::Access::has_setting))]
fn has_setting(raw: &Raw) -> bool
    ensures { result ≡ has_setting raw.now }
{
    has_header(raw, b"x-ms-owner")
        || has_header(raw, b"x-ms-group")
        || has_header(raw, b"x-ms-permissions")
        || has_header(raw, b"x-ms-acl")
}

#[tactic(auto, unfolding(crate::specs::Access::some_setting))]
fn some_setting(raw: &Raw) -> Result<(), Code>
    ensures { result ≡ some_setting raw.now }
{
    if has_setting(raw) {
        Ok(())
    } else {
        Err(Code::MissingRequiredHeader)
    }
}

#[tactic(auto, unfolding(crate::specs::Access::acl_in))]
fn acl_in(alloc: Global, raw: &Raw) -> Result<Option<AclList>, Stop>
    ensures { Answers result (acl_in raw.now) }
{
    match header(raw, b"x-ms-acl") {
        Some(text) => Ok(Some(whole_entries_of(alloc, text)?)),
        None => Ok(None),
    }
}

fn not_both(permissions: &Option<ModeBits>, acl: &Option<AclList>) -> Result<(), Code>
    ensures { result ≡ not_both permissions.now acl.now }
{
    if permissions.is_some() && acl.is_some() {
        Err(Code::InvalidInput)
    } else {
        Ok(())
    }
}

/// Path Update with `setAccessControl`: without one of its four headers it is `MissingRequiredHeader`; then owner,
/// group, permissions and access control list; then permissions together with a list are `InvalidInput`.
#[tactic(auto, unfolding(crate::specs::Access::set_access_of))]
pub fn set_access_row(alloc: Global, path: Path, raw: &Raw) -> Result<Op, Stop>
    ensures { Answers result (set_access_of path raw.now) }
{
    some_setting(raw)?;
    let owner = id_in(alloc, b"x-ms-owner", raw)?;
    let group = id_in(alloc, b"x-ms-group", raw)?;
    let permissions = permissions_in(raw)?;
    let acl = acl_in(alloc, raw)?;
    not_both(&permissions, &acl)?;
    Ok(Op::SetAccess {
        path,
        owner,
        group,
        permissions,
        acl,
    })
}
