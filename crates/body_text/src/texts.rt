ghost use Rattle.std.specs.Prelude.{◌≡◌, ◌≢◌, [], ◌++◌, min, IfOk, decimal, string_bytes};
ghost use Rattle.acl_text.specs.AclWriting.{permissions_text};
ghost use Rattle.lease_state.specs.declared.lease.TheConstants.{LAST_MOMENT};
ghost use Rattle.namespace_model.specs.Replies.{date_in_body, etag_in_body, name_in_body};

use super::words::{joined, joined_both, text_of};
use acl_text::{Acl, Id, write_permissions};
use head_text::{date_text, write_hex16};
use lease_state::LAST_MOMENT;
use path_text::{Name, Path};
use serde_json::Value;
use std::alloc::{AllocError, Global};

/// The ETag of an entry's number, as bodies have it: `0x` and 16 upper-case hex digits, without quotes. The one error
/// is want of memory.
pub fn etag_in_body(alloc: Global, number: u64) -> Result<String, AllocError>
    ensures { IfOk result (λ text. string_bytes text ≡ etag_in_body number) }
{
    let mut digits = [0u8; 16];
    write_hex16(number, &mut digits);
    let mut text = String::from_str(alloc, "0x")?;
    let digits = text_of(alloc, &digits)?;
    text.push_str(digits.as_str())?;
    Ok(text)
}

/// The date of a moment in milliseconds since 1970, by its whole second, as `Sun, 06 Nov 1994 08:49:37 GMT` (RFC
/// 9110, section 5.6.7). A moment behind the year 9999 has the date of that year's last second. The one error is want
/// of memory.
pub fn date_in_body(alloc: Global, moment: u64) -> Result<String, AllocError>
    ensures { IfOk result (λ text. string_bytes text ≡ date_in_body (min moment LAST_MOMENT)) }
{
    text_of(alloc, &date_text(moment.min(LAST_MOMENT) / 1000))
}

/// The names of a path below its filesystem with `/` between them: empty for the root of a filesystem. Nothing stands
/// before the first name, and nothing is escaped. The one error is want of memory.
pub fn name_in_body(alloc: Global, path: &Path) -> Result<String, AllocError>
    ensures { IfOk result (λ text. string_bytes text ≡ name_in_body path.now) }
{
    joined(alloc, path.names())
}

/// The names below its filesystem of the path to which these names lead from another path, which isn't the account,
/// with `/` between them, as `name_in_body` has them. The one error is want of memory.
pub fn name_below(alloc: Global, path: &Path, names: &[Name]) -> Result<String, AllocError>
    requires path { path.now ≢ [] }
    ensures { IfOk result (λ text. string_bytes text ≡ name_in_body (path.now ++ names.now)) }
{
    joined_both(alloc, path.names(), names)
}

// A number in decimal.
pub(crate) fn number_in_body(alloc: Global, number: u64) -> Result<String, AllocError>
    ensures { IfOk result (λ text. string_bytes text ≡ decimal number) }
{
    Value::from(number).to_string(alloc)
}

pub(crate) fn permissions_in_body(
    alloc: Global,
    access: &Acl,
    sticky: bool,
) -> Result<String, AllocError>
    ensures { IfOk result (λ text. string_bytes text ≡ permissions_text sticky access.now) }
{
    let mut text = Vec::new(alloc);
    write_permissions(access, sticky, &mut text)?;
    text_of(alloc, text.as_slice())
}

pub(crate) fn id_in_body(alloc: Global, id: &Id) -> Result<String, AllocError>
    ensures { IfOk result (λ text. string_bytes text ≡ id.now) }
{
    text_of(alloc, id.bytes())
}
