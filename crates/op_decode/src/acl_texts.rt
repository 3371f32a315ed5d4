//! Access control lists in the header `x-ms-acl`.

ghost use Rattle.op_decode.specs.AclTexts.{entries_of, or_bad_acl, whole_entries_of};
ghost use Rattle.acl_text.specs.AclChanges.{acl_set};
ghost use Rattle.op_decode.specs.Orders.{Answers};

use super::stop::Stop;
use acl_text::{AclList, AclPair, AclStop, read_acl, set};
use namespace_model::Code;
use std::alloc::Global;

/// The entries of a text. Text that has none is `InvalidAcl`.
#[tactic(auto, unfolding(crate::specs::AclTexts::entries_of))]
pub fn entries_of(alloc: Global, text: &[u8]) -> Result<AclList, Stop>
    ensures { Answers result (entries_of text.now) }
{
    match read_acl(alloc, text) {
        Ok(list) => Ok(list),
        Err(AclStop::Fault(_)) => Err(Stop::Refused(Code::InvalidAcl)),
        Err(AclStop::NoMemory) => Err(Stop::NoMemory),
    }
}

// The lists that the entries make by themselves.
fn lists_of(alloc: Global, list: &AclList) -> Result<AclPair, Stop>
    ensures { Answers result (or_bad_acl (acl_set list.now)) }
{
    match set(alloc, list) {
        Ok(pair) => Ok(pair),
        Err(AclStop::Fault(_)) => Err(Stop::Refused(Code::InvalidAcl)),
        Err(AclStop::NoMemory) => Err(Stop::NoMemory),
    }
}

/// The entries of a text that make access control lists by themselves. Text that has none, and entries that make no
/// lists, are `InvalidAcl`.
#[tactic(auto, unfolding(crate::specs::AclTexts::whole_entries_of))]
pub fn whole_entries_of(alloc: Global, text: &[u8]) -> Result<AclList, Stop>
    ensures { Answers result (whole_entries_of text.now) }
{
    let list = entries_of(alloc, text)?;
    let _lists = lists_of(alloc, &list)?;
    Ok(list)
}
