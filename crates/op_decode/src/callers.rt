//! Who sent a request.

ghost use Rattle.std.specs.Prelude.{◌≡◌, [], IfOk, map};
ghost use Rattle.std.specs.List.{slice_split};
ghost use Rattle.head_text.specs.ETags.{is_comma};
ghost use Rattle.op_decode.specs.Callers.{caller_id_in, caller_of, few_ids_of, groups_in, groups_of, ids_of};
ghost use Rattle.op_decode.specs.Orders.{Answers, or_refused};
ghost use Rattle.namespace_model.specs.declared.code.Code.TheVariants.{InvalidHeaderValue};

use super::headers::header;
use super::stop::Stop;
use acl_text::{Id, read_id};
use head_text::trimmed;
use http_front::Raw;
use namespace_model::{Caller, Code, IdList};
use std::alloc::{AllocError, Global};

/// How many groups a caller has at most.
const GROUPS_MAX: usize = 64;

#[tactic(auto, unfolding(crate::specs::Callers::caller_id_in))]
fn caller_id_in(alloc: Global, raw: &Raw) -> Result<Id, Stop>
    ensures { Answers result (caller_id_in raw.now) }
{
    match header(raw, b"x-ms-caller") {
        Some(text) => match read_id(alloc, text)? {
            Some(id) => Ok(id),
            None => Err(Stop::Refused(Code::InvalidHeaderValue)),
        },
        None => Err(Stop::Refused(Code::MissingRequiredHeader)),
    }
}

// The items that commas part.
fn items_of(alloc: Global, text: &[u8]) -> Result<Vec<&[u8]>, AllocError>
    ensures { IfOk result (λ items. map (λ item. item.now) items.items ≡ slice_split is_comma text.now) }
{
    text.split(|byte| *byte == b',').collect(alloc)
}

fn ids_of(alloc: Global, items: &[&[u8]]) -> Result<IdList, Stop>
    ensures { Answers result (or_refused InvalidHeaderValue (ids_of (map (λ item. item.now) items.now))) }
{
    let mut ids = Vec::new(alloc);
    for item in items {
        match read_id(alloc, trimmed(item))? {
            Some(id) => ids.push(id)?,
            None => return Err(Stop::Refused(Code::InvalidHeaderValue)),
        }
    }
    Ok(IdList::new(ids))
}

fn no_groups(alloc: Global) -> IdList
    ensures { result ≡ [] }
{
    IdList::new(Vec::new(alloc))
}

#[tactic(auto, unfolding(crate::specs::Callers::groups_of))]
fn groups_of(alloc: Global, text: &[u8]) -> Result<IdList, Stop>
    ensures { Answers result (groups_of text.now) }
{
    if text.is_empty() {
        return Ok(no_groups(alloc));
    }
    let items = items_of(alloc, text)?;
    if GROUPS_MAX < items.len() {
        return Err(Stop::Refused(Code::InvalidHeaderValue));
    }
    ids_of(alloc, items.as_slice())
}

#[tactic(auto, unfolding(crate::specs::Callers::groups_in))]
fn groups_in(alloc: Global, raw: &Raw) -> Result<IdList, Stop>
    ensures { Answers result (groups_in raw.now) }
{
    match header(raw, b"x-ms-caller-groups") {
        Some(text) => groups_of(alloc, text),
        None => Ok(no_groups(alloc)),
    }
}

/// The caller: its id, which has to be there, and then its groups.
#[tactic(auto, unfolding(crate::specs::Callers::caller_of))]
pub fn caller_of(alloc: Global, raw: &Raw) -> Result<Caller, Stop>
    ensures { Answers result (caller_of raw.now) }
{
    let id = caller_id_in(alloc, raw)?;
    let groups = groups_in(alloc, raw)?;
    Ok(Caller { id, groups })
}
