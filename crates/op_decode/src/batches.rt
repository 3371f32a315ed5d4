//! The row of a batch.

ghost use Rattle.std.specs.Prelude.{◌≡◌};
ghost use Rattle.acl_text.specs.AclTexts.{remove_list_of};
ghost use Rattle.op_decode.specs.AclTexts.{or_bad_acl};
ghost use Rattle.op_decode.specs.Batches.{change_in, change_named, mode_in, mode_named, set_access_recursive_of};
ghost use Rattle.op_decode.specs.Orders.{Answers};

use super::acl_texts::{entries_of, whole_entries_of};
use super::headers::header;
use super::parameters::{flag_in, size_in, token_in};
use super::stop::Stop;
use acl_text::{AclStop, RemoveList, read_remove_list};
use http_front::Raw;
use namespace_model::{BatchChange, Code, Op};
use path_text::{Path, Query};
use std::alloc::Global;

/// The greatest number of nodes of a batch.
const BATCH_MOST: u32 = 2000;

/// What a batch makes of each list: the one that is given, or it with entries that are replaced, added or taken away.
#[derive(Clone, Copy)]
pub enum Mode {
    Set,
    Modify,
    Remove,
}

/// Path Update with `setAccessControlRecursive`, in this order: without `mode` it is `MissingRequiredQueryParameter`,
/// and another than `set`, `modify` and `remove` is `InvalidQueryParameterValue`; then the token, the size of the
/// batch and `forceFlag`; without `x-ms-acl` it is `MissingRequiredHeader`, and a text that is no list, or for `set`
/// makes no lists by itself, is `InvalidAcl`. The one error beside these and those of parameters is want of memory.
#[tactic(auto, unfolding(crate::specs::Batches::set_access_recursive_of))]
pub fn set_access_recursive_row(
    alloc: Global,
    path: Path,
    query: &Query,
    raw: &Raw,
) -> Result<Op, Stop>
    ensures { Answers result (set_access_recursive_of path query.now raw.now) }
{
    let mode = mode_in(query)?;
    let token = token_in(alloc, path.fs(), query)?;
    let max = size_in(b"maxRecords", BATCH_MOST, query)?;
    let force = flag_in(b"forceFlag", query)?;
    let change = change_in(alloc, mode, raw)?;
    Ok(Op::SetAccessRecursive {
        path,
        change,
        token,
        max,
        force,
    })
}

#[tactic(auto, unfolding(crate::specs::Batches::mode_in))]
fn mode_in(query: &Query) -> Result<Mode, Code>
    ensures { result ≡ mode_in query.now }
{
    match query.first(b"mode") {
        Some(text) => mode_named(text),
        None => Err(Code::MissingRequiredQueryParameter),
    }
}

fn mode_named(text: &[u8]) -> Result<Mode, Code>
    ensures { result ≡ mode_named text.now }
{
    if text == b"set".as_slice() {
        Ok(Mode::Set)
    } else if text == b"modify".as_slice() {
        Ok(Mode::Modify)
    } else if text == b"remove".as_slice() {
        Ok(Mode::Remove)
    } else {
        Err(Code::InvalidQueryParameterValue)
    }
}

#[tactic(auto, unfolding(crate::specs::Batches::change_in))]
fn change_in(alloc: Global, mode: Mode, raw: &Raw) -> Result<BatchChange, Stop>
    ensures { Answers result (change_in mode raw.now) }
{
    match header(raw, b"x-ms-acl") {
        Some(text) => change_named(alloc, mode, text),
        None => Err(Stop::Refused(Code::MissingRequiredHeader)),
    }
}

#[tactic(auto, unfolding(crate::specs::Batches::change_named))]
fn change_named(alloc: Global, mode: Mode, text: &[u8]) -> Result<BatchChange, Stop>
    ensures { Answers result (change_named mode text.now) }
{
    match mode {
        Mode::Set => Ok(BatchChange::Set(whole_entries_of(alloc, text)?)),
        Mode::Modify => Ok(BatchChange::Modify(entries_of(alloc, text)?)),
        Mode::Remove => Ok(BatchChange::Remove(items_of(alloc, text)?)),
    }
}

// The items of a text. Text that has none is `InvalidAcl`.
fn items_of(alloc: Global, text: &[u8]) -> Result<RemoveList, Stop>
    ensures { Answers result (or_bad_acl (remove_list_of text.now)) }
{
    match read_remove_list(alloc, text) {
        Ok(list) => Ok(list),
        Err(AclStop::Fault(_)) => Err(Stop::Refused(Code::InvalidAcl)),
        Err(AclStop::NoMemory) => Err(Stop::NoMemory),
    }
}
