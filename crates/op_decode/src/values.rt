//! Values of headers that several operations have. The one error beside those that are named is want of memory.

ghost use Rattle.std.specs.Prelude.{◌≡◌};
ghost use Rattle.op_decode.specs.HeaderValues.{id_in, lease_id_in, needed_lease_id_in, needed_props_in, or_bad_header};
ghost use Rattle.op_decode.specs.HeaderValues.{permissions_in, props_in, props_of, source_lease_id_in, umask_in};
ghost use Rattle.acl_text.specs.PermTexts.{permissions_of, umask_of};
ghost use Rattle.op_decode.specs.Orders.{Answers};

use super::headers::header;
use super::stop::Stop;
use acl_text::{Id, ModeBits, read_id, read_permissions, read_umask};
use head_text::{Props, PropsStop, read_props};
use http_front::Raw;
use lease_state::read_lease_id;
use namespace_model::Code;
use std::alloc::Global;

fn permissions_of(text: &[u8]) -> Result<ModeBits, Code>
    ensures { result ≡ or_bad_header (permissions_of text.now) }
{
    let read = read_permissions(text);
    match &read {
        Ok(permissions) => Ok(*permissions),
        Err(_) => Err(Code::InvalidHeaderValue),
    }
}

/// The permissions that are given. Text that spells none is `InvalidHeaderValue`.
#[tactic(auto, unfolding(crate::specs::HeaderValues::permissions_in))]
pub fn permissions_in(raw: &Raw) -> Result<Option<ModeBits>, Code>
    ensures { result ≡ permissions_in raw.now }
{
    match header(raw, b"x-ms-permissions") {
        None => Ok(None),
        Some(text) => Ok(Some(permissions_of(text)?)),
    }
}

fn umask_of(text: &[u8]) -> Result<ModeBits, Code>
    ensures { result ≡ or_bad_header (umask_of text.now) }
{
    let read = read_umask(text);
    match &read {
        Ok(umask) => Ok(*umask),
        Err(_) => Err(Code::InvalidHeaderValue),
    }
}

/// The umask that is given. Text that spells none is `InvalidHeaderValue`.
#[tactic(auto, unfolding(crate::specs::HeaderValues::umask_in))]
pub fn umask_in(raw: &Raw) -> Result<Option<ModeBits>, Code>
    ensures { result ≡ umask_in raw.now }
{
    match header(raw, b"x-ms-umask") {
        None => Ok(None),
        Some(text) => Ok(Some(umask_of(text)?)),
    }
}

#[tactic(auto, unfolding(crate::specs::HeaderValues::props_of))]
fn props_of(alloc: Global, text: &[u8]) -> Result<Props, Stop>
    ensures { Answers result (props_of text.now) }
{
    match read_props(alloc, text) {
        Ok(props) => Ok(props),
        Err(PropsStop::Fault(_)) => Err(Stop::Refused(Code::InvalidHeaderValue)),
        Err(PropsStop::NoMemory) => Err(Stop::NoMemory),
    }
}

/// The properties that are given. Text that spells none is `InvalidHeaderValue`.
#[tactic(auto, unfolding(crate::specs::HeaderValues::props_in))]
pub fn props_in(alloc: Global, raw: &Raw) -> Result<Option<Props>, Stop>
    ensures { Answers result (props_in raw.now) }
{
    match header(raw, b"x-ms-properties") {
        None => Ok(None),
        Some(text) => Ok(Some(props_of(alloc, text)?)),
    }
}

/// The properties, which have to be given: without them it is `MissingRequiredHeader`, and text that spells none is
/// `InvalidHeaderValue`.
#[tactic(auto, unfolding(crate::specs::HeaderValues::needed_props_in))]
pub fn needed_props_in(alloc: Global, raw: &Raw) -> Result<Props, Stop>
    ensures { Answers result (needed_props_in raw.now) }
{
    match header(raw, b"x-ms-properties") {
        None => Err(Stop::Refused(Code::MissingRequiredHeader)),
        Some(text) => props_of(alloc, text),
    }
}

/// The id that the header of this name gives. Text that is none is `InvalidHeaderValue`.
#[tactic(auto, unfolding(crate::specs::HeaderValues::id_in))]
pub fn id_in(alloc: Global, name: &[u8], raw: &Raw) -> Result<Option<Id>, Stop>
    ensures { Answers result (id_in name.now raw.now) }
{
    match header(raw, name) {
        None => Ok(None),
        Some(text) => match read_id(alloc, text)? {
            Some(id) => Ok(Some(id)),
            None => Err(Stop::Refused(Code::InvalidHeaderValue)),
        },
    }
}

/// The lease id that the header of this name gives. Text that is none is `InvalidHeaderValue`.
#[tactic(auto, unfolding(crate::specs::HeaderValues::lease_id_in))]
pub fn lease_id_in(name: &[u8], raw: &Raw) -> Result<Option<u128>, Code>
    ensures { result ≡ lease_id_in name.now raw.now }
{
    match header(raw, name) {
        None => Ok(None),
        Some(text) => match read_lease_id(text) {
            Some(id) => Ok(Some(id)),
            None => Err(Code::InvalidHeaderValue),
        },
    }
}

/// The lease id that the header of this name has to give: without it it is `MissingRequiredHeader`, and text that is
/// none is `InvalidHeaderValue`.
#[tactic(auto, unfolding(crate::specs::HeaderValues::needed_lease_id_in))]
pub fn needed_lease_id_in(name: &[u8], raw: &Raw) -> Result<u128, Code>
    ensures { result ≡ needed_lease_id_in name.now raw.now }
{
    match header(raw, name) {
        None => Err(Code::MissingRequiredHeader),
        Some(text) => match read_lease_id(text) {
            Some(id) => Ok(id),
            None => Err(Code::InvalidHeaderValue),
        },
    }
}

/// The lease id that is given for the source of a rename. Text that is none is `InvalidHeaderValue`.
#[tactic(auto, unfolding(crate::specs::HeaderValues::source_lease_id_in))]
pub fn source_lease_id_in(raw: &Raw) -> Result<Option<u128>, Code>
    ensures { result ≡ source_lease_id_in raw.now }
{
    lease_id_in(b"x-ms-source-lease-id", raw)
}
