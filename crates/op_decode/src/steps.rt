ghost use Rattle.std.specs.Prelude.{◌≡◌, Ok, IfOk};
ghost use Rattle.head_text.specs.Conditions.{no_conditions};
ghost use Rattle.namespace_model.specs.Sound.{IsSound};
ghost use Rattle.op_decode.specs.Decoded.{asked, asked_after_target, asked_by, asks_in, asks_of, asks_with_lease};
ghost use Rattle.op_decode.specs.Decoded.{decoded, has_other_encoding, refusal, refused, with_ids};
ghost use Rattle.op_decode.specs.Methods.{is_head};
ghost use Rattle.op_decode.specs.Orders.{Answers};
ghost use Rattle.op_decode.specs.Targets.{path_code, target_of};

use super::asked::{Asked, Asks};
use super::callers::caller_of;
use super::conditions::conditions_in;
use super::connection::closes;
use super::headers::{header, is_other_text};
use super::method::Method;
use super::operation::Operation;
use super::rows::op_of_row;
use super::stop::Stop;
use super::values::{lease_id_in, source_lease_id_in};
use head_text::Conditions;
use http_front::Raw;
use namespace_model::{Caller, Code, Op, Request};
use path_text::{Path, PathFault, Query, TargetStop, read_target};
use std::alloc::{AllocError, Global};

/// The request of a raw one: the Filesystem and Path calls of Microsoft's REST reference for ADLS Gen2. A malformed
/// request is `Op::Refused` with the code of the first check that fails, and without conditions and lease ids:
///
/// 1. a Content-Encoding other than `identity` is `UnsupportedContentEncoding`;
/// 2. a target whose path begins with no filesystem's name is `InvalidResourceName`, another bad path `InvalidUri`,
///    and a bad escape in the query `InvalidQueryParameterValue`;
/// 3. without `x-ms-caller` it is `MissingRequiredHeader`; with one that is no id, with a group in
///    `x-ms-caller-groups` that is none, and with more than 64 groups it is `InvalidHeaderValue`;
/// 4. a method and distinction of no operation is `UnsupportedHttpVerb`, and a path of other parts than the
///    operation's `InvalidUri`;
/// 5. the parameters of the operation, and then its headers, each in its order with the code of its own;
/// 6. an `x-ms-lease-id` and then an `x-ms-source-lease-id` that is no lease id is `InvalidHeaderValue`.
///
/// Conditions are read last, and never fail. Of a repeated header or parameter the first counts. The one error is
/// want of memory.
pub fn decode(alloc: Global, raw: &Raw) -> Result<Request, AllocError>
    ensures decoded { IfOk result (λ request. request ≡ decoded raw.now) }
    ensures sound { IfOk result IsSound }
{
    request_of(alloc, raw)
}

#[tactic(auto, unfolding(crate::specs::Decoded::decoded))]
fn request_of(alloc: Global, raw: &Raw) -> Result<Request, AllocError>
    ensures { IfOk result (λ request. request ≡ decoded raw.now) }
{
    let Asked { caller, asks } = asked(alloc, raw)?;
    let Asks {
        op,
        cond,
        lease,
        source_lease,
    } = asks;
    Ok(Request {
        caller,
        op,
        cond,
        lease,
        source_lease,
        head: is_head(raw),
        close: closes(raw),
        body: raw.body.copy()?,
    })
}

fn is_head(raw: &Raw) -> bool
    ensures { result ≡ is_head raw.now }
{
    raw.method.bytes() == b"HEAD".as_slice()
}

fn no_conditions() -> Conditions
    ensures { result ≡ no_conditions }
{
    Conditions {
        matches: None,
        none: None,
        modified: None,
        unmodified: None,
    }
}

fn refusal(code: Code) -> Asks
    ensures { result ≡ refusal code }
{
    Asks {
        op: Op::Refused(code),
        cond: no_conditions(),
        lease: None,
        source_lease: None,
    }
}

fn refused(caller: Option<Caller>, code: Code) -> Asked
    ensures { result ≡ refused caller code }
{
    Asked {
        caller,
        asks: refusal(code),
    }
}

#[tactic(auto, unfolding(crate::specs::Decoded::asked))]
fn asked(alloc: Global, raw: &Raw) -> Result<Asked, AllocError>
    ensures { IfOk result (λ asking. asking ≡ asked raw.now) }
{
    if has_other_encoding(raw) {
        return Ok(refused(None, Code::UnsupportedContentEncoding));
    }
    match target_of(alloc, raw.target.bytes()) {
        Ok((path, query)) => asked_after_target(alloc, path, &query, raw),
        Err(Stop::Refused(code)) => Ok(refused(None, code)),
        Err(Stop::NoMemory) => Err(AllocError),
    }
}

fn has_other_encoding(raw: &Raw) -> bool
    ensures { result ≡ has_other_encoding raw.now }
{
    is_other_text(header(raw, b"content-encoding"), b"identity")
}

#[tactic(auto, unfolding(crate::specs::Targets::target_of))]
fn target_of(alloc: Global, target: &[u8]) -> Result<(Path, Query), Stop>
    ensures { Answers result (target_of target.now) }
{
    match read_target(alloc, target) {
        Ok(read) => Ok(read),
        Err(TargetStop::Fault(fault)) => Err(Stop::Refused(path_code(fault))),
        Err(TargetStop::BadQuery) => Err(Stop::Refused(Code::InvalidQueryParameterValue)),
        Err(TargetStop::NoMemory) => Err(Stop::NoMemory),
    }
}

fn path_code(fault: PathFault) -> Code
    ensures { result ≡ path_code fault }
{
    match fault {
        PathFault::BadFsName => Code::InvalidResourceName,
        PathFault::BadEscape(_)
        | PathFault::NotUtf8(_)
        | PathFault::EmptyName(_)
        | PathFault::DotName(_)
        | PathFault::NameTooLong(_)
        | PathFault::PathTooLong
        | PathFault::TooDeep
        | PathFault::ControlByte(_) => Code::InvalidUri,
    }
}

// What is asked of a path with a query that were read.
fn asked_after_target(
    alloc: Global,
    path: Path,
    query: &Query,
    raw: &Raw,
) -> Result<Asked, AllocError>
    ensures { IfOk result (λ asking. asking ≡ asked_after_target (Ok (path, query.now)) raw.now) }
{
    let caller = match caller_of(alloc, raw) {
        Ok(caller) => caller,
        Err(Stop::Refused(code)) => return Ok(refused(None, code)),
        Err(Stop::NoMemory) => return Err(AllocError),
    };
    match asks_in(alloc, path, query, raw) {
        Ok(asks) => Ok(Asked {
            caller: Some(caller),
            asks,
        }),
        Err(Stop::Refused(code)) => Ok(refused(Some(caller), code)),
        Err(Stop::NoMemory) => Err(AllocError),
    }
}

#[tactic(auto, unfolding(crate::specs::Decoded::asks_in))]
fn asks_in(alloc: Global, path: Path, query: &Query, raw: &Raw) -> Result<Asks, Stop>
    ensures { Answers result (asks_in path query.now raw.now) }
{
    let Some(operation) = Operation::of(Method::of(raw), query, raw) else {
        return Err(Stop::Refused(Code::UnsupportedHttpVerb));
    };
    if !operation.takes(path.depth()) {
        return Err(Stop::Refused(Code::InvalidUri));
    }
    let op = op_of_row(alloc, operation, path, query, raw)?;
    asks_of(alloc, op, raw)
}

#[tactic(auto, unfolding(crate::specs::Decoded::asks_of))]
fn asks_of(alloc: Global, op: Op, raw: &Raw) -> Result<Asks, Stop>
    ensures { Answers result (asks_of op raw.now) }
{
    match lease_id_in(b"x-ms-lease-id", raw) {
        Ok(lease) => asks_with_lease(alloc, op, raw, lease),
        Err(code) => Err(Stop::Refused(code)),
    }
}

fn asks_with_lease(alloc: Global, op: Op, raw: &Raw, lease: Option<u128>) -> Result<Asks, Stop>
    ensures { Answers result (asks_with_lease op raw.now lease) }
{
    match source_lease_id_in(raw) {
        Ok(source_lease) => Ok(with_ids(alloc, op, raw, lease, source_lease)?),
        Err(code) => Err(Stop::Refused(code)),
    }
}

fn with_ids(
    alloc: Global,
    op: Op,
    raw: &Raw,
    lease: Option<u128>,
    source_lease: Option<u128>,
) -> Result<Asks, AllocError>
    ensures { IfOk result (λ asks. asks ≡ with_ids op raw.now lease source_lease) }
{
    let cond = conditions_in(alloc, raw)?;
    Ok(Asks {
        op,
        cond,
        lease,
        source_lease,
    })
}
