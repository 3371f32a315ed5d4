//! Calls as the texts of HTTP requests, and what their answers tell.
ghost use Rattle.std.specs.Prelude.{IfOk};
ghost use Rattle.namespace_model.specs.Sound.{IsSound};
ghost use Rattle.path_locks.specs.Views.{HoldsNothing, IsSeatAgain};
ghost use Rattle.striped_store.specs.Views.{IsOf};

use commit_journal::Keeper;
use conn_io::{BytesIn, Clock};
use engine::Answer;
use http_front::{Next, Raw, Reader};
use inode_tree::Placed;
use namespace_model::Request;
use op_decode::decode;
use parted_namespace::Namespace;
use service_workers::{Asked, Service};
use std::alloc::{AllocError, Global};
use std::sync::Wait;
use striped_store::{CommitRefusal, Pass, Receipt};

/// A call of the superuser: the number of its connection, its method and target, and the text behind its first headers.
#[derive(Clone, Copy)]
pub(super) struct Call {
    pub(super) conn: u32,
    pub(super) line: &'static [u8],
    pub(super) rest: &'static [u8],
}

impl Call {
    /// A call without a body.
    pub(super) fn new(conn: u32, line: &'static [u8]) -> Call {
        Call {
            conn,
            line,
            rest: b"Content-Length: 0\r\n\r\n",
        }
    }
}

/// What the answer to a call tells: the status of the reply, and the receipt.
#[derive(Clone, Copy, Debug, PartialEq, Eq)]
pub(super) struct Told {
    pub(super) status: u16,
    pub(super) receipt: Receipt,
}

impl Told {
    /// The status, and the stripes that were shared and those that were held alone.
    pub(super) fn stripes(&self) -> (u16, u64, u64) {
        (self.status, self.receipt.shared, self.receipt.exclusive)
    }
}

/// Why a call has no answer.
#[derive(Clone, Copy, Debug, PartialEq, Eq)]
pub(super) enum Stop {
    /// Its text is no request.
    NoRequest,
    /// The service has no such pass.
    NoPass,
    /// What it waits for did not come in time.
    Late,
    /// The service refused it, or memory is wanting.
    Refused(CommitRefusal),
}

impl From<AllocError> for Stop {
    fn from(_: AllocError) -> Stop {
        Stop::Refused(CommitRefusal::NoMemory)
    }
}

/// The text of a call, in three pieces.
fn pieces_of(alloc: Global, call: &Call) -> Result<Vec<Vec<u8>>, AllocError> {
    let mut pieces = Vec::new(alloc);
    pieces.push(call.line.to_vec(alloc)?)?;
    pieces.push(b" HTTP/1.1\r\nHost: h\r\nx-ms-caller: $superuser\r\n".to_vec(alloc)?)?;
    pieces.push(call.rest.to_vec(alloc)?)?;
    Ok(pieces)
}

/// The call as it was read.
fn raw_of(alloc: Global, call: &Call) -> Result<Raw, Stop> {
    let pieces = pieces_of(alloc, call)?;
    let mut source = BytesIn::new(alloc, pieces, Vec::new(alloc));
    let mut reader = Reader::new(alloc);
    match reader.next(&mut source) {
        Ok(Next::Request(raw)) => Ok(raw),
        Ok(Next::Ended) | Err(_) => Err(Stop::NoRequest),
    }
}

/// The request of a call.
fn request_of(alloc: Global, call: &Call) -> Result<Request, Stop>
    ensures { IfOk result IsSound }
{
    let raw = raw_of(alloc, call)?;
    match decode(alloc, &raw) {
        Ok(request) => Ok(request),
        Err(_) => Err(Stop::Refused(CommitRefusal::NoMemory)),
    }
}

/// The three digits of the status in the text of a reply, as a number.
fn status_of(reply: &[u8]) -> u16 {
    let mut status = 0u16;
    for byte in reply.iter().skip(9).take(3) {
        let digit = u16::from(byte.wrapping_sub(b'0'));
        status = status.wrapping_mul(10).wrapping_add(digit);
    }
    status
}

/// Asks the service by a pass.
pub(super) fn ask<R: Wait, K: Keeper<Placed>, C: Clock>(
    rt: &R,
    service: &Service<K>,
    pass: &mut Pass<Namespace, K>,
    clock: &mut C,
    call: &Call,
) -> Result<Told, Stop>
    requires own { IsOf service.now pass.old }
    requires nothing { HoldsNothing pass.old.seat }
    ensures again { IsSeatAgain pass.old.seat pass.new.seat }
    ensures nothing { HoldsNothing pass.new.seat }
{
    let alloc = service.alloc();
    match request_of(alloc, call) {
        Ok(request) => {
            let asked = Asked {
                conn: call.conn,
                index: 0,
                request,
            };
            match service.submit(rt, alloc, pass, clock, asked) {
                Ok(answer) => Ok(told_by(answer)),
                Err(refusal) => Err(Stop::Refused(refusal)),
            }
        }
        Err(stop) => Err(stop),
    }
}

fn told_by(answer: Answer) -> Told {
    let status = status_of(answer.bytes.as_slice());
    let receipt = answer.receipt;
    Told { status, receipt }
}
