ghost use Rattle.std.specs.Prelude.{◌≡◌, IfOk};

use super::caller::Caller;
use super::op::Op;
use file_data::SharedPiece;
use head_text::Conditions;
use lock_core::Bodied;
use std::alloc::{AllocError, Global};

/// A request as it was decoded.
#[derive(Drop)]
pub struct Request {
    /// Who sent it; none exactly where it was refused before the caller was read.
    pub caller: Option<Caller>,
    pub op: Op,
    /// What it asks of the node before it does its work.
    pub cond: Conditions,
    /// The lease id that it gives.
    pub lease: Option<u128>,
    /// The lease id that it gives for the source of a rename.
    pub source_lease: Option<u128>,
    /// Whether the method is HEAD, whose reply has no body.
    pub head: bool,
    /// Whether the connection ends with the reply.
    pub close: bool,
    /// The bytes behind the head.
    pub body: SharedPiece,
}

impl Request {
    /// An equal request. The one error is want of memory.
    pub fn copy(&self, alloc: Global) -> Result<Request, AllocError>
        ensures { IfOk result (λ request. request ≡ self.now) }
    {
        Ok(Request {
            caller: copy_caller(alloc, &self.caller)?,
            op: self.op.copy(alloc)?,
            cond: self.cond.copy(alloc)?,
            lease: self.lease,
            source_lease: self.source_lease,
            head: self.head,
            close: self.close,
            body: self.body.copy()?,
        })
    }
}

fn copy_caller(alloc: Global, caller: &Option<Caller>) -> Result<Option<Caller>, AllocError>
    ensures { IfOk result (λ copied. copied ≡ caller.now) }
{
    match caller {
        Some(caller) => Ok(Some(caller.copy(alloc)?)),
        None => Ok(None),
    }
}

/// An entry of the journal: a request with the connection that it came on, its place there counted from 0, and the moment at
/// which it was taken, in milliseconds since 1970.
#[derive(Drop)]
pub struct Entry {
    pub conn: u32,
    pub index: u32,
    pub moment: u64,
    pub request: Request,
}

impl Entry {
    /// An equal entry. The one error is want of memory.
    pub fn copy(&self, alloc: Global) -> Result<Entry, AllocError>
        ensures { IfOk result (λ entry. entry ≡ self.now) }
    {
        Ok(Entry {
            conn: self.conn,
            index: self.index,
            moment: self.moment,
            request: self.request.copy(alloc)?,
        })
    }
}

impl Bodied for Entry {
    ghost use Rattle.std.specs.Prelude.{length};

    ghost body = { λ entry. length entry.request.body };

    ghost uses = { λ entry. 0 };

    fn body_len(&self) -> u64 {
        self.request.body.bytes().len() as u64
    }

    fn uses_len(&self) -> u8 {
        0
    }
}
