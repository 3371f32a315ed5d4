ghost use Rattle.std.specs.Prelude.{◌≡◌, IfOk};

use super::code::Code;
use super::denied::Denied;
use super::field::FieldList;
use file_data::Piece;
use std::alloc::{AllocError, Global};

/// What the namespace answers to an entry. The text that spells it has further lines, which follow from these.
#[derive(Drop)]
pub struct Reply {
    /// The HTTP status.
    pub status: u16,
    /// Why the request was refused, where it was.
    pub code: Option<Code>,
    /// The lines, in the order in which they are written.
    pub fields: FieldList,
    /// The body of a reply that is no refusal.
    pub body: Piece,
    /// The access that was denied, where one was: exactly where the status is 403.
    pub denied: Option<Denied>,
}

impl Reply {
    /// An equal reply. The one error is want of memory.
    pub fn copy(&self, alloc: Global) -> Result<Reply, AllocError>
        ensures { IfOk result (λ reply. reply ≡ self.now) }
    {
        Ok(Reply {
            status: self.status,
            code: self.code,
            fields: self.fields.copy(alloc)?,
            body: self.body.copy(alloc)?,
            denied: copy_denied(alloc, &self.denied)?,
        })
    }
}

fn copy_denied(alloc: Global, denied: &Option<Denied>) -> Result<Option<Denied>, AllocError>
    ensures { IfOk result (λ copied. copied ≡ denied.now) }
{
    match denied {
        Some(denied) => Ok(Some(denied.copy(alloc)?)),
        None => Ok(None),
    }
}
