//! Answers that change nothing.
ghost use Rattle.std.specs.Prelude.{◌≡◌, ◌∷◌, Some, IfOk};
ghost use Rattle.namespace_model.specs.declared.field.Field.TheVariants.{Close};
ghost use Rattle.namespace_model.specs.declared.code.Code.TheVariants.{AuthorizationPermissionMismatch};
ghost use Rattle.namespace_model.specs.Replies.{refusal};
ghost use Rattle.namespace_model.specs.Step.{closing};
ghost use Rattle.path_walk.specs.Answers.{stop_reply, IsAnswered};

use super::stop::End;
use file_data::Piece;
use inode_tree::{Draft, NodeId};
use namespace_model::{Code, Denied, Field, FieldList, Reply};
use std::alloc::{AllocError, Global};

/// The refusal by a code. It takes no memory.
pub fn refusal(alloc: Global, code: Code) -> Reply
    ensures { result ≡ refusal code }
{
    Reply {
        status: code.status(),
        code: Some(code),
        fields: FieldList::new(Vec::new(alloc)),
        body: Piece::new(Vec::new(alloc)),
        denied: None,
    }
}

/// The refusal of an access that is denied. It takes no memory.
pub fn denial(alloc: Global, denied: Denied) -> Reply
    ensures { result ≡ record (refusal AuthorizationPermissionMismatch) { denied = Some denied } }
{
    let mut reply = refusal(alloc, Code::AuthorizationPermissionMismatch);
    reply.denied = Some(denied);
    reply
}

/// The refusal of a request whose way ends before the parent of its path: a denial where access is denied, `FilesystemNotFound`
/// where the filesystem is missing, and this code where a directory is missing or a file stands in the way. A way that is reached
/// is no such end; for it the refusal by the code stands in. It takes no memory.
pub fn stop_reply(alloc: Global, code: Code, end: End) -> Reply
    ensures { result ≡ stop_reply code end }
{
    match end {
        End::Reached => refusal(alloc, code),
        End::NotFound(names) => {
            if names == 1 {
                return refusal(alloc, Code::FilesystemNotFound);
            }
            refusal(alloc, code)
        }
        End::NotDirectory(_) => refusal(alloc, code),
        End::Denied(denied) => denial(alloc, denied),
    }
}

/// The reply with the line that says that its connection ends, where it does. The one error is want of memory.
pub fn closing(alloc: Global, reply: Reply, close: bool) -> Result<Reply, AllocError>
    ensures { IfOk result (λ closed. closed ≡ closing close reply) }
{
    if !close {
        return Ok(reply);
    }
    let Reply {
        status,
        code,
        fields,
        body,
        denied,
    } = reply;
    let lines = closing_lines(alloc, fields.items())?;
    Ok(Reply {
        status,
        code,
        fields: FieldList::new(lines),
        body,
        denied,
    })
}

// These lines behind the one that says that the connection ends.
fn closing_lines(alloc: Global, fields: &[Field]) -> Result<Vec<Field>, AllocError>
    ensures { IfOk result (λ lines. lines.items ≡ Close ∷ fields.now) }
{
    let mut lines = Vec::new(alloc);
    lines.push(Field::Close)?;
    for field in fields {
        lines.push(field.copy(alloc)?)?;
    }
    Ok(lines)
}

/// The draft of an answer by which nothing is written, behind these nodes that were read. The one error is want of memory.
pub fn answered(
    alloc: Global,
    ids: Vec<NodeId>,
    reply: Reply,
    close: bool,
) -> Result<Draft, AllocError>
    ensures { IfOk result (λ draft. IsAnswered close reply ids.items draft) }
{
    Ok(Draft {
        reply: closing(alloc, reply, close)?,
        reads: ids,
        writes: Vec::new(alloc),
        changes: Vec::new(alloc),
        drawn: 0,
    })
}
