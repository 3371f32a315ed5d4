//! The reply of a batch.
ghost use Rattle.std.specs.Prelude.{◌≡◌, true, slice_get, IfOk, IfSome};
ghost use Rattle.body_text.specs.Told.{IsCountOf};
ghost use Rattle.namespace_model.specs.Replies.{page_fields, with_body};
ghost use Rattle.namespace_model.specs.SetAccessRecursive.{Batch, batch_body};
ghost use Rattle.path_text.specs.Tokens.{is_on_page, token_text};
ghost use Rattle.serde_json.specs.View.{items_view};

use body_text::{Changed, batch_body};
use file_data::Piece;
use namespace_model::{Field, Media, Reply};
use path_text::{Path, write_token};
use path_walk::success;
use serde_json::Value;
use std::alloc::{AllocError, Global};

// The counts and the values of what failed, with the token by which the batch goes on, where it goes on.
pub(crate) fn batch_reply(
    alloc: Global,
    dir: &Path,
    next: &Option<Path>,
    changed: Changed,
    failed: Vec<Value>,
) -> Result<Reply, AllocError>
    requires next { IfSome next.now (λ p. is_on_page (slice_get dir.now 0) p ≡ true) }
    ensures { IfOk result (λ reply. (b : Batch) → IsCountOf changed (items_view failed.items) b
        → reply ≡ with_body 200 (page_fields (slice_get dir.now 0) next.now) (batch_body b)) }
{
    let fields = page_fields(alloc, dir, next)?;
    let body = batch_body(alloc, changed, failed)?;
    let mut reply = success(alloc, 200, fields);
    reply.body = Piece::new(body);
    Ok(reply)
}

// The lines: that the body is JSON, and the token.
fn page_fields(alloc: Global, dir: &Path, next: &Option<Path>) -> Result<Vec<Field>, AllocError>
    requires next { IfSome next.now (λ p. is_on_page (slice_get dir.now 0) p ≡ true) }
    ensures { IfOk result (λ fields. fields.items ≡ page_fields (slice_get dir.now 0) next.now) }
{
    let mut fields = Vec::new(alloc);
    fields.push(Field::ContentType(Media::Json))?;
    if let Some(path) = next {
        fields.push(Field::Continuation(token_of(alloc, dir, path)?))?;
    }
    Ok(fields)
}

// The token of a path of the filesystem.
fn token_of(alloc: Global, dir: &Path, path: &Path) -> Result<Piece, AllocError>
    requires page { is_on_page (slice_get dir.now 0) path.now ≡ true }
    ensures { IfOk result (λ token. token ≡ token_text (slice_get dir.now 0) path.now) }
{
    let mut text = Vec::new(alloc);
    write_token(dir.fs(), path, &mut text)?;
    Ok(Piece::new(text))
}
