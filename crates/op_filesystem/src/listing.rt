//! A page of filesystems is answered.
ghost use Rattle.std.specs.Prelude.{◌≡◌, [], None, option_map, IfOk};
ghost use Rattle.namespace_model.specs.declared.op.Op.TheVariants as op;
ghost use Rattle.namespace_model.specs.Replies.{page_fields};
ghost use Rattle.op_filesystem.specs.Listed.{NamesFilesystem, IsToldPage, root_of};
ghost use Rattle.path_walk.specs.Calls.{IsCall, Answers, GoesOn};

use super::names::first_name;
use super::page::{Listed, list, look};
use body_text::filesystems_body;
use file_data::Piece;
use inode_tree::{Draft, EvalStop, NodeId, View};
use namespace_model::{Field, Media};
use path_text::{Name, Path, write_token};
use path_walk::{Call, answered, success, superuser_only};
use std::alloc::{AllocError, Global};

// The filesystems whose names begin with a prefix and stand behind a token, at most so many. The path of the call is
// the account.
pub(crate) fn list_filesystems<V: View>(
    alloc: Global,
    view: &mut V,
    call: &Call<'_>,
    prefix: &Piece,
    token: &Option<Path>,
    max: u32,
) -> Result<Draft, EvalStop>
    requires call { IsCall call.now }
    requires operation { call.now.request.now.op ≡ op.ListFilesystems prefix.now token.now max }
    ensures on { GoesOn (V.held view.old) (V.held view.new) (V.over view.old) (V.over view.new) (V.shown view.old) (V.shown view.new) }
    ensures evaluated { Answers (V.held view.new) (V.shown view.new) call.now result }
{
    if let Some(reply) = superuser_only(alloc, call.caller, call.path)? {
        return Ok(answered(alloc, Vec::new(alloc), reply, call.request.close)?);
    }
    let account = match look(view, NodeId(0)) {
        Ok(account) => account,
        Err(stop) => return Err(stop),
    };
    match list(
        alloc,
        view,
        &account,
        prefix.bytes(),
        first_name(token),
        max,
    ) {
        Ok(page) => Ok(told(alloc, call, page)?),
        Err(stop) => Err(stop),
    }
}

// The draft of a page.
fn told(alloc: Global, call: &Call<'_>, page: Listed<'_>) -> Result<Draft, AllocError>
    requires account { call.now.path.now ≡ [] }
    requires next { NamesFilesystem (option_map (λ n. n.now) page.next) }
    ensures { IfOk result (IsToldPage call.now.request.now.close page.entry) }
{
    let Listed {
        reads,
        entries,
        next,
    } = page;
    let fields = page_lines(alloc, call.path, next)?;
    let body = filesystems_body(alloc, entries)?;
    let mut reply = success(alloc, 200, fields);
    reply.body = Piece::new(body);
    answered(alloc, reads, reply, call.request.close)
}

// The lines of a page, with the token by which it goes on, where it does.
fn page_lines(alloc: Global, account: &Path, next: Option<&Name>) -> Result<Vec<Field>, AllocError>
    requires account { account.now ≡ [] }
    requires next { NamesFilesystem (option_map (λ n. n.now) next) }
    ensures { IfOk result (λ fields.
        fields.items ≡ page_fields None (root_of (option_map (λ n. n.now) next.entry))) }
{
    let mut fields = Vec::new(alloc);
    fields.push(Field::ContentType(Media::Json))?;
    if let Some(name) = next {
        let last = account.child(alloc, name)?;
        let mut text = Vec::new(alloc);
        write_token(None, &last, &mut text)?;
        fields.push(Field::Continuation(Piece::new(text)))?;
    }
    Ok(fields)
}
