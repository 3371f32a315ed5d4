ghost use Rattle.std.specs.Prelude.{◌≡◌, ◌++◌, [], OnOk, take, length, if◌then◌else◌};
ghost use Rattle.reply_text.specs.ReplyText.{is_bare, body_of, body_text, length_line, stated_length, content_length};

use super::fields::{put_decimal_line, stated_length};
use namespace_model::Reply;
use std::alloc::AllocError;

const NOT_MODIFIED: u16 = 304;

pub(crate) fn is_bare(reply: &Reply, head: bool) -> bool
    ensures { result ≡ is_bare reply.now head }
{
    head || reply.status == NOT_MODIFIED
}

// The body that is written: `fault` is that of the reply's code, where a body is written.
#[tactic(auto, unfolding(crate::specs::ReplyText::body_text))]
pub(crate) fn body_text<'a>(reply: &'a Reply, fault: &'a [u8], head: bool) -> &'a [u8]
    requires { fault.now ≡ (if is_bare reply.now head then [] else body_of reply.now.code []) }
    ensures { result.now ≡ body_text reply.now head }
{
    if is_bare(reply, head) {
        return b"".as_slice();
    }
    match reply.code {
        Some(_) => fault,
        None => reply.body.bytes(),
    }
}

fn content_length(reply: &Reply, head: bool, body: &[u8]) -> u64
    requires { body.now ≡ body_text reply.now head }
    ensures { result ≡ content_length reply.now head }
{
    if head {
        stated_length(reply.fields.items())
    } else {
        body.len() as u64
    }
}

#[tactic(auto, using(crate::proofs::Kept::kept_rules), unfolding(crate::specs::ReplyText::length_line))]
pub(crate) fn put_length_line(
    out: &mut Vec<u8>,
    reply: &Reply,
    head: bool,
    body: &[u8],
) -> Result<(), AllocError>
    requires { body.now ≡ body_text reply.now head }
    ensures text { OnOk result (out.new.items ≡ out.old.items ++ length_line reply.now head) }
    ensures kept { take (length out.old.items) out.new.items ≡ out.old.items }
{
    if reply.status == NOT_MODIFIED {
        return Ok(());
    }
    put_decimal_line(out, b"Content-Length", content_length(reply, head, body))
}
