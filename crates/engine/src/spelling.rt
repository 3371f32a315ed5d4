ghost use Rattle.std.specs.Prelude.{◌≡◌, ◌≤◌, IfOk};
ghost use Rattle.lease_state.specs.declared.lease.TheConstants.{LAST_MOMENT};
ghost use Rattle.reply_text.specs.ReplyText.{CanSpell, reply_text};

use namespace_model::Reply;
use reply_text::fill;
use std::alloc::{AllocError, Global};

/// Spells the reply to the entry with this journal number and moment; `head` says that the request was a HEAD. The one error is
/// want of memory.
pub fn spell(
    alloc: Global,
    reply: &Reply,
    number: u64,
    moment: u64,
    head: bool,
) -> Result<Vec<u8>, AllocError>
    requires reply { CanSpell reply.now }
    requires moment { moment ≤ LAST_MOMENT }
    ensures { IfOk result (λ text. text.items ≡ reply_text reply.now number moment head) }
{
    let mut text = Vec::new(alloc);
    let slots = reply_text::spell(alloc, reply, moment, head, &mut text)?;
    fill(text.as_mut_slice(), slots, number);
    Ok(text)
}
