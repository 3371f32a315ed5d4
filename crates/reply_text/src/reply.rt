ghost use Rattle.std.specs.Prelude.{◌≡◌, ◌≤◌, ◌++◌, ℕ, IfOk, OnOk, OnErr, length, take};
ghost use Rattle.http.specs.StatusCode.{IsStatusCode};
ghost use Rattle.lease_state.specs.declared.lease.TheConstants.{LAST_MOMENT};
ghost use Rattle.reply_text.specs.Lines.{field_line, field_lines};
ghost use Rattle.reply_text.specs.ReplyText.{CanSpell, IsInTime, start_lines, end_lines, body_text, reply_text};
ghost use Rattle.reply_text.specs.Slots.{Fits, Spells, filled, slots_with};

use super::body::{body_text, is_bare, put_length_line};
use super::fields::put_field_line;
use super::lines::{
    moment_text, put_line, put_open_number_line, put_status_line, put_version_line,
};
use super::refusal::{body_of_code, put_code_lines, put_denied_lines};
use super::slots::Slots;
use namespace_model::{Field, Reply};
use std::alloc::{AllocError, Global};

// The usual length of a reply without its body, in bytes.
const USUAL: usize = 512;

/// Appends the reply to an entry with this moment, in milliseconds since 1970, with zeros for the entry's number, and answers where
/// the number stands, for `fill`; `head` says that the request was a HEAD. The reply is one that `CanSpell` describes. The one error
/// is want of memory, and nothing is appended then.
pub fn spell(
    alloc: Global,
    reply: &Reply,
    moment: u64,
    head: bool,
    out: &mut Vec<u8>,
) -> Result<Slots, AllocError>
    requires reply { CanSpell reply.now }
    requires moment { moment ≤ LAST_MOMENT }
    ensures spelled { IfOk result (λ slots. (number : ℕ) →
        filled out.new.items slots number ≡ out.old.items ++ reply_text reply.now number moment head) }
    ensures fits { IfOk result (λ slots. Fits slots out.new.items) }
    ensures zeros { OnOk result
        (out.new.items ≡ out.old.items ++ reply_text reply.now 0 moment head) }
    ensures unchanged { OnErr result (out.new.items ≡ out.old.items) }
{
    let kept = out.len();
    match put_reply(alloc, reply, moment, head, out) {
        Ok(slots) => Ok(slots),
        Err(error) => {
            out.truncate(kept);
            Err(error)
        }
    }
}

// Appends the reply, or a beginning of it.
#[tactic(auto, using(crate::proofs::Kept::kept_rules), unfolding(crate::specs::ReplyText::reply_text))]
fn put_reply(
    alloc: Global,
    reply: &Reply,
    moment: u64,
    head: bool,
    out: &mut Vec<u8>,
) -> Result<Slots, AllocError>
    requires reply { CanSpell reply.now }
    requires moment { moment ≤ LAST_MOMENT }
    ensures spelled { IfOk result (λ slots. Spells slots out.new.items
        (λ number. out.old.items ++ reply_text reply.now number moment head)) }
    ensures zeros { OnOk result
        (out.new.items ≡ out.old.items ++ reply_text reply.now 0 moment head) }
    ensures kept { take (length out.old.items) out.new.items ≡ out.old.items }
{
    let fault = body_of_code(alloc, reply.code, is_bare(reply, head))?;
    let body = body_text(reply, fault.as_slice(), head);
    out.reserve(body.len().saturating_add(USUAL))?;
    let slots = open_lines(out, reply, moment)?;
    put_end_lines(out, reply, head, body)?;
    out.extend_from_slice(body)?;
    Ok(slots)
}

// The lines that every reply begins with, and where its number stands.
#[tactic(auto, using(crate::proofs::Kept::kept_rules), unfolding(crate::specs::ReplyText::start_lines))]
fn begun(out: &mut Vec<u8>, status: u16, moment: u64) -> Result<Slots, AllocError>
    requires status { IsStatusCode status }
    requires moment { moment ≤ LAST_MOMENT }
    ensures zeros { OnOk result (out.new.items ≡ out.old.items ++ start_lines status moment 0) }
    ensures spelled { IfOk result (λ slots. Spells slots out.new.items
        (λ number. out.old.items ++ start_lines status moment number)) }
    ensures one { IfOk result (λ slots. slots.etag ≡ None) }
    ensures kept { take (length out.old.items) out.new.items ≡ out.old.items }
{
    put_status_line(out, status)?;
    put_line(out, b"Date", &moment_text(moment))?;
    let at = out.len();
    put_open_number_line(out)?;
    put_version_line(out)?;
    Ok(Slots {
        id: at + 17,
        etag: None,
    })
}

// The line of a field, and where the number stands with it.
fn put_field(out: &mut Vec<u8>, slots: Slots, field: &Field) -> Result<Slots, AllocError>
    requires { IsInTime field.now }
    ensures zeros { OnOk result (out.new.items ≡ out.old.items ++ field_line 0 field.now) }
    ensures slots { IfOk result (λ with. with ≡ slots_with slots (length out.old.items) field.now) }
    ensures kept { take (length out.old.items) out.new.items ≡ out.old.items }
{
    let at = out.len();
    put_field_line(out, field)?;
    match field {
        Field::ETag(None) => Ok(Slots {
            etag: Some(at + 9),
            ..slots
        }),
        _ => Ok(slots),
    }
}

// The lines up to those of the fields.
#[tactic(auto, using(crate::proofs::Kept::kept_rules))]
fn open_lines(out: &mut Vec<u8>, reply: &Reply, moment: u64) -> Result<Slots, AllocError>
    requires reply { CanSpell reply.now }
    requires moment { moment ≤ LAST_MOMENT }
    ensures zeros { OnOk result (out.new.items ≡
        (out.old.items ++ start_lines reply.now.status moment 0) ++ field_lines 0 reply.now.fields) }
    ensures spelled { IfOk result (λ slots. Spells slots out.new.items (λ number.
        (out.old.items ++ start_lines reply.now.status moment number) ++ field_lines number reply.now.fields)) }
    ensures kept { take (length out.old.items) out.new.items ≡ out.old.items }
{
    let mut slots = begun(out, reply.status, moment)?;
    for field in reply.fields.items() {
        slots = put_field(out, slots, field)?;
    }
    Ok(slots)
}

#[tactic(auto, using(crate::proofs::Kept::kept_rules), unfolding(crate::specs::ReplyText::end_lines))]
fn put_end_lines(
    out: &mut Vec<u8>,
    reply: &Reply,
    head: bool,
    body: &[u8],
) -> Result<(), AllocError>
    requires { body.now ≡ body_text reply.now head }
    ensures text { OnOk result (out.new.items ≡ out.old.items ++ end_lines reply.now head) }
    ensures kept { take (length out.old.items) out.new.items ≡ out.old.items }
{
    put_code_lines(out, reply.code, is_bare(reply, head))?;
    put_denied_lines(out, &reply.denied)?;
    put_length_line(out, reply, head, body)?;
    out.extend_from_slice(b"\r\n")
}
