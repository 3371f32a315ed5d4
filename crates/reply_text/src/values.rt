ghost use Rattle.std.specs.Prelude.{◌≡◌, ◌++◌, OnOk, take, length};
ghost use Rattle.lease_state.specs.LeaseId.{lease_id_text};
ghost use Rattle.head_text.specs.TagTexts.{etag_text};
ghost use Rattle.reply_text.specs.Lines.{range_text, media_text, kind_text, state_text, lock_text, duration_text, rule_text};

use head_text::write_hex16;
use itoa::Buffer;
use lease_state::{State, write_lease_id};
use namespace_model::{Kind, Media, Rule};
use std::alloc::AllocError;

#[tactic(auto, unfolding(head_text::specs::TagTexts::etag_text))]
pub(crate) fn etag_text(number: u64) -> [u8; 20]
    ensures { result ≡ etag_text number }
{
    let mut digits = [0u8; 16];
    write_hex16(number, &mut digits);
    let mut text = *b"\"0x0000000000000000\"";
    text[3..19].copy_from_slice(&digits);
    text
}

#[tactic(auto, using(crate::proofs::Kept::kept_rules), unfolding(crate::specs::Lines::range_text))]
pub(crate) fn put_range(out: &mut Vec<u8>, from: u64, to: u64, len: u64) -> Result<(), AllocError>
    ensures text { OnOk result (out.new.items ≡ out.old.items ++ range_text from to len) }
    ensures kept { take (length out.old.items) out.new.items ≡ out.old.items }
{
    let mut digits = Buffer::new();
    out.extend_from_slice(b"bytes ")?;
    out.extend_from_slice(digits.format(from).as_bytes())?;
    out.extend_from_slice(b"-")?;
    out.extend_from_slice(digits.format(to).as_bytes())?;
    out.extend_from_slice(b"/")?;
    out.extend_from_slice(digits.format(len).as_bytes())
}

pub(crate) fn media_text(media: Media) -> &'static [u8]
    ensures { result.now ≡ media_text media }
{
    match media {
        Media::Json => b"application/json".as_slice(),
        Media::Octets => b"application/octet-stream".as_slice(),
    }
}

pub(crate) fn kind_text(kind: Kind) -> &'static [u8]
    ensures { result.now ≡ kind_text kind }
{
    match kind {
        Kind::File => b"file".as_slice(),
        Kind::Directory => b"directory".as_slice(),
    }
}

pub(crate) fn state_text(state: State) -> &'static [u8]
    ensures { result.now ≡ state_text state }
{
    match state {
        State::Available => b"available".as_slice(),
        State::Leased => b"leased".as_slice(),
        State::Expired => b"expired".as_slice(),
        State::Breaking => b"breaking".as_slice(),
        State::Broken => b"broken".as_slice(),
    }
}

pub(crate) fn lock_text(locked: bool) -> &'static [u8]
    ensures { result.now ≡ lock_text locked }
{
    if locked {
        b"locked".as_slice()
    } else {
        b"unlocked".as_slice()
    }
}

pub(crate) fn duration_text(infinite: bool) -> &'static [u8]
    ensures { result.now ≡ duration_text infinite }
{
    if infinite {
        b"infinite".as_slice()
    } else {
        b"fixed".as_slice()
    }
}

pub(crate) fn lease_id_text(id: u128) -> [u8; 36]
    ensures { result ≡ lease_id_text id }
{
    let mut text = [0; 36];
    write_lease_id(id, &mut text);
    text
}

pub(crate) fn rule_text(rule: Rule) -> &'static [u8]
    ensures { result.now ≡ rule_text rule }
{
    match rule {
        Rule::Owner => b"owner".as_slice(),
        Rule::NamedUser => b"named-user".as_slice(),
        Rule::Other => b"other".as_slice(),
        Rule::Sticky => b"sticky".as_slice(),
        Rule::AclOwner => b"acl-owner".as_slice(),
        Rule::UserOwner => b"user-owner".as_slice(),
        Rule::GroupOwner => b"group-owner".as_slice(),
        Rule::SuperuserOnly => b"superuser-only".as_slice(),
    }
}
