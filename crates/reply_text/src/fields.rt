ghost use Rattle.std.specs.Prelude.{◌≡◌, ◌++◌, OnOk, codes, decimal, take, length};
ghost use Rattle.head_text.specs.PropertyTexts.{properties_text};
ghost use Rattle.reply_text.specs.Lines.{line, field_line, range_text};
ghost use Rattle.reply_text.specs.ReplyText.{IsInTime, stated_length};

use super::lines::{moment_text, put_line};
use super::values::{
    duration_text, etag_text, kind_text, lease_id_text, lock_text, media_text, put_range,
    state_text,
};
use head_text::{Props, write_props};
use itoa::Buffer;
use namespace_model::Field;
use std::alloc::AllocError;

pub(crate) fn put_decimal_line(
    out: &mut Vec<u8>,
    name: &[u8],
    number: u64,
) -> Result<(), AllocError>
    ensures text { OnOk result (out.new.items ≡ out.old.items ++ line name.now (decimal number)) }
    ensures kept { take (length out.old.items) out.new.items ≡ out.old.items }
{
    let mut digits = Buffer::new();
    put_line(out, name, digits.format(number).as_bytes())?;
    Ok(())
}

#[tactic(auto, using(crate::proofs::Kept::kept_rules), unfolding(crate::specs::Lines::line))]
fn put_range_line(out: &mut Vec<u8>, from: u64, to: u64, len: u64) -> Result<(), AllocError>
    ensures text { OnOk result
        (out.new.items ≡ out.old.items ++ line (codes "Content-Range") (range_text from to len)) }
    ensures kept { take (length out.old.items) out.new.items ≡ out.old.items }
{
    out.extend_from_slice(b"Content-Range: ")?;
    put_range(out, from, to, len)?;
    out.extend_from_slice(b"\r\n")
}

#[tactic(auto, using(crate::proofs::Kept::kept_rules), unfolding(crate::specs::Lines::line))]
fn put_properties_line(out: &mut Vec<u8>, props: &Props) -> Result<(), AllocError>
    ensures text { OnOk result
        (out.new.items ≡ out.old.items ++ line (codes "x-ms-properties") (properties_text props.now)) }
    ensures kept { take (length out.old.items) out.new.items ≡ out.old.items }
{
    out.extend_from_slice(b"x-ms-properties: ")?;
    write_props(props, out)?;
    out.extend_from_slice(b"\r\n")
}

// The line of a field, with zeros for a number that is left open.
#[tactic(auto, using(crate::proofs::Kept::kept_rules), unfolding(crate::specs::Lines::field_line))]
pub(crate) fn put_field_line(out: &mut Vec<u8>, field: &Field) -> Result<(), AllocError>
    requires { IsInTime field.now }
    ensures text { OnOk result (out.new.items ≡ out.old.items ++ field_line 0 field.now) }
    ensures kept { take (length out.old.items) out.new.items ≡ out.old.items }
{
    match field {
        Field::Close => put_line(out, b"Connection", b"close"),
        Field::ETag(number) => put_line(out, b"ETag", &etag_text(number.unwrap_or(0))),
        Field::LastModified(moment) => put_line(out, b"Last-Modified", &moment_text(*moment)),
        Field::AcceptRanges => put_line(out, b"Accept-Ranges", b"bytes"),
        Field::ContentRange { from, to, len } => put_range_line(out, *from, *to, *len),
        Field::ContentType(media) => put_line(out, b"Content-Type", media_text(*media)),
        Field::ResourceType(kind) => put_line(out, b"x-ms-resource-type", kind_text(*kind)),
        Field::Owner(id) => put_line(out, b"x-ms-owner", id.bytes()),
        Field::Group(id) => put_line(out, b"x-ms-group", id.bytes()),
        Field::Permissions(text) => put_line(out, b"x-ms-permissions", text.bytes()),
        Field::Acl(text) => put_line(out, b"x-ms-acl", text.bytes()),
        Field::Properties(props) => put_properties_line(out, props),
        Field::LeaseState(state) => put_line(out, b"x-ms-lease-state", state_text(*state)),
        Field::LeaseStatus { locked } => put_line(out, b"x-ms-lease-status", lock_text(*locked)),
        Field::LeaseDuration { infinite } => {
            put_line(out, b"x-ms-lease-duration", duration_text(*infinite))
        }
        Field::LeaseId(id) => put_line(out, b"x-ms-lease-id", &lease_id_text(*id)),
        Field::LeaseTime(seconds) => put_decimal_line(out, b"x-ms-lease-time", *seconds),
        Field::NamespaceEnabled => put_line(out, b"x-ms-namespace-enabled", b"true"),
        Field::Continuation(token) => put_line(out, b"x-ms-continuation", token.bytes()),
        Field::ContentLength(_) => Ok(()),
    }
}

pub(crate) fn stated_length(fields: &[Field]) -> u64
    ensures { result ≡ stated_length fields.now }
{
    for field in fields {
        if let Field::ContentLength(len) = field {
            return *len;
        }
    }
    0
}
