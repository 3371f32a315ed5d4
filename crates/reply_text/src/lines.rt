ghost use Rattle.std.specs.Prelude.{◌≡◌, ◌≤◌, ◌++◌, OnOk, codes, take, length, unwrap_or};
ghost use Rattle.http.specs.StatusCode.{IsStatusCode, reason_phrase, status_text};
ghost use Rattle.head_text.specs.Hex.{hex16};
ghost use Rattle.lease_state.specs.declared.lease.TheConstants.{LAST_MOMENT};
ghost use Rattle.reply_text.specs.Lines.{line, status_line, moment_text};

use head_text::date_text;
use http::StatusCode;
use itoa::Buffer;
use std::alloc::AllocError;

#[tactic(auto, using(crate::proofs::Kept::kept_rules), unfolding(crate::specs::Lines::line))]
pub(crate) fn put_line(out: &mut Vec<u8>, name: &[u8], value: &[u8]) -> Result<(), AllocError>
    ensures text { OnOk result (out.new.items ≡ out.old.items ++ line name.now value.now) }
    ensures kept { take (length out.old.items) out.new.items ≡ out.old.items }
{
    out.extend_from_slice(name)?;
    out.extend_from_slice(b": ")?;
    out.extend_from_slice(value)?;
    out.extend_from_slice(b"\r\n")
}

#[tactic(auto, using(crate::proofs::Kept::kept_rules), unfolding(crate::specs::Lines::status_line, crate::specs::Lines::status_and_phrase))]
pub(crate) fn put_status_line(out: &mut Vec<u8>, status: u16) -> Result<(), AllocError>
    requires { IsStatusCode status }
    ensures text { OnOk result (out.new.items ≡ out.old.items ++ status_line status) }
    ensures kept { take (length out.old.items) out.new.items ≡ out.old.items }
{
    out.extend_from_slice(b"HTTP/1.1 ")?;
    put_status(out, status)?;
    out.extend_from_slice(b"\r\n")?;
    Ok(())
}

// The status and its phrase.
#[tactic(auto, using(crate::proofs::Kept::kept_rules))]
fn put_status(out: &mut Vec<u8>, status: u16) -> Result<(), AllocError>
    requires { IsStatusCode status }
    ensures text { OnOk result (out.new.items ≡ out.old.items ++ status_text status) }
    ensures kept { take (length out.old.items) out.new.items ≡ out.old.items }
{
    let mut digits = Buffer::new();
    out.extend_from_slice(digits.format(status).as_bytes())?;
    out.extend_from_slice(b" ")?;
    out.extend_from_slice(phrase(StatusCode::from_u16(status).unwrap()).as_bytes())
}

// The phrase that `Display` writes behind a status.
fn phrase(status: StatusCode) -> &'static str
    ensures { result.now ≡ unwrap_or (reason_phrase status) (codes "<unknown status code>") }
{
    match status.canonical_reason() {
        Some(phrase) => phrase,
        None => "<unknown status code>",
    }
}

#[tactic(auto, unfolding(crate::specs::Lines::moment_text))]
pub(crate) fn moment_text(moment: u64) -> [u8; 29]
    requires { moment ≤ LAST_MOMENT }
    ensures { result ≡ moment_text moment }
{
    date_text(moment / 1000)
}

// Sixteen zeros for a number that isn't known.
#[tactic(auto, unfolding(head_text::specs::Hex::hex16))]
pub(crate) fn put_open_number_line(out: &mut Vec<u8>) -> Result<(), AllocError>
    ensures text { OnOk result
        (out.new.items ≡ out.old.items ++ line (codes "x-ms-request-id") (hex16 0)) }
    ensures kept { take (length out.old.items) out.new.items ≡ out.old.items }
{
    put_line(out, b"x-ms-request-id", b"0000000000000000")
}

pub(crate) fn put_version_line(out: &mut Vec<u8>) -> Result<(), AllocError>
    ensures text { OnOk result
        (out.new.items ≡ out.old.items ++ line (codes "x-ms-version") (codes "2020-08-04")) }
    ensures kept { take (length out.old.items) out.new.items ≡ out.old.items }
{
    put_line(out, b"x-ms-version", b"2020-08-04")
}
