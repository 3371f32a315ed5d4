ghost use Rattle.std.specs.Prelude.{◌≡◌, ◌++◌, OnOk, is_ok, take, length, if◌then◌else◌};
ghost use Rattle.reply_text.specs.LastReply.{bad_status, bad_code, last_status, last_code, last_reply_text};

use super::lines::{put_line, put_open_number_line, put_status_line, put_version_line};
use http_front::BadHttp;
use std::alloc::{AllocError, Global};

// The usual length of a last reply, in bytes.
const USUAL: usize = 256;

/// Why a connection ends with a reply that is on no entry.
#[derive(Clone, Copy, Debug, PartialEq, Eq)]
pub enum Last {
    /// The bytes are no request that is taken, for this cause.
    Bad(BadHttp),
    /// The journal is full.
    Busy,
}

/// Appends the reply that ends a connection: it has no date and no body, and a request id of zeros. The one error is want of memory,
/// and nothing is appended then.
pub fn last_reply(_alloc: Global, last: Last, out: &mut Vec<u8>) -> Result<(), AllocError>
    ensures { out.new.items ≡
        (if is_ok result then out.old.items ++ last_reply_text last else out.old.items) }
{
    let kept = out.len();
    match put_last_reply(out, last) {
        Ok(()) => Ok(()),
        Err(error) => {
            out.truncate(kept);
            Err(error)
        }
    }
}

#[tactic(auto, using(crate::proofs::Kept::kept_rules), unfolding(crate::specs::LastReply::last_reply_text))]
fn put_last_reply(out: &mut Vec<u8>, last: Last) -> Result<(), AllocError>
    ensures text { OnOk result (out.new.items ≡ out.old.items ++ last_reply_text last) }
    ensures kept { take (length out.old.items) out.new.items ≡ out.old.items }
{
    out.reserve(USUAL)?;
    put_status_line(out, status(last))?;
    put_open_number_line(out)?;
    put_version_line(out)?;
    put_line(out, b"Connection", b"close")?;
    put_line(out, b"x-ms-error-code", code(last))?;
    put_line(out, b"Content-Length", b"0")?;
    out.extend_from_slice(b"\r\n")?;
    Ok(())
}

// The status of a refusal of bytes (RFC 9110, section 15.5, and RFC 6585, section 5).
fn bad_status(bad: BadHttp) -> u16
    ensures { result ≡ bad_status bad }
{
    match bad {
        BadHttp::NoHead => 400,
        BadHttp::HeadTooLong => 431,
        BadHttp::TooManyHeaders => 431,
        BadHttp::BadLength => 400,
        BadHttp::NoLength => 411,
        BadHttp::BodyTooLarge => 413,
    }
}

fn status(last: Last) -> u16
    ensures { result ≡ last_status last }
{
    match last {
        Last::Bad(bad) => bad_status(bad),
        Last::Busy => 503,
    }
}

// The code of a refusal of bytes.
fn bad_code(bad: BadHttp) -> &'static [u8]
    ensures { result.now ≡ bad_code bad }
{
    match bad {
        BadHttp::NoHead => b"InvalidInput".as_slice(),
        BadHttp::HeadTooLong => b"HeadTooLarge".as_slice(),
        BadHttp::TooManyHeaders => b"HeadTooLarge".as_slice(),
        BadHttp::BadLength => b"InvalidInput".as_slice(),
        BadHttp::NoLength => b"MissingContentLengthHeader".as_slice(),
        BadHttp::BodyTooLarge => b"RequestBodyTooLarge".as_slice(),
    }
}

fn code(last: Last) -> &'static [u8]
    ensures { result.now ≡ last_code last }
{
    match last {
        Last::Bad(bad) => bad_code(bad),
        Last::Busy => b"ServerBusy".as_slice(),
    }
}
