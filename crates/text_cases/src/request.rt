// Tables of requests as they are decoded.
use super::head::headers_of;
use super::operation::say_op;
use super::say::{say, say_number, say_whether, split};
use file_data::{Piece, SharedPiece};
use head_text::{Conditions, ETagList, HeaderList};
use http_front::Raw;
use namespace_model::{Caller, Request};
use op_decode::decode;
use std::alloc::{AllocError, Global};

/// Appends the answer, and answers whether there is a table of this name: `connections`, and each whose name begins
/// with `requests`.
pub fn answer(
    alloc: Global,
    name: &str,
    first: &[u8],
    second: &[u8],
    out: &mut Vec<u8>,
) -> Result<bool, AllocError> {
    if name == "connections" {
        connection(alloc, first, second, out)?;
        return Ok(true);
    }
    if !name.starts_with("requests") {
        return Ok(false);
    }
    request(alloc, first, second, out)?;
    Ok(true)
}

// The headers, the superuser as the caller where the text names none.
fn with_caller(alloc: Global, text: &[u8]) -> Result<HeaderList, AllocError> {
    let is_named = text
        .windows(11)
        .any(|word| word.eq_ignore_ascii_case(b"x-ms-caller"));
    let mut headers = Vec::new(alloc);
    if !is_named {
        headers.extend_from_slice(b"X-Ms-Caller: $superuser;")?;
    }
    headers.extend_from_slice(text)?;
    headers_of(alloc, headers.as_slice())
}

fn piece_of(alloc: Global, bytes: &[u8]) -> Result<Piece, AllocError> {
    Ok(Piece::new(bytes.to_vec(alloc)?))
}

fn body_of(alloc: Global, bytes: &[u8]) -> Result<SharedPiece, AllocError> {
    SharedPiece::new(alloc, piece_of(alloc, bytes)?)
}

// The headers, and behind a `|` the body.
fn split_body(text: &[u8]) -> (&[u8], &[u8]) {
    match text.iter().position(|byte| *byte == b'|') {
        Some(at) => (&text[..at], text[at..].strip_prefix(b"|").unwrap_or(b"")),
        None => (text, b""),
    }
}

// A request of HTTP/1.1 or 1.0: `METHOD TARGET`, and headers with a body behind.
fn raw_of(alloc: Global, line: &[u8], text: &[u8], minor: u8) -> Result<Raw, AllocError> {
    let (method, target) = split(line);
    let (headers, body) = split_body(text);
    let method = piece_of(alloc, method)?;
    let target = piece_of(alloc, target)?;
    let headers = with_caller(alloc, headers)?;
    let body = body_of(alloc, body.trim_ascii())?;
    Ok(Raw {
        method,
        target,
        minor,
        headers,
        body,
    })
}

fn decoded(alloc: Global, line: &[u8], text: &[u8], minor: u8) -> Result<Request, AllocError> {
    let raw = raw_of(alloc, line, text, minor)?;
    decode(alloc, &raw)
}

// A request with all that it asks.
fn request(alloc: Global, line: &[u8], text: &[u8], out: &mut Vec<u8>) -> Result<(), AllocError> {
    let request = decoded(alloc, line, text, 1)?;
    say_request(alloc, &request, out)
}

fn say_request(alloc: Global, request: &Request, out: &mut Vec<u8>) -> Result<(), AllocError> {
    say_op(alloc, &request.op, out)?;
    say_caller(request.caller.as_ref(), out)?;
    say_lease(alloc, ", lease ", request.lease, out)?;
    say_lease(alloc, ", source lease ", request.source_lease, out)?;
    say_conditions(alloc, &request.cond, out)?;
    say_whether(out, request.head, (", head", ""))?;
    say_whether(out, request.close, (", closes", ""))?;
    say_body(alloc, request.body.bytes(), out)
}

// The caller and its groups; nothing where it is the superuser and has none.
fn say_caller(caller: Option<&Caller>, out: &mut Vec<u8>) -> Result<(), AllocError> {
    match caller {
        None => say(out, ", no caller"),
        Some(caller) if caller.id.is_superuser() && caller.groups.items().is_empty() => Ok(()),
        Some(caller) => say_id_and_groups(caller, out),
    }
}

fn say_id_and_groups(caller: &Caller, out: &mut Vec<u8>) -> Result<(), AllocError> {
    say(out, ", as ")?;
    out.extend_from_slice(caller.id.bytes())?;
    let groups = caller.groups.items();
    say_whether(out, groups.is_empty(), ("", " in"))?;
    for group in groups {
        say(out, " ")?;
        out.extend_from_slice(group.bytes())?;
    }
    Ok(())
}

// An id in hexadecimal digits, where there is one.
fn say_lease(
    alloc: Global,
    word: &str,
    id: Option<u128>,
    out: &mut Vec<u8>,
) -> Result<(), AllocError> {
    match id {
        Some(id) => say(out, format!(in alloc; "{word}{id:x}")?.as_str()),
        None => Ok(()),
    }
}

fn say_conditions(
    alloc: Global,
    conditions: &Conditions,
    out: &mut Vec<u8>,
) -> Result<(), AllocError> {
    say_tags(alloc, ", if match:", conditions.matches.as_ref(), out)?;
    say_tags(alloc, ", if none match:", conditions.none.as_ref(), out)?;
    say_date(alloc, ", if modified since ", conditions.modified, out)?;
    say_date(alloc, ", if unmodified since ", conditions.unmodified, out)
}

fn say_tags(
    alloc: Global,
    word: &str,
    tags: Option<&ETagList>,
    out: &mut Vec<u8>,
) -> Result<(), AllocError> {
    match tags {
        Some(tags) => {
            say(out, word)?;
            say_whether(out, tags.any(), (" any", ""))?;
            say_tag_numbers(alloc, tags.numbers(), out)
        }
        None => Ok(()),
    }
}

fn say_tag_numbers(alloc: Global, numbers: &[u64], out: &mut Vec<u8>) -> Result<(), AllocError> {
    for number in numbers {
        say(out, " ")?;
        say_number(alloc, out, Some(*number))?;
    }
    Ok(())
}

// The seconds since 1970, where there are any.
fn say_date(
    alloc: Global,
    word: &str,
    secs: Option<u64>,
    out: &mut Vec<u8>,
) -> Result<(), AllocError> {
    if secs.is_none() {
        return Ok(());
    }
    say(out, word)?;
    say_number(alloc, out, secs)
}

fn say_body(alloc: Global, body: &[u8], out: &mut Vec<u8>) -> Result<(), AllocError> {
    if body.is_empty() {
        return Ok(());
    }
    say(out, ", body ")?;
    say_number(alloc, out, Some(body.len() as u64))
}

// The second number of the version, and a value of Connection.
fn connection(
    alloc: Global,
    minor: &[u8],
    value: &[u8],
    out: &mut Vec<u8>,
) -> Result<(), AllocError> {
    let mut headers = b"Connection:".as_slice().to_vec(alloc)?;
    headers.extend_from_slice(value)?;
    let minor = if minor == b"1.0".as_slice() { 0 } else { 1 };
    let request = decoded(alloc, b"HEAD /ab-", headers.as_slice(), minor)?;
    say_whether(out, request.close, ("closes", "stays"))
}
