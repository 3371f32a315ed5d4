// Compares what was written with the replies of a conversation.
use super::form::{Conversation, Mark, Reply};
use super::reply::{Found, first_reply, has_header, has_line, has_text, text_of};
use super::run::Ran;
use case_text::push_text;
use std::alloc::AllocError;

/// Appends what differs to `out`, up to the first reply that does.
pub fn compare(conversation: &Conversation, ran: &Ran, out: &mut String) -> Result<(), AllocError> {
    let rest = compare_replies(conversation, ran.written.as_slice(), out)?;
    if out.is_empty() && !rest.is_empty() {
        differ(out, "written behind the last reply", rest)?;
    }
    let (status, expected) = (ran.status, conversation.status);
    if out.is_empty() && status != expected {
        write!(out, "  the status is {status}, expected is {expected}\n")?;
    }
    Ok(())
}

// Compares reply by reply as far as they are the same, and answers the bytes behind.
fn compare_replies<'a>(
    conversation: &Conversation,
    written: &'a [u8],
    out: &mut String,
) -> Result<&'a [u8], AllocError> {
    let mut rest = written;
    let mut number = 0usize;
    for reply in conversation.replies.iter() {
        if out.is_empty() {
            rest = compare_next(reply, conversation.is_head(number), rest, out)?;
            number = number.saturating_add(1);
            if !out.is_empty() {
                write!(out, "  in reply {number}\n")?;
            }
        }
    }
    Ok(rest)
}

fn compare_next<'a>(
    reply: &Reply,
    to_head: bool,
    rest: &'a [u8],
    out: &mut String,
) -> Result<&'a [u8], AllocError> {
    match first_reply(rest, to_head) {
        None => {
            differ(out, "no whole reply", rest)?;
            Ok(rest)
        }
        Some((found, behind)) => {
            compare_reply(reply, &found, out)?;
            Ok(behind)
        }
    }
}

fn compare_reply(reply: &Reply, found: &Found<'_>, out: &mut String) -> Result<(), AllocError> {
    if reply.marks.is_empty() {
        compare_heads(text_of(reply.head.as_slice()), found.head, out)?;
        return compare_bodies(reply.body.as_slice(), found.body, out);
    }
    for mark in reply.marks.iter() {
        compare_mark(mark, found, out)?;
    }
    Ok(())
}

fn compare_bodies(expected: &[u8], found: &[u8], out: &mut String) -> Result<(), AllocError> {
    if expected != found {
        differ(out, "expected body", expected)?;
        differ(out, "found body", found)?;
    }
    Ok(())
}

fn compare_heads(expected: &str, found: &str, out: &mut String) -> Result<(), AllocError> {
    if expected == found {
        return Ok(());
    }
    lines_beyond(expected, found, "expected", out)?;
    lines_beyond(found, expected, "found", out)?;
    if out.is_empty() {
        differ(out, "found the lines in another order", found.as_bytes())?;
    }
    Ok(())
}

// The lines of one head that the other has not.
fn lines_beyond(head: &str, other: &str, what: &str, out: &mut String) -> Result<(), AllocError> {
    for line in head.lines() {
        if !has_line(other, line) {
            differ(out, what, line.as_bytes())?;
        }
    }
    Ok(())
}

fn compare_mark(mark: &Mark, found: &Found<'_>, out: &mut String) -> Result<(), AllocError> {
    match mark {
        Mark::Line(line) => {
            if has_line(found.head, text_of(line.as_slice())) {
                return Ok(());
            }
            differ(out, "expected", line.as_slice())?;
            differ(out, "found", found.head.as_bytes())
        }
        Mark::NoHeader(name) => {
            if !has_header(found.head, text_of(name.as_slice())) {
                return Ok(());
            }
            differ(out, "found the header", name.as_slice())
        }
        Mark::InBody(text) => {
            if has_text(found.body, text.as_slice()) {
                return Ok(());
            }
            differ(out, "expected in the body", text.as_slice())?;
            differ(out, "found body", found.body)
        }
    }
}

// At most so many bytes are shown.
const SHOWN: usize = 2000;

fn differ(out: &mut String, what: &str, bytes: &[u8]) -> Result<(), AllocError> {
    write!(out, "  {what}: ")?;
    push_text(out, &bytes[..bytes.len().min(SHOWN)])?;
    out.push('\n')
}
