// Replies as they stand in what was written.
use super::form::Conversation;
use std::alloc::{AllocError, Global};

/// A reply: its head with the end of its last line, and its body.
#[derive(Drop)]
pub struct Found<'a> {
    pub head: &'a str,
    pub body: &'a [u8],
}

/// The first reply of the bytes, and what stands behind it. A reply to a HEAD has no body.
pub fn first_reply(bytes: &[u8], to_head: bool) -> Option<(Found<'_>, &[u8])> {
    let (head, rest) = split_head(bytes)?;
    let length = if to_head { 0 } else { body_length(head)? };
    let (body, behind) = rest.split_at_checked(length)?;
    Some((Found { head, body }, behind))
}

/// Where each reply of the conversation ends in what was written, in bytes.
pub fn reply_ends(
    alloc: Global,
    conversation: &Conversation,
    written: &[u8],
) -> Result<Vec<usize>, AllocError> {
    let mut ends = Vec::new(alloc);
    let mut rest = written;
    for number in 0..conversation.replies.len() {
        if let Some((_, behind)) = first_reply(rest, conversation.is_head(number)) {
            rest = behind;
            ends.push(written.len().saturating_sub(rest.len()))?;
        }
    }
    Ok(ends)
}

// The head with the end of its last line, and what stands behind the empty line.
fn split_head(bytes: &[u8]) -> Option<(&str, &[u8])> {
    let at = bytes
        .windows(4)
        .position(|end| end == b"\r\n\r\n".as_slice())?;
    let (head, rest) = bytes.split_at_checked(at.saturating_add(2))?;
    let (_, rest) = rest.split_at_checked(2)?;
    Some((str::from_utf8(head).ok()?, rest))
}

// The length that a head tells, 0 where it tells none.
fn body_length(head: &str) -> Option<usize> {
    if head.starts_with("HTTP/1.1 304") {
        return Some(0);
    }
    for line in head.lines() {
        if let Some(length) = line.strip_prefix("Content-Length: ") {
            return length.parse().ok();
        }
    }
    Some(0)
}

/// Whether the head has the line.
pub fn has_line(head: &str, line: &str) -> bool {
    head.lines().any(|found| found == line)
}

/// Whether the head has a header of the name.
pub fn has_header(head: &str, name: &str) -> bool {
    for line in head.lines() {
        if let Some((found, _)) = line.split_once(':') {
            if found.eq_ignore_ascii_case(name) {
                return true;
            }
        }
    }
    false
}

/// Whether the text stands in the body.
pub fn has_text(body: &[u8], text: &[u8]) -> bool {
    text.is_empty() || body.windows(text.len()).any(|found| found == text)
}

/// The bytes as text.
pub fn text_of(bytes: &[u8]) -> &str {
    str::from_utf8(bytes).unwrap_or("(no text)")
}
