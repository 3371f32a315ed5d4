// Lets each read and each write of a conversation fail in turn. What is to be seen then follows from the run in which none fails.
use super::form::Conversation;
use super::reply::{has_text, reply_ends};
use super::run::{Cut, Ends, Ran, pieces, serve};
use std::alloc::{AllocError, Global};

// The run in which nothing fails, and where each request ends in what is sent and each reply in what is written, in bytes.
#[derive(Drop)]
struct Whole<'a> {
    ran: &'a Ran,
    request_ends: Vec<usize>,
    reply_ends: Vec<usize>,
}

// About so many calls fail in turn, of longer conversations the first ones of them.
const CALLS: usize = 40;

/// Lets each read and each write fail in turn, and tells what differs.
pub fn try_failing(
    alloc: Global,
    conversation: &Conversation,
    ran: &Ran,
    out: &mut String,
) -> Result<(), AllocError> {
    let request_ends = conversation.request_ends(alloc)?;
    let reply_ends = reply_ends(alloc, conversation, ran.written.as_slice())?;
    let whole = Whole {
        ran,
        request_ends,
        reply_ends,
    };
    try_reads(alloc, conversation, &whole, out)?;
    try_writes(alloc, conversation, &whole, out)
}

// Each read takes a piece whole, so that read `call` comes behind so many of them.
fn try_reads(
    alloc: Global,
    conversation: &Conversation,
    whole: &Whole<'_>,
    out: &mut String,
) -> Result<(), AllocError> {
    let most = (conversation.bytes_sent() / CALLS).clamp(97, 4096);
    let cut = Cut::ByRequest(most);
    let pieces = pieces(alloc, conversation, cut)?;
    let mut call = 0u64;
    let mut sent = 0usize;
    for piece in pieces.iter().take(2 * CALLS) {
        try_read(alloc, conversation, whole, (cut, call, sent), out)?;
        call = call.saturating_add(1);
        sent = sent.saturating_add(piece.len());
    }
    try_read(alloc, conversation, whole, (cut, call, sent), out)
}

// Read `call` fails, behind so many bytes: the requests that came whole before are answered, and the status is 3. Where the connection
// ends by a reply, or nothing is read at all, the read may be none that is made.
fn try_read(
    alloc: Global,
    conversation: &Conversation,
    whole: &Whole<'_>,
    (cut, call, sent): (Cut, u64, usize),
    out: &mut String,
) -> Result<(), AllocError> {
    if !out.is_empty() {
        return Ok(());
    }
    let ends = Ends {
        cut,
        most: 4096,
        room: whole.ran.written.len().saturating_add(1),
        failing_read: Some(call),
        failing_write: None,
    };
    let ran = serve(alloc, conversation, &ends)?;
    let is_failed = ran.has(whole.answered_within(sent), 3);
    if is_failed || (whole.ends_early() && ran.is_as(whole.ran)) {
        return Ok(());
    }
    tell(&ran, "read", call, out)?;
    write!(out, "  behind {sent} bytes\n")
}

// The sink takes so many bytes at a call that there are few calls.
fn try_writes(
    alloc: Global,
    conversation: &Conversation,
    whole: &Whole<'_>,
    out: &mut String,
) -> Result<(), AllocError> {
    let written = whole.ran.written.len();
    let most = (written / CALLS).max(7);
    for call in 0..=written.div_ceil(most).min(2 * CALLS) {
        if out.is_empty() {
            try_write(alloc, conversation, whole, (most, call), out)?;
        }
    }
    Ok(())
}

// Write `call` fails: what the writes before took is out, and the status is 4. Where there are fewer writes, nothing fails.
fn try_write(
    alloc: Global,
    conversation: &Conversation,
    whole: &Whole<'_>,
    (most, call): (usize, usize),
    out: &mut String,
) -> Result<(), AllocError> {
    let ends = Ends {
        cut: Cut::Anywhere(usize::MAX),
        most,
        room: whole.ran.written.len().saturating_add(1),
        failing_read: None,
        failing_write: Some(call as u64),
    };
    let ran = serve(alloc, conversation, &ends)?;
    let is_right = match whole.taken_before(most, call) {
        Some(front) => ran.has(front, 4),
        None => ran.is_as(whole.ran),
    };
    if is_right {
        return Ok(());
    }
    tell(&ran, "write", call as u64, out)?;
    write!(out, "  at most {most} bytes at a write\n")
}

fn tell(ran: &Ran, what: &str, call: u64, out: &mut String) -> Result<(), AllocError> {
    let status = ran.status;
    let written = ran.written.len();
    write!(
        out,
        "  where {what} {call} fails, counted from 0: {written} bytes are written, and the status is {status}\n"
    )
}

impl Whole<'_> {
    // The replies to the requests that end within so many bytes.
    fn answered_within(&self, sent: usize) -> &[u8] {
        let mut length = 0;
        for (request_end, reply_end) in self.request_ends.iter().zip(self.reply_ends.iter()) {
            if *request_end <= sent {
                length = *reply_end;
            }
        }
        self.front(length)
    }

    // What is out where each reply takes a call for each `most` of its bytes and the call of this number fails; none where there are
    // fewer calls.
    fn taken_before(&self, most: usize, call: usize) -> Option<&[u8]> {
        let mut from = 0usize;
        let mut calls_left = call;
        for end in self.reply_ends.iter() {
            let calls = end.saturating_sub(from).div_ceil(most.max(1));
            if calls_left < calls {
                return Some(self.front(from.saturating_add(calls_left.saturating_mul(most))));
            }
            calls_left = calls_left.saturating_sub(calls);
            from = *end;
        }
        None
    }

    fn front(&self, length: usize) -> &[u8] {
        let written = self.ran.written.as_slice();
        &written[..length.min(written.len())]
    }

    // Whether the connection ends by a reply, or nothing is read.
    fn ends_early(&self) -> bool {
        let is_closed = has_text(self.ran.written.as_slice(), b"\r\nConnection: close\r\n");
        is_closed || !matches!(self.ran.status, 0 | 6)
    }
}
