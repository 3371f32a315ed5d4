// Runs a conversation through `hns pipe` over ends in memory.
use super::form::Conversation;
use conn_io::{BytesIn, BytesOut, LAST_MOMENT, ListClock};
use hns_commands::run_pipe;
use std::alloc::{AllocError, Global};

/// How what is sent is cut into pieces of at most so many bytes: anywhere, or so that each head and each body ends a piece. Then each read
/// takes a piece whole, since a reader of requests reads no further than a body ends.
#[derive(Clone, Copy)]
pub enum Cut {
    Anywhere(usize),
    ByRequest(usize),
}

/// How the bytes go: a piece at a read, `most` at a write and `room` in all, and the calls of this number, from 0, fail.
#[derive(Clone, Copy)]
pub struct Ends {
    pub cut: Cut,
    pub most: usize,
    pub room: usize,
    pub failing_read: Option<u64>,
    pub failing_write: Option<u64>,
}

/// What was written, and the status.
#[derive(Drop)]
pub struct Ran {
    pub written: Vec<u8>,
    pub status: u8,
}

impl Ran {
    /// Whether this was written, and this is the status.
    pub fn has(&self, written: &[u8], status: u8) -> bool {
        self.status == status && self.written.as_slice() == written
    }

    /// Whether both runs wrote the same, with the same status.
    pub fn is_as(&self, other: &Ran) -> bool {
        self.has(other.written.as_slice(), other.status)
    }
}

/// Serves the connection.
pub fn serve(alloc: Global, conversation: &Conversation, ends: &Ends) -> Result<Ran, AllocError> {
    let words = words(alloc, conversation)?;
    let mut source = source(alloc, conversation, ends)?;
    let mut sink = sink(alloc, ends)?;
    let mut clock = clock(alloc, conversation)?;
    let status = run_pipe(alloc, words.as_slice(), &mut source, &mut sink, &mut clock);
    let written = sink.bytes().to_vec(alloc)?;
    Ok(Ran { written, status })
}

fn words(alloc: Global, conversation: &Conversation) -> Result<Vec<String>, AllocError> {
    let mut words = Vec::new(alloc);
    words.push(String::from_str(alloc, "pipe")?)?;
    for word in conversation.words.iter() {
        words.push(word.clone()?)?;
    }
    Ok(words)
}

fn source(alloc: Global, conversation: &Conversation, ends: &Ends) -> Result<BytesIn, AllocError> {
    let failing = one_or_none(alloc, ends.failing_read)?;
    let pieces = pieces(alloc, conversation, ends.cut)?;
    Ok(BytesIn::new(alloc, pieces, failing))
}

fn sink(alloc: Global, ends: &Ends) -> Result<BytesOut, AllocError> {
    let failing = one_or_none(alloc, ends.failing_write)?;
    BytesOut::new(alloc, ends.most.max(1), ends.room, failing)
}

fn one_or_none(alloc: Global, call: Option<u64>) -> Result<Vec<u64>, AllocError> {
    let mut calls = Vec::new(alloc);
    if let Some(call) = call {
        calls.push(call)?;
    }
    Ok(calls)
}

// All bytes that are sent.
fn sent(alloc: Global, conversation: &Conversation) -> Result<Vec<u8>, AllocError> {
    let mut sent = Vec::new(alloc);
    for request in conversation.requests.iter() {
        sent.extend_from_slice(request.bytes.as_slice())?;
    }
    Ok(sent)
}

/// What is sent, in pieces.
pub fn pieces(
    alloc: Global,
    conversation: &Conversation,
    cut: Cut,
) -> Result<Vec<Vec<u8>>, AllocError> {
    let mut pieces = Vec::new(alloc);
    match cut {
        Cut::Anywhere(most) => {
            let sent = sent(alloc, conversation)?;
            push_pieces(alloc, sent.as_slice(), most, &mut pieces)?;
        }
        Cut::ByRequest(most) => {
            for request in conversation.requests.iter() {
                let (head, body) = request.parts();
                push_pieces(alloc, head, most, &mut pieces)?;
                push_pieces(alloc, body, most, &mut pieces)?;
            }
        }
    }
    Ok(pieces)
}

fn push_pieces(
    alloc: Global,
    bytes: &[u8],
    most: usize,
    pieces: &mut Vec<Vec<u8>>,
) -> Result<(), AllocError> {
    for part in bytes.chunks(most.max(1)) {
        pieces.push(part.to_vec(alloc)?)?;
    }
    Ok(())
}

// A clock that answers the moment of each request, the last one again and again, and 0 where there is none.
fn clock(alloc: Global, conversation: &Conversation) -> Result<ListClock, AllocError> {
    let mut moments = Vec::new(alloc);
    for request in conversation.requests.iter() {
        moments.push(request.moment)?;
    }
    let are_in_range = moments.iter().all(|moment| *moment <= LAST_MOMENT);
    if are_in_range && !moments.is_empty() {
        Ok(ListClock::new(moments))
    } else {
        still(alloc)
    }
}

fn still(alloc: Global) -> Result<ListClock, AllocError> {
    Ok(ListClock::new([0u64].to_vec(alloc)?))
}
