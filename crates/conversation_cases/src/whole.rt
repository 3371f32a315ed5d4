// Runs a conversation whole and in pieces, with ends that do not fail.
use super::compare::compare;
use super::form::Conversation;
use super::run::{Cut, Ends, Ran, serve};
use std::alloc::{AllocError, Global};

// The most bytes that replies may have together.
const ROOM: usize = 67_108_864;

// The most pieces into which what is sent is cut.
const PIECES_MAX: usize = 65_536;

/// Runs it whole and in pieces of 97, 7 and 1 bytes, tells what differs, and answers the run of the whole. What would make more than
/// 65,536 pieces is cut into larger ones.
pub fn try_cuts(
    alloc: Global,
    conversation: &Conversation,
    out: &mut String,
) -> Result<Ran, AllocError> {
    let ran = try_cut(alloc, conversation, usize::MAX, out)?;
    let least = conversation.bytes_sent() / PIECES_MAX;
    for piece in [97, 7, 1] {
        if out.is_empty() {
            try_pieces(alloc, conversation, least.saturating_add(piece), out)?;
        }
    }
    Ok(ran)
}

fn try_pieces(
    alloc: Global,
    conversation: &Conversation,
    piece: usize,
    out: &mut String,
) -> Result<(), AllocError> {
    let _ran = try_cut(alloc, conversation, piece, out)?;
    if out.is_empty() {
        return Ok(());
    }
    write!(
        out,
        "  where the requests come in pieces of {piece} bytes\n"
    )
}

fn try_cut(
    alloc: Global,
    conversation: &Conversation,
    piece: usize,
    out: &mut String,
) -> Result<Ran, AllocError> {
    let ends = Ends {
        cut: Cut::Anywhere(piece),
        most: 4096,
        room: ROOM,
        failing_read: None,
        failing_write: None,
    };
    let ran = serve(alloc, conversation, &ends)?;
    compare(conversation, &ran, out)?;
    Ok(ran)
}
