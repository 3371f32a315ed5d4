ghost use Rattle.std.specs.Prelude.{◌≡◌, ℕ, ◌+◌, ◌<◌, ◌≤◌, List, [], length, nat_lt, take, drop, vec_len, vec_capacity, if◌then◌else◌, All, IfOk};
ghost use Rattle.file_data.specs.Staging.{pieces_below, pieces_from, pieces_above, with_piece, Ascends, first_trouble, end_of};
ghost use Rattle.file_data.specs.Troubles.{met_by_piece};
ghost use Rattle.file_data.specs.FileRecord.{file_max};

use super::fault::DataFault;
use super::shared_piece::SharedPiece;
use std::alloc::{AllocError, Global};

// How many of the pieces start below a position.
pub(crate) fn count_below(pieces: &[(u64, SharedPiece)], position: u64) -> usize
    requires { Ascends pieces.now }
    ensures within { result ≤ length pieces.now }
    ensures front { take result pieces.now ≡ pieces_below pieces.now position }
    ensures back { drop result pieces.now ≡ pieces_from pieces.now position }
{
    pieces.partition_point(
        |piece: &(u64, SharedPiece)| -> bool
            ensures { result ≡ nat_lt piece.now.0 position }
        { piece.0 < position },
    )
}

// The first trouble on the way over the pieces.
pub(crate) fn trouble(pieces: &[(u64, SharedPiece)], from: u64, to: u64) -> Option<DataFault>
    requires { All (λ (piece : ℕ × List ℕ). end_of piece ≤ file_max) pieces.now }
    ensures met { result ≡ first_trouble pieces.now from to }
{
    let mut at = from;
    for piece in pieces {
        if at < piece.0 {
            return Some(DataFault::Gap(at));
        }
        if piece.0 < at {
            return Some(DataFault::Overlap(piece.0));
        }
        at += piece.1.bytes().len() as u64;
    }
    if at < to {
        return Some(DataFault::Gap(at));
    }
    if to < at {
        return Some(DataFault::WrongPosition);
    }
    None
}

// The first trouble of a flush to the end of a piece that is put at a position, over what is there.
pub(crate) fn append_trouble(
    pieces: &[(u64, SharedPiece)],
    from: u64,
    position: u64,
    len: u64,
) -> Option<DataFault>
    requires ascends { Ascends pieces.now }
    requires ends { All (λ (piece : ℕ × List ℕ). end_of piece ≤ file_max) pieces.now }
    requires filled { 0 < len }
    requires within { position + len ≤ file_max }
    ensures { (bytes : List ℕ) → length bytes ≡ len
        → result ≡ first_trouble (pieces_below (with_piece pieces.now position bytes) (position + len)) from (position + len) }
{
    let count = count_below(pieces, position);
    match trouble(&pieces[..count], from, position) {
        None => first_inside(pieces, position, position + len),
        Some(fault) => Some(at_piece(fault, position)),
    }
}

// The trouble of a way to a position, where a piece at that position goes on from there.
fn at_piece(fault: DataFault, position: u64) -> DataFault
    ensures { result ≡ met_by_piece position fault }
{
    match fault {
        DataFault::WrongPosition => DataFault::Overlap(position),
        other => other,
    }
}

// The overlap of the first piece that starts above a position and below an end.
fn first_inside(pieces: &[(u64, SharedPiece)], position: u64, end: u64) -> Option<DataFault>
    requires ascends { Ascends pieces.now }
    requires filled { position < end }
    ensures { result ≡ first_trouble (pieces_below (pieces_above pieces.now position) end) end end }
{
    let next = count_below(pieces, position + 1);
    if pieces.len() <= next {
        return None;
    }
    let start = pieces[next].0;
    if end <= start {
        return None;
    }
    Some(DataFault::Overlap(start))
}

// Drops the first pieces.
pub(crate) fn drop_first(pieces: &mut Vec<(u64, SharedPiece)>, count: usize)
    requires within { count ≤ vec_len pieces.old }
    ensures items { pieces.new.items ≡ drop count pieces.old.items }
    ensures len { vec_len pieces.new ≤ vec_len pieces.old }
    ensures room { vec_capacity pieces.new ≡ vec_capacity pieces.old }
{
    pieces.rotate_left(count);
    pieces.truncate(pieces.len() - count);
}

// Puts a piece in its place, for which there is room.
pub(crate) fn put_piece(pieces: &mut Vec<(u64, SharedPiece)>, position: u64, piece: SharedPiece)
    requires ascends { Ascends pieces.old.items }
    requires room { vec_len pieces.old < vec_capacity pieces.old }
    ensures items { pieces.new.items ≡ with_piece pieces.old.items position piece }
    ensures room { vec_capacity pieces.old + vec_len pieces.new ≤ vec_capacity pieces.new + vec_len pieces.old + 1 }
{
    let at = count_below(pieces.as_slice(), position);
    if at < pieces.len() && pieces[at].0 == position {
        drop(pieces.remove(at));
    }
    match pieces.insert(at, (position, piece)) {
        Ok(()) => {}
        Err(_) => unreachable!(),
    }
}

// Drops the pieces unless they are to be retained.
pub(crate) fn clear_unless(pieces: &mut Vec<(u64, SharedPiece)>, retain: bool)
    ensures items { pieces.new.items ≡ (if retain then pieces.old.items else []) }
    ensures len { vec_len pieces.new ≤ vec_len pieces.old }
    ensures room { vec_capacity pieces.new ≡ vec_capacity pieces.old }
{
    if !retain {
        pieces.clear();
    }
}

// Other pieces with the same positions and bytes, in a list with the same room.
pub(crate) fn copy_pieces(
    alloc: Global,
    pieces: &Vec<(u64, SharedPiece)>,
) -> Result<Vec<(u64, SharedPiece)>, AllocError>
    ensures items { IfOk result (λ copied. copied.items ≡ pieces.now.items) }
    ensures room { IfOk result (λ copied. vec_capacity copied ≡ vec_capacity pieces.now) }
{
    let mut copied = Vec::with_capacity(alloc, pieces.capacity())?;
    for piece in pieces.as_slice() {
        let at = copied.len();
        match copied.insert(at, (piece.0, piece.1.copy()?)) {
            Ok(()) => {}
            Err(_) => unreachable!(),
        }
    }
    Ok(copied)
}
