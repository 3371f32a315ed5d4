//! Bytes that requests carry and that nodes of the namespace keep, and the data of a file: its committed bytes and the
//! pieces that were appended and not flushed yet.
//!
//! A `Piece` is a run of bytes that one owner has. A `SharedPiece` is a run that a request, its journal entry and the
//! staged data of a file have together, so that a body is kept once, however many refer to it. A contract sees either
//! as the list of its bytes.
//!
//! A `FileData` is seen as a record: the committed bytes, the extents that they lie in, the staged pieces as pairs of a
//! position and bytes, and two numbers that say how many calls of `stage` and of `flush` there is room for.
//! `reserve_stage` and `reserve_flush` make that room and are the calls that may want memory; `stage` and `flush` need it
//! and take no memory. `stage` puts a piece at a position. `flush` appends the pieces below a position, where they lie end
//! to end from the length to it; nothing is filled in, and no byte is taken twice. A refused call changes nothing, but
//! that a refused reserve may leave more room. `can_stage`, `can_flush` and `can_append_flush` tell beforehand.
//!
//! The extents are pairs of a position and bytes as well, and lie end to end from 0: they are the pieces that were flushed.
//! So neither a flush nor a copy of a file copies bytes, and a read finds the extent that it begins in by halving.
//!
//! What each call answers and leaves stands in `specs/FileRecord.antt`, on the words of `specs/Staging.antt`. The laws
//! of `laws` say it in plain words, with the statements on whole lists of `specs/Troubles.antt` and `specs/Orders.antt`.
//! `specs/Extents.antt` says what extents have of a range of bytes.
//!
//! Append and flush are those of Microsoft's reference of the call Path - Update of Azure Data Lake Storage Gen2; the
//! staged pieces, their replacement at one position and the refusals are this project's own.
#![tactic(auto)]

mod data;
mod extent_list;
mod extents;
mod fault;
pub mod laws;
mod piece;
mod shared_piece;
mod walk;

pub use data::{FILE_MAX, FileData};
pub use fault::DataFault;
pub use piece::Piece;
pub use shared_piece::SharedPiece;
