ghost use Rattle.std.specs.Prelude.{◌≡◌, ℕ, ◌+◌, ◌++◌, ◌<◌, ◌≤◌, List, length, slice_range, IfOk, OnOk, OnErr, IsOk, ◌↔◌};
ghost use Rattle.file_data.specs.FileRecord.{FileRecord, file_max, bare_file, IsFile, AreExtents, SameButRoom, OnlyGainsRoom, stage_answer, staged_with, flush_answer, flushed, CanFlush, append_flush_answer};

use super::extent_list::ExtentList;
use super::extents::append_range;
use super::fault::DataFault;
use super::shared_piece::SharedPiece;
use super::walk::{
    append_trouble, clear_unless, copy_pieces, count_below, drop_first, put_piece, trouble,
};
use std::alloc::{AllocError, Global};
use std::marker::Model;

/// The most bytes that a file may have.
pub const FILE_MAX: u64 = 268_435_456;

/// The bytes of a file, and the pieces that were appended to it and not flushed yet. The bytes are kept as extents, which
/// are the pieces that were flushed. The list of the extents is shared by a file and its copies, until one of them is
/// flushed.
#[derive(Drop)]
pub struct FileData {
    alloc: Global,
    len: u64,
    extents: ExtentList,
    staged: Vec<(u64, SharedPiece)>,
    flush_room: u64,
}

impl Model for FileData {
    ghost use Rattle.std.specs.Prelude.{◌-◌, vec_len, vec_capacity};
    ghost use Rattle.file_data.specs.FileRecord.{FileRecord};

    ghost Value = { FileRecord };

    ghost use Rattle.file_data.specs.FileInside.{record_of, IsInside};

    ghost view = { record_of };

    ghost invariant = { IsInside };
}

impl FileData {
    /// A file without bytes. It takes no memory.
    pub fn new(alloc: Global) -> FileData
        ensures { result ≡ bare_file }
    {
        FileData {
            alloc,
            len: 0,
            extents: ExtentList::new(),
            staged: Vec::new(alloc),
            flush_room: 0,
        }
    }

    /// How many bytes the file has, without what is staged.
    pub fn len(&self) -> u64
        ensures len { result ≡ length self.now.committed }
        ensures kept { IsFile self.now.committed self.now.staged }
        ensures extents { AreExtents self.now.committed self.now.extents }
    {
        self.len
    }

    /// Makes room for one call of `stage`. The one error is want of memory; it may leave more room than before.
    pub fn reserve_stage(&mut self) -> Result<(), AllocError>
        ensures room { OnOk result (0 < self.new.stage_room) }
        ensures same { OnlyGainsRoom self.old self.new }
    {
        self.staged.reserve(1)
    }

    /// Makes room for one call of `flush`, at any position. The one error is want of memory, or that no more owners of a
    /// piece can be counted; it may leave more room than before. A `stage` uses this room up. Where copies have the same
    /// extents, a list of its own is made: owners are counted once for each extent, and no byte is copied.
    pub fn reserve_flush(&mut self) -> Result<(), AllocError>
        ensures room { OnOk result (0 < self.new.flush_room) }
        ensures same { OnlyGainsRoom self.old self.new }
    {
        if self.flush_room == 0 {
            self.extents.prepare(self.alloc, self.staged.as_slice())?;
            self.flush_room = 1;
        }
        Ok(())
    }

    /// Whether a piece of `len` bytes may be staged at a position, in bytes; it is where the position isn't below the
    /// length and the piece would not end above `FILE_MAX`. The errors are `BelowLength`, else `TooLarge`.
    pub fn can_stage(&self, position: u64, len: u64) -> Result<(), DataFault>
        ensures answer { (bytes : List ℕ) → length bytes ≡ len → result ≡ stage_answer self.now position bytes }
    {
        if position < self.len {
            return Err(DataFault::BelowLength);
        }
        if FILE_MAX < position || FILE_MAX - position < len {
            return Err(DataFault::TooLarge);
        }
        Ok(())
    }

    /// Stages a piece at a position, in bytes. A piece at the same position is replaced. The errors are `BelowLength`
    /// where the position is below the length, else `TooLarge` where the piece would end above `FILE_MAX`; then
    /// nothing changes.
    pub fn stage(&mut self, position: u64, piece: SharedPiece) -> Result<(), DataFault>
        requires room { 0 < self.old.stage_room }
        requires filled { 0 < length piece }
        ensures answer { result ≡ stage_answer self.old position piece }
        ensures staged { OnOk result (SameButRoom (staged_with self.old position piece) self.new) }
        ensures room { self.old.stage_room ≤ self.new.stage_room + 1 }
        ensures refused { OnErr result (self.new ≡ self.old) }
    {
        match self.can_stage(position, piece.bytes().len() as u64) {
            Ok(()) => {}
            Err(fault) => return Err(fault),
        }
        put_piece(&mut self.staged, position, piece);
        self.flush_room = 0;
        Ok(())
    }

    /// Whether a flush to a position, in bytes, is allowed; it is where the position isn't below the length and the
    /// staged pieces below it lie end to end from the length to it. The errors are `BelowLength` where the position is
    /// below the length, else the first trouble from the left: `Gap`, `Overlap` or `WrongPosition`.
    pub fn can_flush(&self, position: u64) -> Result<(), DataFault>
        ensures { result ≡ flush_answer self.now position }
    {
        if position < self.len {
            return Err(DataFault::BelowLength);
        }
        let count = count_below(self.staged.as_slice(), position);
        match trouble(&self.staged.as_slice()[..count], self.len, position) {
            None => Ok(()),
            Some(fault) => Err(fault),
        }
    }

    /// Whether a piece of `len` bytes may be staged at a position, in bytes, and then flushed with what is before it, by
    /// a flush to its end. The errors are those of `can_stage`, else those of `can_flush` after the stage.
    pub fn can_append_flush(&self, position: u64, len: u64) -> Result<(), DataFault>
        requires { 0 < len }
        ensures answer { (bytes : List ℕ) → length bytes ≡ len → result ≡ append_flush_answer self.now position bytes }
    {
        self.can_stage(position, len)?;
        match append_trouble(self.staged.as_slice(), self.len, position, len) {
            None => Ok(()),
            Some(fault) => Err(fault),
        }
    }

    /// Appends the staged pieces below a position, in bytes, and keeps the rest where `retain` is true and else drops
    /// it. No byte is copied: each piece becomes an extent. The errors are those of `can_flush`; then nothing changes.
    pub fn flush(&mut self, position: u64, retain: bool) -> Result<(), DataFault>
        requires { 0 < self.old.flush_room }
        ensures answer { result ≡ flush_answer self.old position }
        ensures flushed { OnOk result (SameButRoom (flushed self.old position retain) self.new) }
        ensures stage_room { self.old.stage_room ≤ self.new.stage_room }
        ensures flush_room { self.old.flush_room ≤ self.new.flush_room + 1 }
        ensures refused { OnErr result (self.new ≡ self.old) }
    {
        self.can_flush(position)?;
        let count = count_below(self.staged.as_slice(), position);
        self.extents.take_up(count);
        drop_first(&mut self.staged, count);
        clear_unless(&mut self.staged, retain);
        self.len = position;
        self.flush_room = 0;
        Ok(())
    }

    /// Appends `n` bytes of the file, from a position on, to `out`. The one error is want of memory, and `out` stays
    /// as it was.
    pub fn read(&self, from: u64, n: u64, out: &mut Vec<u8>) -> Result<(), AllocError>
        requires { from + n ≤ length self.now.committed }
        ensures ok { OnOk result (out.new.items ≡ out.old.items ++ slice_range self.now.committed from (from + n)) }
        ensures err { OnErr result (out.new.items ≡ out.old.items) }
    {
        out.reserve(n as usize)?;
        append_range(self.extents.extents(), from, from + n, out);
        Ok(())
    }

    /// Another file with the same extents and pieces, and the same room. The list of the extents is shared as a whole, so
    /// that a copy takes the same time however many there are; owners are counted for each staged piece, and no byte is
    /// copied. The one error is want of memory, or that no more owners can be counted.
    pub fn copy(&self, alloc: Global) -> Result<FileData, AllocError>
        ensures { IfOk result (λ file. file ≡ self.now) }
    {
        Ok(FileData {
            alloc,
            len: self.len,
            extents: self.extents.copy()?,
            staged: copy_pieces(alloc, &self.staged)?,
            flush_room: self.flush_room,
        })
    }
}
