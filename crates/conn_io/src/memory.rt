ghost use Rattle.std.specs.Prelude.{◌≡◌, ℕ, ◌+◌, ◌-◌, ◌<◌, ◌≤◌, ◌++◌, [], min, take, drop, length, IfOk, vec_capacity};

use super::outside::{Failed, Sink, Source};
use std::alloc::{AllocError, Global};
use std::collections::VecDeque;

/// A source in memory: pieces of bytes that come one after the other.
#[derive(Drop)]
pub struct BytesIn {
    piece: Vec<u8>,
    at: usize,
    pieces: VecDeque<Vec<u8>>,
    failing: Vec<u64>,
    calls: u64,
    faults: u64,
    ghost within: { at ≤ length piece.items },
}

impl BytesIn {
    ghost use Rattle.conn_io.specs.Memory.{bytes_left, IsNewSource};

    /// A source of these pieces in their order. Call `k`, counted from 0, fails if `k` is in `failing`; each other call gives bytes
    /// of at most one piece. Empty pieces are passed over.
    pub fn new(alloc: Global, pieces: Vec<Vec<u8>>, failing: Vec<u64>) -> BytesIn
        ensures { IsNewSource pieces.items failing.items result }
    {
        BytesIn {
            piece: Vec::new(alloc),
            at: 0,
            pieces: VecDeque::from_vec(pieces),
            failing,
            calls: 0,
            faults: 0,
        }
    }

    // Drops pieces that are used up from the front, until one with bytes left is at hand or none is there.
    fn advance(&mut self)
        ensures bytes { bytes_left self.new ≡ bytes_left self.old }
        ensures faults { self.new.faults ≡ self.old.faults }
        ensures failing { self.new.failing ≡ self.old.failing }
        ensures calls { self.new.calls ≡ self.old.calls }
        ensures at_hand { self.new.at ≡ length self.new.piece.items → self.new.pieces.items ≡ [] }
    {
        'skipping: while self.at == self.piece.len() {
            match self.pieces.pop_front() {
                None => return,
                Some(piece) => {
                    self.piece = piece;
                    self.at = 0;
                }
            }
        }
    }
}

impl Source for BytesIn {
    ghost use Rattle.std.specs.Prelude.{◌≡◌, ℕ, ◌<◌, ◌↔◌, Some, length, IsErr};
    ghost use Rattle.std.specs.Io.{ReadsAtMost};
    ghost use Rattle.std.specs.Io.KnownBytes.{ReadConsumes};
    ghost use Rattle.conn_io.specs.Causes.{HasCause};
    ghost use Rattle.conn_io.specs.Memory.{bytes_left, ReadFails, IsAsked};

    ghost left = { λ s. Some (bytes_left s) };

    ghost faults = { λ s. s.faults };

    fn read(&mut self, buf: &mut [u8]) -> Result<usize, Failed>
        requires { 0 < length buf.old }
        ensures bound { ReadsAtMost result buf.new }
        ensures bytes { ReadConsumes (Some (bytes_left self.old)) (Some (bytes_left self.new)) result buf.new }
        ensures cause { HasCause self.old.faults self.new.faults result }
        ensures fails { IsErr result ↔ ReadFails self.old }
        ensures asked { IsAsked self.old self.new }
    {
        let call = self.calls;
        self.calls = call.saturating_add(1);
        if self.failing.contains(&call) {
            self.faults = self.faults.saturating_add(1);
            return Err(Failed);
        }
        self.advance();
        let count = copy_front(self.piece.as_slice(), self.at, buf);
        self.at += count;
        Ok(count)
    }
}

// Copies what stands in the piece from `at` on, as much as there is room for, and answers how much.
fn copy_front(piece: &[u8], at: usize, buf: &mut [u8]) -> usize
    requires { at ≤ length piece.now }
    ensures count { result ≡ min (length piece.now - at) (length buf.old) }
    ensures copied { drop at piece.now ≡ take result buf.new ++ drop (at + result) piece.now }
{
    let count = (piece.len() - at).min(buf.len());
    buf[..count].copy_from_slice(&piece[at..at + count]);
    count
}

/// A sink in memory that has a room of so many bytes.
#[derive(Drop)]
pub struct BytesOut {
    bytes: Vec<u8>,
    most: usize,
    room: usize,
    failing: Vec<u64>,
    calls: u64,
    faults: u64,
    ghost some: { 0 < most },
    ghost reserved: { room ≤ vec_capacity bytes },
}

impl BytesOut {
    ghost use Rattle.conn_io.specs.Memory.{bytes_taken, IsNewSink};

    /// A sink that takes at most `most` bytes at a call and `room` bytes in all. Call `k`, counted from 0, fails exactly where `k` is in
    /// `failing` or all the room is taken. The one error is want of memory for the room.
    pub fn new(
        alloc: Global,
        most: usize,
        room: usize,
        failing: Vec<u64>,
    ) -> Result<BytesOut, AllocError>
        requires { 0 < most }
        ensures { IfOk result (IsNewSink most room failing.items) }
    {
        Ok(BytesOut {
            bytes: Vec::with_capacity(alloc, room)?,
            most,
            room,
            failing,
            calls: 0,
            faults: 0,
        })
    }

    /// What was taken so far.
    pub fn bytes(&self) -> &[u8]
        ensures { result.now ≡ bytes_taken self.now }
    {
        self.bytes.as_slice()
    }
}

impl Sink for BytesOut {
    ghost use Rattle.std.specs.Prelude.{◌≡◌, ◌<◌, ◌≤◌, ◌↔◌, Some, length, IfOk, IsErr};
    ghost use Rattle.std.specs.Io.KnownBytes.{WriteAppends};
    ghost use Rattle.conn_io.specs.Causes.{HasCause};
    ghost use Rattle.conn_io.specs.Memory.{bytes_taken, amount_taken, WriteFails, IsGiven};

    ghost out = { λ s. Some (bytes_taken s) };

    ghost faults = { λ s. s.faults };

    fn write(&mut self, piece: &[u8]) -> Result<usize, Failed>
        requires { 0 < length piece.now }
        ensures some { IfOk result (λ n. 0 < n) }
        ensures bound { IfOk result (λ n. n ≤ length piece.now) }
        ensures bytes { WriteAppends (Some (bytes_taken self.old)) (Some (bytes_taken self.new)) result piece.now }
        ensures cause { HasCause self.old.faults self.new.faults result }
        ensures fails { IsErr result ↔ WriteFails self.old }
        ensures amount { IfOk result (λ n. n ≡ amount_taken self.old piece.now) }
        ensures given { IsGiven self.old self.new }
    {
        let call = self.calls;
        self.calls = call.saturating_add(1);
        let taken = self.bytes.len();
        if self.failing.contains(&call) || self.room <= taken {
            self.faults = self.faults.saturating_add(1);
            return Err(Failed);
        }
        let count = piece.len().min(self.most).min(self.room - taken);
        match self.bytes.extend_from_slice(&piece[..count]) {
            Ok(()) => Ok(count),
            Err(_) => unreachable!(),
        }
    }
}
