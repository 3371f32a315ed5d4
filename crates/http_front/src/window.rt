ghost use Rattle.std.specs.Prelude.{◌≡◌, ◌+◌, ◌<◌, ◌≤◌, length, vec_len, vec_capacity};
ghost use Rattle.http_front.specs.Fills.{Fills};

use super::answers::FrontFault;
use super::limits::HEAD_MOST;
use conn_io::{Failed, Source};
use std::alloc::Global;
use std::marker::Model;

/// The bytes that were read and belong to no request yet, at most as many as a head may have. A contract sees the list of them.
#[derive(Drop)]
pub struct Window {
    bytes: Vec<u8>,
    start: usize,
}

impl Model for Window {
    ghost use Rattle.std.specs.Prelude.{List, ℕ, ◌≤◌, ◌-◌, ◌+◌, drop, length};
    ghost use Rattle.http_front.specs.declared.limits.TheConstants.{HEAD_MOST};

    ghost Value = { List ℕ };

    ghost view = { λ w. drop w.start w.bytes.items };

    ghost invariant = { λ w. (w.start ≤ length w.bytes.items) × (length w.bytes.items ≤ w.start + HEAD_MOST) };
}

impl Window {
    ghost use Rattle.std.specs.Prelude.{ℕ, List, ◌≡◌, ◌+◌, ◌<◌, ◌≤◌, [], drop, length};
    ghost use Rattle.http_front.specs.declared.limits.TheConstants.{HEAD_MOST};
    ghost use Rattle.http_front.specs.Fills.{Fills};

    /// No bytes. Takes no memory.
    pub fn new(alloc: Global) -> Window
        ensures { result ≡ [] }
    {
        Window {
            bytes: Vec::new(alloc),
            start: 0,
        }
    }

    /// The bytes.
    pub fn bytes(&self) -> &[u8]
        ensures value { result.now ≡ self.now }
        ensures few { length self.now ≤ HEAD_MOST }
    {
        &self.bytes[self.start..]
    }

    /// Drops so many bytes from the front.
    pub fn skip(&mut self, count: usize)
        requires { count ≤ length self.old }
        ensures { self.new ≡ drop count self.old }
    {
        self.start += count;
    }

    // Moves the bytes to the front of their memory.
    fn settle(&mut self)
        ensures { self.new ≡ self.old }
    {
        if self.start > 0 {
            let count = self.bytes.len() - self.start;
            self.bytes.copy_within(self.start.., 0);
            self.bytes.truncate(count);
            self.start = 0;
        }
    }

    /// Drops all bytes.
    pub fn clear(&mut self)
        ensures { self.new ≡ [] }
    {
        self.bytes.clear();
        self.start = 0;
    }

    /// Reads once, as many bytes as a head may still have, and keeps what came: `true` where some bytes came, `false` where the source
    /// gave none. `ReadFault` comes only where the source's count of faults rose, and `NoMemory` before the source is asked; no byte is
    /// lost at either.
    pub fn fill<S: Source>(&mut self, source: &mut S) -> Result<bool, FrontFault>
        requires { length self.old < HEAD_MOST }
        ensures few { length self.new ≤ HEAD_MOST }
        ensures fills { Fills (record { left = S.left source.old; faults = S.faults source.old }) (record { left = S.left source.new; faults = S.faults source.new }) self.old self.new HEAD_MOST result }
    {
        self.settle();
        let room = HEAD_MOST - (self.bytes.len() - self.start);
        if self.bytes.reserve(room).is_err() {
            return Err(FrontFault::NoMemory);
        }
        let mut buffer = [0u8; HEAD_MOST];
        read_more(&mut self.bytes, room, &mut buffer, source)
    }
}

/// One read of at most `most` bytes, which go through the buffer, behind those that are there.
pub fn read_more<S: Source>(
    bytes: &mut Vec<u8>,
    most: usize,
    buffer: &mut [u8],
    source: &mut S,
) -> Result<bool, FrontFault>
    requires some { 0 < most }
    requires fits { most ≤ length buffer.old }
    requires room { vec_len bytes.old + most ≤ vec_capacity bytes.old }
    ensures fills { Fills (record { left = S.left source.old; faults = S.faults source.old }) (record { left = S.left source.new; faults = S.faults source.new }) bytes.old.items bytes.new.items most result }
    ensures size { length buffer.new ≡ length buffer.old }
{
    match source.read(&mut buffer[..most]) {
        Err(Failed) => Err(FrontFault::ReadFault),
        Ok(0) => Ok(false),
        Ok(count) => match bytes.extend_from_slice(&buffer[..count]) {
            Ok(()) => Ok(true),
            Err(_) => unreachable!(),
        },
    }
}
