use super::outside::{Clock, Failed, Sink, Source};
use lease_state::LAST_MOMENT;
use std::io::{Read, Write};
use std::rt;
use std::time::{SystemTime, UNIX_EPOCH};

/// A source over any reader, as standard input. It tells nothing of its bytes, and counts the reader's errors.
#[derive(Drop)]
pub struct StdIn<R: Read> {
    reader: R,
    faults: u64,
}

impl<R: Read> StdIn<R> {
    /// A source that has not failed yet.
    pub fn new(reader: R) -> StdIn<R> {
        StdIn { reader, faults: 0 }
    }
}

impl<R: Read> Source for StdIn<R> {
    ghost use Rattle.std.specs.Prelude.{None};

    ghost left = { λ _. None };

    ghost faults = { λ s. s.faults };

    fn read(&mut self, buf: &mut [u8]) -> Result<usize, Failed> {
        match self.reader.read(buf) {
            Ok(count) => Ok(count),
            Err(_) => {
                self.faults = self.faults.saturating_add(1);
                Err(Failed)
            }
        }
    }
}

/// A sink over any writer, as standard output. It tells nothing of its bytes, and counts the writer's errors; a writer that takes
/// nothing of a piece has failed.
#[derive(Drop)]
pub struct StdOut<W: Write> {
    writer: W,
    faults: u64,
}

impl<W: Write> StdOut<W> {
    /// A sink that has not failed yet.
    pub fn new(writer: W) -> StdOut<W> {
        StdOut { writer, faults: 0 }
    }
}

impl<W: Write> Sink for StdOut<W> {
    ghost use Rattle.std.specs.Prelude.{None};

    ghost out = { λ _. None };

    ghost faults = { λ s. s.faults };

    fn write(&mut self, piece: &[u8]) -> Result<usize, Failed> {
        match self.writer.write(piece) {
            Ok(count) if count > 0 => Ok(count),
            _ => {
                self.faults = self.faults.saturating_add(1);
                Err(Failed)
            }
        }
    }
}

/// The clock of the system. A time outside the range of moments is brought to its nearer end; where the system has no answer, the
/// moment of the call before is answered again.
#[derive(Drop)]
pub struct SystemClock<R: rt::Clock> {
    rt: R,
    last: u64,
}

impl<R: rt::Clock> SystemClock<R> {
    /// A clock that was not asked yet.
    pub fn new(rt: R) -> SystemClock<R> {
        SystemClock { rt, last: 0 }
    }
}

impl<R: rt::Clock> Clock for SystemClock<R> {
    ghost use Rattle.std.specs.Prelude.{None};

    ghost ahead = { λ _. None };

    fn now(&mut self) -> u64 {
        if let Ok(time) = SystemTime::now(&self.rt) {
            if let Ok(since_1970) = time.duration_since(UNIX_EPOCH) {
                self.last = since_1970.as_millis().min(u128::from(LAST_MOMENT)) as u64;
            }
        }
        self.last.min(LAST_MOMENT)
    }
}
