//! Connections over TCP.

use super::listeners::{Accept, Listener};
use super::outside::{Failed, Sink, Source};
use std::alloc::Global;
use std::io::{ErrorKind, Read, Write};
use std::net::{Shutdown, TcpListener, TcpStream};
use std::sync::Arc;
use std::time::{Clock, Duration};
use std::{io, thread};

/// How long, in seconds, a connection waits for a byte of its client, or for room to write to it; then it has failed.
pub const SILENCE_SECONDS: u64 = 120;

// It reads so often at most, so many bytes at a time, and waits so many milliseconds each time.
const LINGER_READS: u32 = 64;

const LINGER_PIECE: usize = 16_384;

const LINGER_STEP: u64 = 31;

// How long a listener waits, in milliseconds, before it asks again where there was no descriptor.
const ACCEPT_STEP: u64 = 10;

/// The reading half of a TCP connection. It tells nothing of its bytes, and counts errors, a silence of `SILENCE_SECONDS` among them.
///
/// Where it is dropped, the connection's sending side is shut down, and what the client still sends is dropped, for at most two seconds
/// and 1,048,576 bytes: a socket that is closed with unread bytes is reset, and the client might lose the last reply.
pub struct TcpIn {
    stream: Arc<TcpStream>,
    faults: u64,
}

impl Source for TcpIn {
    ghost use Rattle.std.specs.Prelude.{None};

    ghost left = { λ _. None };

    ghost faults = { λ s. s.faults };

    fn read(&mut self, buf: &mut [u8]) -> Result<usize, Failed> {
        let mut stream: &TcpStream = &self.stream;
        for _ in 0..u64::MAX {
            match stream.read(buf) {
                Ok(count) => return Ok(count),
                Err(fault) if fault.kind() == ErrorKind::Interrupted => {}
                Err(_) => break,
            }
        }
        self.faults = self.faults.saturating_add(1);
        Err(Failed)
    }
}

impl Drop for TcpIn {
    fn drop(self) {
        let TcpIn { stream, faults: _ } = self;
        let _ = linger(&stream);
    }
}

// Says that nothing more is written, and reads what is still on its way.
fn linger(stream: &TcpStream) -> io::Result<()> {
    stream.shutdown(Shutdown::Write)?;
    stream.set_read_timeout(Some(Duration::from_millis(LINGER_STEP)))?;
    let mut buf = [0u8; LINGER_PIECE];
    for _ in 0..LINGER_READS {
        drop_some(stream, &mut buf)?;
    }
    Ok(())
}

// Reads once. That nothing came in time is no error, and the end of the bytes is one.
fn drop_some(stream: &TcpStream, buf: &mut [u8]) -> io::Result<()> {
    let mut rest: &TcpStream = stream;
    match rest.read(buf) {
        Ok(0) => Err(io::Error::from(ErrorKind::UnexpectedEof)),
        Ok(_) => Ok(()),
        Err(fault) if is_a_pause(&fault) => Ok(()),
        Err(fault) => Err(fault),
    }
}

// Whether a read only has to be tried again.
fn is_a_pause(fault: &io::Error) -> bool {
    let kind = fault.kind();
    kind == ErrorKind::Interrupted || kind == ErrorKind::WouldBlock || kind == ErrorKind::TimedOut
}

/// The writing half of a TCP connection. It tells nothing of its bytes, and counts errors, a client that takes nothing for
/// `SILENCE_SECONDS` among them.
#[derive(Drop)]
pub struct TcpOut {
    stream: Arc<TcpStream>,
    faults: u64,
}

impl Sink for TcpOut {
    ghost use Rattle.std.specs.Prelude.{None};

    ghost out = { λ _. None };

    ghost faults = { λ s. s.faults };

    fn write(&mut self, piece: &[u8]) -> Result<usize, Failed> {
        let mut stream: &TcpStream = &self.stream;
        for _ in 0..u64::MAX {
            match stream.write(piece) {
                Ok(count) if count > 0 => return Ok(count),
                Err(fault) if fault.kind() == ErrorKind::Interrupted => {}
                _ => break,
            }
        }
        self.faults = self.faults.saturating_add(1);
        Err(Failed)
    }
}

/// A listener over TCP. It never ends by itself. It counts the system's errors: one that concerns a single connection, or a want of
/// descriptors or memory, does not stop it, any other makes it fail.
#[derive(Drop)]
pub struct TcpList<'a, R: Clock> {
    rt: &'a R,
    alloc: Global,
    listener: TcpListener,
    given: u32,
    faults: u64,
}

impl<'a, R: Clock> TcpList<'a, R> {
    ghost use Rattle.std.specs.Prelude.{◌≡◌};

    /// A listener that has given no connection yet. The clock is asked for pauses.
    pub fn new(rt: &'a R, alloc: Global, listener: TcpListener) -> TcpList<'a, R>
        ensures given { result.given ≡ 0 }
        ensures faults { result.faults ≡ 0 }
    {
        TcpList {
            rt,
            alloc,
            listener,
            given: 0,
            faults: 0,
        }
    }

    // The halves of a connection, with its options: what is written goes out at once, and both sides wait for so long and no longer.
    fn halves(&self, stream: TcpStream) -> io::Result<(TcpIn, TcpOut)> {
        let silence = Some(Duration::from_secs(SILENCE_SECONDS));
        stream.set_nodelay(true)?;
        stream.set_read_timeout(silence)?;
        stream.set_write_timeout(silence)?;
        let stream = Arc::new(self.alloc, stream)?;
        let source = TcpIn {
            stream: stream.clone()?,
            faults: 0,
        };
        Ok((source, TcpOut { stream, faults: 0 }))
    }
}

impl<'a, R: Clock> Listener for TcpList<'a, R> {
    ghost use Rattle.std.specs.Prelude.{false, None};

    type In = TcpIn;

    type Out = TcpOut;

    ghost given = { λ s. s.given };

    ghost ended = { λ s. false };

    ghost left = { λ s. None };

    ghost faults = { λ s. s.faults };

    fn accept(&mut self) -> Accept<TcpIn, TcpOut> {
        for _ in 0..u64::MAX {
            let accepted = match self.listener.accept() {
                Ok((stream, _)) => self.halves(stream),
                Err(fault) => Err(fault),
            };
            match accepted {
                Ok((source, sink)) => {
                    self.given += 1;
                    return Accept::Conn(source, sink);
                }
                Err(fault) => {
                    self.faults = self.faults.saturating_add(1);
                    if is_for_good(&fault) {
                        return Accept::Failed;
                    }
                    thread::sleep(self.rt, Duration::from_millis(ACCEPT_STEP));
                }
            }
        }
        self.faults = self.faults.saturating_add(1);
        Accept::Failed
    }
}

// Whether the socket itself can give no connection any more: it is closed, is no socket or does not listen. All else that Linux tells of an
// accept, in accept(2), concerns one connection, or passes.
fn is_for_good(fault: &io::Error) -> bool {
    const EBADF: i32 = 9;
    const EINVAL: i32 = 22;
    const ENOTSOCK: i32 = 88;
    const EOPNOTSUPP: i32 = 95;
    matches!(
        fault.raw_os_error(),
        Some(EBADF | EINVAL | ENOTSOCK | EOPNOTSUPP)
    )
}
