ghost use Rattle.std.specs.Prelude.{ℕ, Option, List, ◌<◌, ◌≤◌, length, IfOk};
ghost use Rattle.std.specs.Io.{ReadsAtMost};
ghost use Rattle.std.specs.Io.KnownBytes.{ReadConsumes, WriteAppends};
ghost use Rattle.conn_io.specs.Causes.{HasCause};
ghost use Rattle.conn_io.specs.Moments.{Ticks};
ghost use Rattle.lease_state.specs.declared.lease.TheConstants.{LAST_MOMENT};

use thiserror::Error;

/// A read or a write failed, and the device counted it as a fault.
#[derive(Clone, Copy, Debug, PartialEq, Eq, Error)]
#[error("the device failed")]
pub struct Failed;

/// Where bytes come from.
pub trait Source {
    // The bytes that are still to come, where the source tells them.
    ghost left: { Self → Option (List ℕ) };

    // How often it failed. The count never falls, and stands still at the end of a `u64`.
    ghost faults: { Self → ℕ };

    /// Puts the next bytes at the front of `buf` and answers how many. 0 says that none are left; a source that doesn't
    /// tell its bytes may answer 0 at any time, and that is the end of input. `Failed` comes only where the source's count of
    /// faults rose, and then nothing was taken.
    fn read(&mut self, buf: &mut [u8]) -> Result<usize, Failed>
        requires { 0 < length buf.old }
        ensures bound { ReadsAtMost result buf.new }
        ensures bytes { ReadConsumes (left self.old) (left self.new) result buf.new }
        ensures cause { HasCause (faults self.old) (faults self.new) result };
}

/// Where bytes go.
pub trait Sink {
    // The bytes that were taken so far, where the sink tells them.
    ghost out: { Self → Option (List ℕ) };

    // How often it failed. The count never falls, and stands still at the end of a `u64`.
    ghost faults: { Self → ℕ };

    /// Takes bytes from the front of `piece`, at least one, and answers how many. `Failed` comes only where the sink's count of
    /// faults rose, and then nothing was taken.
    fn write(&mut self, piece: &[u8]) -> Result<usize, Failed>
        requires { 0 < length piece.now }
        ensures some { IfOk result (λ n. 0 < n) }
        ensures bound { IfOk result (λ n. n ≤ length piece.now) }
        ensures bytes { WriteAppends (out self.old) (out self.new) result piece.now }
        ensures cause { HasCause (faults self.old) (faults self.new) result };
}

/// What tells the time.
pub trait Clock {
    // The answer that the k-th next call gives, counted from 0, where the clock tells it.
    ghost ahead: { Self → Option (ℕ → ℕ) };

    /// The moment, in milliseconds since 1970. It may be earlier than the one before.
    fn now(&mut self) -> u64
        ensures range { result ≤ LAST_MOMENT }
        ensures told { Ticks (ahead self.old) (ahead self.new) result };
}
