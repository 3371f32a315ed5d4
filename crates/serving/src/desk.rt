ghost use Rattle.std.specs.Prelude.{◌≡◌, ℕ, Bool, [], length, map, IfOk, OnErr, IfErr};
ghost use Rattle.commit_journal.specs.Limits.{LimitNumbers, AreWithin};
ghost use Rattle.namespace_model.specs.declared.request.Entry.{Entry};
ghost use Rattle.namespace_model.specs.declared.request.Request.{Request};
ghost use Rattle.namespace_model.specs.Sound.{IsSound};
ghost use Rattle.serving.specs.Answered.{Answered, HasFull};
ghost use Rattle.serving.specs.Known.{Known, HasItsOwn, Grew};

use super::refusal::SubmitRefusal;
use conn_io::Clock;
use namespace_model::Request;
use std::alloc::Global;

/// What answers the requests of one connection: a server of a journal, which others may share. It may wait for others
/// where its type holds what that takes.
pub trait Desk {
    /// What the journal holds: an entry, with what else the server keeps of it.
    type Kept;

    /// What tells which server it is.
    type Over;

    // The entry in what the journal holds.
    ghost entry_of: { Self.Kept → Entry };
    // What is entered into the journal for a request: the request, or its refusal where the server has no answer to
    // its operation.
    ghost entered: { Request → Request };
    // What is known of the journal, and what of it is the server's own.
    ghost known: { Self → Known Self.Kept };

    ghost is_own: { Self → Self.Kept → Bool };
    // The limits of the journal and of the connection.
    ghost limits: { Self → LimitNumbers };
    // Which server it is, and what of it no request changes.
    ghost over: { Self → Self.Over };
    // The number of the connection.
    ghost conn: { Self → ℕ };
    // The number, counted from 0, of the clock's answer in one call that is the moment, and how often the call asks
    // the clock.
    ghost asks: { ℕ → ℕ → Type 0 };

    /// How many requests of the connection are answered at most.
    fn requests_max(&self) -> u64
        ensures value { result ≡ (limits self.now).requests_max }
        ensures within { AreWithin (limits self.now) }
        ensures own { HasItsOwn (is_own self.now) (known self.now) };

    /// Puts a request into the journal, with its place on the connection and a moment of the clock, and answers the
    /// text of its reply. `Full` comes only where the journal is full; then, as for want of memory, there is no entry
    /// of it.
    fn answer<C: Clock>(
        &mut self,
        alloc: Global,
        clock: &mut C,
        index: u32,
        request: Request,
    ) -> Result<Vec<u8>, SubmitRefusal>
        requires sound { IsSound request }
        requires own { HasItsOwn (is_own self.old) (known self.old) }
        ensures answered { IfOk result (λ text. Answered entry_of (is_own self.old) entered asks (conn self.old)
            (known self.old) (known self.new) (C.ahead clock.old) (C.ahead clock.new) index request text.items) }
        ensures refused { OnErr result (Grew (is_own self.old) (known self.old) (known self.new) []) }
        ensures full { IfErr result (λ refusal.
            HasFull refusal (map entry_of (known self.new).seen) (limits self.old) (length request.body)) }
        ensures same_limits { limits self.new ≡ limits self.old }
        ensures same_conn { conn self.new ≡ conn self.old }
        ensures same_own { is_own self.new ≡ is_own self.old }
        ensures same_over { over self.new ≡ over self.old };
}
