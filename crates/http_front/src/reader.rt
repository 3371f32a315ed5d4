ghost use Rattle.std.specs.Prelude.{◌≡◌, ℕ, ◌≤◌, List, [], length, IfOk};
ghost use Rattle.httparse.specs.Grammar.{RequestHead};
ghost use Rattle.http_front.specs.Requests.{RequestText, Begins};
ghost use Rattle.http_front.specs.Reads.{BeginsWithHead, Reads, Counts, Answers, is_last};
ghost use Rattle.http_front.specs.Finds.{FindsAt};
ghost use Rattle.http_front.specs.Steps.{AwaitsMeeting, EndsWith};
ghost use Rattle.http_front.specs.declared.limits.TheConstants.{HEAD_MOST};

use super::answers::{FrontFault, Next};
use super::body::finish;
use super::find::{Found, Head, find_head};
use super::shared_bodies::SharedBodies;
use super::window::Window;
use conn_io::Source;
use std::alloc::{AllocError, Global};
use std::marker::Model;

/// Takes requests from a source, one after the other. It keeps the bytes that were read and belong to no request yet, at most 16,384 of
/// them, and none once it has answered its last; and one empty body, which all requests without a body have together. A contract sees
/// the bytes that it keeps, and whether the reader has answered its last.
#[derive(Drop)]
pub struct Reader {
    alloc: Global,
    bodies: SharedBodies,
    window: Window,
    over: bool,
}

impl Model for Reader {
    ghost use Rattle.http_front.specs.Reads.{Kept};

    ghost Value = { Kept };

    ghost view = { λ r. record { bytes = r.window; over = r.over } };

    ghost use Rattle.std.specs.Prelude.{◌≡◌, ◌≤◌, [], true, length};
    ghost use Rattle.http_front.specs.declared.limits.TheConstants.{HEAD_MOST};

    ghost invariant = { λ r. (length r.window ≤ HEAD_MOST) × (r.over ≡ true → r.window ≡ []) };
}

impl Reader {
    ghost use Rattle.std.specs.Prelude.{◌≡◌, ℕ, ◌≤◌, List, [], true, false, Ok, length};
    ghost use Rattle.http_front.specs.declared.limits.TheConstants.{HEAD_MOST};
    ghost use Rattle.http_front.specs.Requests.{RequestText, Begins};
    ghost use Rattle.http_front.specs.Reads.{Reads, Counts, Answers, IsForetold, is_last};

    /// A reader that keeps nothing yet. It takes no memory.
    pub fn new(alloc: Global) -> Reader
        ensures none { result.bytes ≡ [] }
        ensures not_over { result.over ≡ false }
    {
        Reader {
            alloc,
            bodies: SharedBodies::new(),
            window: Window::new(alloc),
            over: false,
        }
    }

    /// How many bytes were read that belong to no request yet.
    pub fn kept(&self) -> u64
        ensures count { result ≡ length self.now.bytes }
        ensures few { result ≤ HEAD_MOST }
        ensures none { self.now.over ≡ true → result ≡ 0 }
    {
        self.window.bytes().len() as u64
    }

    /// The next complete request, or the end of the input. A request whose bytes are all kept is answered without a read; else bytes are
    /// read: while there is no whole head, no more than are missing to 16,384 kept bytes; behind a head no more than are missing of its
    /// body, at most 65,536 at a time. Memory for a body is taken as its bytes come, not by the length that is told. After a fault or the
    /// end every call answers `Ended`.
    ///
    /// `Bad` comes where the bytes show that no request is taken, with the cause; `CutShort` where the source gave none and some bytes
    /// came that are the beginning of a request; `ReadFault` where the source's count of faults rose; `NoMemory` for want of memory.
    /// Behind a fault or the end no byte is kept.
    pub fn next<S: Source>(&mut self, source: &mut S) -> Result<Next, FrontFault>
        // What a reader that is not over took, and what its answer says of the bytes.
        ensures answered { self.old.over ≡ false
            → Reads (S.left source.old) (S.left source.new) self.old.bytes self.new.bytes result }
        ensures kept_first { (t : RequestText) (rest : List ℕ) → self.old.over ≡ false → Begins self.old.bytes t rest
            → (source.new ≡ source.old) × Answers self.old.bytes (S.left source.new) self.new.bytes result }

        // Where the source tells what it has left: which answer all the bytes call for, unless the outside failed.
        ensures foretold { self.old.over ≡ false → IsForetold self.old.bytes (S.left source.old) result }
        ensures counts { Counts (S.faults source.old) (S.faults source.new) result }

        // What is kept.
        ensures few { length self.new.bytes ≤ HEAD_MOST }
        ensures none { is_last result ≡ true → self.new.bytes ≡ [] }

        // Behind the end and behind any fault.
        ensures over { self.new.over ≡ is_last result }
        ensures ended { self.old.over ≡ true
            → (result ≡ Ok Next.Ended) × (source.new ≡ source.old) × (self.new ≡ self.old) }
    {
        if self.over {
            return Ok(Next::Ended);
        }
        let answer = answer(self.alloc, &mut self.bodies, &mut self.window, source);
        if is_last(&answer) {
            self.window.clear();
            self.over = true;
        }
        answer
    }
}

// Whether the reader is over behind this answer.
fn is_last(answer: &Result<Next, FrontFault>) -> bool
    ensures { result ≡ is_last answer.now }
{
    match answer {
        Ok(Next::Request(_)) => false,
        Ok(Next::Ended) => true,
        Err(_) => true,
    }
}

// The answer of a reader that is not over.
fn answer<S: Source>(
    alloc: Global,
    bodies: &mut SharedBodies,
    window: &mut Window,
    source: &mut S,
) -> Result<Next, FrontFault>
    ensures reads { Reads (S.left source.old) (S.left source.new) window.old window.new result }
    ensures kept_first { (t : RequestText) (rest : List ℕ) → Begins window.old t rest
        → (source.new ≡ source.old) × Answers window.old (S.left source.new) window.new result }
    ensures counts { Counts (S.faults source.old) (S.faults source.new) result }
    ensures few { length window.new ≤ HEAD_MOST }
{
    match meet_head(alloc, window, source) {
        Ok(Some(head)) => finish(alloc, bodies, window, head, source),
        Ok(None) => Ok(Next::Ended),
        Err(fault) => Err(fault),
    }
}

// Reads until a head stands at the front, or the bytes say another answer, or no more come.
fn meet_head<S: Source>(
    alloc: Global,
    window: &mut Window,
    source: &mut S,
) -> Result<Option<Head>, FrontFault>
    ensures awaits { AwaitsMeeting (S.left source.old) (S.left source.new) window.old window.new result }
    ensures kept_first { (head : RequestHead) (rest : List ℕ) → BeginsWithHead window.old head rest
        → (source.new ≡ source.old) × (window.new ≡ window.old) }
    ensures counts { Counts (S.faults source.old) (S.faults source.new) result }
    ensures few { length window.new ≤ HEAD_MOST }
{
    'reading: loop {
        match look(alloc, window.bytes()) {
            Ok(Found::Head(head)) => return Ok(Some(head)),
            Ok(Found::Unfinished) => {}
            Ok(Found::Bad(bad)) => return Err(FrontFault::Bad(bad)),
            Err(_) => return Err(FrontFault::NoMemory),
        }
        match window.fill(source) {
            Ok(true) => {}
            Ok(false) => return at_end(window.bytes()),
            Err(fault) => return Err(fault),
        }
    }
}

// What the bytes that are kept say.
fn look(alloc: Global, bytes: &[u8]) -> Result<Found, AllocError>
    requires { length bytes.now ≤ HEAD_MOST }
    ensures { IfOk result (FindsAt bytes.now) }
{
    if bytes.is_empty() {
        return Ok(Found::Unfinished);
    }
    find_head(alloc, bytes)
}

// The answer where no more bytes come.
fn at_end(kept: &[u8]) -> Result<Option<Head>, FrontFault>
    ensures { EndsWith kept.now result }
{
    match kept.len() {
        0 => Ok(None),
        count => Err(FrontFault::CutShort(count as u64)),
    }
}
