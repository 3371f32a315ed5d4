ghost use Rattle.std.specs.Prelude.{◌≡◌, ℕ, List, ◌+◌, ◌*◌, ◌<◌, ◌≤◌, max, min, length, IfOk, OnOk, vec_len, vec_capacity};
ghost use Rattle.http_front.specs.declared.body.TheConstants.{BODY_READ_MOST};
ghost use Rattle.http_front.specs.declared.limits.TheConstants.{HEAD_MOST};
ghost use Rattle.http_front.specs.Fills.{Fills};
ghost use Rattle.http_front.specs.Requests.{RequestText, Begins};
ghost use Rattle.http_front.specs.Reads.{Counts, Answers};
ghost use Rattle.http_front.specs.Finds.{FindsHead};
ghost use Rattle.http_front.specs.Steps.{TakesKept, FillsBody, Finishes};

use super::answers::{FrontFault, Next};
use super::find::Head;
use super::shared_bodies::SharedBodies;
use super::window::{Window, read_more};
use conn_io::Source;
use std::alloc::{AllocError, Global};

// How much one read of a body asks for at most, in bytes.
const BODY_READ_MOST: usize = 65_536;

// Takes the head and what is kept of its body off the front of the window. The answer is that part of the body.
fn take_kept(
    alloc: Global,
    window: &mut Window,
    head_bytes: usize,
    body_bytes: usize,
) -> Result<Vec<u8>, AllocError>
    requires { head_bytes ≤ length window.old }
    ensures takes { IfOk result (λ body. TakesKept window.old window.new head_bytes body_bytes body.items) }
    ensures few { length window.new ≤ HEAD_MOST }
{
    let count = (window.bytes().len() - head_bytes).min(body_bytes);
    let body = window.bytes()[head_bytes..head_bytes + count].to_vec(alloc)?;
    window.skip(head_bytes + count);
    Ok(body)
}

// Room for one more read of a body: twice as much as came so far or as one read gives, however much is missing.
fn make_room(body: &mut Vec<u8>, missing: usize) -> Result<(), AllocError>
    ensures same { body.new.items ≡ body.old.items }
    ensures some { OnOk result (vec_len body.new + min missing BODY_READ_MOST ≤ vec_capacity body.new) }
    ensures slow { OnOk result (vec_capacity body.new ≤ max (vec_capacity body.old) (2 * vec_len body.old + BODY_READ_MOST)) }
{
    if body.capacity() - body.len() >= missing.min(BODY_READ_MOST) {
        return Ok(());
    }
    body.reserve_exact(missing.min(body.len().max(BODY_READ_MOST)))
}

// One read of the missing bytes of a body.
fn read_piece<S: Source>(
    body: &mut Vec<u8>,
    missing: usize,
    buffer: &mut [u8],
    source: &mut S,
) -> Result<bool, FrontFault>
    requires some { 0 < missing }
    requires size { length buffer.old ≡ BODY_READ_MOST }
    ensures fills { Fills (record { left = S.left source.old; faults = S.faults source.old }) (record { left = S.left source.new; faults = S.faults source.new }) body.old.items body.new.items missing result }
    ensures size { length buffer.new ≡ BODY_READ_MOST }
{
    if make_room(body, missing).is_err() {
        return Err(FrontFault::NoMemory);
    }
    read_more(body, missing.min(BODY_READ_MOST), buffer, source)
}

// Reads the missing bytes of a body of so many bytes: `true` where all are there, `false` where no more come.
fn read_body<S: Source>(body: &mut Vec<u8>, many: usize, source: &mut S) -> Result<bool, FrontFault>
    requires { length body.old.items ≤ many }
    ensures fills { FillsBody (S.left source.old) (S.left source.new) body.old.items body.new.items many result }
    ensures counts { Counts (S.faults source.old) (S.faults source.new) result }
{
    let mut buffer = [0u8; BODY_READ_MOST];
    'reading: while body.len() < many {
        match read_piece(body, many - body.len(), &mut buffer, source) {
            Ok(true) => {}
            Ok(false) => return Ok(false),
            Err(fault) => return Err(fault),
        }
    }
    Ok(true)
}

// The same; a whole body is taken as it is, without a read.
fn fill_body<S: Source>(body: &mut Vec<u8>, many: usize, source: &mut S) -> Result<bool, FrontFault>
    requires { length body.old.items ≤ many }
    ensures fills { FillsBody (S.left source.old) (S.left source.new) body.old.items body.new.items many result }
    ensures counts { Counts (S.faults source.old) (S.faults source.new) result }
    ensures whole { length body.old.items ≡ many → source.new ≡ source.old }
{
    if body.len() == many {
        return Ok(true);
    }
    read_body(body, many, source)
}

/// The request whose head stands at the front of the window, once its body is there. Bytes of the body are taken from the window first,
/// and the missing ones are read, at most 65,536 at a time. Memory is taken as they come.
pub fn finish<S: Source>(
    alloc: Global,
    bodies: &mut SharedBodies,
    window: &mut Window,
    head: Head,
    source: &mut S,
) -> Result<Next, FrontFault>
    requires { FindsHead window.old head }
    ensures finishes { Finishes (S.left source.old) (S.left source.new) window.old window.new head result }
    ensures counts { Counts (S.faults source.old) (S.faults source.new) result }
    ensures few { length window.new ≤ HEAD_MOST }
    ensures kept_first { (t : RequestText) (rest : List ℕ) → Begins window.old t rest
        → (source.new ≡ source.old) × Answers window.old (S.left source.new) window.new result }
{
    let Head {
        parts,
        head_bytes,
        body_bytes,
    } = head;
    let mut body = match take_kept(alloc, window, head_bytes, body_bytes) {
        Ok(body) => body,
        Err(_) => return Err(FrontFault::NoMemory),
    };
    match fill_body(&mut body, body_bytes, source) {
        Ok(true) => {}
        Ok(false) => return Err(FrontFault::CutShort((head_bytes + body.len()) as u64)),
        Err(fault) => return Err(fault),
    }
    match bodies.share(alloc, body) {
        Ok(shared) => Ok(Next::Request(parts.with_body(shared))),
        Err(_) => Err(FrontFault::NoMemory),
    }
}
