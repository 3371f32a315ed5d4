// How a connection ends, and which entries it leaves, where reads and writes fail.
use commit_journal::Limits;
use conn_io::{BytesIn, BytesOut, FixedClock};
use engine::{End, Solo, serve_solo};
use std::alloc::{AllocError, Global};
use std::test::Fail;

const CREATE: &[u8] =
    b"PUT /data?resource=filesystem HTTP/1.1\r\nHost: h\r\nx-ms-caller: $superuser\r\nContent-Length: 0\r\n\r\n";

const CREATED: &[u8] =
    b"HTTP/1.1 201 Created\r\nDate: Thu, 01 Jan 1970 00:00:00 GMT\r\nx-ms-request-id: 0000000000000001\r\nx-ms-version: 2020-08-04\r\nETag: \"0x0000000000000001\"\r\nLast-Modified: Thu, 01 Jan 1970 00:00:00 GMT\r\nContent-Length: 0\r\n\r\n";

const EXISTS: &[u8] =
    b"HTTP/1.1 409 Conflict\r\nDate: Thu, 01 Jan 1970 00:00:00 GMT\r\nx-ms-request-id: 0000000000000002\r\nx-ms-version: 2020-08-04\r\nContent-Type: application/json\r\nx-ms-error-code: FilesystemAlreadyExists\r\nContent-Length: 87\r\n\r\n{\"error\":{\"code\":\"FilesystemAlreadyExists\",\"message\":\"The filesystem already exists.\"}}";

// How a connection ended: the end, how many replies were written whole, how many entries are left, and the bytes that are out.
#[derive(Drop)]
struct Ended {
    end: End,
    answered: u64,
    entries: u64,
    written: Vec<u8>,
}

impl Ended {
    fn is(&self, end: End, answered: u64, entries: u64) -> bool {
        self.end == end && self.answered == answered && self.entries == entries
    }
}

// A source that gives the request to make the filesystem twice, one at a read.
fn source_of(alloc: Global, failing: &[u64]) -> Result<BytesIn, AllocError> {
    let mut pieces = Vec::new(alloc);
    pieces.push(CREATE.to_vec(alloc)?)?;
    pieces.push(CREATE.to_vec(alloc)?)?;
    let failing = failing.to_vec(alloc)?;
    Ok(BytesIn::new(alloc, pieces, failing))
}

fn sink_of(
    alloc: Global,
    most: usize,
    room: usize,
    failing: &[u64],
) -> Result<BytesOut, AllocError> {
    let failing = failing.to_vec(alloc)?;
    BytesOut::new(alloc, most.max(1), room, failing)
}

// Serves the connection, of which so many requests may come.
fn served(
    alloc: Global,
    requests_max: u64,
    source: &mut BytesIn,
    sink: &mut BytesOut,
) -> Result<Ended, AllocError> {
    let Some(limits) = Limits::new(1, 10, 100, requests_max) else {
        return Err(AllocError);
    };
    let mut solo = Solo::start(alloc, &limits)?;
    let (answered, end) = serve_solo(alloc, &mut solo, source, sink, &mut FixedClock(0));
    let entries = solo.journal().len();
    let written = sink.bytes().to_vec(alloc)?;
    Ok(Ended {
        end,
        answered,
        entries,
        written,
    })
}

fn ended_by_most(alloc: Global, requests_max: u64) -> Result<Ended, AllocError> {
    let mut source = source_of(alloc, &[])?;
    let mut sink = sink_of(alloc, 4096, 65536, &[])?;
    served(alloc, requests_max, &mut source, &mut sink)
}

fn ended_by_read(alloc: Global, failing: u64) -> Result<Ended, AllocError> {
    let mut source = source_of(alloc, &[failing])?;
    let mut sink = sink_of(alloc, 4096, 65536, &[])?;
    served(alloc, 10, &mut source, &mut sink)
}

fn ended_by_write(alloc: Global, failing: u64) -> Result<Ended, AllocError> {
    let mut source = source_of(alloc, &[])?;
    let mut sink = sink_of(alloc, 7, 65536, &[failing])?;
    served(alloc, 10, &mut source, &mut sink)
}

fn ended_by_room(alloc: Global, room: usize) -> Result<Ended, AllocError> {
    let mut source = source_of(alloc, &[])?;
    let mut sink = sink_of(alloc, 4096, room, &[])?;
    served(alloc, 10, &mut source, &mut sink)
}

#[test]
fn as_many_as_may_be_sent_are_answered(rt: HostRuntime) -> Result<(), Fail> {
    let ended = ended_by_most(rt.alloc(), 1)?;
    assert!(rt; ended.is(End::Spent, 1, 1));
    assert_eq!(rt; ended.written.as_slice(), CREATED);
    Ok(())
}

#[test]
fn each_read_fails_in_turn(rt: HostRuntime) -> Result<(), Fail> {
    let alloc = rt.alloc();
    for (failing, end, answered) in [
        (0, End::ReadFault, 0),
        (1, End::ReadFault, 1),
        (2, End::ReadFault, 2),
        (3, End::Done, 2),
    ] {
        assert!(rt;
            ended_by_read(alloc, failing)?.is(end, answered, answered),
            "read {failing}"
        );
    }
    Ok(())
}

// How many writes of 7 bytes take so many bytes.
fn writes(bytes: usize) -> usize {
    bytes.div_ceil(7)
}

// Whether this is how write `failing` ends it: each reply takes a write for each 7 of its bytes, and those before it are out.
fn is_right(ended: &Ended, failing: usize) -> bool {
    let first = writes(CREATED.len());
    let both = first.saturating_add(writes(EXISTS.len()));
    let written = ended.written.as_slice();
    if failing < first {
        return ended.is(End::WriteFault, 0, 1)
            && is_front(written, &CREATED[..0], CREATED, failing);
    }
    if failing < both {
        return ended.is(End::WriteFault, 1, 2)
            && is_front(written, CREATED, EXISTS, failing.saturating_sub(first));
    }
    ended.is(End::Done, 2, 2) && is_front(written, CREATED, EXISTS, both)
}

// Whether the bytes are the text, and of the next one what so many writes take.
fn is_front(bytes: &[u8], text: &[u8], next: &[u8], writes: usize) -> bool {
    let taken = next.len().min(writes.saturating_mul(7));
    bytes
        .strip_prefix(text)
        .is_some_and(|rest| rest == &next[..taken])
}

#[test]
fn each_write_fails_in_turn(rt: HostRuntime) -> Result<(), Fail> {
    let alloc = rt.alloc();
    let all = writes(CREATED.len()).saturating_add(writes(EXISTS.len()));
    for failing in 0..=all {
        let ended = ended_by_write(alloc, failing as u64)?;
        assert!(rt; is_right(&ended, failing), "write {failing}");
    }
    Ok(())
}

#[test]
fn a_reply_that_breaks_off_keeps_its_entry(rt: HostRuntime) -> Result<(), Fail> {
    let ended = ended_by_room(rt.alloc(), CREATED.len() + 7)?;
    assert!(rt; ended.is(End::WriteFault, 1, 2));
    assert!(rt; is_front(ended.written.as_slice(), CREATED, EXISTS, 1));
    Ok(())
}
