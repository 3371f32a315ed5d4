ghost use Rattle.std.specs.Prelude.{IfOk};
ghost use Rattle.namespace_model.specs.Sound.{IsSound};

use commit_journal::{Full, Limits};
use conn_io::LAST_MOMENT;
use engine::{Answer, Solo, SubmitRefusal};
use file_data::{Piece, SharedPiece};
use head_text::{Conditions, HeaderList};
use http_front::Raw;
use namespace_model::{Code, Op, Request};
use op_decode::decode;
use std::alloc::{AllocError, Global};
use std::test::Fail;

const CREATED: &[u8] =
    b"HTTP/1.1 201 Created\r\nDate: Thu, 01 Jan 1970 00:00:00 GMT\r\nx-ms-request-id: 0000000000000001\r\nx-ms-version: 2020-08-04\r\nETag: \"0x0000000000000001\"\r\nLast-Modified: Thu, 01 Jan 1970 00:00:00 GMT\r\nContent-Length: 0\r\n\r\n";

const REFUSED_CLOSING: &[u8] =
    b"HTTP/1.1 400 Bad Request\r\nDate: Thu, 01 Jan 1970 00:00:00 GMT\r\nx-ms-request-id: 0000000000000001\r\nx-ms-version: 2020-08-04\r\nConnection: close\r\nContent-Type: application/json\r\nx-ms-error-code: InvalidInput\r\nContent-Length: 71\r\n\r\n{\"error\":{\"code\":\"InvalidInput\",\"message\":\"The request is not valid.\"}}";

// A request that was refused in decoding, with so many bytes of body.
fn refused(alloc: Global, body: usize, close: bool) -> Result<Request, AllocError>
    ensures sound { IfOk result (λ request. IsSound request) }
{
    let body = vec![in alloc; 0u8; body]?;
    let body = SharedPiece::new(alloc, Piece::new(body))?;
    Ok(refused_with(body, close))
}

fn refused_with(body: SharedPiece, close: bool) -> Request
    ensures sound { IsSound result }
{
    Request {
        caller: None,
        op: Op::Refused(Code::InvalidInput),
        cond: Conditions {
            matches: None,
            none: None,
            modified: None,
            unmodified: None,
        },
        lease: None,
        source_lease: None,
        head: false,
        close,
        body,
    }
}

fn solo_of(alloc: Global, journal_max: u64, bytes_max: u64) -> Result<Solo, AllocError> {
    match Limits::new(1, journal_max, bytes_max, 1) {
        Some(limits) => Solo::start(alloc, &limits),
        None => Err(AllocError),
    }
}

// Puts a request that was refused in decoding, with so many bytes of body, into the journal.
fn submit(alloc: Global, solo: &mut Solo, body: usize) -> Result<Result<u64, Full>, AllocError> {
    let request = refused(alloc, body, false)?;
    match solo.submit(alloc, 3, 0, request, LAST_MOMENT) {
        Ok(answer) => Ok(Ok(answer.receipt.number)),
        Err(SubmitRefusal::Full(full)) => Ok(Err(full)),
        Err(SubmitRefusal::NoMemory) => Err(AllocError),
    }
}

#[test]
fn a_full_engine_refuses_and_stays(rt: HostRuntime) -> Result<(), Fail> {
    let alloc = rt.alloc();
    let mut solo = solo_of(alloc, 1, 4)?;
    assert!(rt; matches!(submit(alloc, &mut solo, 5)?, Err(Full::JournalBytesFull)));
    assert!(rt; matches!(submit(alloc, &mut solo, 4)?, Ok(1)));
    assert!(rt; matches!(submit(alloc, &mut solo, 0)?, Err(Full::JournalFull)));
    assert_eq!(rt; solo.journal().len(), 1);
    Ok(())
}

fn text_of(alloc: Global, text: &[u8]) -> Result<Piece, AllocError> {
    Ok(Piece::new(text.to_vec(alloc)?))
}

fn pair_of(alloc: Global, name: &[u8], value: &[u8]) -> Result<(Vec<u8>, Vec<u8>), AllocError> {
    Ok((name.to_vec(alloc)?, value.to_vec(alloc)?))
}

// The headers of the superuser, with the source where there is one.
fn headers_of(alloc: Global, source: Option<&[u8]>) -> Result<HeaderList, AllocError> {
    let mut pairs = Vec::new(alloc);
    pairs.push(pair_of(alloc, b"X-MS-Caller", b"$superuser")?)?;
    if let Some(source) = source {
        pairs.push(pair_of(alloc, b"x-ms-rename-source", source)?)?;
    }
    Ok(HeaderList::new(pairs))
}

// What the superuser asks for; with a source it is a rename.
#[derive(Clone, Copy)]
struct Call<'a> {
    method: &'a [u8],
    target: &'a [u8],
    source: Option<&'a [u8]>,
}

impl<'a> Call<'a> {
    fn new(method: &'a [u8], target: &'a [u8]) -> Call<'a> {
        Call {
            method,
            target,
            source: None,
        }
    }
}

// The call as it was read.
fn raw_of(alloc: Global, call: Call<'_>) -> Result<Raw, AllocError> {
    let method = text_of(alloc, call.method)?;
    let target = text_of(alloc, call.target)?;
    let headers = headers_of(alloc, call.source)?;
    let body = SharedPiece::new(alloc, Piece::new(Vec::new(alloc)))?;
    Ok(Raw {
        method,
        target,
        minor: 1,
        headers,
        body,
    })
}

fn answer(alloc: Global, solo: &mut Solo, call: Call<'_>) -> Result<Answer, AllocError> {
    let raw = raw_of(alloc, call)?;
    let request = decode(alloc, &raw)?;
    solo.submit(alloc, 0, 0, request, 0).map_err(|_| AllocError)
}

// The stripes that an entry shared, and those that it had alone, as bits.
fn stripes(alloc: Global, solo: &mut Solo, call: Call<'_>) -> Result<(u64, u64), AllocError> {
    let answer = answer(alloc, solo, call)?;
    Ok((answer.receipt.shared, answer.receipt.exclusive))
}

// The filesystem gets id 1, and /data/a and /data/a/f get 66 and 131, which lie in the stripes 2 and 3.
#[test]
fn receipts_have_the_stripes_of_their_entries(rt: HostRuntime) -> Result<(), Fail> {
    let alloc = rt.alloc();
    let mut solo = solo_of(alloc, 10, 4)?;
    let file = Call::new(b"PUT", b"/data/a/f?resource=file");
    let renamed = Call {
        method: b"PUT",
        target: b"/data/g",
        source: Some(b"/data/a/f"),
    };
    for (call, wanted) in [
        (Call::new(b"PUT", b"/data?resource=filesystem"), (0, 0b11)),
        (file, (0b1, 0b1110)),
        (Call::new(b"GET", b"/data/a/f"), (0b1111, 0)),
        (file, (0b11, 0b1_1100)),
        (renamed, (0b1, 0b1_0110)),
    ] {
        assert_eq!(rt; stripes(alloc, &mut solo, call)?, wanted);
    }
    Ok(())
}

#[test]
fn a_receipt_has_the_number_and_one_round(rt: HostRuntime) -> Result<(), Fail> {
    let alloc = rt.alloc();
    let mut solo = solo_of(alloc, 10, 4)?;
    let call = Call::new(b"PUT", b"/data?resource=filesystem");
    let answer = answer(alloc, &mut solo, call)?;
    assert_eq!(rt; answer.bytes.as_slice(), CREATED);
    assert_eq!(rt; (answer.receipt.number, answer.receipt.rounds), (1, 1));
    Ok(())
}

fn closing_answer(alloc: Global) -> Result<Answer, AllocError> {
    let mut solo = solo_of(alloc, 10, 4)?;
    let request = refused(alloc, 0, true)?;
    solo.submit(alloc, 0, 0, request, 0).map_err(|_| AllocError)
}

#[test]
fn a_reply_that_ends_its_connection_says_so(rt: HostRuntime) -> Result<(), Fail> {
    let answer = closing_answer(rt.alloc())?;
    assert_eq!(rt; answer.bytes.as_slice(), REFUSED_CLOSING);
    Ok(())
}
