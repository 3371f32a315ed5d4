// The reader of requests where reads fail.
use conn_io::BytesIn;
use http_front::{BadHttp, FrontFault, Next, Raw, Reader};
use std::alloc::{AllocError, Global};
use std::test::Fail;

const GET: &[u8] = b"GET / HTTP/1.1\r\nHost: h\r\n\r\n";

// How many requests come, the fault behind them, and whether the call behind the last answer says that the input ended.
fn answers_of(alloc: Global, source: &mut BytesIn) -> (u64, Option<FrontFault>, bool) {
    let mut reader = Reader::new(alloc);
    let mut requests = 0u64;
    let mut fault = None;
    for _call in 0..1_000 {
        match reader.next(source) {
            Ok(Next::Request(_)) => requests = requests.saturating_add(1),
            Ok(Next::Ended) => break,
            Err(cause) => {
                fault = Some(cause);
                break;
            }
        }
    }
    (
        requests,
        fault,
        matches!(reader.next(source), Ok(Next::Ended)),
    )
}

// A source that gives the text in pieces of so many bytes; the read of this number fails.
fn source_of(
    alloc: Global,
    text: &[u8],
    piece: usize,
    failing: u64,
) -> Result<BytesIn, AllocError> {
    let mut pieces = Vec::new(alloc);
    for part in text.chunks(piece.max(1)) {
        pieces.push(part.to_vec(alloc)?)?;
    }
    let failing = [failing].to_vec(alloc)?;
    Ok(BytesIn::new(alloc, pieces, failing))
}

fn answers_to(
    alloc: Global,
    text: &[u8],
    piece: usize,
    failing: u64,
) -> Result<(u64, Option<FrontFault>, bool), AllocError> {
    let mut source = source_of(alloc, text, piece, failing)?;
    Ok(answers_of(alloc, &mut source))
}

// A head of 64 headers and the first byte of another.
fn crowded(alloc: Global) -> Result<Vec<u8>, AllocError> {
    let mut text = b"GET / HTTP/1.1\r\n".as_slice().to_vec(alloc)?;
    for _header in 0..64 {
        text.extend_from_slice(b"A: b\r\n")?;
    }
    text.push(b'A')?;
    Ok(text)
}

// The answer to bytes that are refused: no request, this cause, and then the end.
fn refused(bad: BadHttp) -> (u64, Option<FrontFault>, bool) {
    (0, Some(FrontFault::Bad(bad)), true)
}

// What is sent behind the request line, and why it is refused.
const REFUSED: [(&str, BadHttp); 6] = [
    ("Transfer-Encoding: chunked\r\n\r\n", BadHttp::NoLength),
    (
        "Content-Length: 1\r\nContent-Length: 1\r\n\r\n",
        BadHttp::BadLength,
    ),
    ("Content-Length: +1\r\n\r\n", BadHttp::BadLength),
    ("Content-Length: \r\n\r\n", BadHttp::BadLength),
    ("Content-Length: 104857601\r\n\r\n", BadHttp::BodyTooLarge),
    ("No colon\r\n\r\n", BadHttp::NoHead),
];

// Each fault shows without another read, which would fail.
#[test]
fn what_shows_a_fault_is_answered_without_another_read(rt: HostRuntime) -> Result<(), Fail> {
    let alloc = rt.alloc();
    let crowded = crowded(alloc)?;
    let answers = answers_to(alloc, crowded.as_slice(), 4096, 1)?;
    assert_eq!(rt; answers, refused(BadHttp::TooManyHeaders));
    assert_eq!(rt; answers_to(alloc, b" ", 4096, 1)?, refused(BadHttp::NoHead));
    for (headers, bad) in REFUSED {
        let text = format!(in alloc; "PUT / HTTP/1.1\r\n{headers}")?;
        assert_eq!(rt;
            answers_to(alloc, text.as_bytes(), 4096, 1)?,
            refused(bad),
            "{headers}"
        );
    }
    Ok(())
}

// A PUT whose body has two bytes.
const PUT: &[u8] = b"PUT / HTTP/1.1\r\nContent-Length: 2\r\n\r\n";

// Where the source ends within the body, and where it fails there.
#[test]
fn a_body_that_is_cut_short_is_no_request(rt: HostRuntime) -> Result<(), Fail> {
    let alloc = rt.alloc();
    let mut text = PUT.to_vec(alloc)?;
    text.push(b'x')?;
    let cut = FrontFault::CutShort(text.len() as u64);
    assert_eq!(rt;
        answers_to(alloc, text.as_slice(), 4096, 9)?,
        (0, Some(cut), true)
    );
    assert_eq!(rt;
        answers_to(alloc, text.as_slice(), 4096, 1)?,
        (0, Some(FrontFault::ReadFault), true)
    );
    text.push(b'y')?;
    assert_eq!(rt;
        answers_to(alloc, text.as_slice(), 4096, 1)?,
        (1, Some(FrontFault::ReadFault), true)
    );
    Ok(())
}

// Byte by byte, so that each request takes 27 reads.
fn is_read_fault(alloc: Global, text: &[u8], call: u64) -> Result<bool, AllocError> {
    let answers = answers_to(alloc, text, 1, call)?;
    Ok(answers == (call / 27, Some(FrontFault::ReadFault), true))
}

#[test]
fn each_read_may_fail(rt: HostRuntime) -> Result<(), Fail> {
    let alloc = rt.alloc();
    let mut text = GET.to_vec(alloc)?;
    text.extend_from_slice(GET)?;
    for call in 0..=54u64 {
        assert!(rt; is_read_fault(alloc, text.as_slice(), call)?, "read {call}");
    }
    Ok(())
}

// The first request of a text.
fn first_of(alloc: Global, text: &[u8]) -> Result<Option<Raw>, AllocError> {
    let mut source = source_of(alloc, text, 4096, 9)?;
    match Reader::new(alloc).next(&mut source) {
        Ok(Next::Request(raw)) => Ok(Some(raw.copy(alloc)?)),
        _ => Ok(None),
    }
}

fn has_pair(raw: &Raw, at: usize, name: &[u8], value: &[u8]) -> bool {
    raw.headers.pairs().get(at).is_some_and(|pair| pair.0.as_slice() == name
        && pair.1.as_slice() == value)
}

#[test]
fn a_request_has_its_parts(rt: HostRuntime) -> Result<(), Fail> {
    let text = b"PUT /data?resource=filesystem HTTP/1.0\r\nHost: h\r\nX-Empty:\r\n\r\n";
    let raw = first_of(rt.alloc(), text)?.ok_or("no request")?;
    assert_eq!(rt; raw.method.bytes(), b"PUT".as_slice());
    assert_eq!(rt; raw.target.bytes(), b"/data?resource=filesystem".as_slice());
    assert_eq!(rt;
        (raw.minor, raw.headers.pairs().len(), raw.body.bytes().len()),
        (0, 2, 0)
    );
    assert!(rt; has_pair(&raw, 0, b"Host", b"h") && has_pair(&raw, 1, b"X-Empty", b""));
    Ok(())
}
