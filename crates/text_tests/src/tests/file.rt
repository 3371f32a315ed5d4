use file_data::{DataFault, FILE_MAX, FileData, Piece, SharedPiece};
use std::alloc::{AllocError, Global};
use std::test::Fail;

// What is done to a file: a piece is appended at a position, without or with a flush, or what is below a position is
// flushed, and what is above is kept or not.
#[derive(Clone, Copy)]
enum Step<'a> {
    Append(u64, &'a [u8]),
    AppendFlush(u64, &'a [u8]),
    Flush(u64, bool),
}

fn append(
    alloc: Global,
    file: &mut FileData,
    position: u64,
    bytes: &[u8],
) -> Result<Result<(), DataFault>, AllocError> {
    if bytes.is_empty() {
        return Ok(Ok(()));
    }
    let piece = SharedPiece::new(alloc, Piece::new(bytes.to_vec(alloc)?))?;
    file.reserve_stage()?;
    Ok(file.stage(position, piece))
}

fn flush(
    file: &mut FileData,
    position: u64,
    retain: bool,
) -> Result<Result<(), DataFault>, AllocError> {
    file.reserve_flush()?;
    Ok(file.flush(position, retain))
}

fn append_flush(
    alloc: Global,
    file: &mut FileData,
    position: u64,
    bytes: &[u8],
) -> Result<Result<(), DataFault>, AllocError> {
    if bytes.is_empty() {
        return Ok(Ok(()));
    }
    let len = bytes.len() as u64;
    if let Err(fault) = file.can_append_flush(position, len) {
        return Ok(Err(fault));
    }
    if let Err(fault) = append(alloc, file, position, bytes)? {
        return Ok(Err(fault));
    }
    flush(file, position.saturating_add(len), false)
}

fn answer_of(
    alloc: Global,
    file: &mut FileData,
    step: &Step<'_>,
) -> Result<Result<(), DataFault>, AllocError> {
    match step {
        Step::Append(position, bytes) => append(alloc, file, *position, bytes),
        Step::AppendFlush(position, bytes) => append_flush(alloc, file, *position, bytes),
        Step::Flush(position, retain) => flush(file, *position, *retain),
    }
}

// The answer of the first step that is refused, and whether all others are allowed.
fn steps(
    alloc: Global,
    file: &mut FileData,
    steps: &[Step<'_>],
) -> Result<Result<(), DataFault>, AllocError> {
    for step in steps {
        if let Err(fault) = answer_of(alloc, file, step)? {
            return Ok(Err(fault));
        }
    }
    Ok(Ok(()))
}

fn part(alloc: Global, file: &FileData, from: u64, n: u64) -> Result<Vec<u8>, AllocError> {
    let mut out = Vec::new(alloc);
    if from <= file.len() && n <= file.len() - from {
        file.read(from, n, &mut out)?;
    }
    Ok(out)
}

fn whole(alloc: Global, file: &FileData) -> Result<Vec<u8>, AllocError> {
    part(alloc, file, 0, file.len())
}

// `count` bytes, the alphabet over and over, each appended for itself; flushed one by one or at once.
fn letters(alloc: Global, count: u64, at_once: bool) -> Result<FileData, AllocError> {
    let mut file = FileData::new(alloc);
    for at in 0..count {
        let _answer = append(alloc, &mut file, at, &[b'a' + (at % 26) as u8])?;
        if !at_once {
            let _answer = flush(&mut file, at + 1, false)?;
        }
    }
    let _answer = flush(&mut file, count, false)?;
    Ok(file)
}

#[test]
fn pieces_keep_and_share_their_bytes(rt: HostRuntime) -> Result<(), Fail> {
    let piece = Piece::new(b"hello".as_slice().to_vec(rt.alloc())?);
    assert_eq!(rt; piece.copy(rt.alloc())?.bytes(), b"hello".as_slice());
    let shared = SharedPiece::new(rt.alloc(), piece)?;
    assert_eq!(rt; shared.copy()?.bytes(), b"hello".as_slice());
    Ok(())
}

#[test]
fn pieces_are_flushed_in_the_order_of_their_positions(rt: HostRuntime) -> Result<(), Fail> {
    let mut file = FileData::new(rt.alloc());
    let answer = steps(
        rt.alloc(),
        &mut file,
        &[
            Step::Append(5, b"world".as_slice()),
            Step::Append(0, b"hello".as_slice()),
            Step::Flush(10, false),
        ],
    )?;
    assert_eq!(rt; answer, Ok(()));
    assert_eq!(rt;
        whole(rt.alloc(), &file)?.as_slice(),
        b"helloworld".as_slice()
    );
    Ok(())
}

#[test]
fn what_is_above_a_flush_is_kept_where_it_says_so(rt: HostRuntime) -> Result<(), Fail> {
    let mut file = FileData::new(rt.alloc());
    let answer = steps(
        rt.alloc(),
        &mut file,
        &[
            Step::Append(0, b"abc".as_slice()),
            Step::Append(3, b"defg".as_slice()),
            Step::Flush(3, true),
            Step::Flush(7, false),
            Step::Append(7, b"h".as_slice()),
            Step::Flush(7, false),
            Step::Flush(8, false),
        ],
    )?;
    assert_eq!(rt; answer, Err(DataFault::Gap(7)));
    assert_eq!(rt; whole(rt.alloc(), &file)?.as_slice(), b"abcdefg".as_slice());
    Ok(())
}

// The first fault of steps on a new file.
fn fault_of(alloc: Global, list: &[Step<'_>]) -> Result<Result<(), DataFault>, AllocError> {
    steps(alloc, &mut FileData::new(alloc), list)
}

#[test]
fn each_trouble_of_a_flush_is_named(rt: HostRuntime) -> Result<(), Fail> {
    let abcd = Step::Append(2, b"abcd".as_slice());
    let xy = Step::Append(0, b"xy".as_slice());
    assert_eq!(rt;
        fault_of(rt.alloc(), &[abcd, Step::Flush(6, false)])?,
        Err(DataFault::Gap(0))
    );
    assert_eq!(rt;
        fault_of(rt.alloc(), &[xy, Step::Flush(1, false)])?,
        Err(DataFault::WrongPosition)
    );
    Ok(())
}

#[test]
fn pieces_overlap(rt: HostRuntime) -> Result<(), Fail> {
    let list = [
        Step::Append(0, b"abcd".as_slice()),
        Step::Append(2, b"xy".as_slice()),
        Step::Flush(4, false),
    ];
    assert_eq!(rt; fault_of(rt.alloc(), &list)?, Err(DataFault::Overlap(2)));
    Ok(())
}

#[test]
fn a_piece_replaces_another_at_its_position(rt: HostRuntime) -> Result<(), Fail> {
    let mut file = FileData::new(rt.alloc());
    let answer = steps(
        rt.alloc(),
        &mut file,
        &[
            Step::Append(0, b"abc".as_slice()),
            Step::Append(0, b"de".as_slice()),
            Step::Flush(2, false),
        ],
    )?;
    assert_eq!(rt; answer, Ok(()));
    assert_eq!(rt; whole(rt.alloc(), &file)?.as_slice(), b"de".as_slice());
    Ok(())
}

#[test]
fn nothing_is_appended_below_the_length(rt: HostRuntime) -> Result<(), Fail> {
    let list = [
        Step::AppendFlush(0, b"ab".as_slice()),
        Step::Append(1, b"x".as_slice()),
    ];
    assert_eq!(rt; fault_of(rt.alloc(), &list)?, Err(DataFault::BelowLength));
    assert_eq!(rt; FileData::new(rt.alloc()).can_flush(0), Ok(()));
    Ok(())
}

#[test]
fn a_file_has_a_limit(rt: HostRuntime) -> Result<(), Fail> {
    let file = FileData::new(rt.alloc());
    assert_eq!(rt; file.can_stage(FILE_MAX - 1, 1), Ok(()));
    assert_eq!(rt; file.can_stage(FILE_MAX - 1, 2), Err(DataFault::TooLarge));
    Ok(())
}

#[test]
fn three_pieces_in_every_order(rt: HostRuntime) -> Result<(), Fail> {
    let alloc = rt.alloc();
    let first = (0, b"one ".as_slice());
    let second = (4, b"two ".as_slice());
    let third = (8, b"three".as_slice());
    for (one, two, three) in [
        (first, second, third),
        (first, third, second),
        (second, first, third),
        (second, third, first),
        (third, first, second),
        (third, second, first),
    ] {
        let mut file = FileData::new(alloc);
        let list = [
            Step::Append(one.0, one.1),
            Step::Append(two.0, two.1),
            Step::Append(three.0, three.1),
            Step::Flush(13, false),
        ];
        let _answer = steps(alloc, &mut file, &list)?;
        assert_eq!(rt;
            whole(alloc, &file)?.as_slice(),
            b"one two three".as_slice()
        );
    }
    Ok(())
}

#[test]
fn a_read_goes_over_extents(rt: HostRuntime) -> Result<(), Fail> {
    let mut file = FileData::new(rt.alloc());
    let list = [
        Step::Append(0, b"abc".as_slice()),
        Step::Append(3, b"defg".as_slice()),
        Step::Flush(7, false),
    ];
    assert_eq!(rt; steps(rt.alloc(), &mut file, &list)?, Ok(()));
    assert_eq!(rt;
        part(rt.alloc(), &file, 2, 3)?.as_slice(),
        b"cde".as_slice()
    );
    Ok(())
}

#[test]
fn a_refused_append_with_flush_leaves_nothing(rt: HostRuntime) -> Result<(), Fail> {
    let mut file = FileData::new(rt.alloc());
    let hello = Step::AppendFlush(0, b"hello".as_slice());
    let list = [hello, Step::AppendFlush(7, b"!".as_slice())];
    assert_eq!(rt;
        steps(rt.alloc(), &mut file, &list)?,
        Err(DataFault::Gap(5))
    );
    let list = [
        Step::AppendFlush(5, b"ab".as_slice()),
        Step::Flush(8, false),
    ];
    assert_eq!(rt;
        steps(rt.alloc(), &mut file, &list)?,
        Err(DataFault::Gap(7))
    );
    assert_eq!(rt; whole(rt.alloc(), &file)?.as_slice(), b"helloab".as_slice());
    Ok(())
}

#[test]
fn three_hundred_appends_of_one_byte(rt: HostRuntime) -> Result<(), Fail> {
    let file = letters(rt.alloc(), 300, true)?;
    assert_eq!(rt; file.len(), 300);
    assert_eq!(rt;
        part(rt.alloc(), &file, 258, 6)?.as_slice(),
        b"yzabcd".as_slice()
    );
    Ok(())
}

#[test]
fn three_hundred_appends_that_are_flushed_one_by_one(rt: HostRuntime) -> Result<(), Fail> {
    let file = letters(rt.alloc(), 300, false)?.copy(rt.alloc())?;
    assert_eq!(rt; file.len(), 300);
    assert_eq!(rt;
        part(rt.alloc(), &file, 24, 4)?.as_slice(),
        b"yzab".as_slice()
    );
    Ok(())
}
