// Devices in memory and the adapters over the real ones, each through its bound.
use conn_io::{
    BytesIn, BytesOut, Clock, Failed, FixedClock, LAST_MOMENT, ListClock, Sink, Source, StdIn,
    StdOut, SystemClock,
};
use std::test::Fail;

// One call at a concrete type, through the bound alone.
fn read_once<S: Source>(source: &mut S, buf: &mut [u8; 4]) -> Result<usize, Failed> {
    source.read(buf)
}

fn write_once<K: Sink>(sink: &mut K) -> Result<usize, Failed> {
    sink.write(b"hello")
}

fn ask_once<C: Clock>(clock: &mut C) -> u64 {
    clock.now()
}

#[test]
fn pieces_come_in_order_and_listed_calls_fail(rt: HostRuntime) -> Result<(), Fail> {
    let alloc = rt.alloc();
    let mut pieces = Vec::new(alloc);
    for text in [b"hel".as_slice(), b"".as_slice(), b"lo there".as_slice()] {
        pieces.push(text.to_vec(alloc)?)?;
    }
    let mut source = BytesIn::new(alloc, pieces, [1u64].to_vec(alloc)?);
    let mut buf = [0u8; 4];
    for (want, front) in [
        (Ok(3), b"hel".as_slice()),
        (Err(Failed), b"".as_slice()),
        (Ok(4), b"lo t".as_slice()),
        (Ok(4), b"here".as_slice()),
        (Ok(0), b"".as_slice()),
    ] {
        assert_eq!(rt; read_once(&mut source, &mut buf), want);
        assert!(rt; buf.as_slice().starts_with(front));
    }
    Ok(())
}

#[test]
fn a_sink_takes_what_it_has_room_for(rt: HostRuntime) -> Result<(), Fail> {
    let mut sink = BytesOut::new(rt.alloc(), 3, 7, [1u64].to_vec(rt.alloc())?)?;
    for want in [Ok(3), Err(Failed), Ok(3), Ok(1), Err(Failed)] {
        assert_eq!(rt; write_once(&mut sink), want);
    }
    assert_eq!(rt; sink.bytes(), b"helhelh".as_slice());
    Ok(())
}

#[test]
fn clocks_answer_as_foretold(rt: HostRuntime) -> Result<(), Fail> {
    assert_eq!(rt; ask_once(&mut FixedClock(7)), 7);
    assert_eq!(rt; ask_once(&mut FixedClock(u64::MAX)), 253_402_300_799_999);
    let mut clock = ListClock::new([5u64, 3].to_vec(rt.alloc())?);
    for want in [5, 3, 3] {
        assert_eq!(rt; ask_once(&mut clock), want);
    }
    Ok(())
}

#[test]
fn standard_input_is_a_source(rt: HostRuntime) {
    let mut source = StdIn::new(b"hel".as_slice());
    let mut buf = [0u8; 4];
    assert_eq!(rt; read_once(&mut source, &mut buf), Ok(3));
    assert_eq!(rt; read_once(&mut source, &mut buf), Ok(0));
    let _standard = StdIn::new(rt.stdin());
}

#[test]
fn standard_output_is_a_sink(rt: HostRuntime) {
    let mut sink = StdOut::new(Vec::<u8>::new(rt.alloc()));
    assert_eq!(rt; write_once(&mut sink), Ok(5));
    let _standard = StdOut::new(rt.stdout());
}

#[test]
fn the_system_clock_is_in_range(rt: HostRuntime) -> Result<(), Fail> {
    let mut clock = SystemClock::new(rt.clone()?);
    let moment = ask_once(&mut clock);
    assert!(rt; 1_700_000_000_000 < moment && moment <= LAST_MOMENT);
    Ok(())
}
