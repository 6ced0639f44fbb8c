// Whole texts through sources and sinks that give and take little, and fail.
use crate::{
    BytesSink, BytesSource, NoPace, Pace, PlainSink, PlainSource, ReadNo, Sink, SinkNo, Source,
    StdSink, StdSource, read_whole, write_whole,
};
use std::io::BufWriter;
use std::test::Fail;

#[test]
fn one_byte_a_call(rt: HostRuntime) -> Result<(), Fail> {
    let mut source = BytesSource::new(rt.alloc(), b"hello", 1, &[])?;
    let text = read_whole(rt.alloc(), &mut source, 100)?;
    assert_eq!(rt; text.as_slice(), b"hello".as_slice());
    let mut sink = BytesSink::new(rt.alloc(), 1, &[])?;
    write_whole(&mut sink, &text)?;
    assert_eq!(rt; sink.held(), b"hello".as_slice());
    Ok(())
}

#[test]
fn whole_texts(rt: HostRuntime) -> Result<(), Fail> {
    let mut source = PlainSource::new(rt.alloc(), b"hello world")?;
    let front = read_whole(rt.alloc(), &mut source, 5)?;
    let mut sink = PlainSink::new(rt.alloc());
    write_whole(&mut sink, &front)?;
    write_whole(&mut sink, b"!")?;
    assert_eq!(rt; sink.held(), b"hello!".as_slice());
    Ok(())
}

#[test]
fn second_read_fails(rt: HostRuntime) -> Result<(), Fail> {
    let mut source = BytesSource::new(rt.alloc(), b"hello", 2, &[7, 1, 1])?;
    let read = read_whole(rt.alloc(), &mut source, 100);
    assert!(rt; matches!(read, Err(ReadNo::Failed)));
    let rest = read_whole(rt.alloc(), &mut source, 100)?;
    assert_eq!(rt; rest.as_slice(), b"llo".as_slice());
    Ok(())
}

#[test]
fn writes_and_finishes_fail(rt: HostRuntime) -> Result<(), Fail> {
    for (fails, held) in [(0, b"".as_slice()), (1, b"hel"), (2, b"hello")] {
        let mut sink = BytesSink::new(rt.alloc(), 3, &[fails])?;
        assert!(rt;
            write_whole(&mut sink, b"hello") == Err(SinkNo::Failed),
            "at {fails}"
        );
        assert_eq!(rt; sink.held(), held, "at {fails}");
    }
    let mut sink = BytesSink::new(rt.alloc(), 3, &[3])?;
    write_whole(&mut sink, b"hello")?;
    assert!(rt; sink.finish() == Err(SinkNo::Failed));
    Ok(())
}

#[test]
fn over_std(rt: HostRuntime) -> Result<(), Fail> {
    let mut source = StdSource::new(b"hello".as_slice());
    let mut piece = [0u8; 3];
    assert!(rt; source.read(&mut piece) == Ok(3));
    assert_eq!(rt; piece.as_slice(), b"hel".as_slice());
    let rest = read_whole(rt.alloc(), &mut source, 100)?;
    assert_eq!(rt; rest.as_slice(), b"lo".as_slice());
    let mut held: Vec<u8> = Vec::new(rt.alloc());
    let mut sink = StdSink::new(&mut held);
    write_whole(&mut sink, b"hello")?;
    assert_eq!(rt; held.as_slice(), b"hello".as_slice());
    Ok(())
}

/// No contract of std says what a flush does, so that a `finish` which does not flush shows only here.
#[test]
fn finish_flushes(rt: HostRuntime) -> Result<(), Fail> {
    let mut buffered = BufWriter::new(rt.alloc(), Vec::new(rt.alloc()))?;
    let mut sink = StdSink::new(&mut buffered);
    write_whole(&mut sink, b"hello")?;
    assert!(rt; buffered.buffer().is_empty());
    assert_eq!(rt; buffered.get_ref().as_slice(), b"hello".as_slice());
    Ok(())
}

#[test]
fn no_pace() {
    NoPace.before(0, 0);
    NoPace.after(0, 0);
}
