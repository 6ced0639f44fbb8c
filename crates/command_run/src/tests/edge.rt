// Words that are no text, and sources and sinks that fail at each of their calls in turn.
use super::{BLOCK, BLOCK_REPORT, ONE_SEGMENT, drawn_script, words_of};
use crate::arguments::words_given;
use crate::run::run_one;
use crate::top::run_words;
use outside_io::{BytesSink, BytesSource, NoPace, PlainSink, PlainSource};
use std::alloc::Global;
use std::env::FillError;
use std::process::Abort;
use std::rt::Env;
use std::test::Fail;

/// The most bytes of one call.
const PIECE: usize = 7;

/// A script, and what is due for it where nothing fails to be written.
#[derive(Clone, Copy)]
struct Case<'a> {
    words: &'a [&'a str],
    text: &'a str,
    failing_reads: &'a [u32],
    status: u8,
    written: &'a str,
}

/// Runs a case where one call of the sink fails, if it comes to that call.
fn run_where(
    rt: &impl Abort,
    alloc: Global,
    case: &Case<'_>,
    failing_write: u32,
    (status, written): (u8, &[u8]),
) -> Result<(), Fail> {
    let words = words_of(alloc, case.words)?;
    let mut source = BytesSource::new(alloc, case.text.as_bytes(), PIECE, case.failing_reads)?;
    let mut sink = BytesSink::new(alloc, PIECE, &[failing_write])?;
    let ran = run_one(alloc, &words, &mut source, &mut sink);
    assert_eq!(rt; ran.status, status, "at {failing_write}");
    assert_eq!(rt; sink.held(), written, "at {failing_write}");
    Ok(())
}

/// How many calls so many bytes take.
fn pieces(len: usize) -> Result<u32, Fail> {
    Ok(u32::try_from(len.div_ceil(PIECE))?)
}

/// Each write of a case fails in turn, then its finish, and then nothing.
fn each_write_fails(rt: &impl Abort, alloc: Global, case: &Case<'_>) -> Result<(), Fail> {
    let due = case.written.as_bytes();
    let writes = pieces(due.len())?;
    for call in 0..=writes {
        let taken = (PIECE * call as usize).min(due.len());
        run_where(rt, alloc, case, call, (5, &due[..taken]))?;
    }
    run_where(
        rt,
        alloc,
        case,
        writes.saturating_add(1),
        (case.status, due),
    )
}

#[test]
fn failing_writes(rt: HostRuntime) -> Result<(), Fail> {
    let (text, written) = drawn_script(rt.alloc())?;
    let words = &ONE_SEGMENT;
    for (words, text, failing_reads, status, written) in [
        (
            words.as_slice(),
            text.as_str(),
            [].as_slice(),
            0,
            written.as_str(),
        ),
        (&["--mode"], "", &[], 2, "usage fault\n"),
        (words, "alloc x\n", &[], 3, "line 1 badline\n"),
        (words, text.as_str(), &[4], 4, "read fault\n"),
    ] {
        let case = Case {
            words,
            text,
            failing_reads,
            status,
            written,
        };
        each_write_fails(&rt, rt.alloc(), &case)?;
    }
    Ok(())
}

/// Each read fails in turn, the one that finds the end is the last, and then nothing fails.
#[test]
fn failing_reads(rt: HostRuntime) -> Result<(), Fail> {
    let alloc = rt.alloc();
    let (text, written) = drawn_script(alloc)?;
    let words = words_of(alloc, &ONE_SEGMENT)?;
    let reads = pieces(text.len())?.saturating_add(1);
    for call in 0..=reads {
        let mut source = BytesSource::new(alloc, text.as_bytes(), PIECE, &[call])?;
        let mut sink = PlainSink::new(alloc);
        let ran = run_one(alloc, &words, &mut source, &mut sink);
        let (status, due) = if call < reads {
            (4, "read fault\n")
        } else {
            (0, written.as_str())
        };
        assert_eq!(rt; ran.status, status, "at {call}");
        assert_eq!(rt; sink.held(), due.as_bytes(), "at {call}");
    }
    Ok(())
}

static LONG: [u8; 300] = [b'a'; 300];

/// A program's name and two words behind it, as a system may give them.
#[derive(Clone, Copy)]
struct Given {
    words: [&'static [u8]; 3],
}

impl Env for Given {
    fn arg(&self, i: usize, buf: &mut [u8]) -> Result<usize, FillError> {
        let Some(word) = self.words.get(i) else {
            return Err(FillError::NotPresent);
        };
        if word.len() > buf.len() {
            return Err(FillError::TooLong);
        }
        buf[..word.len()].copy_from_slice(word);
        Ok(word.len())
    }

    fn var(&self, _name: &str, _buf: &mut [u8]) -> Result<usize, FillError> {
        Err(FillError::NotPresent)
    }

    fn var_at(&self, _i: usize, _buf: &mut [u8]) -> Result<usize, FillError> {
        Err(FillError::NotPresent)
    }
}

/// Only the words behind the name have to be text. A long word is read whole.
#[test]
fn words_of_bytes(rt: HostRuntime) -> Result<(), Fail> {
    let alloc = rt.alloc();
    for (one, status, due) in [
        (b"one".as_slice(), 0, BLOCK_REPORT),
        (b"one\xff", 2, "usage fault\n"),
        (b"\xff", 2, "usage fault\n"),
        (&LONG, 2, "usage fault\n"),
    ] {
        let words = [b"\xff/run\xfe".as_slice(), b"--mode", one];
        let given = words_given(alloc, &Given { words })?;
        assert_eq!(rt; given.len(), 2);
        assert_eq!(rt; given[1].as_slice(), one);
        let mut source = PlainSource::new(alloc, BLOCK.as_bytes())?;
        let mut sink = PlainSink::new(alloc);
        let ran = run_words(&rt, alloc, &given, &mut source, &mut sink, &NoPace);
        assert_eq!(rt; ran.status, status);
        assert_eq!(rt; sink.held(), due.as_bytes());
    }
    Ok(())
}
