// Scripts with threads, by the program's top call: what each writes where no order of the threads changes it.
use super::{repeated, words_of};
use crate::top::run;
use outside_io::{BytesSink, BytesSource, NoPace, Pace, PlainSink, PlainSource};
use std::alloc::Global;
use std::process::Abort;
use std::str;
use std::sync::Wait;
use std::sync::atomic::{AtomicU64, Ordering};
use std::test::Fail;
use std::thread::Threads;

const ONE_SEGMENT: [&str; 2] = ["--segments", "1"];

const ONE_CALLER: [&str; 4] = ["--mode", "one", "--segments", "1"];

/// Runs a text, and compares the status and what is written.
fn runs<R: Threads + Wait + Sync + Abort>(
    rt: &R,
    alloc: Global,
    words: &[&str],
    text: &str,
    status: u8,
    written: &str,
) -> Result<(), Fail> {
    let words = words_of(alloc, words)?;
    let mut source = PlainSource::new(alloc, text.as_bytes())?;
    let mut sink = PlainSink::new(alloc);
    let ran = run(rt, alloc, &words, &mut source, &mut sink, &NoPace);
    assert_eq!(rt; ran.status, status);
    assert_eq!(rt; sink.held(), written.as_bytes());
    Ok(())
}

/// .. of one thread, which mode `one` runs too.
fn runs_in_both<R: Threads + Wait + Sync + Abort>(
    rt: &R,
    alloc: Global,
    text: &str,
    written: &str,
) -> Result<(), Fail> {
    runs(rt, alloc, &ONE_SEGMENT, text, 0, written)?;
    runs(rt, alloc, &ONE_CALLER, text, 0, written)
}

/// .. with the words absent: what is written at status 0.
fn written_of<R: Threads + Wait + Sync + Abort>(
    rt: &R,
    alloc: Global,
    text: &str,
) -> Result<String, Fail> {
    let mut source = PlainSource::new(alloc, text.as_bytes())?;
    let mut sink = PlainSink::new(alloc);
    let ran = run(rt, alloc, &[], &mut source, &mut sink, &NoPace);
    assert_eq!(rt; ran.status, 0);
    Ok(String::from_str(alloc, str::from_utf8(sink.held())?)?)
}

/// The modes of one caller are handed over, and words that are not valid are none in any mode.
#[test]
fn modes(rt: HostRuntime) -> Result<(), Fail> {
    let alloc = rt.alloc();
    let none = "blocks 0 bytes 0\n";
    runs(&rt, alloc, &[], "", 0, none)?;
    runs(
        &rt,
        alloc,
        &["--mode", "run", "--slots=1"],
        "thread\nthread\n",
        0,
        none,
    )?;
    runs(
        &rt,
        alloc,
        &["--mode=one"],
        "thread\nthread\n",
        3,
        "line 2 notsingle\n",
    )?;
    let empty = "commands 0\nnofit 0\nnotlive 0\npast 0\nblocks 0 bytes 0\n";
    runs(
        &rt,
        alloc,
        &["--mode", "gen", "--count", "0"],
        "alloc x\n",
        0,
        empty,
    )?;
    runs(&rt, alloc, &["--segments", "17"], "", 2, "usage fault\n")?;
    runs(&rt, alloc, &[], "alloc x\n", 3, "line 1 badline\n")?;
    runs(&rt, alloc, &[], "lock\n", 3, "line 2 unbalanced\n")
}

/// Pages that a compaction takes the marks of are not preferred.
#[test]
fn compaction(rt: HostRuntime) -> Result<(), Fail> {
    let text =
        "alloc a 135168\nalloc b 135168\nalloc c 135168\nalloc d 135168\nfree a\ncompact\nfree c\nalloc e 135168\n";
    let written = "0 0 alloc 8192
0 0 alloc 143360
0 0 alloc 278528
0 0 alloc 413696
0 0 free ok
0 0 compact 33
0 0 free ok
0 0 alloc 278528
segment 0
free 2 33 committed 0
back 35 33
back 68 33
back 101 33
free 134 122 committed 0
block 143360 135168 back
block 278528 135168 back
block 413696 135168 back
blocks 3 bytes 405504
";
    runs_in_both(&rt, rt.alloc(), text, written)
}

#[test]
fn walks(rt: HostRuntime) -> Result<(), Fail> {
    let written = "0 0 alloc 8256
0 0 lock ok
0 0 walk 8256 5 vs
0 0 walk end 1
0 0 unlock ok
0 0 walk notlocked
segment 0
vs 2 16
free 18 238 committed 0
block 8256 5 vs
blocks 1 bytes 5
";
    let text = "alloc x 5\nlock\nwalk\nunlock\nwalk\n";
    runs_in_both(&rt, rt.alloc(), text, written)
}

/// The heap lock is taken 65,535 times at most, and given back as often.
#[test]
fn deepest_lock(rt: HostRuntime) -> Result<(), Fail> {
    let alloc = rt.alloc();
    let mut text = repeated(alloc, "", "lock\n", 65_536)?;
    text.push_str(&repeated(alloc, "", "unlock\n", 65_536)?)?;
    let mut written = repeated(alloc, "", "0 0 lock ok\n", 65_535)?;
    written.push_str("0 0 lock depth\n")?;
    written.push_str(&repeated(alloc, "", "0 0 unlock ok\n", 65_535)?)?;
    written.push_str("0 0 unlock notowner\nblocks 0 bytes 0\n")?;
    runs_in_both(&rt, alloc, &text, &written)
}

/// Behind a round a name has the value that the highest thread gave it.
#[test]
fn names_of_two_threads(rt: HostRuntime) -> Result<(), Fail> {
    let text = "round\nthread\nalloc x 200000\nthread\nalloc x 300000\nround\nsize x\n";
    let written = written_of(&rt, rt.alloc(), text)?;
    assert_eq!(rt; written.lines().nth(2), Some("1 0 size 300000"));
    Ok(())
}

/// Four threads over three rounds. Blocks are freed by other threads than those that made them, a round later.
const FOUR_THREADS: &str = "round
thread
alloc a0 8
alloc a1 40
alloc a2 600000
thread
alloc b0 24
alloc b1 4096
alloc b2 200000
thread
alloc c0 100
alloc c1 16368
thread
alloc d0 70000
zalloc d1 512
round
thread
free b0
realloc b1 9000
thread
free a0
realloc a1 64
thread
free d0
thread
put c0 0 7
get c0 0
round
thread
free a1
free a2
thread
free b1
free b2
thread
free c0
free c1
thread
free d1
";

/// What is written of it, with a star for each number that hangs on the order of the threads.
const FOUR_THREADS_REPORT: &str = "0 0 alloc *
0 0 alloc *
0 0 alloc 16777216
0 1 alloc *
0 1 alloc *
0 1 alloc *
0 2 alloc *
0 2 alloc *
0 3 alloc *
0 3 zalloc *
1 0 free ok
1 0 realloc *
1 1 free ok
1 1 realloc *
1 2 free ok
1 3 put ok
1 3 get 7
2 0 free ok
2 0 free ok
2 1 free ok
2 1 free ok
2 2 free ok
2 2 free ok
2 3 free ok
segment 0
free 2 254 committed *
blocks 0 bytes 0
";

/// Whether a line is as wanted: a star at its end stands for any number.
fn is_as_wanted(line: &str, wanted: &str) -> bool {
    match wanted.strip_suffix("*") {
        None => line == wanted,
        Some(front) => match line.strip_prefix(front) {
            Some(number) => number.parse::<u64>().is_ok(),
            None => false,
        },
    }
}

#[test]
fn four_threads(rt: HostRuntime) -> Result<(), Fail> {
    let written = written_of(&rt, rt.alloc(), FOUR_THREADS)?;
    let mut lines = written.lines();
    for wanted in FOUR_THREADS_REPORT.lines() {
        let line = lines.next().unwrap_or("");
        assert!(rt; is_as_wanted(line, wanted), "{line} for {wanted}");
    }
    assert_eq!(rt; lines.next(), None);
    Ok(())
}

/// Two threads, each with a flag that it sets before its first command. It then looks for the other's, so many times at most, and notes
/// that it saw it.
#[derive(Drop)]
struct Meeting {
    here: [AtomicU64; 2],
    saw: [AtomicU64; 2],
}

const LOOKS: u32 = 1_000_000_000;

impl Pace for Meeting {
    fn before(&self, thread: u32, call: u32) {
        if call > 0 || thread > 1 {
            return;
        }
        let own = thread as usize;
        self.here[own].store(1, Ordering::SeqCst);
        for _ in 0..LOOKS {
            if self.here[1 - own].load(Ordering::SeqCst) == 1 {
                self.saw[own].store(1, Ordering::SeqCst);
                return;
            }
        }
    }

    fn after(&self, _thread: u32, _call: u32) {}
}

/// The threads of a round run at the same time: each is there while the other is. A body that runs them one after another fails here.
#[test]
fn threads_meet(rt: HostRuntime) -> Result<(), Fail> {
    let alloc = rt.alloc();
    let pace = Meeting {
        here: [AtomicU64::new(0), AtomicU64::new(0)],
        saw: [AtomicU64::new(0), AtomicU64::new(0)],
    };
    let words = words_of(alloc, &ONE_SEGMENT)?;
    let text = "thread\nalloc a 64\nfree a\nthread\nalloc b 64\nfree b\n";
    let mut source = PlainSource::new(alloc, text.as_bytes())?;
    let mut sink = PlainSink::new(alloc);
    let ran = run(&rt, alloc, &words, &mut source, &mut sink, &pace);
    assert_eq!(rt; ran.status, 0);
    for saw in &pace.saw {
        assert_eq!(rt; saw.load(Ordering::SeqCst), 1);
    }
    let written = str::from_utf8(sink.held())?;
    assert!(rt; written.ends_with("blocks 0 bytes 0\n"));
    Ok(())
}

/// The most bytes of one call.
const PIECE: usize = 7;

const SMALL: [&str; 4] = ["--segments", "1", "--large", "256"];

/// The status of the script of four threads, where the calls of these numbers fail, and what is written.
fn status_where<R: Threads + Wait + Sync>(
    rt: &R,
    alloc: Global,
    failing_reads: &[u32],
    failing_writes: &[u32],
) -> Result<(u8, BytesSink), Fail> {
    let words = words_of(alloc, &SMALL)?;
    let mut source = BytesSource::new(alloc, FOUR_THREADS.as_bytes(), PIECE, failing_reads)?;
    let mut sink = BytesSink::new(alloc, PIECE, failing_writes)?;
    let ran = run(rt, alloc, &words, &mut source, &mut sink, &NoPace);
    Ok((ran.status, sink))
}

/// Each read fails in turn, until none does.
#[test]
fn failing_reads(rt: HostRuntime) -> Result<(), Fail> {
    let alloc = rt.alloc();
    let reads = u32::try_from(FOUR_THREADS.len().div_ceil(PIECE))?.saturating_add(1);
    for call in 0..=reads {
        let (status, sink) = status_where(&rt, alloc, &[call], &[])?;
        if call < reads {
            assert_eq!(rt; status, 4, "at {call}");
            assert_eq!(rt; sink.held(), b"read fault\n".as_slice(), "at {call}");
        } else {
            assert_eq!(rt; status, 0, "at {call}");
        }
    }
    let (status, _sink) = status_where(&rt, alloc, &[0], &[0])?;
    assert_eq!(rt; status, 5);
    Ok(())
}

/// Each write fails in turn, and then the finish, until none does: the report has some hundred pieces.
#[test]
fn failing_writes(rt: HostRuntime) -> Result<(), Fail> {
    let alloc = rt.alloc();
    for call in 0..200u32 {
        let (status, _sink) = status_where(&rt, alloc, &[], &[call])?;
        if status == 0 {
            assert!(rt; call > 50, "at {call}");
            return Ok(());
        }
        assert_eq!(rt; status, 5, "at {call}");
    }
    assert!(rt; false, "each run failed");
    Ok(())
}
