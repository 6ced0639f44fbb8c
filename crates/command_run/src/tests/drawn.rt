// Scripts that are drawn, and words in any order. The summaries were calculated apart from the program.
use super::{BLOCK, BLOCK_REPORT, ONE_SEGMENT, runs, words_of};
use crate::run::run_one;
use outside_io::{BytesSource, PlainSink, PlainSource};
use std::alloc::Global;
use std::process::Abort;
use std::test::Fail;

const NONE: &str = "commands 0\nnofit 0\nnotlive 0\npast 0\nblocks 0 bytes 0\n";

const THREE: &str = "commands 3\nnofit 0\nnotlive 0\npast 0\nblocks 3 bytes 55410\n";

#[test]
fn drawn_scripts(rt: HostRuntime) -> Result<(), Fail> {
    let alloc = rt.alloc();
    let words = ["--mode", "gen", "--seed", "42", "--count", "3"];
    runs(&rt, alloc, &words, "", 0, THREE)?;
    runs(&rt, alloc, &["--mode", "gen", "--count", "0"], "", 0, NONE)?;
    let words = [
        "--mode=gen",
        "--segments",
        "1",
        "--slots",
        "16",
        "--count",
        "1000",
    ];
    let thousand = "commands 1000\nnofit 45\nnotlive 47\npast 0\nblocks 147 bytes 485235\n";
    runs(&rt, alloc, &words, "", 0, thousand)?;
    let words = ["--seed=0", "--mode", "gen", "--count", "1000"];
    let thousand = "commands 1000\nnofit 0\nnotlive 0\npast 0\nblocks 185 bytes 3618422\n";
    runs(&rt, alloc, &words, "", 0, thousand)
}

/// A script that is drawn is not read: neither a faulty one nor a source that fails is in its way.
#[test]
fn nothing_is_read(rt: HostRuntime) -> Result<(), Fail> {
    let alloc = rt.alloc();
    let given = ["--count=3", "--mode=gen", "--seed=42"];
    runs(&rt, alloc, &given, "free\n", 0, THREE)?;
    let words = words_of(alloc, &given)?;
    let mut source = BytesSource::new(alloc, b"free\n", 1, &[0])?;
    let mut sink = PlainSink::new(alloc);
    let ran = run_one(alloc, &words, &mut source, &mut sink);
    assert_eq!(rt; ran.status, 0);
    assert_eq!(rt; sink.held(), THREE.as_bytes());
    Ok(())
}

/// Runs the script that is drawn where no word but the mode is given; its first line and the rest.
fn drawn_alone<R: Abort>(rt: &R, alloc: Global) -> Result<PlainSink, Fail> {
    let words = words_of(alloc, &["--mode", "gen"])?;
    let mut source = PlainSource::new(alloc, b"")?;
    let mut sink = PlainSink::new(alloc);
    let ran = run_one(alloc, &words, &mut source, &mut sink);
    assert_eq!(rt; ran.status, 0);
    Ok(sink)
}

#[test]
fn ten_thousand_commands(rt: HostRuntime) -> Result<(), Fail> {
    let one = drawn_alone(&rt, rt.alloc())?;
    let two = drawn_alone(&rt, rt.alloc())?;
    assert!(rt; one.held().starts_with(b"commands 10000\n"));
    assert_eq!(rt; one.held(), two.held());
    Ok(())
}

#[test]
fn words_in_any_order(rt: HostRuntime) -> Result<(), Fail> {
    let alloc = rt.alloc();
    let words = [
        "--large=0",
        "--seed",
        "7",
        "--segments",
        "0001",
        "--mode=one",
        "--count=5",
    ];
    runs(&rt, alloc, &words, BLOCK, 0, BLOCK_REPORT)?;
    let usage = "usage fault\n";
    let segments = ["--segments", "1"];
    let twice = ["--mode", "one", "--mode=one"];
    let count = ["--mode", "gen", "--count", "100001"];
    let slots = ["--mode", "gen", "--slots=0"];
    let seed = ["--mode", "gen", "--seed", "18446744073709551616"];
    for words in [
        [].as_slice(),
        &segments,
        &twice,
        &count,
        &slots,
        &seed,
        &["--mode=run"],
        &["--help"],
    ] {
        runs(&rt, alloc, words, BLOCK, 2, usage)?;
    }
    runs(&rt, alloc, &ONE_SEGMENT, BLOCK, 0, BLOCK_REPORT)
}
