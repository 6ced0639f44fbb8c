// Words, and what they set.
use crate::{Mode, Setting, read_words};
use std::alloc::Global;
use std::process::Abort;
use std::test::Fail;

/// What no words set.
const ABSENT: Setting = Setting {
    mode: Mode::Run,
    segments: 16,
    large_pages: 1024,
    slots: 4,
    seed: 1,
    count: 10_000,
};

/// What the words of a line set.
fn read(alloc: Global, line: &str) -> Result<Option<Setting>, Fail> {
    let mut words = Vec::new(alloc);
    for word in line.split_whitespace() {
        words.push(String::from_str(alloc, word)?)?;
    }
    Ok(read_words(alloc, words.as_slice())?)
}

fn refused<R: Abort>(rt: &R, alloc: Global, line: &str) -> Result<(), Fail> {
    assert!(rt; read(alloc, line)?.is_none(), "{line}");
    Ok(())
}

#[test]
fn valid_words(rt: HostRuntime) -> Result<(), Fail> {
    let alloc = rt.alloc();
    assert_eq!(rt; read(alloc, "")?, Some(ABSENT));
    let one = Setting {
        mode: Mode::One,
        ..ABSENT
    };
    assert_eq!(rt; read(alloc, "--mode one")?, Some(one));
    assert_eq!(rt; read(alloc, "--mode=one")?, Some(one));
    let small = Setting {
        segments: 1,
        large_pages: 0,
        slots: 16,
        ..ABSENT
    };
    assert_eq!(rt;
        read(alloc, "--slots 16 --large=0 --segments 0001")?,
        Some(small)
    );
    let drawn = Setting {
        mode: Mode::Gen,
        large_pages: 4096,
        seed: u64::MAX,
        count: 0,
        ..ABSENT
    };
    assert_eq!(rt;
        read(
            alloc,
            "--count=0 --seed 18446744073709551615 --mode gen --large 4096"
        )?,
        Some(drawn)
    );
    Ok(())
}

#[test]
fn limits_of_modes(rt: HostRuntime) {
    assert_eq!(rt; ABSENT.limits().callers, 64);
    let one = Setting {
        mode: Mode::One,
        ..ABSENT
    };
    assert_eq!(rt; one.limits().callers, 1);
    assert_eq!(rt; one.limits().segments, 16);
}

#[test]
fn words_that_are_not_valid(rt: HostRuntime) -> Result<(), Fail> {
    let alloc = rt.alloc();
    let lines = [
        "--segments 17",
        "--segments 0",
        "--large 4097",
        "--slots=0",
        "--count 100001",
        "--seed 18446744073709551616",
        "--seed 000000000000000000001",
        "--mode two",
        "--mode=",
        "--mode",
        "--mode --seed 1",
        "--mode one --mode one",
        "--mode=one --mode run",
        "--mod one",
        "--seed -1",
        "--seed=-1",
        "--seed +1",
        "--seed 1 2",
        "one",
        "--",
        "-- --mode one",
        "--mode one --",
        "-",
        "-m one",
        "--help",
        "-h",
        "--version",
        "help",
        "--=one",
    ];
    for line in lines {
        refused(&rt, alloc, line)?;
    }
    Ok(())
}
