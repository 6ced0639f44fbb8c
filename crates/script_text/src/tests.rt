// Texts and what is read of them.
mod generated;

use crate::{Cause, Command, Script, ScriptFault, ScriptNo, Target, read_script};
use std::alloc::{AllocError, Global};
use std::process::Abort;
use std::test::Fail;

/// The fault of a text.
fn fault_of(alloc: Global, text: &[u8]) -> Option<ScriptFault> {
    match read_script(alloc, text) {
        Err(ScriptNo::Fault(fault)) => Some(fault),
        _ => None,
    }
}

fn refused<R: Abort>(rt: &R, alloc: Global, text: &[u8], line: u32, cause: Cause) {
    assert_eq!(rt; fault_of(alloc, text), Some(ScriptFault { line, cause }));
}

fn accepted<R: Abort>(rt: &R, alloc: Global, text: &[u8]) {
    assert!(rt; read_script(alloc, text).is_ok());
}

/// A line, so many times.
fn lines(alloc: Global, line: &[u8], count: u32) -> Result<Vec<u8>, AllocError> {
    let mut text = Vec::new(alloc);
    for _ in 0..count {
        text.extend_from_slice(line)?;
    }
    Ok(text)
}

#[test]
fn refused_lines(rt: HostRuntime) -> Result<(), Fail> {
    let alloc = rt.alloc();
    refused(&rt, alloc, b"alloc x\n", 1, Cause::BadLine);
    refused(&rt, alloc, b"allocate x 1\n", 1, Cause::BadLine);
    refused(
        &rt,
        alloc,
        b"alloc x 18446744073709551616\n",
        1,
        Cause::BadNumber,
    );
    refused(&rt, alloc, b"alloc 9x 1\n", 1, Cause::BadName);
    refused(&rt, alloc, b"alloc @8 1\n", 1, Cause::BadName);
    refused(&rt, alloc, b"size @x\n", 1, Cause::BadNumber);
    refused(&rt, alloc, b"# c\nfree\n", 2, Cause::BadLine);
    refused(&rt, alloc, b"round x\n", 1, Cause::BadLine);
    refused(&rt, alloc, b"put x 1 2 3\n", 1, Cause::BadLine);
    refused(&rt, alloc, b"put x 1 2 3 4 5 6\n", 1, Cause::BadLine);
    refused(&rt, alloc, b"a\0b 1\n", 1, Cause::BadLine);
    refused(&rt, alloc, b"alloc a\0b 1\n", 1, Cause::BadName);
    Ok(())
}

#[test]
fn refused_orders(rt: HostRuntime) -> Result<(), Fail> {
    let alloc = rt.alloc();
    refused(&rt, alloc, b"lock\n", 2, Cause::Unbalanced);
    refused(&rt, alloc, b"lock", 2, Cause::Unbalanced);
    refused(&rt, alloc, b"unlock\n", 1, Cause::Unbalanced);
    refused(&rt, alloc, b"lock\nthread\n", 2, Cause::Unbalanced);
    refused(&rt, alloc, b"lock\nround\n", 2, Cause::Unbalanced);
    refused(&rt, alloc, b"lock\n\n# c\n", 4, Cause::Unbalanced);
    accepted(&rt, alloc, b"lock\nlock\nunlock\nunlock\n");
    accepted(&rt, alloc, b"");
    Ok(())
}

#[test]
fn first_of_two_faults(rt: HostRuntime) -> Result<(), Fail> {
    let alloc = rt.alloc();
    refused(&rt, alloc, b"alloc 9x y\n", 1, Cause::BadName);
    refused(&rt, alloc, b"realloc @y z\n", 1, Cause::BadNumber);
    refused(&rt, alloc, b"alloc 9x\n", 1, Cause::BadLine);
    refused(&rt, alloc, b"unlock\nfree\n", 1, Cause::Unbalanced);
    refused(&rt, alloc, b"free\nunlock\n", 1, Cause::BadLine);
    Ok(())
}

#[test]
fn limits(rt: HostRuntime) -> Result<(), Fail> {
    let alloc = rt.alloc();
    let mut text = Vec::from_slice(alloc, b"round\n")?;
    text.extend_from_slice(lines(alloc, b"thread\n", 64)?.as_slice())?;
    accepted(&rt, alloc, text.as_slice());
    text.extend_from_slice(b"thread\n")?;
    refused(&rt, alloc, text.as_slice(), 66, Cause::TooManyThreads);
    refused(
        &rt,
        alloc,
        lines(alloc, b"walk\n", 17)?.as_slice(),
        17,
        Cause::TooManyWalks,
    );
    accepted(&rt, alloc, lines(alloc, b"walk\n", 16)?.as_slice());
    accepted(&rt, alloc, b"alloc a1234567890123456789012345678901 1\n");
    refused(
        &rt,
        alloc,
        b"alloc a12345678901234567890123456789012 1\n",
        1,
        Cause::BadName,
    );
    accepted(&rt, alloc, b"alloc x 18446744073709551615\n");
    accepted(&rt, alloc, b"alloc x 00000000000000000001\n");
    refused(
        &rt,
        alloc,
        b"alloc x 000000000000000000001\n",
        1,
        Cause::BadNumber,
    );
    Ok(())
}

#[test]
fn longest_texts(rt: HostRuntime) -> Result<(), Fail> {
    let alloc = rt.alloc();
    let mut text = lines(alloc, b"\n", 1_048_576)?;
    let script = read_script(alloc, text.as_slice())?;
    assert_eq!(rt; script.rounds(), 0);
    assert_eq!(rt; script.names(), 0);
    assert_eq!(rt; script.most_threads(), 0);
    text.push(b'\n')?;
    refused(&rt, alloc, text.as_slice(), 0, Cause::TooLong);
    Ok(())
}

#[test]
fn blanks(rt: HostRuntime) -> Result<(), Fail> {
    let alloc = rt.alloc();
    let script = read_script(alloc, b"\r\n\t # no command\n\talloc\t_a  7 \r\nfree @12")?;
    assert_eq!(rt; script.rounds(), 1);
    assert_eq!(rt; script.most_threads(), 1);
    assert_eq!(rt; script.names(), 1);
    let first = Command::Alloc {
        name: 0,
        n: 7,
        zero: false,
    };
    let target = Target::Addr(12);
    assert!(rt; 0 < script.rounds());
    assert!(rt; 0 < script.threads(0));
    assert_eq!(rt; script.command(0, 0, 0), Some(first));
    assert_eq!(rt; script.command(0, 0, 1), Some(Command::Free { target }));
    assert_eq!(rt; script.command(0, 0, 2), None);
    Ok(())
}

#[test]
fn rounds_and_threads(rt: HostRuntime) -> Result<(), Fail> {
    let alloc = rt.alloc();
    let script = read_script(
        alloc,
        b"walk\nround\nround\nthread\nsize b\nthread\nsize a\nsize b\nround\n",
    )?;
    assert_eq!(rt; script.rounds(), 4);
    assert_eq!(rt; script.names(), 2);
    assert_eq!(rt; script.most_threads(), 2);
    assert!(rt; 3 < script.rounds());
    assert_eq!(rt; script.threads(0), 1);
    assert_eq!(rt; script.threads(1), 0);
    assert_eq!(rt; script.threads(3), 0);
    assert!(rt; 1 < script.threads(2));
    let target = Target::Name(1);
    assert_eq!(rt; script.command(2, 1, 0), Some(Command::Size { target }));
    let cause = Cause::NotSingle;
    assert_eq!(rt; script.single(), Err(ScriptFault { line: 6, cause }));
    Ok(())
}

/// The number of the name of command k in the first thread, and 99 where there is none.
fn number_of(script: &Script, k: u32) -> u32 {
    if script.rounds() == 0 || script.threads(0) == 0 {
        return 99;
    }
    match script.command(0, 0, k) {
        Some(
            Command::Size {
                target: Target::Name(number),
            },
        ) => number,
        _ => 99,
    }
}

#[test]
fn names_of_all_lengths(rt: HostRuntime) -> Result<(), Fail> {
    let alloc = rt.alloc();
    let script = read_script(
        alloc,
        b"size a\nsize aa\nsize b\nsize aaaaaaaaaaaaaaaa\nsize aaaaaaaaaaaaaaaab\n\
size aaaaaaaaaaaaaaaac\nsize baaaaaaaaaaaaaaac\nsize a1234567890123456789012345678901\n\
size a1234567890123456789012345678902\nsize A\n",
    )?;
    assert_eq!(rt; script.names(), 10);
    for k in 0u32..10 {
        assert_eq!(rt; number_of(&script, k), k);
    }
    let script = read_script(
        alloc,
        b"size b\nsize aaaaaaaaaaaaaaaab\nsize b\nsize aaaaaaaaaaaaaaaab\nsize aaaaaaaaaaaaaaaa\n",
    )?;
    assert_eq!(rt; script.names(), 3);
    assert_eq!(rt; number_of(&script, 2), 0);
    assert_eq!(rt; number_of(&script, 3), 1);
    assert_eq!(rt; number_of(&script, 4), 2);
    Ok(())
}

#[test]
fn printed_causes(rt: HostRuntime) -> Result<(), Fail> {
    assert_eq!(rt; Cause::BadLine.text(), "badline");
    assert_eq!(rt; Cause::TooManyThreads.text(), "threads");
    assert_eq!(rt; Cause::NotSingle.text(), "notsingle");
    Ok(())
}
