// Generated scripts, by rows that were calculated apart.
use crate::{Command, Script, Target, generate};
use std::alloc::Global;
use std::process::Abort;
use std::test::Fail;

fn alloc(name: u32, n: u64) -> Command {
    Command::Alloc {
        name,
        n,
        zero: false,
    }
}

fn free(name: u32) -> Command {
    let target = Target::Name(name);
    Command::Free { target }
}

fn realloc(name: u32, n: u64) -> Command {
    let target = Target::Name(name);
    Command::Realloc {
        target,
        n,
        in_place: false,
    }
}

fn put(name: u32, value: u64) -> Command {
    let target = Target::Name(name);
    Command::Put {
        target,
        index: 0,
        value,
    }
}

/// Command number `k` of a script of one round of one thread.
fn command_of<R: Abort>(rt: &R, script: &Script, k: u32) -> Option<Command> {
    assert!(rt; script.rounds() == 1);
    assert!(rt; script.threads(0) == 1);
    script.command(0, 0, k)
}

/// Sizes of each range, and each thing that is done with a held name.
#[test]
fn draws_commands(rt: HostRuntime) -> Result<(), Fail> {
    let script = generate(rt.alloc(), 200, 42)?;
    assert_eq!(rt; script.names(), 141);
    let rows = [
        (0, alloc(0, 321)),
        (1, alloc(1, 298)),
        (2, alloc(2, 54_791)),
        (10, free(1)),
        (15, alloc(14, 181_477)),
        (67, realloc(5, 307)),
        (70, put(41, 3_739_882_122)),
        (113, alloc(94, 112_919)),
        (121, realloc(36, 15_843)),
        (159, alloc(58, 277_413)),
        (173, free(4)),
    ];
    for (k, command) in rows {
        assert_eq!(rt; command_of(&rt, &script, k), Some(command));
    }
    assert_eq!(rt; command_of(&rt, &script, 200), None);
    Ok(())
}

/// Another seed has other commands, and none at all has one thread still.
#[test]
fn other_seeds_and_counts(rt: HostRuntime) -> Result<(), Fail> {
    let script = generate(rt.alloc(), 57, 1)?;
    assert_eq!(rt; command_of(&rt, &script, 42), Some(realloc(7, 411)));
    assert_eq!(rt; command_of(&rt, &script, 56), Some(free(0)));
    let script = generate(rt.alloc(), 0, 1)?;
    assert_eq!(rt; script.names(), 0);
    assert_eq!(rt; script.most_threads(), 1);
    assert_eq!(rt; command_of(&rt, &script, 0), None);
    Ok(())
}

/// How many allocations, frees, reallocations and puts a generated script has.
fn kinds(alloc: Global, count: u32, seed: u64) -> Result<[u32; 4], Fail> {
    let script = generate(alloc, count, seed)?;
    let mut found = [0; 4];
    if script.rounds() == 0 || script.threads(0) == 0 {
        return Ok(found);
    }
    for line in script.commands(0, 0) {
        let kind = match line.command {
            Command::Alloc { .. } => 0,
            Command::Free { .. } => 1,
            Command::Realloc { .. } => 2,
            _ => 3,
        };
        found[kind] = found[kind].wrapping_add(1);
    }
    Ok(found)
}

#[test]
fn ten_thousand_commands(rt: HostRuntime) -> Result<(), Fail> {
    assert_eq!(rt; kinds(rt.alloc(), 10_000, 1)?, [3451, 3271, 1601, 1677]);
    assert_eq!(rt; kinds(rt.alloc(), 10_000, 42)?, [3487, 3316, 1635, 1562]);
    assert_eq!(rt;
        kinds(rt.alloc(), 10_000, u64::MAX)?,
        [3433, 3257, 1631, 1679]
    );
    Ok(())
}
