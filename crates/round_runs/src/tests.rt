//! Scripts whose answers do not depend on which thread comes first.
ghost use Rattle.std.specs.Prelude.{◌≡◌, IfOk};
ghost use Rattle.std.specs.List.{AllByRecursion};
ghost use Rattle.script_text.specs.Scripts.{commands_of};
ghost use Rattle.script_laws.specs.Printable.{AreBalanced};

use super::*;
use heap_model::Limits;
use outside_io::NoPace;
use report_text::report;
use script_text::{Script, read_script};
use std::alloc::Global;
use std::process::Abort;
use std::sync::Wait;
use std::test::*;
use std::thread::Threads;

const LIMITS: Limits = Limits {
    segments: 1,
    large_pages: 0,
    slots: 2,
    callers: 4,
};

// A script. In each of its threads the heap lock is given back as often as it is taken.
fn script_of(alloc: Global, text: &str) -> Result<Script, Fail>
    ensures { IfOk result (λ script. AllByRecursion AreBalanced (commands_of script)) }
{
    match read_script(alloc, text.as_bytes()) {
        Ok(script) => Ok(script),
        Err(_) => Err(Fail::from("script")),
    }
}

// Runs a script, and compares its report.
fn reports<R: Threads + Wait + Abort + Sync>(
    rt: &R,
    alloc: Global,
    text: &str,
    lines: &str,
) -> Result<(), Fail> {
    let script = script_of(alloc, text)?;
    if script.most_threads() > LIMITS.callers {
        return Err(Fail::from("threads"));
    }
    let Rounds { answers, receipt } = run_rounds(rt, alloc, &script, LIMITS, 42, &NoPace)?;
    let written = report(alloc, &script, &answers, &receipt.image)?;
    assert!(rt; written.as_bytes() == lines.as_bytes());
    Ok(())
}

/// Two threads of a round, and two of the next one, which both know the block of the first thread. One of them has the heap lock over
/// several lines.
#[test]
fn two_threads_and_a_round_after_it(rt: HostRuntime) -> Result<(), Fail> {
    reports(
        &rt,
        rt.alloc(),
        "alloc a 131073\nthread\nfree @16\nround\nlock\nwalk\nunlock\nsize a\nthread\nsize a\n",
        "0 0 alloc 8192\n0 1 free notlive\n1 0 lock ok\n1 0 walk 8192 131073 back\n1 0 walk end 1\n1 0 unlock ok\n1 0 size 131073\n1 1 size 131073\nsegment 0\nback 2 33\nfree 35 221 committed 0\nblock 8192 131073 back\nblocks 1 bytes 131073\n",
    )
}

/// A script without a thread makes no caller.
#[test]
fn no_thread(rt: HostRuntime) -> Result<(), Fail> {
    reports(&rt, rt.alloc(), "round\nround\n", "blocks 0 bytes 0\n")
}
