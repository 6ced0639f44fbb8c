//! The commands of a thread.
ghost use Rattle.std.specs.Prelude.{◌≡◌, ◌≢◌, ◌<◌, [], map, OnOk};
ghost use Rattle.script_text.specs.Scripts.{command_of};
ghost use Rattle.heap_now.specs.Calls.{IsCallerOf};
ghost use Rattle.thread_commands.specs.Runnable.{CanRun};
ghost use Rattle.thread_commands.specs.Working.{IsFree, RunsThread, Works};

use crate::serving::run_command;
use crate::workers::Worker;
use heap_api::{Heap, unlock};
use heap_model::NotOwner;
use outside_io::Pace;
use script_text::CommandLine;
use std::alloc::{AllocError, Global};
use std::sync::Wait;

// Gives the heap lock back once.
fn give_once(heap: &Heap, w: &mut Worker)
    requires caller { IsCallerOf heap.now w.old.caller }
    requires owner { w.old.caller.depth ≢ 0 }
    ensures caller { IsCallerOf heap.now w.new.caller }
    ensures less { w.new.caller.depth < w.old.caller.depth }
    ensures short { w.new.short ≡ w.old.short }
{
    match unlock(heap, &mut w.caller) {
        Ok(()) => {}
        Err(NotOwner) => unreachable!(),
    }
}

// .. as often as the worker's caller has it.
fn give_back(heap: &Heap, w: &mut Worker)
    requires caller { IsCallerOf heap.now w.old.caller }
    ensures free { IsFree heap.now w.new }
    ensures short { w.new.short ≡ w.old.short }
{
    while w.caller.depth() > 0 {
        give_once(heap, w);
    }
}

// Runs commands one after another.
fn run_all<R: Wait, P: Pace>(
    rt: &R,
    heap: &Heap,
    w: &mut Worker,
    thread: u32,
    commands: &[CommandLine],
    pace: &P,
) -> Result<(), AllocError>
    requires free { IsFree heap.now w.old }
    requires fresh { w.old.replies.items ≡ [] }
    requires commands { CanRun (map command_of commands.now) }
    ensures caller { IsCallerOf heap.now w.new.caller }
    ensures depth { OnOk result (w.new.caller.depth ≡ 0) }
    ensures short { w.new.short ≡ w.old.short }
    ensures runs { OnOk result (RunsThread w.old w.new (map command_of commands.now)) }
{
    let mut number: u32 = 0;
    for line in commands {
        pace.before(thread, number);
        run_command(rt, heap, w, line.command)?;
        pace.after(thread, number);
        number = number.wrapping_add(1);
    }
    Ok(())
}

/// Runs the commands of a thread, and tells the pace of each. The replies of an earlier round are forgotten. Where there is no memory the
/// worker is short from then on, runs no further command, and gives the heap lock back.
pub fn run_thread<R: Wait, P: Pace>(
    rt: &R,
    alloc: Global,
    heap: &Heap,
    w: &mut Worker,
    thread: u32,
    commands: &[CommandLine],
    pace: &P,
)
    requires free { IsFree heap.now w.old }
    requires commands { CanRun (map command_of commands.now) }
    ensures { Works heap.now w.old w.new (map command_of commands.now) }
{
    w.replies = Vec::new(alloc);
    match run_all(rt, heap, w, thread, commands, pace) {
        Ok(()) => {}
        Err(AllocError) => {
            w.short = true;
            give_back(heap, w);
        }
    }
}
