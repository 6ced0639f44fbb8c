//! One command.
ghost use Rattle.std.specs.Prelude.{◌≡◌, OnOk};
ghost use Rattle.heap_model.specs.declared.Call.TheVariants as calls;
ghost use Rattle.script_text.specs.Calls.{call_of};
ghost use Rattle.script_text.specs.declared.commands.Command.TheVariants as commands;
ghost use Rattle.heap_now.specs.Calls.{IsCallerOf};
ghost use Rattle.name_values.specs.Table.{value_in};
ghost use Rattle.thread_calls.specs.Serving.{IsServable};
ghost use Rattle.thread_commands.specs.Working.{IsLed, RunsNext};

use crate::workers::Worker;
use heap_api::Heap;
use heap_model::Call;
use script_text::Command;
use std::alloc::AllocError;
use std::sync::Wait;
use thread_calls::{serve, walk};

// Runs a command whose call is one call of the heap, or none.
fn run_call<R: Wait>(
    rt: &R,
    heap: &Heap,
    w: &mut Worker,
    command: Command,
    call: Call,
) -> Result<(), AllocError>
    requires caller { IsCallerOf heap.now w.old.caller }
    requires call { call ≡ call_of (value_in w.old.names.values) command }
    requires servable { IsServable call }
    ensures led { IsLed call w.old.caller w.new.caller }
    ensures short { w.new.short ≡ w.old.short }
    ensures runs { OnOk result (RunsNext w.old w.new command) }
{
    let reply = serve(rt, heap, &mut w.caller, call);
    w.replies.push(reply)?;
    w.names.note(command, reply)?;
    Ok(())
}

// Runs a walk.
fn run_walk(heap: &Heap, w: &mut Worker) -> Result<(), AllocError>
    requires caller { IsCallerOf heap.now w.old.caller }
    ensures led { IsLed (calls.WalkNext 0) w.old.caller w.new.caller }
    ensures short { w.new.short ≡ w.old.short }
    ensures runs { OnOk result (RunsNext w.old w.new commands.Walk) }
{
    walk(heap, &mut w.caller, &mut w.replies)?;
    Ok(())
}

/// Runs a command: its replies come behind those before it, and its name has the value that it assigns. Where there is no memory, the
/// caller may have made the call, or a part of a walk.
pub(crate) fn run_command<R: Wait>(
    rt: &R,
    heap: &Heap,
    w: &mut Worker,
    command: Command,
) -> Result<(), AllocError>
    requires caller { IsCallerOf heap.now w.old.caller }
    ensures led { IsLed (call_of (value_in w.old.names.values) command) w.old.caller w.new.caller }
    ensures short { w.new.short ≡ w.old.short }
    ensures runs { OnOk result (RunsNext w.old w.new command) }
{
    match command {
        Command::Walk => run_walk(heap, w),
        _ => {
            let call = w.names.call_for(command);
            run_call(rt, heap, w, command, call)
        }
    }
}
