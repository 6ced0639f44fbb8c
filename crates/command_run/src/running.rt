// The commands of a script, run one after another on a heap of one caller.
ghost use Rattle.std.specs.Prelude.{◌≡◌, ◌≢◌, ◌<◌, [], ◌∷◌, ◌++◌, IfOk, OnOk, length, map, false, List, ℕ};
ghost use Rattle.std.specs.List.{AllByRecursion};
ghost use Rattle.heap_model.specs.declared.Call.TheVariants as calls;
ghost use Rattle.heap_model.specs.declared.Reply.{Reply};
ghost use Rattle.script_laws.specs.Printable.{IsBalanced, AreBalanced};
ghost use Rattle.script_text.specs.Calls.{address_of, call_of};
ghost use Rattle.script_text.specs.Scripts.{command_of, commands_of, round_at};
ghost use Rattle.script_text.specs.declared.commands.Command.TheVariants as commands;
ghost use Rattle.thread_calls.specs.Serving.{IsDepthBehind};
ghost use Rattle.command_run.specs.Values.{value_at};
ghost use Rattle.command_run.specs.Commands.{unassigned, assigned, assigned_placed, assigned_moved, in_rounds, round_commands};
ghost use Rattle.command_run.specs.Running.{Runs, RunsOne, RoundRuns, Fit};

use crate::values::Values;
use heap_model::{Call, Flags, OutOfMemory, Reply};
use one_heap::OneHeap;
use report_text::Answers;
use script_text::{Command, CommandLine, Script, Target};
use std::alloc::{AllocError, Global};

/// The replies to the commands of a script, round after round and thread after thread.
pub fn run_rounds(
    alloc: Global,
    heap: &mut OneHeap,
    script: &Script,
) -> Result<Answers, OutOfMemory>
    requires free { heap.old.depth ≡ 0 }
    requires balanced { AllByRecursion AreBalanced (commands_of script.now) }
    ensures free { OnOk result (heap.new.depth ≡ 0) }
    ensures fit { IfOk result (λ answers. Fit (commands_of script.now) answers) }
    ensures runs { IfOk result (λ answers. (later : List ℕ)
        × Runs heap.old heap.new unassigned (value_at later) (in_rounds (commands_of script.now)) (in_rounds answers)) }
{
    let mut answers = Answers::new(alloc);
    let mut values = Values::new(alloc);
    for round in 0..script.rounds() {
        answers.add_round()?;
        run_threads(alloc, heap, &mut values, script, round, &mut answers)?;
    }
    Ok(answers)
}

/// The replies to the commands of a round, put into the last round of the answers, which has none yet.
fn run_threads(
    alloc: Global,
    heap: &mut OneHeap,
    values: &mut Values,
    script: &Script,
    round: u32,
    answers: &mut Answers,
) -> Result<(), OutOfMemory>
    requires free { heap.old.depth ≡ 0 }
    requires round { round < length script.now.rounds }
    requires balanced { AreBalanced (round_commands (round_at script.now round)) }
    requires empty { (front : List (List (List Reply))) × (answers.old ≡ front ++ [] ∷ []) }
    ensures free { OnOk result (heap.new.depth ≡ 0) }
    ensures runs { IfOk result (λ _. (front : List (List (List Reply))) → answers.old ≡ front ++ [] ∷ []
        → RoundRuns front answers.new heap.old heap.new (value_at values.old) (value_at values.new) (round_commands (round_at script.now round))) }
{
    for thread in 0..script.threads(round) {
        let replies = run_thread(alloc, heap, values, script.commands(round, thread))?;
        answers.add_thread(replies)?;
    }
    Ok(())
}

/// The replies to the commands of a thread.
fn run_thread(
    alloc: Global,
    heap: &mut OneHeap,
    values: &mut Values,
    commands: &[CommandLine],
) -> Result<Vec<Reply>, AllocError>
    requires free { heap.old.depth ≡ 0 }
    requires balanced { IsBalanced 0 (map command_of commands.now) }
    ensures free { OnOk result (heap.new.depth ≡ 0) }
    ensures runs { IfOk result (λ replies. Runs heap.old heap.new (value_at values.old) (value_at values.new) (map command_of commands.now) replies.items) }
{
    let mut replies = Vec::new(alloc);
    for line in commands {
        run_command(heap, values, line.command, &mut replies)?;
    }
    Ok(replies)
}

/// Runs a command: its replies come behind those before it, and its name then has the value that it assigns.
fn run_command(
    heap: &mut OneHeap,
    values: &mut Values,
    command: Command,
    replies: &mut Vec<Reply>,
) -> Result<(), AllocError>
    ensures depth { OnOk result (IsDepthBehind (call_of (value_at values.old) command) heap.old.depth heap.new.depth) }
    ensures runs { OnOk result (RunsOne heap.old heap.new (value_at values.old) (value_at values.new) command replies.old.items replies.new.items) }
{
    match command {
        Command::Walk => run_walk(heap, values, replies),
        _ => run_call(heap, values, command, replies),
    }
}

/// .. a walk,
fn run_walk(heap: &mut OneHeap, values: &Values, replies: &mut Vec<Reply>) -> Result<(), AllocError>
    ensures depth { OnOk result (heap.new.depth ≡ heap.old.depth) }
    ensures runs { OnOk result (RunsOne heap.old heap.new (value_at values.now) (value_at values.now) commands.Walk replies.old.items replies.new.items) }
{
    heap.walk(replies)?;
    Ok(())
}

/// .. or one whose call is one call of the heap, or none.
fn run_call(
    heap: &mut OneHeap,
    values: &mut Values,
    command: Command,
    replies: &mut Vec<Reply>,
) -> Result<(), AllocError>
    requires { command ≢ commands.Walk }
    ensures depth { OnOk result (IsDepthBehind (call_of (value_at values.old) command) heap.old.depth heap.new.depth) }
    ensures runs { OnOk result (RunsOne heap.old heap.new (value_at values.old) (value_at values.new) command replies.old.items replies.new.items) }
{
    let call = call_for(values, command);
    let reply = heap.serve(&call);
    replies.push(reply)?;
    note(values, command, reply)?;
    Ok(())
}

fn address_for(values: &Values, target: Target) -> u64
    ensures { result ≡ address_of (value_at values.now) target }
{
    match target {
        Target::Name(name) => values.get(name),
        Target::Addr(addr) => addr,
    }
}

/// The call of a command.
fn call_for(values: &Values, command: Command) -> Call
    ensures { result ≡ call_of (value_at values.now) command }
{
    match command {
        Command::Alloc { n, zero, .. } => {
            let flags = Flags {
                zero,
                in_place: false,
            };
            Call::Alloc { n, flags }
        }
        Command::Realloc {
            target,
            n,
            in_place,
        } => realloc_at(address_for(values, target), n, in_place),
        Command::Free { target } => {
            let addr = address_for(values, target);
            Call::Free { addr }
        }
        Command::Size { target } => {
            let addr = address_for(values, target);
            Call::Size { addr }
        }
        Command::Get { target, index } => {
            let addr = address_for(values, target);
            Call::Get { addr, index }
        }
        Command::Put {
            target,
            index,
            value,
        } => {
            let addr = address_for(values, target);
            Call::Put { addr, index, value }
        }
        Command::Lock => Call::Lock,
        Command::Unlock => Call::Unlock,
        Command::Walk => Call::WalkNext { from: 0 },
        Command::Compact => Call::Compact,
    }
}

fn realloc_at(addr: u64, n: u64, in_place: bool) -> Call
    ensures { result ≡ calls.Realloc addr n (record { zero = false; in_place = in_place }) }
{
    let flags = Flags {
        zero: false,
        in_place,
    };
    Call::Realloc { addr, n, flags }
}

/// Gives the name of a command the value that its reply assigns to it.
fn note(values: &mut Values, command: Command, reply: Reply) -> Result<(), AllocError>
    ensures { IfOk result (λ _. value_at values.new ≡ assigned (value_at values.old) command reply) }
{
    match command {
        Command::Alloc { name, .. } => note_placed(values, name, reply),
        Command::Realloc { target, .. } => note_moved(values, target, reply),
        _ => Ok(()),
    }
}

fn note_placed(values: &mut Values, name: u32, reply: Reply) -> Result<(), AllocError>
    ensures { IfOk result (λ _. value_at values.new ≡ assigned_placed (value_at values.old) name reply) }
{
    match reply {
        Reply::Address(addr) => values.assign(name, addr),
        _ => values.assign(name, 0),
    }
}

fn note_moved(values: &mut Values, target: Target, reply: Reply) -> Result<(), AllocError>
    ensures { IfOk result (λ _. value_at values.new ≡ assigned_moved (value_at values.old) target reply) }
{
    let Target::Name(name) = target else {
        return Ok(());
    };
    match reply {
        Reply::Address(addr) => values.assign(name, addr),
        _ => Ok(()),
    }
}
