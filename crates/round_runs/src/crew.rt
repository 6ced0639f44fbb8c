//! The workers of a script, what they do in a round, and how they meet.
ghost use Rattle.std.specs.Prelude.{◌≡◌, ◌<◌, ℕ, List, [], ◌∷◌, length, map, slice_index_or};
ghost use Rattle.heap_model.specs.declared.Entry.{Entry};
ghost use Rattle.claim_rule.specs.declared.views.Assignment.{Assignment};
ghost use Rattle.script_text.specs.Scripts.{command_of, round_at};
ghost use Rattle.script_text.specs.Values.{Answered};
ghost use Rattle.script_laws.specs.Printable.{AreBalanced};
ghost use Rattle.thread_commands.specs.Working.{IsFree, Works};
ghost use Rattle.round_runs.specs.Crews.{AreAbreast, AreFree, AreTold};
ghost use Rattle.round_runs.specs.Turns.{threads_of, thread_in, Keeps, Passes, HaveAllMet, AreNotShort, Plays};

use heap_api::Heap;
use heap_gate::meet;
use outside_io::Pace;
use script_text::{CommandLine, Script};
use std::alloc::Global;
use std::sync::Wait;
use std::thread::{self, Threads};
use thread_commands::{Worker, run_thread};

// The commands of a thread of a round. A thread that the round does not have has none.
fn commands_in(script: &Script, round: u32, thread: u32) -> &[CommandLine]
    requires { round < length script.now.rounds }
    ensures { map command_of result.now ≡ thread_in (round_at script.now round) thread }
{
    if thread < script.threads(round) {
        script.commands(round, thread)
    } else {
        &[]
    }
}

// A worker runs a thread of a round.
fn work<R: Wait, P: Pace>(
    rt: &R,
    alloc: Global,
    heap: &Heap,
    script: &Script,
    round: u32,
    w: &mut Worker,
    pace: &P,
)
    requires free { IsFree heap.now w.old }
    requires round { round < length script.now.rounds }
    requires balanced { AreBalanced (threads_of (round_at script.now round)) }
    ensures { Works heap.now w.old w.new (thread_in (round_at script.now round) w.old.caller.number) }
{
    let thread = w.caller.number();
    let commands = commands_in(script, round, thread);
    run_thread(rt, alloc, heap, w, thread, commands, pace);
}

// The workers run the threads of a round, each in a thread of its own where one can be started.
fn run_round<R: Threads + Wait + Sync, P: Pace + Sync>(
    rt: &R,
    alloc: Global,
    heap: &Heap,
    script: &Script,
    round: u32,
    workers: &mut [Worker],
    pace: &P,
)
    requires free { AreFree heap.now workers.old }
    requires round { round < length script.now.rounds }
    requires balanced { AreBalanced (threads_of (round_at script.now round)) }
    ensures many { length workers.new ≡ length workers.old }
    ensures each { (t : ℕ) (d : Worker) → t < length workers.old → Works heap.now (slice_index_or workers.old t d) (slice_index_or workers.new t d) (thread_in (round_at script.now round) (slice_index_or workers.old t d).caller.number) }
{
    let count = workers.len().max(1);
    thread::for_each_mut(
        rt,
        workers,
        count,
        &|_t: usize, w: &mut Worker|
            requires { IsFree heap.now w.now × (round < length script.now.rounds) × AreBalanced (threads_of (round_at script.now round)) }
            ensures { Works heap.entry.now w.entry.now w.exit.now (thread_in (round_at script.entry.now round) w.entry.now.caller.number) }
        { work(rt, alloc, heap, script, round, w, pace) },
    );
}

// One worker meets the others, one after another.
fn meet_others(heap: &Heap, first: &mut Worker, others: &mut [Worker])
    requires first { IsFree heap.now first.old }
    requires others { AreFree heap.now others.old }
    ensures first { Keeps heap.now first.old first.new }
    ensures many { length others.new ≡ length others.old }
    ensures others { (t : ℕ) (d : Worker) → t < length others.old → Passes heap.now first.old first.new (slice_index_or others.old t d) (slice_index_or others.new t d) }
{
    for k in 0..others.len() {
        meet(heap, &mut first.caller, &mut others[k].caller);
    }
}

// One worker meets the others, and then again: so they hear of all that it was told.
fn meet_twice(heap: &Heap, first: &mut Worker, others: &mut [Worker])
    requires first { IsFree heap.now first.old }
    requires others { AreFree heap.now others.old }
    ensures many { length others.new ≡ length others.old }
    ensures each { (t : ℕ) (d : Worker) → t < length (first.old ∷ others.old) → Keeps heap.now (slice_index_or (first.old ∷ others.old) t d) (slice_index_or (first.new ∷ others.new) t d) }
    ensures met { HaveAllMet (first.old ∷ others.old) (first.new ∷ others.new) }
{
    meet_others(heap, first, others);
    meet_others(heap, first, others);
}

/// All workers meet.
pub(crate) fn meet_all(heap: &Heap, workers: &mut [Worker])
    requires { AreFree heap.now workers.old }
    ensures many { length workers.new ≡ length workers.old }
    ensures each { (t : ℕ) (d : Worker) → t < length workers.old → Keeps heap.now (slice_index_or workers.old t d) (slice_index_or workers.new t d) }
    ensures met { 0 < length workers.old → HaveAllMet workers.old workers.new }
{
    if let Some((first, others)) = workers.split_first_mut() {
        meet_twice(heap, first, others);
    }
}

/// The workers run the threads of a round, and then all of them meet.
pub(crate) fn play_round<R: Threads + Wait + Sync, P: Pace + Sync>(
    rt: &R,
    alloc: Global,
    heap: &Heap,
    script: &Script,
    round: u32,
    workers: &mut [Worker],
    pace: &P,
)
    requires free { AreFree heap.now workers.old }
    requires round { round < length script.now.rounds }
    requires balanced { AreBalanced (threads_of (round_at script.now round)) }
    ensures many { length workers.new ≡ length workers.old }
    ensures free { AreFree heap.now workers.new }
    ensures plays { AreNotShort workers.new → (roll : List Assignment) (history : List Entry) (earlier : List (List (List Answered)))
        → AreAbreast roll history workers.old → AreTold earlier [] workers.old
        → Plays heap.now.opening roll workers.old workers.new earlier (threads_of (round_at script.now round)) history }
{
    run_round(rt, alloc, heap, script, round, workers, pace);
    meet_all(heap, workers);
}
