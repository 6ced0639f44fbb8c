//! All rounds of a script on one heap.
ghost use Rattle.std.specs.Prelude.{◌≡◌, ◌+◌, ◌<◌, ◌≤◌, List, IfOk, OnOk, length, take};
ghost use Rattle.std.specs.List.{AllByRecursion};
ghost use Rattle.heap_model.specs.Limits.{AreValid};
ghost use Rattle.claim_rule.specs.declared.views.Assignment.{Assignment};
ghost use Rattle.heap_gate.specs.Roots.{RootToken};
ghost use Rattle.script_text.specs.Scripts.{commands_of, most_threads, round_at};
ghost use Rattle.script_laws.specs.Printable.{AreBalanced};
ghost use Rattle.round_runs.specs.Crews.{AreFree, AreMade};
ghost use Rattle.round_runs.specs.Turns.{threads_of, HaveRun};
ghost use Rattle.round_runs.specs.Played.{IsPlayed};

use crate::crew::{meet_all, play_round};
use crate::ends::{join_all, make_workers};
use crate::turns::{all_news, is_short, learn_all, put_down};
use heap_api::{Heap, open_heap};
use heap_closing::{Receipt, close};
use heap_model::{Limits, OutOfMemory};
use outside_io::Pace;
use report_text::Answers;
use script_text::Script;
use std::alloc::Global;
use std::sync::Wait;
use std::thread::Threads;
use thread_commands::Worker;

/// What a script was answered, and what its heap has left behind.
#[derive(Drop)]
pub struct Rounds {
    pub answers: Answers,
    pub receipt: Receipt,
}

// Plays a round, puts down its replies, and lets each worker learn what was assigned.
fn play_and_note<R: Threads + Wait + Sync, P: Pace + Sync>(
    rt: &R,
    alloc: Global,
    heap: &Heap,
    script: &Script,
    round: u32,
    workers: &mut [Worker],
    answers: &mut Answers,
    pace: &P,
) -> Result<(), OutOfMemory>
    requires free { AreFree heap.now workers.old }
    requires round { round < length script.now.rounds }
    requires balanced { AreBalanced (threads_of (round_at script.now round)) }
    requires few { length (round_at script.now round) ≤ length workers.old }
    ensures many { length workers.new ≡ length workers.old }
    ensures free { AreFree heap.now workers.new }
    ensures run { OnOk result ((roll : List Assignment) → length roll ≡ length workers.old → HaveRun heap.now.opening roll workers.old (take round (commands_of script.now)) answers.old
        → HaveRun heap.now.opening roll workers.new (take (round + 1) (commands_of script.now)) answers.new) }
{
    play_round(rt, alloc, heap, script, round, workers, pace);
    if is_short(workers) {
        return Err(OutOfMemory);
    }
    put_down(alloc, answers, workers, script.threads(round) as usize)?;
    let news = all_news(alloc, workers)?;
    learn_all(workers, news.as_slice())?;
    Ok(())
}

// Round after round. All workers meet before the first one, and then again behind each.
fn play_all<R: Threads + Wait + Sync, P: Pace + Sync>(
    rt: &R,
    alloc: Global,
    heap: &Heap,
    script: &Script,
    workers: &mut [Worker],
    pace: &P,
) -> Result<Answers, OutOfMemory>
    requires made { (root : RootToken) × AreMade heap.now root workers.old }
    requires balanced { AllByRecursion AreBalanced (commands_of script.now) }
    requires few { most_threads script.now.rounds ≤ length workers.old }
    ensures many { length workers.new ≡ length workers.old }
    ensures free { AreFree heap.now workers.new }
    ensures run { IfOk result (λ answers. (root : RootToken) → AreMade heap.now root workers.old → HaveRun heap.now.opening root.roll workers.new (commands_of script.now) answers) }
{
    meet_all(heap, workers);
    let mut answers = Answers::new(alloc);
    for round in 0..script.rounds() {
        play_and_note(rt, alloc, heap, script, round, workers, &mut answers, pace)?;
    }
    Ok(answers)
}

// The same, over the vector of all workers.
fn play_in<R: Threads + Wait + Sync, P: Pace + Sync>(
    rt: &R,
    alloc: Global,
    heap: &Heap,
    script: &Script,
    workers: &mut Vec<Worker>,
    pace: &P,
) -> Result<Answers, OutOfMemory>
    requires made { (root : RootToken) × AreMade heap.now root workers.old.items }
    requires balanced { AllByRecursion AreBalanced (commands_of script.now) }
    requires few { most_threads script.now.rounds ≤ length workers.old.items }
    ensures many { length workers.new.items ≡ length workers.old.items }
    ensures free { AreFree heap.now workers.new.items }
    ensures run { IfOk result (λ answers. (root : RootToken) → AreMade heap.now root workers.old.items → HaveRun heap.now.opening root.roll workers.new.items (commands_of script.now) answers) }
{
    play_all(rt, alloc, heap, script, workers.as_mut_slice(), pace)
}

/// Runs a script on a heap of its own, each thread of a round in a thread of its own where one can be started. The pace is told of each
/// command. A thread that finds no memory for a reply runs no further command, and gives the heap lock back; the call then answers so
/// behind that round.
pub fn run_rounds<R: Threads + Wait + Sync, P: Pace + Sync>(
    rt: &R,
    alloc: Global,
    script: &Script,
    limits: Limits,
    seed: u64,
    pace: &P,
) -> Result<Rounds, OutOfMemory>
    requires limits { AreValid limits }
    requires callers { most_threads script.now.rounds ≤ limits.callers }
    requires balanced { AllByRecursion AreBalanced (commands_of script.now) }
    ensures { IfOk result (λ r. IsPlayed script.now limits seed r.answers r.receipt) }
{
    let (heap, mut root) = open_heap(alloc, limits, seed)?;
    let mut workers = make_workers(alloc, &heap, &mut root, script.most_threads())?;
    let answers = play_in(rt, alloc, &heap, script, &mut workers, pace)?;
    join_all(&heap, &mut root, workers);
    let receipt = close(heap, root);
    Ok(Rounds { answers, receipt })
}
