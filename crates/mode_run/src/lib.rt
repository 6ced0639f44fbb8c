//! Mode `run`: a script whose threads run at the same time on one heap, from the bytes of a source to those of a sink.
#![tactic(auto)]

ghost use Rattle.std.specs.Prelude.{◌≡◌, ◌≢◌, ◌⊎◌, ◌<◌, ℕ, true, List, Ok, Err, Some, take, codes, IfOk, OnErr};
ghost use Rattle.std.specs.Io.KnownBytes.{Appends};
ghost use Rattle.heap_model.specs.declared.Entry.{Entry};
ghost use Rattle.layout_decode.specs.declared.Image.{Image as ImageOf};
ghost use Rattle.outside_io.specs.Faults.{Rose, Stands, AppendsPart, ConsumesAtMost};
ghost use Rattle.report_text.specs.Text.{bytes_of};
ghost use Rattle.script_text.specs.Reading.{reading_of};
ghost use Rattle.script_text.specs.ThreadLines.{ScriptLines};
ghost use Rattle.script_text.specs.declared.faults.ScriptFault.{ScriptFault as FaultOf};
ghost use Rattle.run_ending.specs.declared.ending.Due.{Due as DueOf};
ghost use Rattle.run_ending.specs.Ending.{ReadsFew, EndsBy, OneOf, IsStatus, text_due};
ghost use Rattle.thread_rounds.specs.Headline.{IsRunReported};
ghost use Rattle.mode_run.specs.Due.{AreForThreads, IsReport, IsRefused, IsDueRun, EndsRun};

use heap_model::{Limits, OutOfMemory};
use outside_io::{Pace, Sink, Source};
use report_text::{Text, report};
use round_runs::{Rounds, run_rounds};
use run_ending::{Due, Given, Ran, deliver, read_given};
use script_text::Script;
use std::alloc::Global;
use std::sync::Wait;
use std::thread::Threads;

/// Runs the script that a source has on a new heap, each thread of a round in a thread of its own, and writes its report. The pace is
/// told of each command.
pub fn run_threads<R: Threads + Wait + Sync, S: Source, K: Sink, P: Pace + Sync>(
    rt: &R,
    alloc: Global,
    limits: Limits,
    seed: u64,
    source: &mut S,
    sink: &mut K,
    pace: &P,
) -> Ran
    requires { AreForThreads limits }
    // The headline: the report of the threads of all that was left, and of what they left of one heap with one legal history.
    ensures headline { result.status ≡ 0 → (image : ImageOf) × (history : List Entry)
        × IsRunReported limits seed (S.left source.old) (S.left source.new) (K.held sink.old) (K.held sink.new) (K.finished sink.new) image history }

    // The first faulty line.
    ensures refused { result.status ≡ 3 → (text : List ℕ)
        × IsRefused (S.left source.old) (S.left source.new) (S.faults source.old) (S.faults source.new) text
        × Appends (K.held sink.old) (K.held sink.new) text × (K.finished sink.new ≡ true) }

    // A read failed.
    ensures unread { result.status ≡ 4 → Rose (S.faults source.old) (S.faults source.new)
        × Appends (K.held sink.old) (K.held sink.new) (codes "read fault\n") × (K.finished sink.new ≡ true) }

    // A write failed. A front of what was due is written.
    ensures unwritten { result.status ≡ 5 → Rose (K.faults sink.old) (K.faults sink.new) × (due : DueOf)
        × IsDueRun limits seed (S.left source.old) (S.left source.new) (S.faults source.old) (S.faults source.new) due
        × AppendsPart (K.held sink.old) (K.held sink.new) (text_due due) }

    // A text with a fault gives 3, where no read failed, unless the sink fails or memory is wanted.
    ensures refused_only { (bytes : List ℕ) (fault : FaultOf) → S.left source.old ≡ Some bytes → reading_of (take 1048577 bytes) ≡ Err fault
        → (Rose (S.faults source.old) (S.faults source.new) → ⊥) → OneOf 3 result.status }

    // Each script whose bytes are told is run, where nothing fails.
    ensures complete { (bytes : List ℕ) (script : ScriptLines) → S.left source.old ≡ Some bytes → reading_of bytes ≡ Ok script
        → (Rose (S.faults source.old) (S.faults source.new) → ⊥) → (Rose (K.faults sink.old) (K.faults sink.new) → ⊥)
        → (result.status ≡ 0) ⊎ (result.status ≡ 6) }

    // At most 1,048,577 bytes are read, at every status.
    ensures few { ConsumesAtMost 1048577 (S.left source.old) (S.left source.new) }

    // A write or a finish fails at status 5 alone, and no read fails at 0 and 3.
    ensures no_write_failed { result.status ≢ 5 → Stands (K.faults sink.old) (K.faults sink.new) }
    ensures no_read_failed { result.status < 4 → Stands (S.faults source.old) (S.faults source.new) }

    // Each status has its cause, and there are no others.
    ensures statuses { IsStatus result.status }
    ensures ends { EndsRun limits seed (S.left source.old) (S.left source.new) (S.faults source.old) (S.faults source.new)
        (K.held sink.old) (K.held sink.new) (K.faults sink.old) (K.faults sink.new) (K.finished sink.new) result.status }
{
    end_threads(rt, alloc, limits, seed, source, sink, pace)
}

// .. by what is due.
fn end_threads<R: Threads + Wait + Sync, S: Source, K: Sink, P: Pace + Sync>(
    rt: &R,
    alloc: Global,
    limits: Limits,
    seed: u64,
    source: &mut S,
    sink: &mut K,
    pace: &P,
) -> Ran
    requires { AreForThreads limits }
    ensures { EndsRun limits seed (S.left source.old) (S.left source.new) (S.faults source.old) (S.faults source.new)
        (K.held sink.old) (K.held sink.new) (K.faults sink.old) (K.faults sink.new) (K.finished sink.new) result.status }
{
    match due_of_threads(rt, alloc, limits, seed, source, pace) {
        Ok(due) => deliver(alloc, &due, sink),
        Err(OutOfMemory) => Ran { status: 6 },
    }
}

// What is due for the bytes of a source.
fn due_of_threads<R: Threads + Wait + Sync, S: Source, P: Pace + Sync>(
    rt: &R,
    alloc: Global,
    limits: Limits,
    seed: u64,
    source: &mut S,
    pace: &P,
) -> Result<Due, OutOfMemory>
    requires { AreForThreads limits }
    ensures due { IfOk result (IsDueRun limits seed (S.left source.old) (S.left source.new) (S.faults source.old) (S.faults source.new)) }
    ensures few { OnErr result (ReadsFew (S.left source.old) (S.left source.new)) }
    ensures none_failed { OnErr result (Stands (S.faults source.old) (S.faults source.new)) }
{
    match read_given(alloc, source)? {
        Given::Script(script) => {
            let text = report_of_threads(rt, alloc, limits, seed, &script, pace)?;
            Ok(Due::Report(text))
        }
        Given::Refused(fault) => Ok(Due::Refused(fault)),
        Given::Unread => Ok(Due::Unread),
    }
}

// The report of a script that was read.
fn report_of_threads<R: Threads + Wait + Sync, P: Pace + Sync>(
    rt: &R,
    alloc: Global,
    limits: Limits,
    seed: u64,
    script: &Script,
    pace: &P,
) -> Result<Text, OutOfMemory>
    requires limits { AreForThreads limits }
    requires read { (text : List ℕ) × (reading_of text ≡ Ok script.now) }
    ensures { IfOk result (λ written. (text : List ℕ) → reading_of text ≡ Ok script.now → IsReport limits seed text (bytes_of written)) }
{
    let Rounds { answers, receipt } = run_rounds(rt, alloc, script, limits, seed, pace)?;
    report(alloc, script, &answers, &receipt.image)
}
