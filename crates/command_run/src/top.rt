// The program in all its modes.
ghost use Rattle.std.specs.Prelude.{◌≡◌, ◌≢◌, ◌⊎◌, ◌<◌, ℕ, true, Ok, Err, Some, IfOk, IfSome, IfNone, List, map, codes, take, string_bytes};
ghost use Rattle.std.specs.Io.KnownBytes.{Appends, Keeps};
ghost use Rattle.heap_model.specs.declared.Entry.{Entry};
ghost use Rattle.layout_decode.specs.declared.Image.{Image};
ghost use Rattle.outside_io.specs.Faults.{Rose, Stands, AppendsPart, ConsumesAtMost};
ghost use Rattle.script_text.specs.Reading.{reading_of};
ghost use Rattle.script_text.specs.ThreadLines.{ScriptLines};
ghost use Rattle.script_text.specs.declared.faults.ScriptFault.{ScriptFault as FaultOf};
ghost use Rattle.command_words.specs.declared.setting.Mode.TheVariants.{Run};
ghost use Rattle.command_words.specs.declared.setting.Setting.{Setting as SettingOf};
ghost use Rattle.command_words.specs.Settings.{limits_of};
ghost use Rattle.run_ending.specs.declared.ending.Due.{Due as DueOf};
ghost use Rattle.run_ending.specs.Ending.{OneOf, IsStatus, text_due};
ghost use Rattle.thread_rounds.specs.Headline.{IsRunReported};
ghost use Rattle.mode_run.specs.Due.{IsRefused as IsRefusedRun};
ghost use Rattle.command_run.specs.Words.{AreText, Sets, SetsAlone};
ghost use Rattle.command_run.specs.Due.{Ends};
ghost use Rattle.command_run.specs.Top.{SetsThreads, SetsNothing, IsDueInAny, EndsInAny};

use crate::arguments::texts;
use crate::run::run_one;
use command_words::{Mode, Setting, read_words};
use heap_model::OutOfMemory;
use mode_run::run_threads;
use outside_io::{Pace, Sink, Source};
use run_ending::{Due, Ran, deliver};
use std::alloc::{AllocError, Global};
use std::sync::Wait;
use std::thread::Threads;

/// The program, by its words. In mode `run` the script that the source has is run on one heap, each thread of a round in a thread of its
/// own, and its report is written. The modes of one caller are [`run_one`]'s. The pace is told of each command of a thread.
pub fn run<R: Threads + Wait + Sync, S: Source, K: Sink, P: Pace + Sync>(
    rt: &R,
    alloc: Global,
    words: &[String],
    source: &mut S,
    sink: &mut K,
    pace: &P,
) -> Ran
    // Mode `run`: the headline. All that was left was read, and the report is written of the threads of its script and of what they left of
    // one heap: with the limits and the seed of the words there is one legal history of their calls, which were answered so.
    ensures headline { (setting : SettingOf) → SetsThreads (map string_bytes words.now) setting → result.status ≡ 0
        → (image : Image) × (history : List Entry) × IsRunReported (limits_of setting) setting.seed (S.left source.old) (S.left source.new)
        (K.held sink.old) (K.held sink.new) (K.finished sink.new) image history }

    // .. the first faulty line.
    ensures refused { (setting : SettingOf) → SetsThreads (map string_bytes words.now) setting → result.status ≡ 3 → (text : List ℕ)
        × IsRefusedRun (S.left source.old) (S.left source.new) (S.faults source.old) (S.faults source.new) text
        × Appends (K.held sink.old) (K.held sink.new) text × (K.finished sink.new ≡ true) }

    // .. a read failed.
    ensures unread { (setting : SettingOf) → SetsThreads (map string_bytes words.now) setting → result.status ≡ 4
        → Rose (S.faults source.old) (S.faults source.new)
        × Appends (K.held sink.old) (K.held sink.new) (codes "read fault\n") × (K.finished sink.new ≡ true) }

    // .. a text with a fault gives 3, where no read failed, unless the sink fails or memory is wanted.
    ensures refused_only { (setting : SettingOf) → SetsThreads (map string_bytes words.now) setting
        → (bytes : List ℕ) (fault : FaultOf) → S.left source.old ≡ Some bytes → reading_of (take 1048577 bytes) ≡ Err fault
        → (Rose (S.faults source.old) (S.faults source.new) → ⊥) → OneOf 3 result.status }

    // .. each script whose bytes are told is run, where nothing fails.
    ensures complete { (setting : SettingOf) → SetsThreads (map string_bytes words.now) setting
        → (bytes : List ℕ) (script : ScriptLines) → S.left source.old ≡ Some bytes → reading_of bytes ≡ Ok script
        → (Rose (S.faults source.old) (S.faults source.new) → ⊥) → (Rose (K.faults sink.old) (K.faults sink.new) → ⊥)
        → (result.status ≡ 0) ⊎ (result.status ≡ 6) }

    // The modes of one caller: each status has the cause that it has in `run_one`.
    ensures alone { (setting : SettingOf) → SetsAlone (map string_bytes words.now) setting
        → Ends (map string_bytes words.now) (S.left source.old) (S.left source.new) (S.faults source.old) (S.faults source.new)
        (K.held sink.old) (K.held sink.new) (K.faults sink.old) (K.faults sink.new) (K.finished sink.new) result.status }

    // Words that are not valid. Nothing is read.
    ensures usage { result.status ≡ 2 → SetsNothing (map string_bytes words.now)
        × Keeps (S.left source.old) (S.left source.new)
        × Appends (K.held sink.old) (K.held sink.new) (codes "usage fault\n") × (K.finished sink.new ≡ true) }

    // They give 2, unless the sink fails or memory is wanted.
    ensures usage_only { SetsNothing (map string_bytes words.now) → OneOf 2 result.status }

    // A write failed. A front of what was due is written.
    ensures unwritten { result.status ≡ 5 → Rose (K.faults sink.old) (K.faults sink.new) × (due : DueOf)
        × IsDueInAny (map string_bytes words.now) (S.left source.old) (S.left source.new) (S.faults source.old) (S.faults source.new) due
        × AppendsPart (K.held sink.old) (K.held sink.new) (text_due due) }

    // At most 1,048,577 bytes are read, at every status.
    ensures few { ConsumesAtMost 1048577 (S.left source.old) (S.left source.new) }

    // A write or a finish fails at status 5 alone, and no read fails at 0, 2 and 3.
    ensures no_write_failed { result.status ≢ 5 → Stands (K.faults sink.old) (K.faults sink.new) }
    ensures no_read_failed { result.status < 4 → Stands (S.faults source.old) (S.faults source.new) }

    // Each status has its cause, and there are no others.
    ensures statuses { IsStatus result.status }
    ensures ends { EndsInAny (map string_bytes words.now) (S.left source.old) (S.left source.new) (S.faults source.old) (S.faults source.new)
        (K.held sink.old) (K.held sink.new) (K.faults sink.old) (K.faults sink.new) (K.finished sink.new) result.status }
{
    run_in_mode(rt, alloc, words, source, sink, pace)
}

/// [`run`] with words that may be any bytes. Words that are not UTF-8 are not valid.
pub fn run_words<R: Threads + Wait + Sync, S: Source, K: Sink, P: Pace + Sync>(
    rt: &R,
    alloc: Global,
    words: &[Vec<u8>],
    source: &mut S,
    sink: &mut K,
    pace: &P,
) -> Ran
    // Words that are no text give 2, unless the sink fails or memory is wanted.
    ensures no_text { (AreText (map (λ w. w.items) words.now) → ⊥) → OneOf 2 result.status }

    // Each status has the cause that it has in `run`.
    ensures ends { EndsInAny (map (λ w. w.items) words.now) (S.left source.old) (S.left source.new) (S.faults source.old) (S.faults source.new)
        (K.held sink.old) (K.held sink.new) (K.faults sink.old) (K.faults sink.new) (K.finished sink.new) result.status }
{
    match texts(alloc, words) {
        Ok(Some(texts)) => run(rt, alloc, &texts, source, sink, pace),
        Ok(None) => deliver(alloc, &Due::Usage, sink),
        Err(AllocError) => Ran { status: 6 },
    }
}

// What the words set; None where they are not valid.
fn setting_in(alloc: Global, words: &[String]) -> Result<Option<Setting>, OutOfMemory>
    ensures set { IfOk result (λ r. IfSome r (Sets (map string_bytes words.now))) }
    ensures none { IfOk result (λ r. IfNone r (SetsNothing (map string_bytes words.now))) }
{
    read_words(alloc, words)
}

// .. by what the words set.
fn run_in_mode<R: Threads + Wait + Sync, S: Source, K: Sink, P: Pace + Sync>(
    rt: &R,
    alloc: Global,
    words: &[String],
    source: &mut S,
    sink: &mut K,
    pace: &P,
) -> Ran
    ensures { EndsInAny (map string_bytes words.now) (S.left source.old) (S.left source.new) (S.faults source.old) (S.faults source.new)
        (K.held sink.old) (K.held sink.new) (K.faults sink.old) (K.faults sink.new) (K.finished sink.new) result.status }
{
    match setting_in(alloc, words) {
        Ok(Some(setting)) => run_as_set(rt, alloc, words, &setting, source, sink, pace),
        Ok(None) => deliver(alloc, &Due::Usage, sink),
        Err(OutOfMemory) => Ran { status: 6 },
    }
}

// .. in the mode that they set.
fn run_as_set<R: Threads + Wait + Sync, S: Source, K: Sink, P: Pace + Sync>(
    rt: &R,
    alloc: Global,
    words: &[String],
    setting: &Setting,
    source: &mut S,
    sink: &mut K,
    pace: &P,
) -> Ran
    requires { Sets (map string_bytes words.now) setting.now }
    ensures { EndsInAny (map string_bytes words.now) (S.left source.old) (S.left source.new) (S.faults source.old) (S.faults source.new)
        (K.held sink.old) (K.held sink.new) (K.faults sink.old) (K.faults sink.new) (K.finished sink.new) result.status }
{
    match setting.mode {
        Mode::Run => run_threads(
            rt,
            alloc,
            setting.limits(),
            setting.seed,
            source,
            sink,
            pace,
        ),
        Mode::One | Mode::Gen => run_one(alloc, words, source, sink),
    }
}
