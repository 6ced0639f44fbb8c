// What is due for words and for the bytes of the source.
ghost use Rattle.std.specs.Prelude.{◌≡◌, IfOk, OnErr, map, string_bytes};
ghost use Rattle.std.specs.List.{AllByRecursion};
ghost use Rattle.outside_io.specs.Faults.{Stands};
ghost use Rattle.script_text.specs.Scripts.{commands_of};
ghost use Rattle.script_laws.specs.Printable.{AreBalanced};
ghost use Rattle.command_words.specs.Settings.{limits_of};
ghost use Rattle.command_run.specs.Words.{IsAlone, AreForOne};
ghost use Rattle.run_ending.specs.Ending.{ReadsFew};
ghost use Rattle.command_run.specs.Due.{unfit, IsDue, IsDueBy, IsDueIn, IsDueRead};

use crate::serving::{report_for, summary_for};
use crate::words::setting_alone;
use command_words::{Mode, Setting};
use heap_model::OutOfMemory;
use outside_io::Source;
use run_ending::{Due, Given, read_given};
use script_text::{Script, ScriptFault};
use std::alloc::Global;

/// What is due for these words and the bytes of the source.
pub fn due<S: Source>(alloc: Global, words: &[String], source: &mut S) -> Result<Due, OutOfMemory>
    ensures due { IfOk result (IsDue (map string_bytes words.now) (S.left source.old) (S.left source.new) (S.faults source.old) (S.faults source.new)) }
    ensures few { OnErr result (ReadsFew (S.left source.old) (S.left source.new)) }
    ensures none_failed { OnErr result (Stands (S.faults source.old) (S.faults source.new)) }
{
    match setting_alone(alloc, words)? {
        Some(setting) => due_alone(alloc, &setting, source),
        None => Ok(Due::Usage),
    }
}

/// What is due in a mode of one caller.
pub fn due_alone<S: Source>(
    alloc: Global,
    setting: &Setting,
    source: &mut S,
) -> Result<Due, OutOfMemory>
    requires alone { IsAlone setting.now.mode }
    requires one { AreForOne (limits_of setting.now) }
    ensures due { IfOk result (IsDueBy setting.now.mode setting.now (S.left source.old) (S.left source.new) (S.faults source.old) (S.faults source.new)) }
    ensures few { OnErr result (ReadsFew (S.left source.old) (S.left source.new)) }
    ensures none_failed { OnErr result (Stands (S.faults source.old) (S.faults source.new)) }
{
    match setting.mode {
        Mode::One => due_read(alloc, setting, source),
        Mode::Gen => Ok(Due::Summary(summary_for(alloc, setting)?)),
        Mode::Run => unreachable!(),
    }
}

/// What is due for the bytes of the source.
fn due_read<S: Source>(alloc: Global, setting: &Setting, source: &mut S) -> Result<Due, OutOfMemory>
    requires one { AreForOne (limits_of setting.now) }
    ensures due { IfOk result (IsDueRead setting.now (S.left source.old) (S.left source.new) (S.faults source.old) (S.faults source.new)) }
    ensures few { OnErr result (ReadsFew (S.left source.old) (S.left source.new)) }
    ensures none_failed { OnErr result (Stands (S.faults source.old) (S.faults source.new)) }
{
    match read_given(alloc, source)? {
        Given::Script(script) => due_in(alloc, setting, &script),
        Given::Refused(fault) => Ok(Due::Refused(fault)),
        Given::Unread => Ok(Due::Unread),
    }
}

/// What is due for a script.
fn due_in(alloc: Global, setting: &Setting, script: &Script) -> Result<Due, OutOfMemory>
    requires one { AreForOne (limits_of setting.now) }
    requires balanced { AllByRecursion AreBalanced (commands_of script.now) }
    ensures { IfOk result (IsDueIn setting.now script.now) }
{
    match why_unfit(script) {
        Some(fault) => Ok(Due::Refused(fault)),
        None => Ok(Due::Report(report_for(alloc, setting, script)?)),
    }
}

/// Why a script is not run: a second thread in a round.
fn why_unfit(script: &Script) -> Option<ScriptFault>
    ensures { result ≡ unfit script.now }
{
    match script.single() {
        Ok(()) => None,
        Err(fault) => Some(fault),
    }
}
