// Scripts that are run on a new heap of one caller, and what is written of them.
ghost use Rattle.std.specs.Prelude.{IfOk};
ghost use Rattle.std.specs.List.{AllByRecursion};
ghost use Rattle.script_text.specs.Scripts.{commands_of};
ghost use Rattle.script_laws.specs.Printable.{AreBalanced};
ghost use Rattle.report_text.specs.Text.{bytes_of};
ghost use Rattle.command_words.specs.Settings.{limits_of};
ghost use Rattle.command_run.specs.Words.{AreForOne};
ghost use Rattle.command_run.specs.Alone.{IsOutcome, IsReportOf, IsDrawn};

use crate::running::run_rounds;
use command_words::Setting;
use heap_model::{Limits, OutOfMemory};
use layout_decode::Image;
use one_heap::OneHeap;
use report_text::{Answers, Text, report, summary};
use script_text::{Script, generate};
use std::alloc::Global;

/// What a script was answered, and the image that its heap left.
#[derive(Drop)]
pub struct Outcome {
    pub answers: Answers,
    pub image: Image,
}

/// The report of a script.
pub fn report_for(alloc: Global, setting: &Setting, script: &Script) -> Result<Text, OutOfMemory>
    requires one { AreForOne (limits_of setting.now) }
    requires balanced { AllByRecursion AreBalanced (commands_of script.now) }
    ensures { IfOk result (λ text. IsReportOf setting.now script.now (bytes_of text)) }
{
    let outcome = serve_script(alloc, setting.limits(), setting.seed, script)?;
    report(alloc, script, &outcome.answers, &outcome.image)
}

/// The summary of the script that the setting's count and seed give.
pub fn summary_for(alloc: Global, setting: &Setting) -> Result<Text, OutOfMemory>
    requires one { AreForOne (limits_of setting.now) }
    ensures { IfOk result (λ text. IsDrawn setting.now (bytes_of text)) }
{
    let script = generate(alloc, setting.count, setting.seed)?;
    let outcome = serve_script(alloc, setting.limits(), setting.seed, &script)?;
    summary(alloc, &script, &outcome.answers, &outcome.image)
}

/// Runs a script on a new heap, which is closed behind it.
fn serve_script(
    alloc: Global,
    limits: Limits,
    seed: u64,
    script: &Script,
) -> Result<Outcome, OutOfMemory>
    requires one { AreForOne limits }
    requires balanced { AllByRecursion AreBalanced (commands_of script.now) }
    ensures { IfOk result (IsOutcome limits seed script.now) }
{
    let mut heap = OneHeap::open(alloc, limits, seed)?;
    let answers = run_rounds(alloc, &mut heap, script)?;
    let image = heap.close();
    Ok(Outcome { answers, image })
}
