// The words of the program.
ghost use Rattle.std.specs.Prelude.{◌≡◌, IfOk, IfSome, IfNone, map, string_bytes};
ghost use Rattle.command_run.specs.Words.{IsAlone, SetsAlone, SetsNothingAlone};

use command_words::{Mode, Setting, read_words};
use heap_model::OutOfMemory;
use std::alloc::Global;

/// What the words set in a mode of one caller; None where they are not valid, or are for threads.
pub fn setting_alone(alloc: Global, words: &[String]) -> Result<Option<Setting>, OutOfMemory>
    ensures set { IfOk result (λ r. IfSome r (SetsAlone (map string_bytes words.now))) }
    ensures none { IfOk result (λ r. IfNone r (SetsNothingAlone (map string_bytes words.now))) }
{
    match read_words(alloc, words)? {
        Some(setting) => Ok(alone(setting)),
        None => Ok(None),
    }
}

fn alone(setting: Setting) -> Option<Setting>
    ensures alone { IfSome result (λ s. (s ≡ setting) × IsAlone s.mode) }
    ensures none { IfNone result (setting.mode ≡ Mode.Run) }
{
    match setting.mode {
        Mode::One | Mode::Gen => Some(setting),
        Mode::Run => None,
    }
}
