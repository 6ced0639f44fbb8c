//! The words of the program: `--name value` or `--name=value`, in any order, each name at most once.
//!
//! The names are `mode`, `segments`, `large`, `slots`, `seed` and `count`. `clap` reads them as one simple command whose values
//! are texts; what the values are is read here.
#![tactic(auto)]

mod parsing;
mod setting;
#[cfg(test)]
mod tests;

ghost use Rattle.std.specs.Prelude.{IfOk, IfSome, IfNone, map, string_bytes};
ghost use Rattle.command_words.specs.declared.setting.Setting.{Setting};
ghost use Rattle.command_words.specs.Settings.{AreWords};

use crate::parsing::{are_ready, values_in};
use crate::setting::setting_of;
use heap_model::OutOfMemory;
pub use setting::{Mode, Setting};
use std::alloc::Global;

/// What the words behind the program's name set; None where they are not valid.
pub fn read_words(alloc: Global, words: &[String]) -> Result<Option<Setting>, OutOfMemory>
    ensures valid { IfOk result (λ r. IfSome r (λ setting. AreWords (map string_bytes words.now) setting)) }
    ensures invalid { IfOk result (λ r. IfNone r ((setting : Setting) → AreWords (map string_bytes words.now) setting → ⊥)) }
{
    if !are_ready(words) {
        return Ok(None);
    }
    match values_in(alloc, words)? {
        Some(values) => Ok(setting_of(&values)),
        None => Ok(None),
    }
}
