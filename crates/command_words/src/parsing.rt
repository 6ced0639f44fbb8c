// Words as options, by clap.
ghost use Rattle.std.specs.Prelude.{◌≡◌, List, false, true, map, IfOk, IfSome, IfNone, string_bytes};
ghost use Rattle.std.specs.List.{list_all};
ghost use Rattle.clap.specs.Words.{app_of, rule_of, rows_of, found_of, matches_of, FailsBy, fault_of};
ghost use Rattle.command_words.specs.Options.{Given, AreOptions, is_ready};
ghost use Rattle.command_words.specs.Settings.{names};
ghost use Rattle.command_words.specs.Command.{given_rule, app, rows_given};
ghost use Rattle.command_words.specs.Told.{AreTold};

use crate::setting::Values;
use clap::error::ErrorKind;
use clap::{Arg, ArgMatches, Command, Error};
use heap_model::OutOfMemory;
use std::alloc::{AllocError, Global};

/// Whether each word may be part of options. `--` alone and a word of one dash are none.
pub fn are_ready(words: &[String]) -> bool
    ensures { result ≡ list_all (λ w. is_ready (string_bytes w)) words.now }
{
    words.iter().all(|word| is_ready(word))
}

fn is_ready(word: &String) -> bool
    ensures { result ≡ is_ready (string_bytes word.now) }
{
    match word.as_bytes() {
        [b'-', b'-', _, ..] => true,
        [b'-', ..] => false,
        _ => true,
    }
}

/// The values that words give to options; None where the words are no options of the program, or give one twice.
pub fn values_in<'a>(alloc: Global, words: &'a [String]) -> Result<Option<Values<'a>>, OutOfMemory>
    requires { list_all (λ w. is_ready (string_bytes w)) words.now ≡ true }
    ensures told { IfOk result (λ r. IfSome r (λ values.
        (given : List Given) × AreOptions names given (map string_bytes words.entry.now) × AreTold values given)) }
    ensures none { IfOk result (λ r. IfNone r ((given : List Given) → AreOptions names given (map string_bytes words.entry.now) → ⊥)) }
{
    match parsed(alloc, words) {
        Ok(matches) => Ok(Some(told(&matches))),
        Err(error) => match error.kind() {
            ErrorKind::OutOfMemory => Err(OutOfMemory),
            _ => Ok(None),
        },
    }
}

fn parsed<'a>(alloc: Global, words: &'a [String]) -> Result<ArgMatches<'a>, Error>
    ensures matches { IfOk result (λ m. rows_of (found_of m) ≡ matches_of app (map string_bytes words.entry.now)) }
    ensures faults { FailsBy (fault_of app (map string_bytes words.entry.now)) result }
{
    let command = command(alloc)?;
    command.try_get_matches_from(words)
}

/// The values of the options, as they were given.
fn told<'a>(matches: &ArgMatches<'a>) -> Values<'a>
    ensures { (given : List Given) → rows_of (found_of matches.now) ≡ rows_given given → AreTold result given }
{
    Values {
        mode: matches.get_str("mode"),
        segments: matches.get_str("segments"),
        large: matches.get_str("large"),
        slots: matches.get_str("slots"),
        seed: matches.get_str("seed"),
        count: matches.get_str("count"),
    }
}

/// One simple command, with no help: its words are behind the program's name.
fn command<'a>(alloc: Global) -> Result<Command<'a>, AllocError>
    ensures { IfOk result (λ c. app_of c ≡ app) }
{
    Command::new(alloc, "hirvanto")
        .no_binary_name(true)
        .disable_help_flag(true)
        .arg(option(alloc, "mode"))?
        .arg(option(alloc, "segments"))?
        .arg(option(alloc, "large"))?
        .arg(option(alloc, "slots"))?
        .arg(option(alloc, "seed"))?
        .arg(option(alloc, "count"))
}

/// An option with a value.
fn option<'a>(alloc: Global, name: &'a str) -> Arg<'a>
    ensures rule { rule_of result ≡ given_rule name.entry.now }
    ensures local { result.global ≡ false }
{
    Arg::new(alloc, name).long(name)
}
