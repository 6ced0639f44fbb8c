// A script from a count and a seed.
ghost use Rattle.std.specs.Prelude.{◌≡◌, ℕ, zero, suc, ◌+◌, ◌^◌, ◌<◌, ◌≤◌, not, ◌&&◌, nat_lt, [], IfOk, is_some, unwrap_or, if◌then◌else◌};
ghost use Rattle.script_text.specs.Generator.{size_of, on_held, command_on, name_draw, value_draw, drawn, drawn_behind, names_drawn, numbered, command_lines, generated};
ghost use Rattle.script_text.specs.Drawing.{HasDrawn};

use crate::commands::{Command, CommandLine, Target};
use crate::scripts::Script;
use heap_model::OutOfMemory;
use rand_core::utils::NextWord;
use rand_pcg::Pcg32;
use std::alloc::{AllocError, Global};

/// How many names a generated script has at most.
const NAMES: usize = 256;

/// The stream of the generator.
const STREAM: u64 = 54;

/// A script of one round of one thread of `count` commands, drawn from PCG32 of this seed on stream 54.
///
/// Its names are `n` with a number of 0 to 255. It has no text, so its commands have the line 0.
#[tactic(auto, unfolding(crate::specs::Generator::generated))]
pub fn generate(alloc: Global, count: u32, seed: u64) -> Result<Script, OutOfMemory>
    ensures { IfOk result (λ script. script ≡ generated count seed) }
{
    let mut drawing = Drawing::new(seed);
    let commands = drawing.commands(alloc, count, seed)?;
    let script = Script::of_commands(alloc, drawing.used, commands)?;
    Ok(script)
}

/// What the commands so far have made of a name.
#[derive(Clone, Copy)]
pub struct Known {
    /// Its number in the script, where it has stood.
    pub number: Option<u32>,
    pub held: bool,
}

/// The drawing of commands, one after another.
#[derive(Drop)]
pub struct Drawing {
    pub generator: Pcg32,
    pub names: [Known; NAMES],
    /// How many names have stood.
    pub used: u32,
}

impl Drawing {
    fn new(seed: u64) -> Drawing
        ensures { HasDrawn result seed 0 }
    {
        let fresh = Known {
            number: None,
            held: false,
        };
        Drawing {
            generator: Pcg32::new(seed, STREAM),
            names: [fresh; NAMES],
            used: 0,
        }
    }

    /// The first `count` commands, of a drawing that has drawn none.
    fn commands(
        &mut self,
        alloc: Global,
        count: u32,
        seed: u64,
    ) -> Result<Vec<CommandLine>, AllocError>
        requires { HasDrawn self.old seed 0 }
        ensures drawn { IfOk result (λ _. HasDrawn self.new seed count) }
        ensures commands { IfOk result (λ commands. commands.items ≡ command_lines (names_drawn seed count) (drawn seed count)) }
    {
        let mut commands = Vec::with_capacity(alloc, count as usize)?;
        for _ in 0..count {
            let command = self.next();
            commands.push(CommandLine { line: 0, command })?;
        }
        Ok(commands)
    }

    /// The next command, by two draws.
    fn next(&mut self) -> Command
        requires { self.old.used + 1 < 2 ^ 32 }
        ensures drawn { (seed k : ℕ) → HasDrawn self.old seed k → HasDrawn self.new seed (suc k) }
        ensures command { (seed k : ℕ) → HasDrawn self.old seed k
            → result ≡ numbered (names_drawn seed (suc k)) (drawn_behind (drawn seed k) (name_draw seed k) (value_draw seed k)) }
        ensures few { self.new.used ≤ self.old.used + 1 }
    {
        let a = self.generator.next_word();
        let b = self.generator.next_word();
        let name = (a % 256) as usize;
        let choice = a / 256 % 4;
        let known = self.names[name];
        let number = self.number(known.number);
        self.names[name] = Known {
            number: Some(number),
            held: is_held_behind(known.held, choice),
        };
        command_on(known.held, choice, number, b)
    }

    /// The number of a name: that which it has, or the next one.
    fn number(&mut self, had: Option<u32>) -> u32
        requires { self.old.used + 1 < 2 ^ 32 }
        ensures number { result ≡ unwrap_or had self.old.used }
        ensures used { self.new ≡ record self.old { used = if is_some had then self.old.used else self.old.used + 1 } }
    {
        match had {
            Some(number) => number,
            None => {
                self.used += 1;
                self.used - 1
            }
        }
    }
}

/// Whether a name is held behind the command that these make of it.
fn is_held_behind(held: bool, choice: u32) -> bool
    ensures { result ≡ not (held && nat_lt choice 2) }
{
    !(held && choice < 2)
}

/// What is done with a name: one that is not held is allocated.
fn command_on(held: bool, choice: u32, name: u32, b: u32) -> Command
    ensures { result ≡ command_on held choice name b }
{
    if held {
        on_held(choice, name, b)
    } else {
        Command::Alloc {
            name,
            n: size_of(b),
            zero: false,
        }
    }
}

fn on_held(choice: u32, name: u32, b: u32) -> Command
    ensures { result ≡ on_held choice name b }
{
    let target = Target::Name(name);
    match choice {
        0 | 1 => Command::Free { target },
        2 => Command::Realloc {
            target,
            n: size_of(b),
            in_place: false,
        },
        _ => Command::Put {
            target,
            index: 0,
            value: u64::from(b),
        },
    }
}

/// The size that a draw asks: the low 4 bits choose the range, and the others the size in it.
fn size_of(b: u32) -> u64
    ensures { result ≡ size_of b }
{
    let rest = u64::from(b / 16);
    match b % 16 {
        0..=11 => 1 + rest % 512,
        12 | 13 => 1 + rest % 16_384,
        14 => 1 + rest % 131_072,
        _ => 131_073 + rest % 389_120,
    }
}
