// A text, line after line.
ghost use Rattle.std.specs.Prelude.{◌≡◌, ◌+◌, ◌<◌, ◌≤◌, List, [], length, Ok, Some, IfOk, IfErr};
ghost use Rattle.script_text.specs.Lines.{lines_of};
ghost use Rattle.script_text.specs.Names.{names_in, different};
ghost use Rattle.script_text.specs.Counted.{IsWithin};
ghost use Rattle.script_text.specs.Reading.{noted, ended, lines_read, IsRefusedAs};
ghost use Rattle.script_text.specs.Rounds.{rounds_of};
ghost use Rattle.script_text.specs.Taken.{IsTaken, IsNoted};
ghost use Rattle.script_text.specs.declared.commands.NumberedLine.{NumberedLine};

use crate::commands::Line;
use crate::counts::Counts;
use crate::faults::{Cause, ScriptFault, ScriptNo};
use crate::lines::cut_line;
use crate::numbering::Names;
use crate::rounds::Rounds;
use crate::saying::say;
use std::alloc::Global;

/// The rounds of the lines that were read so far, and the counts of them.
#[derive(Drop)]
pub struct Taken {
    pub rounds: Rounds,
    pub counts: Counts,
}

impl Taken {
    fn new(alloc: Global) -> Self
        ensures taken { IsTaken result.rounds result.counts 0 [] }
        ensures within { IsWithin result.counts 0 }
    {
        let counts = Counts {
            depth: 0,
            threads: 0,
            walks: 0,
        };
        Taken {
            rounds: Rounds::new(alloc),
            counts,
        }
    }

    /// Takes what the next line says. Behind a refusal nothing more may be taken.
    fn note(
        &mut self,
        alloc: Global,
        number: u32,
        said: Option<Line>,
        limit: u32,
    ) -> Result<(), ScriptNo>
        requires taken { (before : List NumberedLine) × IsTaken self.old.rounds self.old.counts limit before }
        requires within { IsWithin self.old.counts limit }
        requires room { limit < 1048576 }
        ensures noted { IfOk result (λ _. (before : List NumberedLine) → IsTaken self.old.rounds self.old.counts limit before →
            IsNoted before number said self.new.rounds self.new.counts (limit + 1)) }
        ensures within { IfOk result (λ _. IsWithin self.new.counts (limit + 1)) }
        ensures fault { IfErr result (λ no. (before : List NumberedLine) → IsTaken self.old.rounds self.old.counts limit before →
            IsRefusedAs (noted before number (Ok said)) no) }
    {
        match said {
            Some(line) => self.place(alloc, number, line, limit),
            None => Ok(()),
        }
    }

    fn place(&mut self, alloc: Global, number: u32, line: Line, limit: u32) -> Result<(), ScriptNo>
        requires taken { (before : List NumberedLine) × IsTaken self.old.rounds self.old.counts limit before }
        requires within { IsWithin self.old.counts limit }
        requires room { limit < 1048576 }
        ensures noted { IfOk result (λ _. (before : List NumberedLine) → IsTaken self.old.rounds self.old.counts limit before →
            IsNoted before number (Some line) self.new.rounds self.new.counts (limit + 1)) }
        ensures within { IfOk result (λ _. IsWithin self.new.counts (limit + 1)) }
        ensures fault { IfErr result (λ no. (before : List NumberedLine) → IsTaken self.old.rounds self.old.counts limit before →
            IsRefusedAs (noted before number (Ok (Some line))) no) }
    {
        match self.counts.cause(line) {
            Some(cause) => Err(ScriptNo::Fault(ScriptFault {
                line: number,
                cause,
            })),
            None => {
                self.rounds.add_line(number, line)?;
                self.counts = self.counts.after(line, limit);
                Ok(())
            }
        }
    }

    /// The rounds of a text that ends here.
    fn end(self, number: u32, limit: u32) -> Result<Rounds, ScriptNo>
        ensures ended { IfOk result (λ rounds. (before : List NumberedLine) → IsTaken self.rounds self.counts limit before →
            (ended before number ≡ Ok before) × (rounds ≡ rounds_of before)) }
        ensures fault { IfErr result (λ no. (before : List NumberedLine) → IsTaken self.rounds self.counts limit before →
            IsRefusedAs (ended before number) no) }
    {
        if self.counts.depth != 0 {
            let cause = Cause::Unbalanced;
            return Err(ScriptNo::Fault(ScriptFault {
                line: number,
                cause,
            }));
        }
        Ok(self.rounds)
    }
}

/// The rounds of a text, and how many names it has.
#[derive(Drop)]
pub struct ReadText {
    pub rounds: Rounds,
    pub names: u32,
}

/// Reads the lines of a text that is not too long.
pub fn read_lines(alloc: Global, text: &[u8]) -> Result<ReadText, ScriptNo>
    requires { length text.now ≤ 1048576 }
    ensures rounds { IfOk result (λ read. (lines : List NumberedLine) × (lines_read text.now ≡ Ok lines) × (read.rounds ≡ rounds_of lines)
        × (length lines ≤ 1048576)) }
    ensures names { IfOk result (λ read. read.names ≡ different (names_in (lines_of text.now))) }
    ensures fault { IfErr result (IsRefusedAs (lines_read text.now)) }
{
    let mut names = Names::new(alloc);
    let mut taken = Taken::new(alloc);
    let mut rest = text;
    let mut number = 0;
    while !rest.is_empty() {
        let (front, behind) = cut_line(rest);
        let said = say(&mut names, number + 1, front)?;
        taken.note(alloc, number + 1, said, number)?;
        number += 1;
        rest = behind;
    }
    let rounds = taken.end(number + 1, number)?;
    let names = names.count() as u32;
    Ok(ReadText { rounds, names })
}
