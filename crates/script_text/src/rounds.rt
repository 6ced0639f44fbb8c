// Rounds, threads and commands, line by line.
ghost use Rattle.std.specs.Prelude.{◌≡◌, ◌+◌, ◌-◌, ◌==◌, ◌<◌, ◌≤◌, [], ◌∷◌, ◌++◌, take, drop, length, slice_index_or, IfOk};
ghost use Rattle.script_text.specs.declared.commands.Line.TheVariants as lines;
ghost use Rattle.script_text.specs.Grown.{change_last, thread_with, thread_from, round_with, rounds_with};
ghost use Rattle.script_text.specs.Marks.{first_mark, own_place, AreMarks};
ghost use Rattle.script_text.specs.Flat.{first_command, threads_by, some_round, last_round};
ghost use Rattle.script_text.specs.Scripts.{no_thread};

use crate::commands::{CommandLine, Line};
use std::alloc::{AllocError, Global};
use std::marker::Model;

/// The beginning of a thread: the number of the line, and which command is its first.
#[derive(Clone, Copy)]
pub struct ThreadMark {
    pub line: u32,
    pub first: usize,
}

/// Rounds, each with its threads, each with its commands.
#[derive(Drop)]
pub struct Rounds {
    /// The commands of all threads, one thread after another.
    commands: Vec<CommandLine>,
    /// The threads of all rounds, one round after another.
    threads: Vec<ThreadMark>,
    /// For each round, which thread is its first.
    rounds: Vec<usize>,
}

impl Model for Rounds {
    ghost use Rattle.std.specs.Prelude.{List};
    ghost use Rattle.script_text.specs.ThreadLines.{ThreadLines};
    ghost use Rattle.script_text.specs.Flat.{threads_by, rounds_by, AreFlat};

    ghost Value = { List (List ThreadLines) };

    ghost view = { λ r. rounds_by r.rounds.items (threads_by r.threads.items r.commands.items) };

    ghost invariant = { λ r. AreFlat r.rounds.items r.threads.items r.commands.items };
}

impl Rounds {
    pub fn new(alloc: Global) -> Rounds
        ensures { result ≡ [] }
    {
        Rounds {
            commands: Vec::new(alloc),
            threads: Vec::new(alloc),
            rounds: Vec::new(alloc),
        }
    }

    /// One round of one thread, which begins with no line.
    pub fn of_thread(alloc: Global, commands: Vec<CommandLine>) -> Result<Rounds, AllocError>
        ensures { IfOk result (λ rounds. rounds ≡ (record { line = 0; commands = commands.items } ∷ []) ∷ []) }
    {
        let mut threads = Vec::new(alloc);
        threads.push(ThreadMark { line: 0, first: 0 })?;
        let mut rounds = Vec::new(alloc);
        rounds.push(0)?;
        Ok(Rounds {
            commands,
            threads,
            rounds,
        })
    }

    /// Adds a line to the rounds of the lines before it.
    pub fn add_line(&mut self, number: u32, line: Line) -> Result<(), AllocError>
        ensures { IfOk result (λ _. self.new ≡ rounds_with number line self.old) }
    {
        match line {
            Line::Round => self.open_round(),
            Line::Thread => {
                self.have_round()?;
                self.open_thread(number)?;
                Ok(())
            }
            Line::Runs(command) => {
                self.have_round()?;
                self.add_command(CommandLine {
                    line: number,
                    command,
                })?;
                Ok(())
            }
        }
    }

    /// Adds a round with no thread.
    fn open_round(&mut self) -> Result<(), AllocError>
        ensures { IfOk result (λ _. self.new ≡ self.old ++ [] ∷ []) }
    {
        self.rounds.push(self.threads.len())?;
        Ok(())
    }

    /// Adds a first round where there is none.
    fn have_round(&mut self) -> Result<(), AllocError>
        ensures { IfOk result (λ _. self.new ≡ some_round self.old) }
    {
        if self.count() == 0 {
            return self.open_round();
        }
        Ok(())
    }

    /// Adds a thread with no command to the last round.
    fn open_thread(&mut self, line: u32) -> Result<(), AllocError>
        requires { 0 < length self.old }
        ensures { IfOk result (λ _. self.new ≡ change_last (round_with line lines.Thread) [] self.old) }
    {
        let first = self.commands.len();
        self.threads.push(ThreadMark { line, first })?;
        Ok(())
    }

    /// Adds a command to the last thread of the last round, or to a first one, which begins with it.
    fn add_command(&mut self, line: CommandLine) -> Result<(), AllocError>
        requires { 0 < length self.old }
        ensures { IfOk result (λ _. self.new ≡ change_last (round_with line.line (lines.Runs line.command)) [] self.old) }
    {
        if self.lacks_thread() {
            self.open_thread(line.line)?;
            self.push(line)?;
            return Ok(());
        }
        self.push(line)?;
        Ok(())
    }

    /// Adds a command to the last thread of the last round.
    fn push(&mut self, line: CommandLine) -> Result<(), AllocError>
        requires { 0 < length (last_round self.old) }
        ensures { IfOk result (λ _. self.new ≡ change_last (change_last (thread_with line) (thread_from line)) [] self.old) }
    {
        self.commands.push(line)?;
        Ok(())
    }

    /// Whether the last round has no thread.
    fn lacks_thread(&self) -> bool
        requires { 0 < length self.now }
        ensures { result ≡ (length (last_round self.now) == 0) }
    {
        self.rounds[self.rounds.len() - 1] == self.threads.len()
    }
}

impl Rounds {
    /// How many rounds there are.
    pub fn count(&self) -> usize
        ensures { result ≡ length self.now }
    {
        self.rounds.len()
    }

    /// How many threads a round has.
    pub fn threads(&self, round: usize) -> usize
        requires { round < length self.now }
        ensures { result ≡ length (slice_index_or self.now round []) }
    {
        let end = end_of_round(self.rounds.as_slice(), round, self.threads.len());
        end - self.rounds[round]
    }

    /// The line that a thread begins with.
    pub fn line(&self, round: usize, thread: usize) -> u32
        requires round { round < length self.now }
        requires thread { thread < length (slice_index_or self.now round []) }
        ensures { result ≡ (slice_index_or (slice_index_or self.now round []) thread no_thread).line }
    {
        let threads = self.threads.as_slice();
        threads[self.rounds[round] + thread].line
    }

    /// The commands of a thread, each with its line.
    pub fn commands(&self, round: usize, thread: usize) -> &[CommandLine]
        requires round { round < length self.now }
        requires thread { thread < length (slice_index_or self.now round []) }
        ensures { result.now ≡ (slice_index_or (slice_index_or self.now round []) thread no_thread).commands }
    {
        let threads = self.threads.as_slice();
        let at = self.rounds[round] + thread;
        commands_at(self.commands.as_slice(), threads, at)
    }
}

fn commands_at<'a>(
    commands: &'a [CommandLine],
    threads: &[ThreadMark],
    at: usize,
) -> &'a [CommandLine]
    requires marks { AreMarks first_command threads.now (length commands.now) }
    requires within { at < length threads.now }
    ensures { result.now ≡ (slice_index_or (threads_by threads.now commands.now) at no_thread).commands }
{
    let first = threads[at].first;
    part(commands, first, end_of_thread(threads, at, commands.len()))
}

fn part(commands: &[CommandLine], first: usize, end: usize) -> &[CommandLine]
    requires up { first ≤ end }
    requires within { end ≤ length commands.now }
    ensures { result.now ≡ take (end - first) (drop first commands.now) }
{
    &commands[first..end]
}

/// Which command ends a thread, of so many.
fn end_of_thread(threads: &[ThreadMark], at: usize, all: usize) -> usize
    requires { at < length threads.now }
    ensures { result ≡ first_mark first_command (drop (at + 1) threads.now) all }
{
    match threads.get(at + 1) {
        Some(next) => next.first,
        None => all,
    }
}

/// Which thread ends a round, of so many.
fn end_of_round(rounds: &[usize], at: usize, all: usize) -> usize
    requires { at < length rounds.now }
    ensures { result ≡ first_mark own_place (drop (at + 1) rounds.now) all }
{
    match rounds.get(at + 1) {
        Some(next) => *next,
        None => all,
    }
}
