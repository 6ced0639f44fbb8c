// A script.
ghost use Rattle.std.specs.Prelude.{◌≡◌, ◌<◌, [], length, slice_index_or, Ok, Err, Some, None, IfOk, IfErr};
ghost use Rattle.script_text.specs.Generator.{one_thread};
ghost use Rattle.script_text.specs.Reading.{reading_of, IsRefusedAs};
ghost use Rattle.script_text.specs.Scripts.{AreFew, round_at, thread_at, command_at, second_thread, first_second, most_threads};

use crate::commands::{Command, CommandLine};
use crate::faults::{Cause, ScriptFault, ScriptNo};
use crate::reading::read_lines;
use crate::rounds::Rounds;
use std::alloc::{AllocError, Global};
use std::marker::Model;

/// A text that was read: its rounds, each with its threads, each with its commands.
#[derive(Drop)]
pub struct Script {
    rounds: Rounds,
    names: u32,
}

impl Model for Script {
    ghost use Rattle.script_text.specs.ThreadLines.{ScriptLines};
    ghost use Rattle.script_text.specs.Scripts.{AreFew};

    ghost Value = { ScriptLines };

    ghost view = { λ s. record { names = s.names; rounds = s.rounds } };

    ghost invariant = { λ s. AreFew s.rounds };
}

/// The most bytes that a text may have.
const MOST_BYTES: usize = 1_048_576;

/// Reads a script, or tells the first faulty line and its first cause.
#[tactic(auto, unfolding(crate::specs::Reading::reading_of))]
pub fn read_script(alloc: Global, text: &[u8]) -> Result<Script, ScriptNo>
    ensures script { IfOk result (λ script. reading_of text.now ≡ Ok script) }
    ensures fault { IfErr result (IsRefusedAs (reading_of text.now)) }
{
    if text.len() > MOST_BYTES {
        let cause = Cause::TooLong;
        return Err(ScriptNo::Fault(ScriptFault { line: 0, cause }));
    }
    let read = read_lines(alloc, text)?;
    Ok(Script {
        rounds: read.rounds,
        names: read.names,
    })
}

impl Script {
    /// A script of one round of one thread, with no text.
    pub(crate) fn of_commands(
        alloc: Global,
        names: u32,
        commands: Vec<CommandLine>,
    ) -> Result<Script, AllocError>
        ensures { IfOk result (λ script. script ≡ one_thread names commands.items) }
    {
        let rounds = Rounds::of_thread(alloc, commands)?;
        Ok(Script { rounds, names })
    }

    /// Whether no round has a second thread; otherwise the first line that begins one.
    pub fn single(&self) -> Result<(), ScriptFault>
        ensures single { IfOk result (λ _. first_second self.now.rounds ≡ None) }
        ensures line { IfErr result (λ fault. first_second self.now.rounds ≡ Some fault.line) }
        ensures cause { IfErr result (λ fault. fault.cause ≡ Cause.NotSingle) }
    {
        match second_in(&self.rounds) {
            Some(line) => {
                let cause = Cause::NotSingle;
                Err(ScriptFault { line, cause })
            }
            None => Ok(()),
        }
    }

    /// The most threads of a round, and 0 where there is no round.
    pub fn most_threads(&self) -> u32
        ensures { result ≡ most_threads self.now.rounds }
    {
        most_in(&self.rounds)
    }

    /// How many names stand in the text.
    pub fn names(&self) -> u32
        ensures { result ≡ self.now.names }
    {
        self.names
    }

    pub fn rounds(&self) -> u32
        ensures { result ≡ length self.now.rounds }
    {
        self.rounds.count() as u32
    }

    /// How many threads a round has.
    pub fn threads(&self, round: u32) -> u32
        requires { round < length self.now.rounds }
        ensures { result ≡ length (round_at self.now round) }
    {
        self.rounds.threads(round as usize) as u32
    }

    /// The commands of a thread, each with its line.
    pub fn commands(&self, round: u32, thread: u32) -> &[CommandLine]
        requires round { round < length self.now.rounds }
        requires thread { thread < length (round_at self.now round) }
        ensures { result.now ≡ (thread_at self.now round thread).commands }
    {
        self.rounds.commands(round as usize, thread as usize)
    }

    /// Command number `k` of a thread, if it has so many.
    pub fn command(&self, round: u32, thread: u32, k: u32) -> Option<Command>
        requires round { round < length self.now.rounds }
        requires thread { thread < length (round_at self.now round) }
        ensures { result ≡ command_at self.now round thread k }
    {
        let commands = self.commands(round, thread);
        match commands.get(k as usize) {
            Some(line) => Some(line.command),
            None => None,
        }
    }
}

/// The line of a round's second thread.
fn second_of(rounds: &Rounds, round: usize) -> Option<u32>
    requires { round < length rounds.now }
    ensures { result ≡ second_thread (slice_index_or rounds.now round []) }
{
    if rounds.threads(round) < 2 {
        return None;
    }
    Some(rounds.line(round, 1))
}

fn second_in(rounds: &Rounds) -> Option<u32>
    ensures { result ≡ first_second rounds.now }
{
    for round in 0..rounds.count() {
        match second_of(rounds, round) {
            Some(line) => return Some(line),
            None => {}
        }
    }
    None
}

fn most_in(rounds: &Rounds) -> u32
    requires { AreFew rounds.now }
    ensures { result ≡ most_threads rounds.now }
{
    let mut most = 0;
    for round in 0..rounds.count() {
        most = most.max(rounds.threads(round) as u32);
    }
    most
}
