//! The table of one thread.
ghost use Rattle.std.specs.Prelude.{◌≡◌, ℕ, [], ◌∷◌, ◌++◌, List, OnOk, slice_index_or};
ghost use Rattle.std.specs.Option.{unwrap_or};
ghost use Rattle.script_text.specs.Values.{Answered, assigned, placed_at, moved_to};
ghost use Rattle.name_values.specs.Table.{value_in, last_in, given_by, given_if, Tells, TellsRound};

use crate::Assigned;
use heap_model::Reply;
use script_text::{Command, Target};
use std::alloc::{AllocError, Global};
use std::marker::Model;

/// What the names stand for, as one thread sees it, and what the thread assigned in this round.
#[derive(Drop)]
pub struct Names {
    values: Vec<u64>,
    news: Vec<Assigned>,
}

impl Model for Names {
    ghost use Rattle.name_values.specs.Table.{NameTable};

    ghost Value = { NameTable };

    ghost view = { λ t. record { values = t.values.items; news = t.news.items } };
}

impl Names {
    /// A table in which no name was assigned.
    pub fn new(alloc: Global) -> Names
        ensures { Tells result [] [] }
    {
        Names {
            values: Vec::new(alloc),
            news: Vec::new(alloc),
        }
    }

    /// The value of a name.
    pub fn get(&self, name: u32) -> u64
        ensures { result ≡ value_in self.now.values name }
    {
        match self.values.get(name as usize) {
            Some(value) => *value,
            None => 0,
        }
    }

    /// What the thread assigned in this round, the first one first.
    pub fn news(&self) -> &[Assigned]
        ensures { result.now ≡ self.now.news }
    {
        self.news.as_slice()
    }

    /// Gives the name of a command the value that its last reply assigns, if it assigns one.
    pub fn note(&mut self, command: Command, reply: Reply) -> Result<(), AllocError>
        ensures { OnOk result ((earlier : List (List (List Answered))) → (own : List Answered) → Tells self.old earlier own
            → Tells self.new earlier (own ++ record { command = command; reply = reply } ∷ [])) }
    {
        match assignment(command, reply) {
            Some(new) => self.put(new),
            None => Ok(()),
        }
    }

    fn put(&mut self, new: Assigned) -> Result<(), AllocError>
        ensures values { OnOk result ((name : ℕ) → value_in self.new.values name ≡ unwrap_or (given_by new name) (value_in self.old.values name)) }
        ensures news { OnOk result (self.new.news ≡ self.old.news ++ new ∷ []) }
    {
        put_in(&mut self.values, new)?;
        self.news.push(new)?;
        Ok(())
    }

    /// Learns what the threads of a round assigned, of which the table's own thread was one, or had no command.
    pub fn learn(&mut self, news: &[Assigned]) -> Result<(), AllocError>
        ensures { OnOk result ((earlier : List (List (List Answered))) → (round : List (List Answered)) → (t : ℕ) → TellsRound news.now round
            → Tells self.old earlier (slice_index_or round t []) → Tells self.new (earlier ++ round ∷ []) []) }
    {
        put_all(&mut self.values, news)?;
        self.news.clear();
        Ok(())
    }
}

// What the reply to a command assigns.
fn assignment(command: Command, reply: Reply) -> Option<Assigned>
    ensures { (name : ℕ) → assigned command reply name ≡ given_if result name }
{
    match command {
        Command::Alloc { name, .. } => Some(Assigned {
            name,
            value: placed(reply),
        }),
        Command::Realloc { target, .. } => moved(target, reply),
        _ => None,
    }
}

fn placed(reply: Reply) -> u64
    ensures { result ≡ placed_at reply }
{
    match reply {
        Reply::Address(addr) => addr,
        _ => 0,
    }
}

fn moved(target: Target, reply: Reply) -> Option<Assigned>
    ensures { (name : ℕ) → moved_to target name reply ≡ given_if result name }
{
    let Target::Name(name) = target else {
        return None;
    };
    match reply {
        Reply::Address(value) => Some(Assigned { name, value }),
        _ => None,
    }
}

// Gives a name a value.
fn put_in(values: &mut Vec<u64>, new: Assigned) -> Result<(), AllocError>
    ensures { OnOk result ((name : ℕ) → value_in values.new.items name ≡ unwrap_or (given_by new name) (value_in values.old.items name)) }
{
    while values.len() <= new.name as usize {
        values.push(0)?;
    }
    values[new.name as usize] = new.value;
    Ok(())
}

// Gives names values, one after another.
fn put_all(values: &mut Vec<u64>, news: &[Assigned]) -> Result<(), AllocError>
    ensures { OnOk result ((name : ℕ) → value_in values.new.items name ≡ unwrap_or (last_in news.now name) (value_in values.old.items name)) }
{
    for new in news {
        put_in(values, *new)?;
    }
    Ok(())
}
