// The values of names.
ghost use Rattle.std.specs.Prelude.{◌≡◌, ℕ, IfOk, OnErr};
ghost use Rattle.heap_model.specs.State.{updated};
ghost use Rattle.command_run.specs.Values.{value_at};

use std::alloc::{AllocError, Global};
use std::marker::Model;

/// The value of each name, by its number. One that was never assigned has the value 0.
#[derive(Drop)]
pub struct Values {
    values: Vec<u64>,
}

impl Model for Values {
    ghost use Rattle.std.specs.Prelude.{ℕ, List};

    ghost Value = { List ℕ };

    ghost view = { λ v. v.values.items };
}

impl Values {
    ghost use Rattle.std.specs.Prelude.{[]};

    pub fn new(alloc: Global) -> Values
        ensures { result ≡ [] }
    {
        Values {
            values: Vec::new(alloc),
        }
    }

    pub fn get(&self, name: u32) -> u64
        ensures { result ≡ value_at self.now name }
    {
        match self.values.get(name as usize) {
            Some(value) => *value,
            None => 0,
        }
    }

    /// Gives a name a value. Where there is no memory, each name keeps its own.
    pub fn assign(&mut self, name: u32, value: u64) -> Result<(), AllocError>
        ensures assigned { IfOk result (λ _. value_at self.new ≡ updated (value_at self.old) name value) }
        ensures refused { OnErr result ((n : ℕ) → value_at self.new n ≡ value_at self.old n) }
    {
        assign_in(&mut self.values, name as usize, value)
    }
}

fn assign_in(values: &mut Vec<u64>, name: usize, value: u64) -> Result<(), AllocError>
    ensures assigned { IfOk result (λ _. value_at values.new.items ≡ updated (value_at values.old.items) name value) }
    ensures refused { OnErr result ((n : ℕ) → value_at values.new.items n ≡ value_at values.old.items n) }
{
    while values.len() <= name {
        values.push(0)?;
    }
    values[name] = value;
    Ok(())
}
