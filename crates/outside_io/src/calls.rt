// The calls of a source or a sink in memory, some of which are to fail.
ghost use Rattle.std.specs.Prelude.{◌↔◌, ◌≤◌, ◌<◌, ◌^◌, IsTrue, IfOk, Contains};
ghost use Rattle.std.specs.List.Sorted.{IsNonDecreasing};
ghost use Rattle.outside_io.specs.Calls.{Calls, FailsNext, OneMore, BeginsWith};

use std::alloc::{AllocError, Global};
use std::marker::Model;

/// Counts calls, numbered from 0, and the faults among them.
#[derive(Drop)]
pub struct CallCount {
    /// The numbers of the calls that fail, in rising order.
    failing: Vec<u32>,
    made: u64,
    faults: u64,
}

impl Model for CallCount {
    ghost Value = { Calls };

    ghost view = { λ c. record { made = c.made; failing = c.failing.items; faults = c.faults } };

    ghost invariant = { λ c. (c.faults ≤ c.made) × IsNonDecreasing c.failing.items };
}

impl CallCount {
    pub fn new(alloc: Global, fails: &[u32]) -> Result<CallCount, AllocError>
        ensures { IfOk result (BeginsWith fails.now) }
    {
        let mut failing = fails.to_vec(alloc)?;
        failing.sort_unstable();
        Ok(CallCount {
            failing,
            made: 0,
            faults: 0,
        })
    }

    /// Counts one call, and tells whether it fails.
    pub fn fails(&mut self) -> bool
        ensures fails { IsTrue result ↔ FailsNext self.old }
        ensures counted { OneMore self.old self.new }
    {
        let fails = stands_in(&self.failing, self.made);
        self.made = self.made.saturating_add(1);
        if fails {
            self.faults += 1;
        }
        fails
    }
}

fn stands_in(numbers: &[u32], number: u64) -> bool
    requires { IsNonDecreasing numbers.now }
    ensures found { IsTrue result ↔ Contains numbers.now number }
    ensures small { IsTrue result → number < 2 ^ 32 }
{
    match u32::try_from(number) {
        Ok(number) => numbers.binary_search(&number).is_ok(),
        Err(_) => false,
    }
}
