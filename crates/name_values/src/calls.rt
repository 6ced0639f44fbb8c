//! The calls of commands, by the values of names.
ghost use Rattle.std.specs.Prelude.{◌≡◌, false};
ghost use Rattle.heap_model.specs.declared.Call.TheVariants as calls;
ghost use Rattle.script_text.specs.Calls.{address_of, call_of};
ghost use Rattle.name_values.specs.Table.{value_in};

use crate::table::Names;
use heap_model::{Call, Flags};
use script_text::{Command, Target};

impl Names {
    /// The call of a command. A walk calls for the next block again and again; this is its first call.
    pub fn call_for(&self, command: Command) -> Call
        ensures { result ≡ call_of (value_in self.now.values) command }
    {
        match command {
            Command::Alloc { n, zero, .. } => {
                let flags = Flags {
                    zero,
                    in_place: false,
                };
                Call::Alloc { n, flags }
            }
            Command::Realloc {
                target,
                n,
                in_place,
            } => realloc_at(address_for(self, target), n, in_place),
            Command::Free { target } => {
                let addr = address_for(self, target);
                Call::Free { addr }
            }
            Command::Size { target } => {
                let addr = address_for(self, target);
                Call::Size { addr }
            }
            Command::Get { target, index } => {
                let addr = address_for(self, target);
                Call::Get { addr, index }
            }
            Command::Put {
                target,
                index,
                value,
            } => {
                let addr = address_for(self, target);
                Call::Put { addr, index, value }
            }
            Command::Lock => Call::Lock,
            Command::Unlock => Call::Unlock,
            Command::Walk => Call::WalkNext { from: 0 },
            Command::Compact => Call::Compact,
        }
    }
}

fn address_for(names: &Names, target: Target) -> u64
    ensures { result ≡ address_of (value_in names.now.values) target }
{
    match target {
        Target::Name(name) => names.get(name),
        Target::Addr(addr) => addr,
    }
}

fn realloc_at(addr: u64, n: u64, in_place: bool) -> Call
    ensures { result ≡ calls.Realloc addr n (record { zero = false; in_place = in_place }) }
{
    let flags = Flags {
        zero: false,
        in_place,
    };
    Call::Realloc { addr, n, flags }
}
