// A script: its text read into rounds, threads and commands, or refused with the first faulty line.
#![tactic(auto)]

mod commands;
mod counts;
mod faults;
mod generating;
mod lines;
mod numbering;
mod reading;
mod rounds;
mod saying;
mod scripts;
#[cfg(test)]
mod tests;
mod words;

pub use commands::{Command, CommandLine, Line, NumberedLine, Target};
pub use faults::{Cause, ScriptFault, ScriptNo};
pub use generating::generate;
pub use scripts::{Script, read_script};
pub use words::number;
