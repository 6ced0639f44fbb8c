// Why a text is refused.
ghost use Rattle.std.specs.Prelude.{◌≡◌};
ghost use Rattle.script_text.specs.Causes.{cause_text};

use std::alloc::{AllocError, AllocFailed};
use thiserror::Error;

/// Why a line is refused.
#[derive(Clone, Copy, Debug, PartialEq, Eq)]
pub enum Cause {
    BadLine,
    BadNumber,
    BadName,
    TooManyThreads,
    TooManyWalks,
    Unbalanced,
    NotSingle,
    TooLong,
}

impl Cause {
    /// The word that is printed for a cause.
    pub fn text(&self) -> &'static str
        ensures { result.now ≡ cause_text self.now }
    {
        match self {
            Cause::BadLine => "badline",
            Cause::BadNumber => "badnumber",
            Cause::BadName => "badname",
            Cause::TooManyThreads => "threads",
            Cause::TooManyWalks => "walks",
            Cause::Unbalanced => "unbalanced",
            Cause::NotSingle => "notsingle",
            Cause::TooLong => "toolong",
        }
    }
}

/// The first faulty line, numbered from 1, and its cause. Line 0 is the text as a whole; one behind the last line is its
/// end.
#[derive(Clone, Copy, Debug, PartialEq, Eq)]
pub struct ScriptFault {
    pub line: u32,
    pub cause: Cause,
}

#[derive(Debug, Drop, Error)]
pub enum ScriptNo {
    #[error("line {} {}", .0.line, .0.cause.text())]
    Fault(ScriptFault),
    #[error("out of memory")]
    OutOfMemory,
}

impl From<AllocError> for ScriptNo {
    ghost use Rattle.script_text.specs.declared.faults.ScriptNo.TheVariants.{OutOfMemory};

    ghost from_gives = { λ _ e. e ≡ OutOfMemory };

    fn from(_e: AllocError) -> Self {
        ScriptNo::OutOfMemory
    }
}

impl<T: Drop> From<AllocFailed<T>> for ScriptNo {
    ghost use Rattle.script_text.specs.declared.faults.ScriptNo.TheVariants.{OutOfMemory};

    ghost from_gives = { λ _ e. e ≡ OutOfMemory };

    fn from(_e: AllocFailed<T>) -> Self {
        ScriptNo::OutOfMemory
    }
}
