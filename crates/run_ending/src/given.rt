//! The script that a source has.
ghost use Rattle.std.specs.Prelude.{◌≡◌, Ok, Err, IfOk, IfErr, OnErr};
ghost use Rattle.outside_io.specs.Faults.{Stands};
ghost use Rattle.script_text.specs.Reading.{reading_of};
ghost use Rattle.run_ending.specs.Ending.{ReadsFew};
ghost use Rattle.run_ending.specs.Given.{IsGiven, IsTold};

use heap_model::OutOfMemory;
use outside_io::{ReadNo, Source, read_whole};
use script_text::{Script, ScriptFault, ScriptNo, read_script};
use std::alloc::Global;

/// The most bytes that are read: one more than a script may have.
const MOST_READ: usize = 1_048_577;

/// What a source gives.
#[derive(Drop)]
pub enum Given {
    /// The script of its bytes.
    Script(Script),
    /// Its bytes are refused.
    Refused(ScriptFault),
    /// A read failed.
    Unread,
}

/// Reads a source to its end, or to one byte more than a script may have, and then the script. Where memory is wanted no read
/// failed, and no more was read than that.
pub fn read_given<S: Source>(alloc: Global, source: &mut S) -> Result<Given, OutOfMemory>
    ensures given { IfOk result (IsGiven (S.left source.old) (S.left source.new) (S.faults source.old) (S.faults source.new)) }
    ensures few { OnErr result (ReadsFew (S.left source.old) (S.left source.new)) }
    ensures none_failed { OnErr result (Stands (S.faults source.old) (S.faults source.new)) }
{
    match read_whole(alloc, source, MOST_READ) {
        Ok(text) => told(alloc, &text),
        Err(ReadNo::Failed) => Ok(Given::Unread),
        Err(ReadNo::OutOfMemory) => Err(OutOfMemory),
    }
}

// What a text is.
fn told(alloc: Global, text: &[u8]) -> Result<Given, OutOfMemory>
    ensures { IfOk result (IsTold text.now) }
{
    match read_script(alloc, text) {
        Ok(script) => Ok(Given::Script(script)),
        Err(ScriptNo::Fault(fault)) => Ok(Given::Refused(fault)),
        Err(ScriptNo::OutOfMemory) => Err(OutOfMemory),
    }
}
