//! What is due, and how it is written.
ghost use Rattle.std.specs.Prelude.{◌≡◌, IfOk, string_bytes};
ghost use Rattle.run_ending.specs.Ending.{Writes, text_due, status_due, fault_text_of};

use itoa::Buffer;
use outside_io::{Sink, SinkNo, write_whole};
use report_text::Text;
use script_text::ScriptFault;
use std::alloc::{AllocError, Global};

/// How a run ended.
#[derive(Clone, Copy, Debug, PartialEq, Eq)]
pub struct Ran {
    pub status: u8,
}

/// What is due to be written.
#[derive(Drop)]
pub enum Due {
    /// The report of a script that was read.
    Report(Text),
    /// The summary of a script that was drawn.
    Summary(Text),
    /// The words are not valid.
    Usage,
    /// The script is refused.
    Refused(ScriptFault),
    /// A read failed.
    Unread,
}

/// Writes what is due and finishes the sink; or a front of it, where the sink fails or memory is wanted.
pub fn deliver<K: Sink>(alloc: Global, due: &Due, sink: &mut K) -> Ran
    ensures { Writes (K.held sink.old) (K.held sink.new) (K.faults sink.old) (K.faults sink.new) (K.finished sink.new)
        (status_due due.now) (text_due due.now) result.status }
{
    match due {
        Due::Report(text) => write_all(sink, text.as_bytes(), 0),
        Due::Summary(text) => write_all(sink, text.as_bytes(), 0),
        Due::Usage => write_all(sink, b"usage fault\n", 2),
        Due::Refused(fault) => match fault_text(alloc, *fault) {
            Ok(text) => write_all(sink, text.as_bytes(), 3),
            Err(AllocError) => Ran { status: 6 },
        },
        Due::Unread => write_all(sink, b"read fault\n", 4),
    }
}

// Writes a text, and answers the status of its run, or why it is not written.
fn write_all<K: Sink>(sink: &mut K, text: &[u8], status: u8) -> Ran
    ensures { Writes (K.held sink.old) (K.held sink.new) (K.faults sink.old) (K.faults sink.new) (K.finished sink.new)
        status text.now result.status }
{
    match write_whole(sink, text) {
        Ok(()) => Ran { status },
        Err(SinkNo::Failed) => Ran { status: 5 },
        Err(SinkNo::OutOfMemory) => Ran { status: 6 },
    }
}

fn fault_text(alloc: Global, fault: ScriptFault) -> Result<String, AllocError>
    ensures { IfOk result (λ text. string_bytes text ≡ fault_text_of fault) }
{
    let mut text = String::from_str(alloc, "line ")?;
    text.push_str(Buffer::new().format(fault.line))?;
    text.push_str(" ")?;
    text.push_str(fault.cause.text())?;
    text.push_str("\n")?;
    Ok(text)
}
