// What is counted of the lines before a line.
ghost use Rattle.std.specs.Prelude.{◌≡◌, ◌+◌, ◌^◌, ◌<◌};
ghost use Rattle.script_text.specs.Order.{cause_at};
ghost use Rattle.script_text.specs.Counted.{counted, IsWithin};

use crate::commands::{Command, Line};
use crate::faults::Cause;

/// The depth of the present thread, the threads of the present round, and the `walk` lines of the text so far.
#[derive(Clone, Copy, Debug)]
pub struct Counts {
    pub depth: u32,
    pub threads: u32,
    pub walks: u32,
}

/// The most threads of a round.
const MOST_THREADS: u32 = 64;
/// The most `walk` lines of a text.
const MOST_WALKS: u32 = 16;

impl Counts {
    /// Why a line may not stand next.
    pub fn cause(self, line: Line) -> Option<Cause>
        ensures { result ≡ cause_at self.depth self.threads self.walks line }
    {
        match line {
            Line::Round => (self.depth != 0).then_some(Cause::Unbalanced),
            Line::Thread => {
                if self.depth != 0 {
                    return Some(Cause::Unbalanced);
                }
                (MOST_THREADS <= self.threads).then_some(Cause::TooManyThreads)
            }
            Line::Runs(Command::Unlock) => (self.depth == 0).then_some(Cause::Unbalanced),
            Line::Runs(Command::Walk) => (MOST_WALKS <= self.walks).then_some(Cause::TooManyWalks),
            Line::Runs(_) => None,
        }
    }

    /// The counts behind a line that may stand next.
    pub fn after(self, line: Line, limit: u32) -> Counts
        requires within { IsWithin self limit }
        requires room { limit < 2 ^ 31 }
        ensures counted { result ≡ counted self line }
        ensures within { IsWithin result (limit + 1) }
    {
        let mut counts = self;
        match line {
            Line::Round => {
                counts.depth = 0;
                counts.threads = 0;
            }
            Line::Thread => {
                counts.depth = 0;
                counts.threads += 1;
            }
            Line::Runs(command) => {
                counts.threads = counts.threads.max(1);
                match command {
                    Command::Lock => counts.depth += 1,
                    Command::Unlock => counts.depth = counts.depth.saturating_sub(1),
                    Command::Walk => counts.walks += 1,
                    _ => {}
                }
            }
        }
        counts
    }
}
