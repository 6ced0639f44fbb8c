// The lines of replies: by round, then thread, then command.
ghost use Rattle.std.specs.Prelude.{◌≡◌, ◌+◌, ◌<◌, [], ◌++◌, length, ◌^◌, map, slice_index_or, OnOk, string_bytes, if◌then◌else◌};
ghost use Rattle.script_text.specs.Scripts.{commands_of, command_of, round_at};
ghost use Rattle.report_text.specs.Report.{script_lines, round_lines, thread_lines, reply_line, is_seen};
ghost use Rattle.report_text.specs.Commands.{round_commands};

use crate::answers::Answers;
use crate::words::{push_reply, push_word, word_of_command};
use heap_model::{OutOfMemory, Reply};
use script_text::{Command, CommandLine, Script};
use std::alloc::AllocError;

pub fn push_rounds(text: &mut String, script: &Script, answers: &Answers) -> Result<(), OutOfMemory>
    ensures { OnOk result (string_bytes text.new ≡ string_bytes text.old ++ script_lines 0 (commands_of script.now) answers.now) }
{
    let count = script.rounds();
    for round in 0..answers.count() {
        if round >= count as usize {
            return Ok(());
        }
        push_threads(text, script, round as u32, answers)?;
    }
    Ok(())
}

fn push_threads(
    text: &mut String,
    script: &Script,
    round: u32,
    answers: &Answers,
) -> Result<(), OutOfMemory>
    requires round { round < length script.now.rounds }
    requires answered { round < length answers.now }
    ensures { OnOk result (string_bytes text.new
        ≡ string_bytes text.old ++ round_lines round 0 (round_commands (round_at script.now round)) (slice_index_or answers.now round [])) }
{
    let count = script.threads(round);
    for thread in 0..answers.threads(round as usize) {
        if thread >= count as usize {
            return Ok(());
        }
        let commands = script.commands(round, thread as u32);
        let replies = answers.replies(round as usize, thread);
        push_thread(text, round, thread as u32, commands, replies)?;
    }
    Ok(())
}

fn push_thread(
    text: &mut String,
    round: u32,
    thread: u32,
    commands: &[CommandLine],
    replies: &[Reply],
) -> Result<(), AllocError>
    ensures { OnOk result (string_bytes text.new
        ≡ string_bytes text.old ++ thread_lines round thread (map command_of commands.now) replies.now) }
{
    let mut k = 0;
    for reply in replies {
        let Some(line) = commands.get(k) else {
            return Ok(());
        };
        push_line(text, round, thread, line.command, *reply)?;
        k = number_after(k, *reply);
    }
    Ok(())
}

fn push_line(
    text: &mut String,
    round: u32,
    thread: u32,
    command: Command,
    reply: Reply,
) -> Result<(), AllocError>
    ensures { OnOk result (string_bytes text.new ≡ string_bytes text.old ++ reply_line round thread command reply) }
{
    push_word(text, "", u64::from(round))?;
    push_word(text, " ", u64::from(thread))?;
    text.push_str(" ")?;
    text.push_str(word_of_command(command))?;
    text.push_str(" ")?;
    push_reply(text, reply)?;
    text.push_str("\n")
}

/// The number of the command that the next reply belongs to. A block that a walk has seen is not the last reply to the walk.
fn number_after(k: usize, reply: Reply) -> usize
    requires { k + 1 < 2 ^ 64 }
    ensures { result ≡ (if is_seen reply then k else k + 1) }
{
    match reply {
        Reply::Seen(_) => k,
        _ => k + 1,
    }
}
