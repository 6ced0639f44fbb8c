// What is counted for a summary. A count of commands of more than 64 bits is None; no commands in memory are so many.
ghost use Rattle.std.specs.Prelude.{◌≡◌, ◌<◌, length, IfSome};
ghost use Rattle.script_text.specs.Scripts.{commands_of, round_at};
ghost use Rattle.report_text.specs.Commands.{round_commands};
ghost use Rattle.report_text.specs.Summary.{commands_in, commands_of_round};
ghost use Rattle.report_text.specs.Tally.{tally_of_replies, tally_of};

use crate::answers::Answers;
use heap_model::Reply;
use script_text::Script;

/// How many replies refuse what was asked, by their kind.
#[derive(Clone, Copy, Debug, PartialEq, Eq)]
pub struct Tally {
    pub no_fit: u64,
    pub not_live: u64,
    pub past: u64,
}

const NOTHING: Tally = Tally {
    no_fit: 0,
    not_live: 0,
    past: 0,
};

impl Tally {
    pub fn of_answers(answers: &Answers) -> Tally
        ensures { result ≡ tally_of answers.now }
    {
        Tally::of_replies(answers.all())
    }

    fn of_replies(replies: &[Reply]) -> Tally
        ensures { result ≡ tally_of_replies replies.now }
    {
        let mut tally = NOTHING;
        for reply in replies {
            match reply {
                Reply::NoFit => tally.no_fit += 1,
                Reply::NotLive => tally.not_live += 1,
                Reply::Past(_) => tally.past += 1,
                _ => {}
            }
        }
        tally
    }
}

/// How many commands a script has.
pub fn count_commands(script: &Script) -> Option<u64>
    ensures { IfSome result (λ n. n ≡ commands_in (commands_of script.now)) }
{
    let mut sum: u64 = 0;
    for round in 0..script.rounds() {
        sum = sum.checked_add(count_in_round(script, round)?)?;
    }
    Some(sum)
}

fn count_in_round(script: &Script, round: u32) -> Option<u64>
    requires { round < length script.now.rounds }
    ensures { IfSome result (λ n. n ≡ commands_of_round (round_commands (round_at script.now round))) }
{
    let mut sum: u64 = 0;
    for thread in 0..script.threads(round) {
        sum = sum.checked_add(script.commands(round, thread).len() as u64)?;
    }
    Some(sum)
}
