//! What is done behind a round: replies are put down, and names are learned.
ghost use Rattle.std.specs.Prelude.{◌≡◌, ◌<◌, ◌≤◌, ℕ, false, [], ◌∷◌, ◌++◌, IfOk, OnOk, length, map, flat_map, take, slice_index_or};
ghost use Rattle.round_runs.specs.Turns.{replies_of, news_of, AreNotShort, Learns};

use heap_model::{OutOfMemory, Reply};
use name_values::Assigned;
use report_text::Answers;
use std::alloc::{AllocError, Global};
use thread_commands::Worker;

/// Whether a worker has found no memory.
pub(crate) fn is_short(workers: &[Worker]) -> bool
    ensures { result ≡ false → AreNotShort workers.now }
{
    for w in workers {
        if w.short {
            return true;
        }
    }
    false
}

// What a worker was answered in this round.
fn given_to(alloc: Global, w: &Worker) -> Result<Vec<Reply>, AllocError>
    ensures { IfOk result (λ v. v.items ≡ replies_of w.now) }
{
    let mut replies = Vec::new(alloc);
    replies.extend_from_slice(w.replies.as_slice())?;
    Ok(replies)
}

/// Adds a round to the answers: what the first `count` workers were answered.
pub(crate) fn put_down(
    alloc: Global,
    answers: &mut Answers,
    workers: &[Worker],
    count: usize,
) -> Result<(), OutOfMemory>
    requires { count ≤ length workers.now }
    ensures { OnOk result (answers.new ≡ answers.old ++ map replies_of (take count workers.now) ∷ []) }
{
    answers.add_round()?;
    for t in 0..count {
        answers.add_thread(given_to(alloc, &workers[t])?)?;
    }
    Ok(())
}

/// What the workers assigned in this round, one worker after another.
pub(crate) fn all_news(alloc: Global, workers: &[Worker]) -> Result<Vec<Assigned>, AllocError>
    ensures { IfOk result (λ v. v.items ≡ flat_map news_of workers.now) }
{
    let mut news = Vec::new(alloc);
    for w in workers {
        news.extend_from_slice(w.names.news())?;
    }
    Ok(news)
}

/// Each worker learns what the threads of the round assigned.
pub(crate) fn learn_all(workers: &mut [Worker], news: &[Assigned]) -> Result<(), AllocError>
    ensures many { length workers.new ≡ length workers.old }
    ensures each { OnOk result ((t : ℕ) (d : Worker) → t < length workers.old → Learns news.now t (slice_index_or workers.old t d) (slice_index_or workers.new t d)) }
    ensures callers { (t : ℕ) (d : Worker) → t < length workers.old → (slice_index_or workers.new t d).caller ≡ (slice_index_or workers.old t d).caller }
{
    for k in 0..workers.len() {
        workers[k].names.learn(news)?;
    }
    Ok(())
}
