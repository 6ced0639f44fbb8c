// What the commands of a script were answered.
ghost use Rattle.std.specs.Prelude.{◌≡◌, ◌+◌, ◌-◌, ◌<◌, ◌≤◌, List, [], ◌∷◌, ◌++◌, take, drop, length, slice_index_or, OnOk, OnErr, IsOk, vec_len};
ghost use Rattle.std.specs.Vec.{vec_capacity};
ghost use Rattle.heap_model.specs.declared.Reply.{Reply};
ghost use Rattle.script_text.specs.Marks.{first_mark, own_place, cut_at, AreMarks};
ghost use Rattle.report_text.specs.Answers.{all_replies};

use heap_model::{OutOfMemory, Reply};
use std::alloc::{AllocError, Global};
use std::marker::Model;

/// The answers to the rounds of a script: for each round the threads, for each thread the replies in order.
#[derive(Drop)]
pub struct Answers {
    /// The replies to all threads, one thread after another.
    replies: Vec<Reply>,
    /// For each thread of all rounds, which reply is its first.
    threads: Vec<usize>,
    /// For each round, which thread is its first.
    rounds: Vec<usize>,
}

impl Model for Answers {
    ghost use Rattle.std.specs.Prelude.{List};
    ghost use Rattle.heap_model.specs.declared.Reply.{Reply};
    ghost use Rattle.report_text.specs.Answers.{answers_by, AreFlat};

    ghost Value = { List (List (List Reply)) };

    ghost view = { λ a. answers_by a.rounds.items a.threads.items a.replies.items };

    ghost invariant = { λ a. AreFlat a.rounds.items a.threads.items a.replies.items };
}

impl Answers {
    /// Answers with no round.
    pub fn new(alloc: Global) -> Answers
        ensures { result ≡ [] }
    {
        Answers {
            replies: Vec::new(alloc),
            threads: Vec::new(alloc),
            rounds: Vec::new(alloc),
        }
    }

    /// Adds a round at the end, with no thread yet.
    pub fn add_round(&mut self) -> Result<(), OutOfMemory>
        ensures added { OnOk result (self.new ≡ self.old ++ [] ∷ []) }
        ensures refused { OnErr result (self.new ≡ self.old) }
    {
        let first = self.threads.len();
        push_mark(&mut self.rounds, first)?;
        Ok(())
    }

    /// Adds a thread with these replies at the end of the last round.
    pub fn add_thread(&mut self, replies: Vec<Reply>) -> Result<(), OutOfMemory>
        requires { 0 < length self.old }
        ensures added { (front : List (List (List Reply))) → (last : List (List Reply)) → self.old ≡ front ++ last ∷ []
            → OnOk result (self.new ≡ front ++ (last ++ replies.items ∷ []) ∷ []) }
        ensures refused { OnErr result (self.new ≡ self.old) }
    {
        let first = self.replies.len();
        self.threads.reserve(1)?;
        put_behind(&mut self.replies, replies)?;
        push_mark(&mut self.threads, first)?;
        Ok(())
    }

    /// How many rounds there are.
    pub(crate) fn count(&self) -> usize
        ensures { result ≡ length self.now }
    {
        self.rounds.len()
    }

    /// How many threads of a round were answered.
    pub(crate) fn threads(&self, round: usize) -> usize
        requires { round < length self.now }
        ensures { result ≡ length (slice_index_or self.now round []) }
    {
        let end = end_of(self.rounds.as_slice(), round, self.threads.len());
        end - self.rounds[round]
    }

    /// The replies to a thread.
    pub(crate) fn replies(&self, round: usize, thread: usize) -> &[Reply]
        requires round { round < length self.now }
        requires thread { thread < length (slice_index_or self.now round []) }
        ensures { result.now ≡ slice_index_or (slice_index_or self.now round []) thread [] }
    {
        let threads = self.threads.as_slice();
        let at = self.rounds[round] + thread;
        replies_at(self.replies.as_slice(), threads, at)
    }

    /// The replies to all threads.
    pub(crate) fn all(&self) -> &[Reply]
        ensures { result.now ≡ all_replies self.now }
    {
        self.replies.as_slice()
    }
}

/// Puts a mark at the end, which cannot fail where there is room for it.
fn push_mark(marks: &mut Vec<usize>, mark: usize) -> Result<(), AllocError>
    ensures added { OnOk result (marks.new.items ≡ marks.old.items ++ mark ∷ []) }
    ensures refused { OnErr result (marks.new.items ≡ marks.old.items) }
    ensures room { vec_len marks.old < vec_capacity marks.old → IsOk result }
{
    marks.push(mark)?;
    Ok(())
}

/// Puts replies behind others. Where there are none yet, the vector is taken as it is.
fn put_behind(all: &mut Vec<Reply>, replies: Vec<Reply>) -> Result<(), AllocError>
    ensures added { OnOk result (all.new.items ≡ all.old.items ++ replies.items) }
    ensures refused { OnErr result (all.new.items ≡ all.old.items) }
{
    if all.is_empty() {
        *all = replies;
        return Ok(());
    }
    all.extend_from_slice(replies.as_slice())?;
    Ok(())
}

fn replies_at<'a>(replies: &'a [Reply], threads: &[usize], at: usize) -> &'a [Reply]
    requires marks { AreMarks own_place threads.now (length replies.now) }
    requires within { at < length threads.now }
    ensures { result.now ≡ slice_index_or (cut_at threads.now replies.now) at [] }
{
    let first = threads[at];
    part(replies, first, end_of(threads, at, replies.len()))
}

fn part(replies: &[Reply], first: usize, end: usize) -> &[Reply]
    requires up { first ≤ end }
    requires within { end ≤ length replies.now }
    ensures { result.now ≡ take (end - first) (drop first replies.now) }
{
    &replies[first..end]
}

/// Where what begins at a mark ends: at the next one, or behind all.
fn end_of(marks: &[usize], at: usize, all: usize) -> usize
    requires { at < length marks.now }
    ensures { result ≡ first_mark own_place (drop (at + 1) marks.now) all }
{
    match marks.get(at + 1) {
        Some(next) => *next,
        None => all,
    }
}
