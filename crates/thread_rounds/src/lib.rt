//! The threads of a script on one heap: what a run of them is, and what the program's report of it promises. Worked runs show that
//! the definitions have instances; each is the contract of a function that does nothing.
#![tactic(auto)]

ghost use Rattle.thread_rounds.specs.Rounds.{IsRun};
ghost use Rattle.thread_rounds.specs.Worked.{one_segment, waits_script, waits_answers, waits_history, names_script, names_answers, names_history};

/// One thread holds the heap lock over several lines, and another one tries until it is given back.
pub fn one_waits()
    ensures { IsRun one_segment 1 waits_script waits_answers waits_history }
{}

/// Two threads of a round assign one name, and in the next round it has the value of the higher thread.
pub fn names_of_two_threads()
    ensures { IsRun one_segment 1 names_script names_answers names_history }
{}
