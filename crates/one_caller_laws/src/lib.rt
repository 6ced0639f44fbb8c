// What one caller alone is answered is determined: each law is the contract of a function that does nothing.
#![tactic(auto)]

ghost use Rattle.std.specs.Prelude.{◌≡◌, ℕ, true};
ghost use Rattle.heap_model.specs.declared.Call.TheVariants as calls;
ghost use Rattle.heap_model.specs.declared.Flags.{Flags};
ghost use Rattle.one_caller_laws.specs.OneCall.{AllocationIsDetermined, IsDetermined};
ghost use Rattle.one_caller_laws.specs.UnderBack.{EachThenAllUnderBack, IsDeterminedUnderBack, RunsUnderBackAreOne};
ghost use Rattle.one_caller_laws.specs.Asked.{EachThenAll, RunsOfOthersAreOne};
ghost use Rattle.one_caller_laws.specs.Moving.{ReallocationIsDetermined, RunsThatMoveAreOne};
ghost use Rattle.one_caller_laws.specs.MovingUnderBack.{MoveUnderBackIsDetermined};
ghost use Rattle.one_caller_laws.specs.AllUnderBack.{AllRunsUnderBackAreOne};
ghost use Rattle.one_caller_laws.specs.Worked.{SearchIsNotDetermined, SerialIsNoFunction, TwoHints, TwoReplies, TwoWays};

/// An allocation in which the front end has no part: large, of the back end, or of the variable-size layer.
pub fn allocation_is_determined()
    ensures { AllocationIsDetermined }
{}

/// A free.
pub fn free_is_determined()
    ensures { (a : ℕ) → IsDetermined (calls.Free a) }
{}

/// A question for the size of a block.
pub fn size_is_determined()
    ensures { (a : ℕ) → IsDetermined (calls.Size a) }
{}

/// A word that is read.
pub fn get_is_determined()
    ensures { (a index : ℕ) → IsDetermined (calls.Get a index) }
{}

/// A word that is written.
pub fn put_is_determined()
    ensures { (a index value : ℕ) → IsDetermined (calls.Put a index value) }
{}

/// The heap lock, where the depth does not answer.
pub fn lock_is_determined()
    ensures { IsDetermined calls.Lock }
{}

/// .. and given back.
pub fn unlock_is_determined()
    ensures { IsDetermined calls.Unlock }
{}

/// A step of a walk.
pub fn walk_is_determined()
    ensures { (from : ℕ) → IsDetermined (calls.WalkNext from) }
{}

/// A reallocation that may not move its block, of whatever layer and size.
pub fn in_place_is_determined()
    ensures { (a n : ℕ) (flags : Flags) → flags.in_place ≡ true → IsDetermined (calls.Realloc a n flags) }
{}

/// A reallocation for which the front end makes no place: whether its block stays, moves with its words, is refused, or is not there.
pub fn reallocation_is_determined()
    ensures { ReallocationIsDetermined }
{}

/// A compaction.
pub fn compaction_is_determined()
    ensures { IsDetermined calls.Compact }
{}

/// Where each call that a script asks is determined, two runs of it are one.
pub fn each_then_all()
    ensures { EachThenAll }
{}

/// So are two runs of a script in which the front end has no part, and no block is reallocated but in place.
pub fn runs_of_others_are_one()
    ensures { RunsOfOthersAreOne }
{}

/// .. or blocks are reallocated to sizes that the front end does not serve.
pub fn runs_that_move_are_one()
    ensures { RunsThatMoveAreOne }
{}

/// An allocation of any size, as long as what a pass of a search finds is placed under the lock of the back end.
pub fn allocation_under_back_is_determined()
    ensures { (n : ℕ) (flags : Flags) → IsDeterminedUnderBack (calls.Alloc n flags) }
{}

/// A reallocation of a block that is not of the front end, to any size, under that premise.
pub fn move_under_back_is_determined()
    ensures { MoveUnderBackIsDetermined }
{}

/// .. and one of any block, which may be taken amid the search for its new place.
pub fn reallocation_under_back_is_determined()
    ensures { (a n : ℕ) (flags : Flags) → IsDeterminedUnderBack (calls.Realloc a n flags) }
{}

/// Where each call that a script asks is determined so, two runs of it under that premise are one.
pub fn each_then_all_under_back()
    ensures { EachThenAllUnderBack }
{}

/// So are two runs, under that premise, of a script that asks no reallocation but in place or to a size that the front end does not serve.
pub fn runs_under_back_are_one()
    ensures { RunsUnderBackAreOne }
{}

/// So are any two runs of any script under that premise: all that one caller can ask is determined.
pub fn all_runs_under_back_are_one()
    ensures { AllRunsUnderBackAreOne }
{}

/// A worked pair of different lists of one call, with one reply.
pub fn two_ways()
    ensures { TwoWays }
{}

/// Two lists of one call of which one places what a pass has found behind the lock of the back end.
pub fn two_hints()
    ensures { TwoHints }
{}

/// The replies of a later call differ.
pub fn two_replies()
    ensures { TwoReplies }
{}

/// So what the front end serves is not determined by what a heap shows.
pub fn search_is_not_determined()
    ensures { SearchIsNotDetermined }
{}

/// Nor is what a list of calls is answered a function of the calls, the limits and the seed, as long as the lists leave that open.
pub fn serial_is_no_function()
    ensures { SerialIsNoFunction }
{}
