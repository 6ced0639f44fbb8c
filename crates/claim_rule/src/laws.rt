//! The laws of the rule, each the contract of a function that does nothing.

ghost use Rattle.claim_rule.specs.Laws.{RegionsFill, LargestCount, ZeroHintLaw, FreeWordsLaw, PreparedIsCarried, ActsLaw, OpenLaw, SplitLaw, JoinLaw, LoadLaw, NumberLaw, EnterLaw, LeaveLaw, LockLaw, UnlockLaw};

use heap_model::Stands;

/// The regions of the words do not overlap, and fill the table.
pub fn regions_fill()
    ensures { RegionsFill }
{}

/// The largest limits need 5,265,542 words.
pub fn largest_count()
    ensures { LargestCount }
{}

/// A hint of 0 is shown only where there is no subsegment, or where the holder of the back end's lock has made all since it took it.
pub fn zero_hint_is_read_rightly()
    ensures { ZeroHintLaw }
{}

/// While nobody holds the back end's lock, each tag and each hint is that of the state.
pub fn free_words_are_exact()
    ensures { FreeWordsLaw }
{}

/// What a caller has prepared may come behind whatever others did meanwhile, and no word and no slot at home shows it.
pub fn prepared_is_carried<T: Stands>()
    ensures { PreparedIsCarried T.stands }
{}

/// The law that each kind of step of a caller comes to: where its own entries may come behind those that it carries, and
/// the word that it writes and the slots that it leaves show what is behind them, the rule goes on.
pub fn step_goes_on<T: Stands>()
    ensures { ActsLaw T.stands }
{}

/// A new table is ruled.
pub fn open_is_ruled<T: Stands>()
    ensures { OpenLaw T.stands }
{}

/// Splitting a seat keeps the rule.
pub fn split_keeps<T: Stands>()
    ensures { SplitLaw T.stands }
{}

/// Joining a seat keeps the rule.
pub fn join_keeps<T: Stands>()
    ensures { JoinLaw T.stands }
{}

/// Loading a word keeps the rule.
pub fn load_keeps<T: Stands>()
    ensures { LoadLaw T.stands }
{}

/// Counting a caller keeps the rule.
pub fn number_keeps<T: Stands>()
    ensures { NumberLaw T.stands }
{}

/// Entering keeps the rule, and so does the step of a caller that has to turn back.
pub fn enter_keeps<T: Stands>()
    ensures { EnterLaw T.stands }
{}

/// Leaving and turning back keep the rule.
pub fn leave_keeps<T: Stands>()
    ensures { LeaveLaw T.stands }
{}

/// Trying to take the heap lock keeps the rule.
pub fn lock_keeps<T: Stands>()
    ensures { LockLaw T.stands }
{}

/// Giving the heap lock back keeps the rule.
pub fn unlock_keeps<T: Stands>()
    ensures { UnlockLaw T.stands }
{}
