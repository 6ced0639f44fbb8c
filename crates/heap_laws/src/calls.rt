// Worked calls: a legal history of each shape, and one that breaks at the entry that may not come.
ghost use Rattle.std.specs.Prelude.{◌≡◌, ◌++◌, [], true, map};
ghost use Rattle.heap_model.specs.declared.Call.TheVariants as calls;
ghost use Rattle.heap_model.specs.declared.Reply.TheVariants as replies;
ghost use Rattle.heap_model.specs.declared.Layer.TheVariants as layers;
ghost use Rattle.heap_model.specs.declared.What.TheVariants as whats;
ghost use Rattle.heap_model.specs.Alone.{by_zero};
ghost use Rattle.heap_model.specs.History.{is_legal, configuration_of};
ghost use Rattle.heap_model.specs.Moments.{moments_by};
ghost use Rattle.heap_model.specs.Served.{GetsReply, AreServed};
ghost use Rattle.heap_model.specs.Shape.{Replied, WasBusy};
ghost use Rattle.serial_laws.specs.BackCalls.{plain};
ghost use Rattle.heap_laws.specs.Worked.{one};
ghost use Rattle.heap_laws.specs.WorkedCalls.{IsWorked, BreaksAtLast, call_by, zeroed, in_place, roomy, places_zeroed, zeroes_beyond, with_words, puts_last, puts_for_another_size, gets_last, gets_invented, looks_past, finds_none, denies_block, grows_zeroed, grows_too_long, with_neighbour, finds_no_room, moves_words, loads_another, denies_range, with_large, grows_nowhere, denies_room, locks, walks, unlocks, drawn_by_two, with_front, shrinks, grows_again, grows_too_far, moves_out, drops_live, fits_nowhere, keeps_in_hand, waits_for_another, waits_for_nobody, frees_front, compacts_front, compacts_used, asked_under_lock, answered_under_lock, steps_under_lock};

/// A block whose words are zeroed before it is live.
pub fn zeroed_allocation()
    ensures worked { IsWorked one [] (calls.Alloc 24 zeroed) (Replied (replies.Address 8256)) (call_by (calls.Alloc 24 zeroed) places_zeroed) }
    ensures beyond { BreaksAtLast one [] (call_by (calls.Alloc 24 zeroed) zeroes_beyond) }
{}

/// Words of a block are written and read, and no word behind its last.
pub fn words_of_a_block()
    ensures put { IsWorked one with_words (calls.Put 8256 2 5) (Replied replies.Done) (call_by (calls.Put 8256 2 5) puts_last) }
    ensures another_size { BreaksAtLast one with_words (call_by (calls.Put 8256 2 5) puts_for_another_size) }
    ensures get { IsWorked one with_words (calls.Get 8256 2) (Replied (replies.Number 9)) (call_by (calls.Get 8256 2) gets_last) }
    ensures invented { BreaksAtLast one with_words (call_by (calls.Get 8256 2) gets_invented) }
    ensures get_past { IsWorked one with_words (calls.Get 8256 3) (Replied (replies.Past 3)) (call_by (calls.Get 8256 3) looks_past) }
    ensures put_past { IsWorked one with_words (calls.Put 8256 3 1) (Replied (replies.Past 3)) (call_by (calls.Put 8256 3 1) looks_past) }
{}

/// No block lives at an address inside another.
pub fn no_block_there()
    ensures get { IsWorked one with_words (calls.Get 8264 0) (Replied replies.NotLive) (call_by (calls.Get 8264 0) finds_none) }
    ensures put { IsWorked one with_words (calls.Put 8264 0 1) (Replied replies.NotLive) (call_by (calls.Put 8264 0 1) finds_none) }
    ensures realloc { IsWorked one with_words (calls.Realloc 8264 8 plain) (Replied replies.NotLive) (call_by (calls.Realloc 8264 8 plain) finds_none) }
    ensures denied { BreaksAtLast one with_words (call_by (calls.Realloc 8256 8 plain) denies_block) }
{}

/// A block that grows where it is, with the words that it gains zeroed.
pub fn grows_in_place()
    ensures worked { IsWorked one with_words (calls.Realloc 8256 40 zeroed) (Replied (replies.Address 8256)) (call_by (calls.Realloc 8256 40 zeroed) grows_zeroed) }
    ensures too_long { BreaksAtLast one with_words (call_by (calls.Realloc 8256 40 zeroed) grows_too_long) }
{}

/// A block that has another right behind it: it stays where it may not move, and moves with its words where it may.
pub fn moves()
    ensures no_room { IsWorked one with_neighbour (calls.Realloc 8256 200 in_place) (Replied replies.NoRoom) (call_by (calls.Realloc 8256 200 in_place) finds_no_room) }
    ensures moved { IsWorked one with_neighbour (calls.Realloc 8256 200 plain) (Replied (replies.Address 8336)) (call_by (calls.Realloc 8256 200 plain) moves_words) }
    ensures another_word { BreaksAtLast one with_neighbour (call_by (calls.Realloc 8256 200 plain) loads_another) }
    ensures fits { BreaksAtLast one with_neighbour (call_by (calls.Realloc 8256 200 plain) denies_range) }
{}

/// A large block that can neither stay nor move.
pub fn grows_nowhere_at_all()
    ensures no_fit { IsWorked roomy with_large (calls.Realloc 1048576 528385 plain) (Replied replies.NoFit) (call_by (calls.Realloc 1048576 528385 plain) grows_nowhere) }
    ensures room { BreaksAtLast roomy with_large (call_by (calls.Realloc 1048576 528385 plain) denies_room) }
{}

/// The heap lock, and a walk under it.
pub fn locks_and_walks()
    ensures lock { IsWorked one with_neighbour calls.Lock (Replied replies.Done) locks }
    ensures next { IsWorked one (with_neighbour ++ locks) (calls.WalkNext 8257) (Replied (replies.Seen (record { addr = 8304; size = 16; layer = layers.Vs }))) walks }
    ensures end { IsWorked one (with_words ++ locks) (calls.WalkNext 8257) (Replied (replies.Walked 1)) walks }
    ensures unlock { IsWorked one (with_neighbour ++ locks) calls.Unlock (Replied replies.Done) unlocks }
    ensures not_owner { BreaksAtLast one with_neighbour unlocks }
{}

/// A block of the front end that stays, moves, or can't be moved, and then is live again.
pub fn front_end_blocks()
    ensures grows { IsWorked drawn_by_two (with_front ++ shrinks) (calls.Realloc 73936 16 zeroed) (Replied (replies.Address 73936)) (call_by (calls.Realloc 73936 16 zeroed) grows_again) }
    ensures too_far { BreaksAtLast drawn_by_two (with_front ++ shrinks) (call_by (calls.Realloc 73936 17 zeroed) grows_too_far) }
    ensures moves { IsWorked drawn_by_two with_front (calls.Realloc 73936 100 plain) (Replied (replies.Address 8800)) (call_by (calls.Realloc 73936 100 plain) moves_out) }
    ensures live { BreaksAtLast drawn_by_two with_front (call_by (calls.Realloc 73936 100 plain) drops_live) }
    ensures no_fit { IsWorked drawn_by_two with_front (calls.Realloc 73936 600000 plain) (Replied replies.NoFit) (call_by (calls.Realloc 73936 600000 plain) fits_nowhere) }
    ensures in_hand { BreaksAtLast drawn_by_two with_front (call_by (calls.Realloc 73936 600000 plain) keeps_in_hand) }
{}

/// A reallocation that meets another caller at a lock.
pub fn meets_another()
    ensures busy { IsWorked drawn_by_two with_front (calls.Realloc 73936 100 plain) (WasBusy (record { what = whats.Vs; word = 2 })) waits_for_another }
    ensures nobody { BreaksAtLast drawn_by_two with_front waits_for_nobody }
{}

/// A compaction that gives a span of the front end back.
pub fn compacts_the_heap()
    ensures compact { IsWorked drawn_by_two (with_front ++ frees_front) calls.Compact (Replied (replies.Compacted 1)) (call_by calls.Compact compacts_front) }
    ensures used { BreaksAtLast drawn_by_two with_front (call_by calls.Compact compacts_used) }
{}

/// What is asked under the heap lock: what the depth answers takes no step, and a walk is several calls.
pub fn asked_in_turn()
    ensures legal { is_legal one (with_words ++ map by_zero steps_under_lock) ≡ true }
    ensures served { AreServed (GetsReply one 0) 0 asked_under_lock answered_under_lock (moments_by one (configuration_of one with_words) steps_under_lock) }
{}
