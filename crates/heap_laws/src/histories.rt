// Worked histories, each up to its end or its first entry that may not come.
ghost use Rattle.std.specs.Prelude.{◌≡◌, ◌+◌, true, false, nat_lt, not, [], ◌∷◌, Some, None, length};
ghost use Rattle.std.specs.List.{list_any};
ghost use Rattle.heap_model.specs.History.{is_legal, configuration_of, refused_from, first_configuration};
ghost use Rattle.heap_model.specs.State.{live};
ghost use Rattle.serial_laws.specs.OneCall.{CompleteInTurn};
ghost use Rattle.serial_laws.specs.BackCalls.{plain};
ghost use Rattle.heap_model.specs.declared.Call.TheVariants as calls;
ghost use Rattle.heap_model.specs.declared.Reply.TheVariants as replies;
ghost use Rattle.heap_laws.specs.Rows.{back_end, back_span, four_taken, three_left};
ghost use Rattle.heap_model.specs.Backend.{back_place};
ghost use Rattle.heap_laws.specs.Worked.{one, asks_back, allocates_back, wrong_size, wrong_page, frees_back, allocates_vs, three_vs, seventeen_vs, with_search, drawn, claims_lowest, places_late, first_call, resizes_back, compacts, decommits_wrong, decommits_twice, two, meets_others, meets_owner, fills_large, resizes_vs, off_limits, makes_lfh, spans_too_long};

pub fn back_is_legal()
    ensures legal { is_legal one allocates_back ≡ true }
    ensures size { is_legal one wrong_size ≡ false }
    ensures page { is_legal one wrong_page ≡ false }
    ensures cut { is_legal one asks_back ≡ false }
    ensures freed { is_legal one frees_back ≡ true }
    ensures blocks { length (live (configuration_of one allocates_back).state) ≡ 1 }
{}

pub fn vs_is_legal()
    ensures { is_legal one allocates_vs ≡ true }
{}

pub fn three_vs_is_legal()
    ensures { is_legal one three_vs ≡ true }
{}

pub fn seventeen_vs_is_legal()
    ensures { is_legal one seventeen_vs ≡ true }
{}

pub fn search_is_legal()
    ensures { refused_from 1 drawn first_configuration with_search ≡ length with_search + 1 }
{}

pub fn lowest_is_refused()
    ensures { refused_from 1 drawn first_configuration claims_lowest ≡ length claims_lowest }
{}

pub fn late_is_refused()
    ensures { refused_from 1 drawn first_configuration places_late ≡ length places_late }
{}

pub fn back_rows()
    // one grain or the other: units of any size
    ensures fits { back_place (back_end four_taken (back_span 2 8 ∷ back_span 10 127 ∷ [])) 1 119 ≡ Some 137 }
    ensures none { back_place (back_end four_taken (back_span 2 8 ∷ back_span 10 127 ∷ [])) 1 120 ≡ None }
    ensures again { back_place (back_end four_taken (back_span 10 127 ∷ [])) 1 3 ≡ Some 2 }
    // two runs of 33, the higher one committed
    ensures tie { back_place (back_end three_left (back_span 35 33 ∷ back_span 101 33 ∷ [])) 1 33 ≡ Some 68 }
    // the shortest, not the first
    ensures best { back_place (back_end four_taken (back_span 36 40 ∷ back_span 109 40 ∷ [])) 1 33 ≡ Some 76 }
    // no run has so many, and there is another segment
    ensures next { back_place (back_end four_taken (back_span 2 8 ∷ back_span 10 127 ∷ [])) 2 120 ≡ Some 258 }
{}

pub fn first_is_serial()
    ensures { CompleteInTurn one first_configuration (calls.Alloc 131073 plain ∷ []) (replies.Address 8192 ∷ []) (first_call ∷ []) }
{}

pub fn more_rows()
    ensures resize { is_legal one resizes_back ≡ true }
    ensures compact { is_legal one compacts ≡ true }
    ensures in_span { refused_from 1 one first_configuration decommits_wrong ≡ length decommits_wrong }
    ensures not_committed { refused_from 1 one first_configuration decommits_twice ≡ length decommits_twice }
    ensures others { refused_from 1 two first_configuration meets_others ≡ length meets_others }
    ensures owner { is_legal two meets_owner ≡ true }
    ensures large { is_legal two fills_large ≡ true }
{}

pub fn vs_rows()
    ensures { refused_from 1 one first_configuration resizes_vs ≡ length resizes_vs + 1 }
{}

/// Why the law of the heap asks for a valid setting: a caller that was given a slot that the heap has not makes a span of it.
pub fn slot_is_off_limits()
    ensures legal { refused_from 1 off_limits first_configuration (makes_lfh 1) ≡ length (makes_lfh 1) + 1 }
    ensures slot { list_any (λ x. not (nat_lt x.slot off_limits.limits.slots)) (configuration_of off_limits (makes_lfh 1)).state.back.area.spans ≡ true }
{}

/// Why a span of the variable-size layer that still waits for its place can be longer than any of its sizes needs: the entry
/// behind it is the one that may not come.
pub fn long_span_waits()
    ensures { refused_from 1 one first_configuration spans_too_long ≡ length spans_too_long }
{}
