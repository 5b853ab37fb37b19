//! Which scenarios are lawful, and which entries a document may list.
#![tactic(auto)]

ghost use Rattle.std.specs.Prelude.{List, [], ◌∷◌, None, Some, replicate};
ghost use Rattle.rb_rules.specs.declared.link.Pattern.TheVariants.{AllBiu, AllRmu, One};
ghost use Rattle.rb_rules.specs.declared.say.Say.{Say};
ghost use Rattle.rb_rules.specs.Entries.{IsListed};
ghost use Rattle.rb_rules.specs.Lawful.{IsLawful};
ghost use Rattle.rb_test_rules.specs.Buses.{b, r, raw, steady, ticking};
ghost use Rattle.rb_test_rules.specs.Floods.{flooding_rmu};
ghost use Rattle.rb_test_rules.specs.Lawful.{call, lies_at_the_edge, rule_of_calls, ruled_by, saying, saying_from};
ghost use Rattle.rb_test_rules.specs.Lies.{two_sided};
ghost use Rattle.rb_test_rules.specs.Ordinary.{greatest_drift, ordinary_use, smallest_bus};
ghost use Rattle.rb_test_rules.specs.Resynchronisation.{apart_in_time};

/// Scenarios that are lawful.
pub fn lawful_scenarios()
    // Four BIUs and three RMUs, all good.
    ensures ordinary_use { IsLawful ordinary_use }
    // One BIU, one RMU and one data slot.
    ensures smallest_bus { IsLawful smallest_bus }
    // Clocks that drift as far as the plan allows.
    ensures greatest_drift { IsLawful greatest_drift }
    // An RMU says more than a document may list.
    ensures flooding_rmu { IsLawful flooding_rmu }
{}

/// Scenarios that are lawful and whose entries a document may list.
pub fn listed_scenarios()
    // Lies of both kinds, which break the fault premise in a data slot.
    ensures two_sided { IsLawful two_sided × IsListed two_sided }
    // Lies that break it in the sync slot.
    ensures apart_in_time { IsLawful apart_in_time × IsListed apart_in_time }
    // An RMU calls as early and as late as may be, and fills the tail's last offset with as many
    // bytes as a message may have.
    ensures lies_at_the_edge { IsLawful lies_at_the_edge × IsListed lies_at_the_edge }
{}

/// No document lists what lies beyond a window of the sync slot: a tick early or more, and after
/// the last tick of the window or of the tail.
pub fn beyond_the_windows()
    ensures a_tick_early { ¬ IsListed (saying (record call { early = 9999 })) }
    ensures after_the_window { ¬ IsListed (saying (record call { offset = 18 })) }
    ensures after_the_tail { ¬ IsListed (saying (record call { stages = (4, 4); offset = 39 })) }
{}

/// No document lists what is said early or in the tail in other slots than the sync slot.
pub fn beyond_the_sync_slot()
    ensures early_in_another_slot { ¬ IsListed
        (saying_from 18 (record call { slots = (18, 19); early = 1 })) }
    ensures tail_of_another_slot { ¬ IsListed
        (saying_from 18 (record call { slots = (18, 19); stages = (3, 4) })) }
{}

/// No document lists what is said to nodes of the own kind, to a BIU that there is not, or by a
/// node that is good at the first place.
pub fn beyond_a_faulty_node()
    ensures to_its_own_kind { ¬ IsListed (saying (record call { to = AllRmu })) }
    ensures said_to_nobody { ¬ IsListed (saying (record call { to = One (b 4) })) }
    ensures by_a_good_node { ¬ IsListed (saying (record call { from = r 0 })) }
{}

/// No document lists what has no bytes, or more of them than 32.
pub fn beyond_the_bytes()
    ensures no_bytes { ¬ IsListed (saying (record call { content = raw [] })) }
    ensures many_bytes { ¬ IsListed (saying (record call { content = raw (replicate 33 255) })) }
{}

/// A bus that no document says: of no frame, a request less than it has BIUs, a request past the
/// greatest, and an onset after the run.
pub fn beyond_the_bus()
    ensures no_frame { ¬ IsLawful (record ordinary_use { frames = 0 }) }
    ensures request_missing { ¬ IsLawful (record ordinary_use { requests = 2 ∷ 2 ∷ 2 ∷ [] }) }
    ensures great_request { ¬ IsLawful (record ordinary_use { requests = 65 ∷ 2 ∷ 2 ∷ 2 ∷ [] }) }
    ensures onset_after_the_run { ¬ IsLawful
        (record ordinary_use { biu_onsets = Some (1, 0) ∷ None ∷ None ∷ None ∷ [] }) }
{}

/// Clocks that no bus has: one less than it has nodes, two that start further apart than the skew,
/// and one that ticks too slowly.
pub fn beyond_the_clocks()
    ensures clock_missing { ¬ IsLawful (record ordinary_use { clocks = replicate 6 steady }) }
    ensures starts_apart { ¬ IsLawful
        (record ordinary_use { clocks = ticking 60201 10000 ∷ steady ∷ replicate 5 steady }) }
    ensures slow_clock { ¬ IsLawful
        (record ordinary_use { clocks = ticking 0 10002 ∷ replicate 6 steady }) }
{}

/// A delay that no link has: within a kind, to an RMU that there is not, below the least delay, and
/// above the greatest.
pub fn beyond_the_links()
    ensures within_a_kind { ¬ IsLawful (ruled_by (record rule_of_calls { to = AllBiu })) }
    ensures to_nobody { ¬ IsLawful (ruled_by (record rule_of_calls { to = One (r 3) })) }
    ensures short_delay { ¬ IsLawful (ruled_by (record rule_of_calls { delay = 4999 })) }
    ensures great_delay { ¬ IsLawful
        (record ordinary_use { delays = record { base = 15001; rules = [] } }) }
{}

/// A rule of delay for a place that no link has: in the tail, after the run or after the sync slot.
pub fn beyond_the_places()
    ensures in_the_tail { ¬ IsLawful (ruled_by (record rule_of_calls { stages = (1, 4) })) }
    ensures after_the_run { ¬ IsLawful (ruled_by (record rule_of_calls { frames = (0, 1) })) }
    ensures after_the_sync_slot { ¬ IsLawful
        (ruled_by (record rule_of_calls { slots = (19, 20) })) }
{}

/// A node says nothing in the slot before it fails, no byte is above 255, and a run may have 4096
/// frames.
pub fn bounds_of_scenarios()
    ensures good_at_first { ¬ IsListed (saying (record call { slots = (18, 19) })) }
    ensures no_byte { ¬ IsListed (saying (record call { content = raw (256 ∷ []) })) }
    ensures most_frames { IsLawful (record ordinary_use { frames = 4096 }) }
{}

/// No document lists what the flooding RMU does, whatever its entries are: a window has more
/// messages than a document has entries.
pub fn more_than_any_entries()
    ensures { (says : List Say) → ¬ IsListed (record flooding_rmu { says = says }) }
{}
