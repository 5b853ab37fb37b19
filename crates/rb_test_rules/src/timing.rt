//! Plans, windows, clocks and delays, by their numbers.
#![tactic(auto, unfolding(rb_rules::specs::Links::delay_of))]

ghost use Rattle.std.specs.Prelude.{◌≡◌, ◌∷◌, [], false, map, None, pos, Some, true};
ghost use Rattle.rb_base.specs.Nodes.Side.{Biu, Rmu};
ghost use Rattle.rb_base.specs.declared.node.NodeName.TheVariants as node;
ghost use Rattle.rb_rules.specs.Clock.{ComesBy, IsClock, IsStamp, are_rising, are_within, stamp_of, tick_length, time_of};
ghost use Rattle.rb_rules.specs.Headline.{stated_skew};
ghost use Rattle.rb_rules.specs.Hearing.{coming_of};
ghost use Rattle.rb_rules.specs.Links.{delay_of};
ghost use Rattle.rb_rules.specs.Plan.{IsFeasible, IsPlan, first_failing, inequalities_of};
ghost use Rattle.rb_rules.specs.Windows.{exact_window, sync_windows, tail_of, window_at};
ghost use Rattle.rb_test_rules.specs.Parts.{plan, sizes};
ghost use Rattle.rb_test_rules.specs.Timing.{data_place, quick_then_slow, two_rules, uneven_plan, with_two_rules, word_sent};

/// Both sides of the seven inequalities of the usual plan: all hold.
pub fn inequalities_of_the_usual_plan()
    ensures left_of_the_usual { map (λ s. s.left) (inequalities_of sizes plan)
        ≡ (pos 64994 ∷ pos 79992 ∷ pos 70006 ∷ pos 109989 ∷ pos 75006 ∷ pos 129987 ∷ pos 60200
        ∷ []) }
    ensures right_of_the_usual { map (λ s. s.right) (inequalities_of sizes plan)
        ≡ (pos 61922 ∷ pos 76922 ∷ pos 61952 ∷ pos 101953 ∷ pos 61988 ∷ pos 126990 ∷ pos 60109
        ∷ []) }
    ensures none_fails { first_failing sizes plan ≡ None }
{}

/// The seven inequalities of a plan in which each term weighs: a BIU's next epoch comes by its
/// ticks if that is later, and also if that is sooner.
pub fn inequalities_of_the_uneven_plan()
    ensures left_of_the_uneven { map (λ s. s.left) (inequalities_of sizes uneven_plan)
        ≡ (pos 1200 ∷ pos 2500 ∷ pos 10900 ∷ pos 3100 ∷ pos 11600 ∷ pos 3700 ∷ pos 90000 ∷ []) }
    ensures right_of_the_uneven { map (λ s. s.right) (inequalities_of sizes uneven_plan)
        ≡ (pos 3279600 ∷ pos 3281600 ∷ pos 3335400 ∷ pos 3341300 ∷ pos 3402000 ∷ pos 3411800
        ∷ pos 211600 ∷ []) }
{}

/// The numbers of both plans are in range, and so are the greatest that a plan may have.
pub fn numbers_in_range()
    ensures usual { IsPlan plan }
    ensures uneven { IsPlan uneven_plan }
    ensures greatest_ticks { IsPlan (record plan { u = 1000000; r = 999999 }) }
    ensures longest_windows { IsPlan
        (record plan { l = 1000; h = 1000; v = 1000; z = 1000; c = 1000 }) }
{}

/// Numbers that no plan has: a tick of one unit, a drift as long as a tick, a least delay past the
/// greatest, a window of no tick.
pub fn numbers_out_of_range()
    ensures tick { ¬ IsPlan (record plan { u = 1; r = 0 }) }
    ensures drift { ¬ IsPlan (record plan { r = 10000 }) }
    ensures delays { ¬ IsPlan (record plan { dmin = 15001 }) }
    ensures window { ¬ IsPlan (record plan { z = 0 }) }
{}

/// The windows of a frame: each stage of the sync slot has its own length, and the tail ends before
/// the next epoch.
pub fn windows_of_a_frame()
    ensures first_slots { map (λ n. (exact_window plan n).last) (0 ∷ 1 ∷ 3 ∷ 56 ∷ [])
        ≡ (14 ∷ 29 ∷ 59 ∷ 854 ∷ []) }
    ensures sync_slot { map (λ w. w.last) (sync_windows sizes plan) ≡ (869 ∷ 887 ∷ 907 ∷ []) }
    ensures tail { (tail_of sizes plan 917).last ≡ 916 }
    ensures after_the_windows { window_at sizes plan 908 ≡ None }
{}

/// A clock whose ticks become longer: the length of each tick, its time, and which tick comes next
/// at a time.
pub fn ticks_of_a_clock()
    ensures lengths { map (tick_length quick_then_slow) (0 ∷ 1 ∷ 2 ∷ 3 ∷ [])
        ≡ (10 ∷ 10 ∷ 12 ∷ 12 ∷ []) }
    ensures times { map (time_of quick_then_slow) (0 ∷ 1 ∷ 2 ∷ 3 ∷ []) ≡ (3 ∷ 13 ∷ 23 ∷ 35 ∷ []) }
    ensures stamps { map (stamp_of quick_then_slow) (0 ∷ 3 ∷ 4 ∷ 13 ∷ 14 ∷ 23 ∷ 24 ∷ 35 ∷ [])
        ≡ (0 ∷ 0 ∷ 1 ∷ 1 ∷ 2 ∷ 2 ∷ 3 ∷ 3 ∷ []) }
{}

/// A time comes by a tick if that tick or one before it is at this time or later.
pub fn ticks_that_come()
    ensures comes_at_its_tick { ComesBy 3 quick_then_slow 35 }
    ensures comes_before { ComesBy 2147483648 quick_then_slow 24 }
    ensures comes_later { ¬ ComesBy 2 quick_then_slow 24 }
{}

/// Each segment of a clock begins at a later tick than the one before.
pub fn segments_that_rise()
    ensures rising { are_rising ((0, 10000) ∷ (1, 9999) ∷ (5, 10001) ∷ []) ≡ true }
    ensures equal { are_rising ((0, 10000) ∷ (5, 9999) ∷ (5, 10001) ∷ []) ≡ false }
    ensures twice_at_0 { are_rising ((0, 10000) ∷ (0, 9999) ∷ []) ≡ false }
    ensures falling { are_rising ((0, 10000) ∷ (5, 9999) ∷ (4, 10001) ∷ []) ≡ false }
{}

/// The first segment of a clock begins at tick 0, and there is one.
pub fn first_segment()
    ensures not_from_0 { are_rising ((1, 10000) ∷ []) ≡ false }
    ensures none { are_rising [] ≡ false }
{}

/// If two rules are for one link, the later one counts, and only for the direction that it names.
pub fn delays_of_links()
    ensures of_the_last_rule { map (λ i. delay_of two_rules (node.Biu i) (node.Rmu 1) data_place)
        (0 ∷ 1 ∷ []) ≡ (7 ∷ 6 ∷ []) }
    ensures of_no_rule { delay_of two_rules (node.Rmu 1) (node.Biu 0) data_place ≡ 5 }
    ensures to_an_rmu { (coming_of with_two_rules Rmu 1 0 0 word_sent).time ≡ 7 }
    ensures to_a_biu { (coming_of with_two_rules Biu 0 1 0 word_sent).time ≡ 5 }
{}

/// Plans and clocks whose numbers are at a bound, or beyond it by one.
pub fn bounds_of_plans_and_clocks()
    // An inequality holds if its sides are equal, and fails if the left one is less by one.
    ensures both_sides_equal { first_failing sizes (record plan { p = 60109 }) ≡ None }
    ensures one_less { first_failing sizes (record plan { p = 60108 }) ≡ Some 7 }
    // No tick is shorter than the plan allows, and none is nominally longer than 1000000 units.
    ensures short_tick { are_within 9999 10001 ((0, 9998) ∷ []) ≡ false }
    ensures long_ticks { ¬ IsPlan (record plan { u = 1000001 }) }
    // A stamp is the first tick that is not before the arrival, and no later one.
    ensures later_stamp { ¬ IsStamp quick_then_slow 13 2 }
    // The stated skew has the drift once.
    ensures stated_skew { stated_skew plan 855 ≡ 61910 }
{}
