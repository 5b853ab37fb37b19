//! A window that is timely.
#![tactic(auto)]

ghost use Rattle.rb_rules.specs.Rounds.{IsTickOf, IsTimely};
ghost use Rattle.rb_test_rules.specs.Ordinary.{smallest_bus};
ghost use Rattle.rb_test_rules.specs.Timely.{first_window};
ghost use Rattle.rb_test_rules.specs.Told.{at};

/// The first window of the smallest bus: the BIU sends its request at a tick of it, and at the RMU
/// it is stamped with one.
pub fn first_window_of_the_smallest_bus()
    ensures { IsTimely smallest_bus first_window }
{}

/// The tick after a window is none of its ticks.
pub fn after_the_window()
    ensures { ¬ IsTickOf (record { place = at 0 0 1; first = 0; last = 14 }) 15 }
{}
