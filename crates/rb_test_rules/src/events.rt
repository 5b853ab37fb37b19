//! Runs event by event: whichever due event is taken, the records are those of the rounds.
#![tactic(none)]

ghost use Rattle.std.specs.Prelude.{◌≡◌};
ghost use Rattle.rb_test_rules.specs.Events.{any_of_them, records_by, the_first, the_last};
ghost use Rattle.rb_test_rules.specs.Lies.{two_sided, two_sided_records};
ghost use Rattle.rb_test_rules.specs.Ordinary.{greatest_drift, greatest_drift_records, one_state, one_state_records, ordinary_use, ordinary_use_records, smallest_bus, smallest_bus_records};
ghost use Rattle.rb_test_rules.specs.Resynchronisation.{apart_in_time, apart_in_time_records};

/// One BIU and one RMU. The run takes always the first event that is due, always the last, or any.
pub fn smallest_bus_by_events()
    ensures smallest_bus_by_first { records_by smallest_bus the_first ≡ smallest_bus_records }
    ensures smallest_bus_by_last { records_by smallest_bus the_last ≡ smallest_bus_records }
    ensures smallest_bus_by_any { records_by smallest_bus any_of_them ≡ smallest_bus_records }
{}

/// Four BIUs and three RMUs. The run takes always the first event that is due, or always the last.
pub fn ordinary_use_by_events()
    ensures ordinary_use_by_first { records_by ordinary_use the_first ≡ ordinary_use_records }
    ensures ordinary_use_by_last { records_by ordinary_use the_last ≡ ordinary_use_records }
{}

/// The greatest drift that the plan allows, and applications whose words depend on what was
/// delivered before. The runs take any event that is due.
pub fn good_nodes_by_events()
    ensures greatest_drift_by_any { records_by greatest_drift any_of_them ≡ greatest_drift_records }
    ensures one_state_by_any { records_by one_state any_of_them ≡ one_state_records }
{}

/// A breach in a data slot, by any event that is due, and one in the sync slot, by the last.
pub fn breaches_by_events()
    ensures two_sided_by_any { records_by two_sided any_of_them ≡ two_sided_records }
    ensures apart_in_time_by_last { records_by apart_in_time the_last ≡ apart_in_time_records }
{}
