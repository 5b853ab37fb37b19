//! Buses without a fault.
#![tactic(auto, unfolding(rb_base::specs::Nodes::set_of, rb_base::specs::Nodes::set_below, rb_base::specs::Nodes::size, rb_rules::specs::Spelling::message_in, rb_rules::specs::ExactStage::close_exact, rb_rules::specs::ExactStage::outcome_of, rb_rules::specs::SyncStage::close_sync, rb_rules::specs::SyncStage::sync_outcome_of, rb_rules::specs::Conviction::convicted_by, rb_rules::specs::Conviction::turn, rb_rules::specs::Links::delay_of, rb_rules::specs::Judging::classes_of, rb_rules::specs::Judging::verdict_of, rb_rules::specs::Hearing::sending, rb_rules::specs::Hearing::heard_from, rb_rules::specs::Hearing::row_of, rb_rules::specs::Book::with_stage, rb_rules::specs::Book::with_frame, rb_rules::specs::Rounds::sent_in, rb_rules::specs::Rounds::close_on, rb_rules::specs::Rounds::go_through, rb_rules::specs::Rounds::results_of, rb_rules::specs::Rounds::after_window, rb_rules::specs::Rounds::begin_frame, rb_rules::specs::Rounds::step))]

ghost use Rattle.std.specs.Prelude.{◌≡◌, []};
ghost use Rattle.rb_rules.specs.Rounds.{records_of};
ghost use Rattle.rb_test_rules.specs.Ordinary.{ordinary_use, ordinary_use_records, smallest_bus, smallest_bus_records, greatest_drift, greatest_drift_records, unequal_requests, unequal_requests_records, one_state, one_state_records, slow_calls, slow_calls_records};

/// Runs in which all nodes are good.
pub fn buses_without_a_fault()
    // Each BIU has two data slots: all words come at all BIUs, and each node begins the next frame
    // at tick 917.
    ensures ordinary_use { records_of ordinary_use [] ≡ ordinary_use_records }
    // One BIU, one RMU and one data slot.
    ensures smallest_bus { records_of smallest_bus [] ≡ smallest_bus_records }
    // BIUs ask for 3, 1, 0 and 2 slots: they are given pass by pass, and two slots are idle.
    ensures unequal_requests { records_of unequal_requests [] ≡ unequal_requests_records }
    // Two BIUs run one application on what is delivered: their states stay equal.
    ensures one_state { records_of one_state [] ≡ one_state_records }
{}

/// Runs in which all nodes are good, and clocks or calls are as slow as may be.
pub fn clocks_without_a_fault()
    // BIU 0 starts as late and ticks as slowly as the plan allows, all others tick as fast: the
    // deliveries are the same, and the next frame begins within a lesser skew.
    ensures greatest_drift { records_of greatest_drift [] ≡ greatest_drift_records }
    // The BIUs' calls take longer on their way than the RMUs': all nodes begin the next frame one
    // tick later.
    ensures slow_calls { records_of slow_calls [] ≡ slow_calls_records }
{}
