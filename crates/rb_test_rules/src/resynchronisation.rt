//! Nodes that lie where clocks are resynchronized.
#![tactic(auto, unfolding(rb_base::specs::Nodes::set_of, rb_base::specs::Nodes::set_below, rb_base::specs::Nodes::size, rb_rules::specs::Spelling::message_in, rb_rules::specs::ExactStage::close_exact, rb_rules::specs::ExactStage::outcome_of, rb_rules::specs::SyncStage::close_sync, rb_rules::specs::SyncStage::sync_outcome_of, rb_rules::specs::Conviction::convicted_by, rb_rules::specs::Conviction::turn, rb_rules::specs::Links::delay_of, rb_rules::specs::Judging::classes_of, rb_rules::specs::Judging::verdict_of, rb_rules::specs::Hearing::sending, rb_rules::specs::Hearing::heard_from, rb_rules::specs::Hearing::row_of, rb_rules::specs::Book::with_stage, rb_rules::specs::Book::with_frame, rb_rules::specs::Rounds::sent_in, rb_rules::specs::Rounds::close_on, rb_rules::specs::Rounds::go_through, rb_rules::specs::Rounds::results_of, rb_rules::specs::Rounds::after_window, rb_rules::specs::Rounds::begin_frame, rb_rules::specs::Rounds::step))]

ghost use Rattle.std.specs.Prelude.{◌≡◌, []};
ghost use Rattle.rb_rules.specs.Rounds.{records_of};
ghost use Rattle.rb_test_rules.specs.Resynchronisation.{false_accuser, false_accuser_records, call_at_the_first_tick, call_at_the_first_tick_records, calls_at_both_edges, calls_at_both_edges_records, alike_in_time, alike_in_time_records, apart_in_time, apart_in_time_records};

/// One node lies in the sync slot.
pub fn one_liar_in_the_sync_slot()
    // A BIU accuses all RMUs and calls at its own ticks: nobody is convicted, and the middles stay.
    ensures false_accuser { records_of false_accuser [] ≡ false_accuser_records }
    // An RMU calls at the window's first tick at all BIUs: the middles stay.
    ensures call_at_the_first_tick { records_of call_at_the_first_tick []
        ≡ call_at_the_first_tick_records }
    // An RMU calls at the first tick at two BIUs and at the last at the others: the middles stay,
    // and the premise holds.
    ensures calls_at_both_edges { records_of calls_at_both_edges [] ≡ calls_at_both_edges_records }
{}

/// Of both kinds one node lies in the sync slot.
pub fn liars_of_both_kinds()
    // The calls of the RMU are as close as two good ones may be: they are alike.
    ensures alike_in_time { records_of alike_in_time [] ≡ alike_in_time_records }
    // The calls are one unit further apart: the run ends with the breach.
    ensures apart_in_time { records_of apart_in_time [] ≡ apart_in_time_records }
{}
