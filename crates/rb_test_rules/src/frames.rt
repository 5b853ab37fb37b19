//! Several frames, and buses by their number.
#![tactic(auto, unfolding(rb_base::specs::Nodes::set_of, rb_base::specs::Nodes::set_below, rb_base::specs::Nodes::size, rb_rules::specs::Spelling::message_in, rb_rules::specs::ExactStage::close_exact, rb_rules::specs::ExactStage::outcome_of, rb_rules::specs::SyncStage::close_sync, rb_rules::specs::SyncStage::sync_outcome_of, rb_rules::specs::Conviction::convicted_by, rb_rules::specs::Conviction::turn, rb_rules::specs::Links::delay_of, rb_rules::specs::Judging::classes_of, rb_rules::specs::Judging::verdict_of, rb_rules::specs::Hearing::sending, rb_rules::specs::Hearing::heard_from, rb_rules::specs::Hearing::row_of, rb_rules::specs::Book::with_stage, rb_rules::specs::Book::with_frame, rb_rules::specs::Rounds::sent_in, rb_rules::specs::Rounds::close_on, rb_rules::specs::Rounds::go_through, rb_rules::specs::Rounds::results_of, rb_rules::specs::Rounds::after_window, rb_rules::specs::Rounds::begin_frame, rb_rules::specs::Rounds::step))]

ghost use Rattle.std.specs.Prelude.{◌≡◌, []};
ghost use Rattle.rb_rules.specs.Rounds.{records_of};
ghost use Rattle.rb_test_rules.specs.Frames.{late_onset, late_onset_records, probation_passed, probation_passed_records, no_probation, no_probation_records, message_of_another_bus, message_of_another_bus_records, message_of_the_bus, message_of_the_bus_records, state_handed_in, state_handed_in_records, hand_ins, convicted_rmu, convicted_rmu_records};

/// Runs of two frames and more.
pub fn several_frames()
    // A BIU falls silent in the fourth frame: its word comes in the frames before, none after, and
    // all convict it.
    ensures late_onset { records_of late_onset [] ≡ late_onset_records }
    // A BIU that one RMU accuses has no slot in the frame after, and after a probation of one frame
    // has it again.
    ensures probation_passed { records_of probation_passed [] ≡ probation_passed_records }
    // Without a probation it is convicted.
    ensures no_probation { records_of no_probation [] ≡ no_probation_records }
    // A state is handed to the port of BIU 0 at the start of frame 1: it is what the BIU sends from
    // then on.
    ensures state_handed_in { records_of state_handed_in hand_ins ≡ state_handed_in_records }
    // An RMU that is convicted with frame 0 stays so in frame 1: what it says no longer counts,
    // even beside a BIU that lies.
    ensures convicted_rmu { records_of convicted_rmu [] ≡ convicted_rmu_records }
{}

/// Messages with the number of a bus.
pub fn buses_by_their_number()
    // Two RMUs send messages of another bus: nothing is accepted from them, and the words come all
    // the same.
    ensures message_of_another_bus { records_of message_of_another_bus []
        ≡ message_of_another_bus_records }
    // If the messages are the bus's own, they are accepted, and the run ends with the breach.
    ensures message_of_the_bus { records_of message_of_the_bus [] ≡ message_of_the_bus_records }
{}
