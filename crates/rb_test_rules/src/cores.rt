//! Single cores by their ticks and arrivals.
#![tactic(auto, unfolding(rb_base::specs::Nodes::set_of, rb_base::specs::Nodes::set_below, rb_rules::specs::Spelling::message_in, rb_rules::specs::ExactStage::close_exact, rb_rules::specs::ExactStage::outcome_of, rb_rules::specs::SyncStage::close_sync, rb_rules::specs::SyncStage::sync_outcome_of, rb_rules::specs::Conviction::convicted_by, rb_rules::specs::Conviction::turn, rb_rules::specs::Hearing::sending, rb_rules::specs::Core::arrive, rb_rules::specs::Core::state_at, rb_rules::specs::Core::said_at, rb_rules::specs::Core::act_on, rb_rules::specs::Core::act_at, rb_rules::specs::Core::tick, rb_rules::specs::Core::is_busy))]

ghost use Rattle.std.specs.Prelude.{◌≡◌, [], ◌∷◌, Some};
ghost use Rattle.rb_test_rules.specs.Cores.{after_tick, begun_at, biu_0, busy_next, epochs_of, frame_of_rmu, frame_with_a_wrong_check};

/// A fresh BIU begins frame 0 at tick 0, sends its request at tick 6, and closes its first windows
/// at ticks 14 and 29.
pub fn core_of_a_fresh_biu()
    ensures epoch { busy_next biu_0 ≡ Some 0 }
    ensures request { busy_next (after_tick 0 biu_0) ≡ Some 6 }
    ensures first_close { busy_next (after_tick 6 (after_tick 0 biu_0)) ≡ Some 14 }
    ensures next_close { busy_next (after_tick 14 (after_tick 6 (after_tick 0 biu_0))) ≡ Some 29 }
{}

/// An RMU that is given what it had in a run begins the same frames at the same ticks. If the
/// request comes with a wrong byte the RMU accuses the BIU and takes nothing more of it: both
/// middles are the first ticks of their windows.
pub fn core_of_an_rmu()
    ensures replayed_frame { epochs_of frame_of_rmu ≡ (begun_at 0 0 ∷ begun_at 1 242 ∷ []) }
    ensures replayed_frame_with_a_wrong_check { epochs_of frame_with_a_wrong_check
        ≡ (begun_at 0 0 ∷ begun_at 1 233 ∷ []) }
{}
