//! What good nodes hold in common if others are silent or lie, and whom they accuse.
#![tactic(auto, unfolding(rb_base::specs::Nodes::set_of, rb_base::specs::Nodes::set_below, rb_base::specs::Nodes::size, rb_rules::specs::Spelling::message_in, rb_rules::specs::ExactStage::close_exact, rb_rules::specs::ExactStage::outcome_of, rb_rules::specs::SyncStage::close_sync, rb_rules::specs::SyncStage::sync_outcome_of, rb_rules::specs::Conviction::convicted_by, rb_rules::specs::Conviction::turn, rb_rules::specs::Links::delay_of, rb_rules::specs::Judging::classes_of, rb_rules::specs::Judging::verdict_of, rb_rules::specs::Hearing::sending, rb_rules::specs::Hearing::heard_from, rb_rules::specs::Hearing::row_of, rb_rules::specs::Book::with_stage, rb_rules::specs::Book::with_frame, rb_rules::specs::Rounds::sent_in, rb_rules::specs::Rounds::close_on, rb_rules::specs::Rounds::go_through, rb_rules::specs::Rounds::results_of, rb_rules::specs::Rounds::after_window, rb_rules::specs::Rounds::begin_frame, rb_rules::specs::Rounds::step))]

ghost use Rattle.std.specs.Prelude.{◌≡◌, [], ◌∷◌, true};
ghost use Rattle.rb_base.specs.Nodes.Side.{Biu, Rmu};
ghost use Rattle.rb_rules.specs.Headline.{ConvictNoGoodNode, HoldOneSchedule};
ghost use Rattle.rb_rules.specs.Lawful.{IsLawful};
ghost use Rattle.rb_rules.specs.Moments.{IsComplete, after_slot};
ghost use Rattle.rb_rules.specs.Rounds.{records_of};
ghost use Rattle.rb_test_rules.specs.Agreement.{HaveOneSchedule, NobodyConvictsBiu2, accused_by, false_accuser, false_accuser_records, other_vote, other_vote_records, votes_on};
ghost use Rattle.rb_test_rules.specs.Frames.{late_onset};
ghost use Rattle.rb_test_rules.specs.Lies.{asymmetric_sender, silent_rmu};
ghost use Rattle.rb_test_rules.specs.Ordinary.{ordinary_use};
ghost use Rattle.rb_test_rules.specs.Told.{none, word};

/// An RMU is silent: all good BIUs hold the word that was sent, and all accuse the RMU and nobody
/// else.
pub fn agreement_beside_a_silent_rmu()
    ensures lawful { IsLawful silent_rmu }
    ensures complete { IsComplete silent_rmu [] 0 19 }
    ensures votes { votes_on silent_rmu 0 5 Biu ≡ word 20 ∷ word 20 ∷ word 20 ∷ word 20 ∷ [] }
    ensures by_bius { accused_by silent_rmu 0 19 Biu ≡ 4 ∷ 4 ∷ 4 ∷ 4 ∷ [] }
    ensures by_rmus { accused_by silent_rmu 0 19 Rmu ≡ 0 ∷ 0 ∷ [] }
{}

/// A BIU says another word to one RMU: all good BIUs hold that of the two others, and all good RMUs
/// accuse the BIU.
pub fn agreement_on_an_asymmetric_sender()
    ensures lawful { IsLawful asymmetric_sender }
    ensures complete { IsComplete asymmetric_sender [] 0 19 }
    ensures votes { votes_on asymmetric_sender 0 5 Biu ≡ word 2 ∷ word 2 ∷ word 2 ∷ [] }
    ensures by_bius { accused_by asymmetric_sender 0 19 Biu ≡ 0 ∷ 0 ∷ 0 ∷ [] }
    ensures by_rmus { accused_by asymmetric_sender 0 19 Rmu ≡ 2 ∷ 2 ∷ 2 ∷ [] }
{}

/// An RMU names a good BIU in its vector: all good nodes hold that vector, and nobody convicts the
/// BIU.
pub fn agreement_on_a_false_vector()
    ensures lawful { IsLawful false_accuser }
    ensures complete { IsComplete false_accuser [] 0 19 }
    ensures rmus { votes_on false_accuser 0 18 Rmu ≡ word 1 ∷ word 1 ∷ [] }
    ensures bius { votes_on false_accuser 0 18 Biu ≡ word 1 ∷ word 1 ∷ word 1 ∷ word 1 ∷ [] }
    ensures none_convicted { records_of false_accuser [] ≡ false_accuser_records }
{}

/// A BIU falls silent in the fourth frame: all other BIUs hold Fault in its slot.
pub fn agreement_after_a_late_onset()
    ensures lawful { IsLawful late_onset }
    ensures complete { IsComplete late_onset [] 3 6 }
    ensures votes { votes_on late_onset 3 6 Biu ≡ none ∷ none ∷ none ∷ [] }
    ensures by_rmus { accused_by late_onset 3 6 Rmu ≡ 4 ∷ 4 ∷ 4 ∷ [] }
{}

/// One of two BIUs says another vote in stage 3: the RMU takes two values, its vote is Fault, and
/// it accuses the good BIU too. This is the stage of the breach. Complete slots alone accuse no
/// good node.
pub fn a_good_node_is_accused_at_the_breach()
    ensures lawful { IsLawful other_vote }
    ensures breach { records_of other_vote [] ≡ other_vote_records }
    ensures vote { votes_on other_vote 0 0 Rmu ≡ none ∷ [] }
    ensures accused { accused_by other_vote 0 0 Rmu ≡ 3 ∷ [] }
{}

/// The promise holds from the first data slot on, and of each node while it is good: there is one
/// schedule in slot 4, and no good node convicts a BIU that fails later.
pub fn what_is_promised()
    ensures first_data_slot { HoldOneSchedule ordinary_use [] → HaveOneSchedule 0 4 }
    ensures good_yet { ConvictNoGoodNode late_onset [] → NobodyConvictsBiu2 0 4 }
{}
