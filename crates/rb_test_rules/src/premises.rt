//! Premises of the laws of one slot and of one stage, and of laws on whole runs, on receivers
//! beside the bus and on letters, met by an instance each.
#![tactic(auto, unfolding(rb_base::specs::Nodes::set_of, rb_base::specs::Nodes::set_below, rb_rules::specs::ExactStage::close_exact, rb_rules::specs::ExactStage::outcome_of, rb_rules::specs::SyncStage::close_sync, rb_rules::specs::SyncStage::sync_outcome_of, rb_laws_agreement::specs::OneSlot::state_after, rb_laws_synchrony::specs::OneFrame::state_through))]

ghost use Rattle.std.specs.Prelude.{◌≡◌, ◌∷◌, ◌+◌, ◌<◌, [], All, get_or, map, None, Some, true};
ghost use Rattle.rb_base.specs.Nodes.{set_of};
ghost use Rattle.rb_base.specs.Nodes.Side.{Biu, Rmu};
ghost use Rattle.rb_base.specs.declared.values.Heard.TheVariants.{Word};
ghost use Rattle.rb_listen.specs.Passes.{are_most};
ghost use Rattle.rb_laws_agreement.specs.Histories.{AreAlike};
ghost use Rattle.rb_laws_agreement.specs.Laws.{IsAccusedByAll};
ghost use Rattle.rb_laws_agreement.specs.OneSlot.{IsExchange, KeepsPremise, state_after, vote_after};
ghost use Rattle.rb_laws_agreement.specs.Values.{IsGoodSender};
ghost use Rattle.rb_laws_synchrony.specs.OneFrame.{IsFrame, KeepsPremise as MeetsPremise, state_through};
ghost use Rattle.rb_laws_synchrony.specs.OneStage.{HearNear, middle_kept};
ghost use Rattle.rb_laws_events.specs.OwnMoments.{IsBeforeTheBreak};
ghost use Rattle.rb_laws_sweeps.specs.Laws.{NeedsEvent};
ghost use Rattle.rb_laws_promise.specs.Evidence.{Evidence};
ghost use Rattle.rb_laws_letters.specs.Laws.{AreFirst};
ghost use Rattle.rb_laws_letters.specs.Offers.{IsGoodThrough, offered_by};
ghost use Rattle.rb_laws_letters.specs.Sent.{IsFirstPart, IsLetter, without_zeros, words_of};
ghost use Rattle.rb_laws_listener_learns.specs.Ears.{is_always_good};
ghost use Rattle.rb_laws_listener_learns.specs.Onsets.{BeginsBeside};
ghost use Rattle.rb_laws_listener_near.specs.Calls.{AreMostGood, SawTheTimes, TakesTheCalls};
ghost use Rattle.rb_laws_listener_near.specs.Judged.{verdict_with};
ghost use Rattle.rb_test_rules.specs.Buses.{steady};
ghost use Rattle.rb_test_rules.specs.Frames.{accused_after, probation_passed};
ghost use Rattle.rb_test_rules.specs.Letters.{letter_records, letter_sent, one_sender, second_word};
ghost use Rattle.rb_test_rules.specs.Lies.{silent_rmu};
ghost use Rattle.rb_test_rules.specs.OneFrame.{early_call};
ghost use Rattle.rb_test_rules.specs.OneSlot.{all_trusted, lying_relay};
ghost use Rattle.rb_test_rules.specs.OneStage.{early_listener, first_two, late_listener};
ghost use Rattle.rb_test_rules.specs.Ordinary.{one_state, smallest_bus};
ghost use Rattle.rb_test_rules.specs.Parts.{plan};
ghost use Rattle.rb_test_rules.specs.Premises.{RunsAfterSlot, RunsInSlot, handed_to_both, third_stage};
ghost use Rattle.rb_test_rules.specs.Receiver.{call_seen, call_taken, call_time, failing_rmu, latest_clock, said_before};
ghost use Rattle.rb_rules.specs.Clock.{IsClock, time_of};
ghost use Rattle.rb_rules.specs.ExactStage.{each_node, present};
ghost use Rattle.rb_rules.specs.Judging.{is_benign};
ghost use Rattle.rb_rules.specs.Lawful.{IsLawful};
ghost use Rattle.rb_rules.specs.Middle.{middle_of};
ghost use Rattle.rb_rules.specs.Moments.{IsComplete, IsRunning, after_slot, before_slot, before_stage};
ghost use Rattle.rb_rules.specs.NodeState.{first_state};
ghost use Rattle.rb_rules.specs.Plan.{longest_of, shortest_of};
ghost use Rattle.rb_rules.specs.SyncStage.{new_epoch_of};

/// A slot in which an RMU lies asymmetrically: the premise holds, and all vote for the request.
pub fn slot_with_a_lying_relay()
    ensures exchange { IsExchange lying_relay all_trusted [] }
    ensures premise { KeepsPremise lying_relay }
    ensures bius { map (vote_after lying_relay Biu) (0 ∷ 1 ∷ []) ≡ (Word 2 ∷ Word 2 ∷ []) }
    ensures rmus { map (vote_after lying_relay Rmu) (0 ∷ 1 ∷ []) ≡ (Word 2 ∷ Word 2 ∷ []) }
{}

/// Both BIUs accuse the RMU that lies in this slot, one by mismatch and one directly.
pub fn accusers_of_a_lying_relay()
    ensures mismatch { map (λ i. (state_after lying_relay 3 Biu i).far.mismatch) (0 ∷ 1 ∷ [])
        ≡ (4 ∷ 0 ∷ []) }
    ensures direct { map (λ i. (state_after lying_relay 3 Biu i).far.direct) (0 ∷ 1 ∷ [])
        ≡ (0 ∷ 4 ∷ []) }
{}

/// Two BIUs hear the calls of two good RMUs, and those of a third at other times, near each other:
/// they keep middles that are near.
pub fn stage_with_near_calls()
    ensures premise { HearNear plan first_two 8770000 8784000 early_listener late_listener }
    ensures early { middle_kept early_listener ≡ Some 878 }
    ensures late { middle_kept late_listener ≡ Some 877 }
{}

/// A frame in whose sync slot an RMU calls one BIU early and sends noise to the other: the premise
/// holds, and all begin the next frame near each other.
pub fn frame_with_an_early_call()
    ensures frame { IsFrame early_call 0 }
    ensures premise { MeetsPremise early_call }
    ensures bius { map (λ i. new_epoch_of plan Biu (state_through early_call 3 Biu i))
        (0 ∷ 1 ∷ []) ≡ (Some 422 ∷ Some 422 ∷ []) }
    ensures rmus { map (λ i. new_epoch_of plan Rmu (state_through early_call 3 Rmu i))
        (0 ∷ 1 ∷ []) ≡ (Some 422 ∷ Some 422 ∷ []) }
{}

/// Nothing is accepted from a silent RMU up to the slot for its vector, and all good BIUs accuse it
/// when they send theirs.
pub fn accused_by_all()
    ensures lawful { IsLawful silent_rmu }
    ensures complete { IsComplete silent_rmu [] 0 19 }
    ensures unheard { is_benign Rmu (after_slot silent_rmu [] 0 18).book.stages 2 ≡ true }
    ensures accused { IsAccusedByAll silent_rmu [] 0 Rmu 2 }
{}

/// A good BIU sends in the first slot.
pub fn good_sender()
    ensures { IsGoodSender one_state [] 0 0 0 (first_state one_state.sizes Biu) }
{}

/// Two BIUs with one application and one first word, to which the same is handed, or nothing.
pub fn alike_ports()
    ensures lawful { IsLawful one_state }
    ensures complete { IsComplete one_state [] 0 7 }
    ensures alike { AreAlike one_state [] 0 1 }
    ensures alike_with_hand_ins { AreAlike one_state handed_to_both 0 1 }
{}

/// In the third stage of the first data slot two BIUs and an RMU run: each is in the slot, and the
/// BIUs, which are alike, are after its delivery. The next record needs an event.
pub fn running_nodes()
    ensures before_the_break { IsBeforeTheBreak one_state third_stage }
    ensures needs { NeedsEvent one_state third_stage }
    ensures biu { RunsInSlot Biu 0 }
    ensures rmu { RunsInSlot Rmu 0 }
    ensures first { RunsAfterSlot 0 }
    ensures second { RunsAfterSlot 1 }
    ensures alike { AreAlike one_state third_stage.hands 0 1 }
{}

/// A receiver beside the smallest bus takes the call of its RMU as the BIU does: what
/// `frames_begin_near` supposes of the bus and of the receiver's clock.
pub fn a_receiver_beside_the_bus()
    ensures lawful { IsLawful smallest_bus }
    ensures complete { IsComplete smallest_bus [] 0 4 }
    ensures most_good { AreMostGood smallest_bus 0 }
    ensures clock { IsClock (shortest_of smallest_bus.plan) (longest_of smallest_bus.plan) steady }
    ensures takes { TakesTheCalls smallest_bus [] 0 steady call_taken call_time }
{}

/// What this receiver saw of the call: what `frames_begin_near` supposes of its verdict, its sights
/// and its middle.
pub fn what_the_receiver_saw()
    ensures verdict { verdict_with call_seen (before_stage smallest_bus [] 0 4 3).book.stages
        ≡ None }
    ensures saw { SawTheTimes (before_stage smallest_bus [] 0 4 3).book.stages
        call_taken call_time call_seen }
    ensures middle { middle_of (present (each_node call_taken)) ≡ Some 203 }
{}

/// An RMU fails in slot 2, and most RMUs stay good: premises of
/// `faulty_rmus_may_speak_by_any_clock`.
pub fn a_failing_rmu()
    ensures lawful { IsLawful failing_rmu }
    ensures most_good { are_most failing_rmu.sizes (set_of (is_always_good failing_rmu [])) ≡ true }
    ensures running { IsRunning (before_slot failing_rmu [] 0 2) }
    ensures onset { get_or failing_rmu.rmu_onsets said_before.from None ≡ Some (0, 2) }
{}

/// What this RMU says less than a tick before it fails, by a late clock beside the bus: the
/// premises of `faulty_rmus_may_speak_by_any_clock` on the clock.
pub fn a_failing_rmu_by_the_latest_clock()
    ensures begins { BeginsBeside failing_rmu [] latest_clock 0 0 }
    ensures time { time_of latest_clock 90 < said_before.time + shortest_of failing_rmu.plan }
{}

/// In the two frames of a run a good BIU offers the words of one letter, which a sender of letters
/// gave: the premises of the laws of letters on the run.
pub fn a_letter_over_the_bus()
    ensures lawful { IsLawful one_sender }
    ensures first { AreFirst one_sender second_word letter_records }
    ensures receiver { IsGoodThrough one_sender 1 letter_records }
    ensures sender { IsGoodThrough one_sender 0 letter_records }
    ensures offered { offered_by one_sender second_word 0 letter_records ≡ letter_sent.words }
{}

/// The letter that this sender took, and the words that it gave: the premises of the laws of
/// letters on letters and their words.
pub fn a_letter_in_words()
    ensures letters { All IsLetter letter_sent.taken }
    ensures bytes { All (λ letter. All (λ byte. byte < 256) letter) letter_sent.taken }
    ensures words { IsFirstPart (without_zeros letter_sent.words) (words_of letter_sent.taken) }
{}

/// An RMU does not hear a BIU in the first stage of slot 5 of frame 0, and finds evidence. With a
/// probation of one frame it still accuses the BIU at the end of frame 1, and no more in frame 2.
pub fn evidence_that_lapses()
    ensures lawful { IsLawful probation_passed }
    ensures evidence { Evidence probation_passed [] 16 Rmu 0 1 0 }
    ensures accused { map accused_after (15 ∷ 16 ∷ 117 ∷ 118 ∷ [])
        ≡ (Some 0 ∷ Some 2 ∷ Some 2 ∷ Some 0 ∷ []) }
{}
