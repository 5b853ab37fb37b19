//! The abstract bus, its steps, and what good nodes have in common with it.
#![tactic(auto, unfolding(rb_base::specs::Nodes::set_of, rb_base::specs::Nodes::set_below, rb_base::specs::Nodes::size, rb_rules::specs::Spelling::message_in, rb_rules::specs::ExactStage::close_exact, rb_rules::specs::ExactStage::outcome_of, rb_rules::specs::SyncStage::close_sync, rb_rules::specs::SyncStage::sync_outcome_of, rb_rules::specs::Conviction::convicted_by, rb_rules::specs::Conviction::turn, rb_rules::specs::Links::delay_of, rb_rules::specs::Judging::classes_of, rb_rules::specs::Judging::verdict_of, rb_rules::specs::Hearing::sending, rb_rules::specs::Hearing::heard_from, rb_rules::specs::Hearing::row_of, rb_rules::specs::Book::with_stage, rb_rules::specs::Book::with_frame, rb_rules::specs::Rounds::sent_in, rb_rules::specs::Rounds::close_on, rb_rules::specs::Rounds::go_through, rb_rules::specs::Rounds::results_of, rb_rules::specs::Rounds::after_window, rb_rules::specs::Rounds::begin_frame, rb_rules::specs::Rounds::step))]

ghost use Rattle.std.specs.Prelude.{◌≡◌, ◌∷◌, [], false, true, map, Some};
ghost use Rattle.rb_base.specs.Nodes.Side.{Biu, Rmu};
ghost use Rattle.rb_base.specs.declared.values.Heard.TheVariants.{Word, Fault};
ghost use Rattle.rb_rules.specs.declared.role.Role.TheVariants.{Schedule, Data, DiagBiu, DiagRmu};
ghost use Rattle.rb_rules.specs.AbstractBus.{IsRun, IsStep, MayHave, bus_after_frame, bus_after_slot, sender_on};
ghost use Rattle.rb_rules.specs.Moments.{IsComplete, IsReached, after_slot, offered_in};
ghost use Rattle.rb_rules.specs.Slots.Sender.{Nobody, Node, EachTrusted};
ghost use Rattle.rb_rules.specs.StandsFor.{FrameTakes, HoldsOwners, HoldsTrusted, HoldsVote, IsInBand, IsLow, SparesAllGood, lines_on, steps_to, votes_on};
ghost use Rattle.rb_test_rules.specs.Abstract.{at_a_quiet_end, at_first, at_the_end, before_biu_0, before_rmu_0, biu_with_owners, first_slots, half_scheduled, offered, out_of_bands, scheduled, without_biu_2};
ghost use Rattle.rb_test_rules.specs.Lies.{asymmetric_sender, silent_rmu, two_sided};
ghost use Rattle.rb_test_rules.specs.Ordinary.{greatest_drift, one_state};
ghost use Rattle.rb_test_rules.specs.Ordinary.{ordinary_use, smallest_bus};
ghost use Rattle.rb_test_rules.specs.Parts.{biu, plan, rmu, sizes};

/// The schedule is there from the last schedule slot on, and stays. If each BIU asks for one slot,
/// the last four are idle.
pub fn owners_of_the_bus()
    ensures { map (λ bus. bus.owners)
        (at_first ∷ scheduled ∷ bus_after_slot sizes Fault scheduled ∷ [])
        ≡ ([] ∷ (0 ∷ 1 ∷ 2 ∷ 3 ∷ 0 ∷ 1 ∷ 2 ∷ 3 ∷ []) ∷ (0 ∷ 1 ∷ 2 ∷ 3 ∷ 0 ∷ 1 ∷ 2 ∷ 3 ∷ []) ∷ []) }
{}

/// Slots of the bus at the edges of a frame, and who sends in them.
pub fn slots_of_the_bus()
    ensures slots { map (λ bus. bus.slot) (at_first ∷ scheduled ∷ at_the_end ∷ [])
        ≡ (0 ∷ 4 ∷ 19 ∷ []) }
    ensures senders { map (sender_on sizes)
        (at_first ∷ scheduled ∷ record half_scheduled { slot = 8 } ∷ at_the_end ∷ [])
        ≡ (Node 0 ∷ Node 0 ∷ Nobody ∷ EachTrusted ∷ []) }
{}

/// What is delivered in a data slot: the value, at the BIUs that are good there.
pub fn deliveries_of_the_bus()
    ensures delivered_to_all { map (λ line. line.receiver)
        (lines_on ordinary_use 0 4 (Node 0) (Word 10))
        ≡ (0 ∷ 1 ∷ 2 ∷ 3 ∷ []) }
    ensures delivered_to_the_good { map (λ line. line.receiver)
        (lines_on asymmetric_sender 0 5 (Node 1) Fault)
        ≡ (0 ∷ 2 ∷ 3 ∷ []) }
    ensures delivered_in_an_idle_slot { lines_on ordinary_use 0 4 Nobody Fault ≡ [] }
{}

/// Which slots are complete: all of a frame without a breach, so that the next one is reached, and
/// those before a breach.
pub fn complete_slots()
    ensures last_of_a_frame { IsComplete smallest_bus [] 0 4 }
    ensures next_frame { IsReached smallest_bus [] 1 }
    ensures before_the_breach { IsComplete two_sided [] 0 5 }
    ensures at_the_breach { (after_slot two_sided [] 0 6).book.ended ≡ true }
{}

/// The diagnosis slots of a frame convict, by those whom the bus trusts in it. The next frame
/// begins with no owners.
pub fn frames_of_the_bus()
    ensures bius { (bus_after_frame sizes 9170000 at_the_end).bius ≡ 13 }
    ensures rmus { (bus_after_frame sizes 9170000 at_the_end).rmus ≡ 3 }
    ensures anew { map (λ bus. bus.owners) (bus_after_frame sizes 9170000 at_the_end ∷ [])
        ≡ ([] ∷ []) }
    ensures next { (bus_after_frame sizes 9170000 at_the_end).frame ≡ 1 }
{}

/// Steps of the bus from slot to slot: a good BIU's request and its word, and an idle slot.
pub fn steps_of_the_bus()
    ensures request { IsStep ordinary_use offered at_first
        (bus_after_slot sizes (Word 2) at_first) }
    ensures word { IsStep ordinary_use offered scheduled
        (bus_after_slot sizes (Word 10) scheduled) }
    ensures idle { IsStep ordinary_use offered (record half_scheduled { slot = 8 })
        (bus_after_slot sizes Fault (record half_scheduled { slot = 8 })) }
{}

/// The step to the next frame takes 908 of the shortest ticks at least. The steps of a run are
/// counted over its frames.
pub fn steps_over_frames()
    ensures frame { IsStep ordinary_use offered at_a_quiet_end
        (bus_after_frame sizes 9079092 at_a_quiet_end) }
    ensures run { IsRun ordinary_use offered 2 first_slots }
    ensures counted { map (steps_to sizes 1) (0 ∷ 19 ∷ []) ≡ (20 ∷ 39 ∷ []) }
{}

/// A slot whose sender is good has no Fault, and no other word or request than it is offered.
pub fn values_of_a_good_sender()
    ensures fault_of_a_good_sender { ¬ MayHave ordinary_use scheduled (offered 0 4) (Data 0)
        (Node 0) Fault }
    ensures another_word { ¬ MayHave ordinary_use scheduled (offered 0 4) (Data 0) (Node 0)
        (Word 11) }
    ensures another_request { ¬ MayHave ordinary_use at_first (offered 0 0) (Schedule 0) (Node 0)
        (Word 3) }
{}

/// A slot that is idle has no word.
pub fn value_of_an_idle_slot()
    ensures { ¬ MayHave ordinary_use half_scheduled (offered 0 8) (Data 4) Nobody
        (Word 10) }
{}

/// The bands of the bus at their edges: BIU 0, which starts as late and ticks as slowly as the plan
/// allows, and all others. One unit later at the start, or one unit less a tick, is out of them.
pub fn bands_of_the_bus()
    ensures latest { IsInBand greatest_drift at_first Biu 0 biu 855 }
    ensures earliest { IsInBand greatest_drift at_first Biu 1 biu 855 }
    ensures at_the_begin { IsInBand greatest_drift at_first Rmu 0 rmu 0 }
    ensures too_late { ¬ IsInBand out_of_bands at_first Biu 0 biu 855 }
    ensures too_early { ¬ IsInBand out_of_bands at_first Biu 1 biu 855 }
{}

/// Nodes that hold the sets and the owners of the bus.
pub fn sets_of_the_bus()
    ensures trusted_by_a_biu { HoldsTrusted scheduled Biu biu }
    ensures trusted_by_an_rmu { HoldsTrusted scheduled Rmu rmu }
    ensures owners { HoldsOwners ordinary_use scheduled biu_with_owners }
    ensures before_the_schedule { HoldsOwners ordinary_use at_first biu }
{}

/// Nodes that hold the votes and the next epochs of the bus.
pub fn votes_and_epochs_of_the_bus()
    ensures vote { HoldsVote ordinary_use 0 scheduled Biu (record biu { votes = Word 2 ∷ [] }) }
    ensures no_vote { HoldsVote ordinary_use 4 scheduled Rmu rmu }
    ensures next_epoch_of_a_biu { FrameTakes sizes plan Biu (record biu { k2 = Some 878 }) }
    ensures next_epoch_of_an_rmu { FrameTakes sizes plan Rmu (record rmu { k3 = Some 897 }) }
    ensures low { IsLow ordinary_use [] 0 0 }
{}

/// What the bus cannot do.
pub fn beyond_the_steps()
    // A frame takes no less than its windows do by the shortest ticks.
    ensures short_frame { ¬ IsStep ordinary_use offered at_a_quiet_end
        (bus_after_frame sizes 9079091 at_a_quiet_end) }
    // A good BIU's vector names no good RMU, and a good RMU's no good BIU.
    ensures vector_of_a_biu { ¬ MayHave without_biu_2 before_biu_0 (offered 0 12) (DiagBiu 0)
        (Node 0) (Word 4) }
    ensures vector_of_an_rmu { ¬ MayHave silent_rmu before_rmu_0 (offered 0 16) (DiagRmu 0)
        (Node 0) (Word 4) }
{}

/// What nodes that stand for the bus cannot hold, and when a word is offered.
pub fn beyond_the_nodes()
    // A word is offered as the port holds it in its slot, and not as it did when the frame began.
    ensures offered_in_the_slot { offered_in one_state [] 0 3 1 ≡ 37 }
    // RMUs do not vote in a data slot, and good nodes are not accused by mismatch.
    ensures no_vote { votes_on sizes 4 Rmu ≡ false }
    ensures accused_by_mismatch { ¬ SparesAllGood ordinary_use 0 5 Biu
        (record biu { far = record biu.far { mismatch = 1 } }) }
    // A frame takes no longer than the windows of the sync slot allow.
    ensures long_frame { ¬ FrameTakes sizes plan Biu (record biu { k2 = Some 889 }) }
{}
