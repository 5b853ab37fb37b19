//! Whom a node accuses and convicts, at the edges of the rules.
#![tactic(auto, unfolding(rb_base::specs::Nodes::set_of, rb_base::specs::Nodes::set_below, rb_rules::specs::ExactStage::close_exact, rb_rules::specs::ExactStage::outcome_of, rb_rules::specs::SyncStage::close_sync, rb_rules::specs::SyncStage::sync_outcome_of, rb_rules::specs::Conviction::convicted_by, rb_rules::specs::Conviction::turn))]

ghost use Rattle.std.specs.Prelude.{◌≡◌, ◌∷◌, [], Some, None, false, map, slice_index, take, true};
ghost use Rattle.rb_base.specs.declared.values.Heard.TheVariants.{Word, Fault};
ghost use Rattle.rb_rules.specs.Probation.{has_lapsed};
ghost use Rattle.rb_rules.specs.Standing.{standing_at_end, vector_of};
ghost use Rattle.rb_test_rules.specs.Accusing.{after_noise_in_the_tail, after_stage_1, calm_for, next_but_one_frame, next_frame, sender_of_a_fault, sender_of_a_vector, sender_of_unlike, voter_on_a_vector, with_a_convict, without_a_call_of_a_biu, without_a_call_of_an_rmu};
ghost use Rattle.rb_test_rules.specs.Parts.{biu, convicted, in_idle_slot};

/// Whom vectors convict.
pub fn convictions()
    // A vector names those accused nodes alone that are trusted.
    ensures vector_without_convicts { vector_of with_a_convict ≡ 4 }
    // A vector with a bit past the nodes counts for nothing, whether it would name a node or spare
    // it.
    ensures naming { convicted 7 (Word 10 ∷ Word 2 ∷ Word 0 ∷ []) ≡ 0 }
    ensures sparing { convicted 7 (Word 8 ∷ Word 2 ∷ Fault ∷ []) ≡ 2 }
    // Nodes of both kinds are convicted at once, by the trusted sets of the frame that ends: the
    // vector of RMU 2, which is convicted too, is needed to convict BIU 1. In the frame after, the
    // vectors of both no longer count.
    ensures bius { next_frame.near ≡ 13 }
    ensures rmus { next_frame.far.trusted ≡ 3 }
    ensures bius_later { next_but_one_frame.near ≡ 13 }
    ensures rmus_later { next_but_one_frame.far.trusted ≡ 3 }
{}

/// Frames without evidence are counted up to 4096, which is the longest probation.
pub fn longest_probation()
    ensures last_but_one { (standing_at_end 4096 (calm_for 4094)).direct ≡ 1 }
    ensures last { (standing_at_end 4096 (calm_for 4095)).direct ≡ 0 }
    ensures counted_no_further { slice_index (standing_at_end 0 (calm_for 4096)).calm 0 ≡ 4096 }
{}

/// A sender compares the relays with what it sent, and not with its vote, which is Fault here: two
/// RMUs differ.
pub fn accusations_by_a_sender()
    ensures kept_after_stage_1 { after_stage_1.sent ≡ Some (Word 2) }
    ensures voted { take 1 sender_of_unlike.votes ≡ (Fault ∷ []) }
    ensures accused { sender_of_unlike.far.mismatch ≡ 3 }
    ensures forgotten_after_stage_2 { sender_of_unlike.sent ≡ None }
{}

/// Who speaks in the tail is accused.
pub fn accusation_of_noise()
    ensures { after_noise_in_the_tail.far.direct ≡ 1 }
{}

/// What is evidence.
pub fn evidence()
    // The sender of a slot accuses the RMU that relays Fault in place of its word. An RMU compares
    // what is relayed of its own vector with what it sent, and the BIUs compare the votes on that
    // vector with their own.
    ensures fault_is_unlike { sender_of_a_fault.far.mismatch ≡ 4 }
    ensures by_an_rmu { sender_of_a_vector.far.mismatch ≡ 2 }
    ensures by_a_voting_biu { voter_on_a_vector.far.mismatch ≡ 4 }
    // Who does not call in the sync slot is accused.
    ensures silent_rmu { without_a_call_of_an_rmu.far.direct ≡ 4 }
    ensures silent_biu { without_a_call_of_a_biu.far.direct ≡ 8 }
    // What comes unexpected in an idle slot is not voted on.
    ensures vote_of_an_idle_slot { in_idle_slot.state.votes ≡ biu.votes }
{}

/// With a probation of two frames, evidence of frame 5 lapses with the end of frame 8, and without
/// a probation it never lapses.
pub fn lapsing_evidence()
    ensures lapsing { map (has_lapsed 2 5) (6 ∷ 7 ∷ 8 ∷ []) ≡ (false ∷ false ∷ true ∷ []) }
    ensures never { has_lapsed 0 5 9 ≡ false }
{}
