//! Bridges of two buses and a group of replicas, computed from the definitions alone: each function
//! does nothing, and its contract is a case.
#![tactic(auto, unfolding(rb_base::specs::Nodes::set_of, rb_base::specs::Nodes::set_below, rb_base::specs::Nodes::size, rb_rules::specs::Spelling::message_in, rb_rules::specs::ExactStage::close_exact, rb_rules::specs::ExactStage::outcome_of, rb_rules::specs::SyncStage::close_sync, rb_rules::specs::SyncStage::sync_outcome_of, rb_rules::specs::Conviction::convicted_by, rb_rules::specs::Conviction::turn, rb_rules::specs::Links::delay_of, rb_rules::specs::Judging::classes_of, rb_rules::specs::Judging::verdict_of, rb_rules::specs::Hearing::sending, rb_rules::specs::Hearing::heard_from, rb_rules::specs::Hearing::row_of, rb_rules::specs::Book::with_stage, rb_rules::specs::Book::with_frame, rb_rules::specs::Rounds::sent_in, rb_rules::specs::Rounds::close_on, rb_rules::specs::Rounds::go_through, rb_rules::specs::Rounds::results_of, rb_rules::specs::Rounds::after_window, rb_rules::specs::Rounds::begin_frame, rb_rules::specs::Rounds::step, rb_group::specs::Groups::values_of))]

ghost use Rattle.std.specs.Prelude.{◌≡◌, ◌∷◌, ◌++◌, [], drop};
ghost use Rattle.rb_base.specs.declared.values.Heard.TheVariants.{Fault, Word};
ghost use Rattle.rb_group.specs.declared.voters.Which.TheVariants.{Mid, Most};
ghost use Rattle.rb_group.specs.Groups.{group_value, voted_by};
ghost use Rattle.rb_group.specs.Portions.{value_at};
ghost use Rattle.rb_laws_bridge.specs.Laws.{AreUnbroken, AreUpTo, SoundPairsOutnumber, frame_told};
ghost use Rattle.rb_laws_groups.specs.Laws.{AreServed, IsGoodPort, IsSchedule, OffersAreWithin, Outnumber, has_slot, is_good_owner, offers};
ghost use Rattle.rb_rules.specs.Lawful.{IsLawful};
ghost use Rattle.rb_rules_bridge.specs.declared.bank.Bank.TheVariants.{Right};
ghost use Rattle.rb_rules_bridge.specs.Bridges.{IsBridge};
ghost use Rattle.rb_rules_bridge.specs.Crossings.{hands_of};
ghost use Rattle.rb_rules_bridge.specs.Texts.{bridge_text};
ghost use Rattle.rb_test_bridge_rules.specs.Bridges.{all_told, both_break, both_break_text, crossed, crossed_by_few, crossed_by_few_text, crossed_text, faulty_replica, first_told, idle_slot, idle_slot_text, last_data_slot, last_data_slot_text, left_breaks, left_breaks_text, next_told, no_majority, no_majority_text, one_at_each, other_slots, other_slots_text, outvoted, outvoted_text, right_breaks, right_breaks_text, slot_each, three_frames, three_frames_text, two_of_a_sender, unlike_buses, unlike_buses_text};

/// Each finds the other's word in the second frame, and in the third its own, which the other has
/// handed back.
pub fn three_frames()
    ensures { bridge_text three_frames ≡ three_frames_text }
{}

/// The left bus's carried slot is idle, and 0 crosses.
pub fn idle_slot()
    ensures { bridge_text idle_slot ≡ idle_slot_text }
{}

/// Pairs of BIUs with unlike numbers: all carry the word of the one slot, and receivers outside of
/// the bridge find it too.
pub fn other_slots()
    ensures { bridge_text other_slots ≡ other_slots_text }
{}

/// The pairs' BIUs have the numbers 0 and 1 on the left bus, and 1 and 2 on the right one: words
/// are handed to the BIUs of the pairs on that bank, and the receivers count these.
pub fn crossed()
    ensures { bridge_text crossed ≡ crossed_text }
{}

/// A pair joins BIU 0 of the left bus with BIU 2 of the right one, and BIU 2 of the left bus is not
/// good: the pair carries what its own BIU on the left delivered.
pub fn crossed_by_few()
    ensures { bridge_text crossed_by_few ≡ crossed_by_few_text }
{}

/// The left bus has one BIU and the right bus three: the carried slot of a bus is counted after the
/// schedule slots of its own BIUs.
pub fn unlike_buses()
    ensures { bridge_text unlike_buses ≡ unlike_buses_text }
{}

/// A BIU that is not good in the carried slot carries 0, and is outvoted by two that are.
pub fn outvoted()
    ensures { bridge_text outvoted ≡ outvoted_text }
{}

/// With only two pairs, a BIU that carries 0 takes the majority away: nobody on the right finds a
/// word.
pub fn no_majority()
    ensures { bridge_text no_majority ≡ no_majority_text }
{}

/// A BIU that is not good in the last data slot has no line.
pub fn last_data_slot()
    ensures { bridge_text last_data_slot ≡ last_data_slot_text }
{}

/// The right bus breaks the premise in the second frame, before the left one does: the second frame
/// has no lines.
pub fn right_breaks()
    ensures { bridge_text right_breaks ≡ right_breaks_text }
{}

/// The left bus breaks it in the third: what crossed before is told.
pub fn left_breaks()
    ensures { bridge_text left_breaks ≡ left_breaks_text }
{}

/// Both break it at once: the left bus's breach is told.
pub fn both_break()
    ensures { bridge_text both_break ≡ both_break_text }
{}

/// Values of groups. Of a sender's values the first counts, and only members are asked. A Fault
/// votes against a majority, and is left out of the middle. A receiver's value is made of what it
/// was delivered itself.
pub fn values_of_groups()
    ensures first { group_value Most 1 two_of_a_sender ≡ Word 10 }
    ensures members { group_value Most 2 two_of_a_sender ≡ Word 12 }
    ensures fault_votes { voted_by Most (Word 10 ∷ Fault ∷ []) ≡ Fault }
    ensures fault_is_no_word { voted_by Mid (Word 10 ∷ Fault ∷ []) ≡ Word 10 }
    ensures receiver_0 { value_at Most 1 one_at_each 0 0 ≡ Word 10 }
    ensures receiver_1 { value_at Most 1 one_at_each 0 1 ≡ Word 11 }
{}

/// The premises of the laws on groups: of three replicas with a data slot each, two are good and
/// offer one word, and the third is not good.
pub fn a_faulty_replica()
    ensures lawful { IsLawful faulty_replica }
    ensures served { AreServed faulty_replica [] 0 }
    ensures schedule { IsSchedule faulty_replica [] 0 slot_each }
    ensures word { Outnumber (offers faulty_replica [] 0 slot_each 7 10)
        (has_slot faulty_replica slot_each 7) }
    ensures port { IsGoodPort faulty_replica 0 0 }
    ensures other_port { IsGoodPort faulty_replica 0 1 }
{}

/// The premises of the law on the middle of a group: the good owners among these replicas outnumber
/// the others, and what they offer is within bounds.
pub fn owners_beside_a_faulty_replica()
    ensures owners { Outnumber (is_good_owner faulty_replica [] 0 slot_each 7)
        (has_slot faulty_replica slot_each 7) }
    ensures within { OffersAreWithin faulty_replica [] 0 slot_each 7 10 10 }
{}

/// The premises of the laws on the order of records: up to one record those of a run are of frame
/// 0, and frame 1 begins with that.
pub fn records_of_two_frames()
    ensures lawful { IsLawful outvoted.right }
    ensures order { all_told ≡ first_told ++ next_told ∷ drop 12 all_told }
    ensures up_to { AreUpTo outvoted.right.frames 0 first_told }
    ensures later { frame_told outvoted.right.frames next_told ≡ 1 }
{}

/// The premises of the law that words cross, of the bridge whose left BIU is outvoted: two pairs
/// are sound in the frames that follow each other, and one is not, and both buses come through the
/// second frame.
pub fn sound_pairs_outnumber()
    ensures bridge { IsBridge outvoted }
    ensures schedule { IsSchedule outvoted.right (hands_of outvoted).right 1 slot_each }
    ensures outnumber { SoundPairsOutnumber outvoted Right slot_each 0 }
    ensures unbroken { AreUnbroken outvoted 1 }
{}
