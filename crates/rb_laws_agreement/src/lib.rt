//! Laws of agreement: what all good nodes hold in common, whom they accuse, and whom they convict.
//! There is no clock in them, except in the premise of the last two. Each law is the contract of a
//! function that does nothing.
#![tactic(auto)]

ghost use Rattle.rb_laws_agreement.specs.Held.{HeldWordsAreDelivered};
ghost use Rattle.rb_laws_agreement.specs.Laws.{AccusedByAllIsConvicted, DeliveriesAreRight, GoodNodesAgree, GoodNodesHoldOneSchedule, GoodSendersAreHeard, NoGoodNodeIsAccused, NoGoodNodeIsConvicted, PortsFollowTheBus, PortsHoldOneState, RoundsStepTheBus, TimeIsAllThatIsLeft, TimeKeepsThePromise, UnheardNodesHaveNoVector};
ghost use Rattle.rb_laws_agreement.specs.OneSlot.{OneSlotAgrees, VotesAgree, VotesAreValid};

/// In one stage, whatever the other nodes do: if all good sources say one value, and a node accepts
/// more from them than from others, that value is its vote.
pub fn votes_are_valid()
    ensures { VotesAreValid }
{}

/// Two nodes that take the same of each source vote alike.
pub fn votes_agree()
    ensures { VotesAgree }
{}

/// In one slot below the sync slot, whatever nodes that are not good do: all good nodes that vote
/// on it vote alike, for what the sender says if the sender is good; in a data slot with an owner
/// each good BIU delivers that vote; and no good node accuses a good one. The premise is that in
/// stages 2 and 3 good sources outnumber the others from which a good node accepts something, and
/// that no node of one of the kinds is asymmetric.
pub fn one_slot_agrees()
    ensures { OneSlotAgrees }
{}

/// The good nodes that vote on a slot hold one vote, and each good BIU delivers that in an owned
/// data slot.
pub fn good_nodes_agree()
    ensures { GoodNodesAgree }
{}

/// If the sender is good, the vote is what it sent: its request, the word that its application
/// offered, its vector.
pub fn good_senders_are_heard()
    ensures { GoodSendersAreHeard }
{}

/// In each complete slot that has an owner all good BIUs deliver one value, and if the owner is
/// good, it is the word that its application offered. In the other complete slots nothing is
/// delivered.
pub fn deliveries_are_right()
    ensures { DeliveriesAreRight }
{}

/// From the first data slot on good nodes hold one schedule, and they trust the same nodes, also as
/// a frame begins.
pub fn good_nodes_hold_one_schedule()
    ensures { GoodNodesHoldOneSchedule }
{}

/// No good node accuses a good one, directly or by mismatch.
pub fn no_good_node_is_accused()
    ensures { NoGoodNodeIsAccused }
{}

/// No good node is convicted.
pub fn no_good_node_is_convicted()
    ensures { NoGoodNodeIsConvicted }
{}

/// A node of which no good node took anything in the frame has no valid voted vector.
pub fn unheard_nodes_have_no_vector()
    ensures { UnheardNodesHaveNoVector }
{}

/// Whoever is accused by all nodes of the other kind that are good in the sync slot, when they send
/// their vectors, is convicted at the frame's end; with probation as without.
pub fn accused_by_all_is_convicted()
    ensures { AccusedByAllIsConvicted }
{}

/// A good BIU's port is what the values of the data slots that were not idle make of it, from its
/// first word or its newest hand-in on.
pub fn ports_follow_the_bus()
    ensures { PortsFollowTheBus }
{}

/// Good BIUs with one application, one first word and equal hand-ins have equal ports.
pub fn ports_hold_one_state()
    ensures { PortsHoldOneState }
{}

/// Up to the first breach, all good BIUs deliver, in each slot of a good BIU with a table, the word
/// that was handed to this table last, or the scenario's word if none was handed to it.
pub fn held_words_are_delivered()
    ensures { HeldWordsAreDelivered }
{}

/// What good nodes hold is what the abstract bus holds, each slot is a step of it, and so is the
/// start of each frame. Of its times nothing is said.
pub fn rounds_step_the_bus()
    ensures { RoundsStepTheBus }
{}

/// If good nodes begin frames at most `p` reference units apart, and each frame takes as long as it
/// must, the rounds stand for a run of the abstract bus.
pub fn time_is_all_that_is_left()
    ensures { TimeIsAllThatIsLeft }
{}

/// If good nodes begin frames at most `p` reference units apart, and each frame takes as long as it
/// must, all that the bus promises holds.
pub fn time_keeps_the_promise()
    ensures { TimeKeepsThePromise }
{}
