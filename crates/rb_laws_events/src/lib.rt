//! Laws of runs: what the rounds of a scenario and its run event by event have to do with each
//! other. Each law is the contract of a function that does nothing.
#![tactic(none)]

ghost use Rattle.rb_laws_events.specs.ByItself.{WhatNeedsNoEventIsGiven};
ghost use Rattle.rb_laws_events.specs.Closing.{GoodNodesCloseInOrder};
ghost use Rattle.rb_laws_events.specs.Laws.{BoundedRunsEndInLawful, EventsAreRoundsInLawful, EventsOnlyAdd, EveryRunEndsInLawful, HandInsComeLate, OneTurnARecordInLawful, QuietTicksCount, RecordsAreOfAllSteps, RoundsOnlyAdd, SomethingIsDueInLawful};
ghost use Rattle.rb_laws_events.specs.OwnMoments.{CoresAreThoseOfTheRounds, CoresFollowTheRounds};
ghost use Rattle.rb_laws_events.specs.PendingEvents.{PendingEventsAreFewInLawful};
ghost use Rattle.rb_laws_events.specs.Promise.{RunningNodesKeepThePromiseInLawful};
ghost use Rattle.rb_laws_events.specs.RunningNodes.{RunningNodesAgreeInLawful, RunningPortsAgreeInLawful};

/// A run by rounds that stops at its end has all records.
pub fn records_are_of_all_steps()
    ensures { RecordsAreOfAllSteps }
{}

/// The rounds only add records, and none after the last.
pub fn rounds_only_add()
    ensures { RoundsOnlyAdd }
{}

/// Whatever event is taken, whatever is handed in, the world only adds records, and none after the
/// last.
pub fn events_only_add()
    ensures { EventsOnlyAdd }
{}

/// What is handed in at the start of a frame changes nothing before it.
pub fn hand_ins_come_late()
    ensures { HandInsComeLate }
{}

/// Quiet ticks are only counted, so that a core may be moved to its next busy tick at once.
pub fn quiet_ticks_count()
    ensures { QuietTicksCount }
{}

/// A record that needs no event, as the end of the run or a stage in which no node is good, is
/// given by the call that asks for it.
pub fn what_needs_no_event_is_given()
    ensures { WhatNeedsNoEventIsGiven }
{}

/// Every good node closes a stage before any good node closes the next stage. So of each stage a
/// world need keep only what was seen in it last. The tail is no stage: some nodes may be through
/// it, and in the next frame, while others are still in the last stage. It is enough that good
/// nodes begin the frame at most `p` apart and, over the turn, that none begins the next frame
/// before the ticks of all its stages have passed.
pub fn close_order()
    ensures { GoodNodesCloseInOrder }
{}

/// Whatever is chosen among what is due, the records of a run event by event are the first of those
/// of its rounds, and all of them once it has ended: in every lawful scenario, whatever is handed
/// in, also if the premise on faults is broken.
pub fn events_are_rounds()
    ensures { EventsAreRoundsInLawful }
{}

/// No run gets stuck: in every lawful scenario some event is due, whatever was chosen, as long as
/// the run has not ended and its next record needs an event.
pub fn something_is_due()
    ensures { SomethingIsDueInLawful }
{}

/// In every lawful scenario each call gives no record, or the next of the rounds.
pub fn one_turn_a_record()
    ensures { OneTurnARecordInLawful }
{}

/// Every run ends in every lawful scenario whose faulty nodes do what the entries of a document
/// list: whatever is chosen, the number of events that are taken is at most `most_takes`, which
/// follows from the nodes, the number of their ticks and what is said, and no node that runs has
/// had 2^31 ticks. Until then some event is due, or the next record is given without one.
pub fn every_run_ends()
    ensures { EveryRunEndsInLawful }
{}

/// Every run ends in every lawful scenario if there is any bound on what faulty nodes say to a node
/// in a window, whatever they do: at most `takes_with` events are taken.
pub fn bounded_runs_end()
    ensures { BoundedRunsEndInLawful }
{}

/// In every lawful scenario whose faulty nodes do what the entries of a document list, room for
/// `most_pending` events at each node, reserved at opening, is enough: for its tick, for four
/// messages from each node of the other kind, and for three times as many as there are entries of
/// what is said. Whatever was chosen, no more is pending at a node (`now`), nor after a tick of its
/// own (`own`), nor with the message that another node sends at its tick (`message`).
pub fn pending_events_are_few()
    ensures { PendingEventsAreFewInLawful }
{}

/// In every lawful scenario, whatever is chosen and handed in, each core that runs holds the state
/// that its node has in the rounds at the moment before the stage in which the core is by its own
/// frame and window, and each BIU that runs has its port of that moment. A node that does not run
/// is in a slot in which it is not good. All this holds in every world before a stage of a sync
/// slot with which the run breaks off.
pub fn cores_are_those_of_the_rounds()
    ensures { CoresAreThoseOfTheRounds }
{}

/// In every world, also if the run breaks off with a stage of a sync slot that some nodes have left
/// already: each core that runs and has a tick to come holds the state of the rounds at its own
/// moment, and each such BIU has its port of that moment, unless the run has ended by that moment
/// in the rounds.
pub fn cores_follow_the_rounds()
    ensures { CoresFollowTheRounds }
{}

/// Any two running nodes of a world that are in one slot begin it at most the stated skew apart,
/// and hold the same convicted nodes, no good one among them, the same votes on the earlier slots
/// of the frame on which both vote, and from the first data slot on one schedule: in each slot that
/// is complete in the rounds, and at the start of each frame.
pub fn running_nodes_agree()
    ensures { RunningNodesAgreeInLawful }
{}

/// After the same complete slot running BIUs with one application, one first word and equal
/// hand-ins have equal ports, unless a stage of a sync slot has ended the run and it has ended by
/// the BIU's own moment, too.
pub fn running_ports_agree()
    ensures { RunningPortsAgreeInLawful }
{}

/// All that is promised of running nodes holds in every world that choices lead to; and in the
/// rounds, whatever is handed in, every window is timely, good BIUs that are alike have equal
/// ports, and whoever all good nodes of the other kind accuse when they send their vectors is
/// convicted when the frame has ended. Running nodes hold such a node convicted in the first slot
/// of the next frame. Whom no good node heard in a frame has no valid vector in it. The port of a
/// good BIU is what the bus's values and the hand-ins make of it: in the rounds after each complete
/// slot, and at a running BIU as a frame begins and after each complete slot. The rounds stand for
/// a run of the abstract bus, and each running node holds what that bus holds in the node's slot:
/// the trusted nodes, the owners and the values. It began the slot in the band of the bus. No
/// running node accuses a node that is good in its slot, unless the run has ended by the node's own
/// moment.
pub fn running_nodes_keep_the_promise()
    ensures { RunningNodesKeepThePromiseInLawful }
{}
