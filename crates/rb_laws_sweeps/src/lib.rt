//! Laws of sweeps: a world may leave arrivals behind, and take all that come to a node together.
//! Each law is the contract of a function that does nothing.
#![tactic(none)]

ghost use Rattle.rb_laws_sweeps.specs.Brought.{SweepsBring};
ghost use Rattle.rb_laws_sweeps.specs.Laws.{ArrivalsSettleNothing, GoOnPassesASweep, HearingComposes, HearingTakesTheFirst, NobodyIsAhead, NothingIsHeard, NothingIsSwept, PushesPassASweep, SomeTickIsFirst, SweepsCompose, SweepsKeepTheRest, SweepsTakeTheFirst, TakesLeadToTheFirstTick, WhatIsSentComesLaterInLawful, WorldsGoOnAhead};
ghost use Rattle.rb_laws_sweeps.specs.Room.{PendingBehindIsFew, StoppedStayEmptyInEach, TicksBehindAreInTime, TicksBehindFit};
ghost use Rattle.rb_laws_sweeps.specs.Stamps.{StampsMakeNoDifference};

/// A sweep takes what comes first to a node, by time, then by source, then in the order of pushing,
/// and then the rest.
pub fn sweeps_take_the_first()
    ensures { SweepsTakeTheFirst }
{}

/// A node that is swept up to a time and then up to a later one is swept up to the later one.
pub fn sweeps_compose()
    ensures { SweepsCompose }
{}

/// A sweep changes what comes to a node, what came, and of the core only how many ticks it has
/// counted and what it has got. All that is left comes at the time or later.
pub fn sweeps_keep_the_rest()
    ensures { SweepsKeepTheRest }
{}

/// If what is due is from nodes that there are, and neither it nor what the node has had is past
/// the ticks that a node may have: a sweep leaves pending what comes at the time or later, in its
/// order (`coming`). Of each source the core keeps as many more as were due, and if one was due and
/// nothing was kept, that one (`inbox`); so it is with what came (`got`), which stays in step with
/// what the core keeps (`together`). The rest of the node is as it was (`is`, `state`).
pub fn sweeps_bring()
    ensures { SweepsBring }
{}

/// If nothing comes before the time a sweep changes nothing.
pub fn nothing_is_swept()
    ensures { NothingIsSwept }
{}

/// What a node hears in a sweep, event by event, is what it hears up to an earlier time and then
/// the rest, so a run may tell it when it takes the arrivals.
pub fn hearing_composes()
    ensures { HearingComposes }
{}

/// What comes first to a node is heard first, and then the rest.
pub fn hearing_takes_the_first()
    ensures { HearingTakesTheFirst }
{}

/// If nothing comes before the time nothing is heard.
pub fn nothing_is_heard()
    ensures { NothingIsHeard }
{}

/// What comes at the time or later may be pushed before the sweep or after it.
pub fn pushes_pass_a_sweep()
    ensures { PushesPassASweep }
{}

/// In every lawful scenario the message that a node sends at a tick may be pushed before a sweep
/// through the time of the tick or after it (`message`), and what nodes that are not good say in a
/// window comes later than the tick before the window (`said`).
pub fn what_is_sent_comes_later()
    ensures { WhatIsSentComesLaterInLawful }
{}

/// In every lawful scenario, whatever was chosen before, an arrival that is taken changes its node
/// alone, and gives no record.
pub fn arrivals_settle_nothing()
    ensures { ArrivalsSettleNothing }
{}

/// In every lawful scenario, whatever was chosen before, takes of the first due event lead to the
/// first tick, as long as the run has not ended and its next record needs an event. Each is an
/// arrival and gives no record. After them each node is swept, those behind the tick's node up to
/// its time and the others through it, and nothing else has changed. What a node is told in these
/// takes, event by event, is what it hears in its sweep.
pub fn takes_lead_to_the_first_tick()
    ensures { TakesLeadToTheFirstTick }
{}

/// In every lawful scenario, whatever was chosen before, some tick is pending and one is the first,
/// as long as the run has not ended and its next record needs an event: in a world of which the one
/// that was chosen is ahead.
pub fn some_tick_is_first()
    ensures { SomeTickIsFirst }
{}

/// In every lawful scenario, whatever was chosen before: if the world is ahead of another, each of
/// whose nodes lacks only arrivals before a time, and the first tick is pending there, takes of the
/// first due event lead to the tick. One more take, that of the tick, leads to a world that is
/// ahead of what the tick alone makes of the other: one node is swept, takes its tick, and what
/// that completes is settled. The times of the nodes only rise. What the other world had left for a
/// node, and then what the node is told in these takes, is what the tick alone tells it (its
/// arrivals up to the tick, and the tick, if it is the tick's node), and then what is left behind
/// for it after that. A run may therefore tell a node's arrivals when it takes them.
pub fn worlds_go_on_ahead()
    ensures { WorldsGoOnAhead }
{}

/// A world of which no node is ahead is itself, so a run may begin with the times 0.
pub fn nobody_is_ahead()
    ensures { NobodyIsAhead }
{}

/// What needs no event is given alike to a world and to one that is ahead of it.
pub fn go_on_passes_a_sweep()
    ensures { GoOnPassesASweep }
{}

/// At a node that has stopped nothing is pending, whatever was chosen (`reached`), nor after a tick
/// alone, if it is so before it (`kept`).
pub fn stopped_stay_empty()
    ensures { StoppedStayEmptyInEach }
{}

/// In every lawful scenario whose faulty nodes do what the entries of a document list, whatever was
/// chosen before: room for `most_pending` events at each node is enough also if a world leaves
/// arrivals behind, as long as nothing is pending at nodes that have stopped.
pub fn pending_behind_is_few()
    ensures { PendingBehindIsFew }
{}

/// In every such scenario room for `most_pending` events is enough for what a tick alone makes
/// pending in a world behind: at its own node (`own`), and with the message that it sends
/// (`message`).
pub fn ticks_behind_fit()
    ensures { TicksBehindFit }
{}

/// The first tick of a world behind comes at its time (`time`), is one of those that a node may
/// have (`small`) and comes after those that its node has had once it is swept (`had`). Each node
/// that runs has a tick that is no earlier (`others`), and all that comes or came to a node is from
/// nodes that there are (`senders`).
pub fn ticks_behind_are_in_time()
    ensures { TicksBehindAreInTime }
{}

/// A tick, one of those that a node may have, that ends a window of a slot before the sync slot
/// gives the same whatever stamps what came has, and however many of the ticks before it were
/// counted. A run that takes what came to a node together, right before such a tick, therefore
/// needs no stamps.
pub fn stamps_make_no_difference()
    ensures { StampsMakeNoDifference }
{}
