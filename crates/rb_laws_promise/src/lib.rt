//! What the bus promises to those who use it. Each law is the contract of a function that does
//! nothing.
#![tactic(auto)]

ghost use Rattle.rb_laws_promise.specs.Evidence.{AccusationsFollowEvidence};
ghost use Rattle.rb_laws_promise.specs.Laws.{RoundsStandForTheBus, ThePromiseIsKept};
ghost use Rattle.rb_laws_promise.specs.Promise.{AnyBehaviorKeepsThePromise, RunsKeepThePromise};
ghost use Rattle.rb_laws_promise.specs.Shares.{GoodBiusGetTheirShare};
ghost use Rattle.rb_laws_promise.specs.Strategies.{StrategiesGainNothing};

/// Up to the first breach of the fault premise the rounds stand for a run of the abstract bus: at
/// each start of a frame and in each slot all good nodes hold what it holds.
pub fn rounds_stand_for_the_bus()
    ensures { RoundsStandForTheBus }
{}

/// Up to the first breach of the fault premise good nodes begin slots near each other, good BIUs
/// deliver one value, that of a good owner, all good nodes hold one schedule and convict the same
/// nodes, and no good one.
pub fn the_promise_is_kept()
    ensures { ThePromiseIsKept }
{}

/// Up to the first breach of the fault premise, a good BIU that asks for `r` slots owns at least
/// `r` data slots in each frame, or an equal share of them (their number by that of the BIUs,
/// rounded down) if `r` is more, whatever the other BIUs ask for.
pub fn good_bius_get_their_share()
    ensures { GoodBiusGetTheirShare }
{}

/// Every run of a lawful scenario keeps the whole promise, for any hand-ins: that of
/// `the_promise_is_kept`, `rounds_stand_for_the_bus` and `good_bius_get_their_share`, that of the
/// lines of each slot's record, and that of the nodes that run event by event.
pub fn runs_keep_the_promise()
    ensures { RunsKeepThePromise }
{}

/// Every run of a lawful scenario keeps the whole promise, for any hand-ins, whatever its faulty
/// nodes do. Their behavior is any function: for each window of each receiver and each source it
/// gives any list of times and bytes.
pub fn any_behavior_keeps_the_promise()
    ensures { AnyBehaviorKeepsThePromise }
{}

/// A strategy gains nothing: faulty nodes may choose what they do in each window by the moment
/// before it, with the states of all nodes. With one behavior, fixed beforehand, each moment of the
/// run is the same as against the strategy, and this run keeps the whole promise.
pub fn strategies_gain_nothing()
    ensures { StrategiesGainNothing }
{}

/// In each moment of the run of a lawful scenario, after a breach too, each good node accuses
/// directly exactly those sources against which it has found direct evidence that has not lapsed:
/// with a probation of `q` frames evidence of frame `f` lapses as frame `f + q + 1` begins, and if
/// `q` is 0, none lapses. The sources in `fresh` are those with evidence of this frame, and for
/// each source that is accused `calm` counts the frames since its newest evidence.
pub fn accusations_follow_evidence()
    ensures { AccusationsFollowEvidence }
{}
