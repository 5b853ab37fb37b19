//! Laws of a passive listener beside a run of the bus. Each law is the contract of a function that
//! does nothing.
#![tactic(auto)]

ghost use Rattle.std.specs.Prelude.{[]};
ghost use Rattle.rb_rules.specs.Lawful.{IsLawful};
ghost use Rattle.rb_laws_listener_learns.specs.Beside.{decided, ear, two_frames};
ghost use Rattle.rb_laws_listener_learns.specs.Deciding.{CallsComeAfter, CallsComeBy, DecidesBy};
ghost use Rattle.rb_laws_listener_learns.specs.Ears.{HearsTheRun, IsEar};
ghost use Rattle.rb_laws_listener_learns.specs.Laws.{AlwaysGoodIsGoodInEachSlot, DecisionsComeAfterTheCalls, DecisionsComeInTime, EarsAreFedEvents, FaultyRmusMaySpeakByAnyClock, FramesComeApart, GoodCallsComeTogether, GoodRmusAreHeardToCall, ListenersDecide, ListenersLearn, ListenersTrustAsTheBus, ListenersTrustTheTrusted, ListenersWait, RecordsOfTheGoodAreTrue, RecordsOfTheGoodAreWhole, TheFrameSoughtIsReal};
ghost use Rattle.rb_laws_listener_learns.specs.Receivers.{IsCalm};

/// An instance of what the laws ask, computed: a listener beside a run of two frames starts before
/// the call of the first one and hears the RMU, up to its call in the second one with tick 445 and
/// then for the reach of a pass. It learns the second frame, and decides by it. That frame comes to
/// its end before the first breach of the premise with the listener.
pub fn a_listener_beside_a_run()
    ensures lawful { IsLawful two_frames }
    ensures ear { IsEar two_frames ear }
    ensures hears { HearsTheRun two_frames [] ear }
    ensures starts { CallsComeAfter two_frames [] ear 0 0 }
    ensures come { CallsComeBy two_frames [] ear 1 445 }
    ensures decides { DecidesBy two_frames [] ear 1 463 decided }
    ensures calm { IsCalm two_frames [] ear 1 decided.lesson.records 1 4 }
{}

/// An RMU is good in the whole run if and only if it is good in each slot to which the run comes.
pub fn always_good_is_good_in_each_slot()
    ensures { AlwaysGoodIsGoodInEachSlot }
{}

/// An RMU may be heard to say anything from less than a tick before the slot of its onset begins by
/// a clock that starts the frame near the good nodes.
pub fn faulty_rmus_may_speak_by_any_clock()
    ensures { FaultyRmusMaySpeakByAnyClock }
{}

/// What a listener tells beside a run is what it tells if it is given the ticks and messages one
/// after another.
pub fn ears_are_fed_events()
    ensures { EarsAreFedEvents }
{}

/// If a listener learns a frame, it is the one after a frame of the bus in which the RMUs called.
pub fn the_frame_sought_is_real()
    ensures { TheFrameSoughtIsReal }
{}

/// What a listener has recorded of an RMU that is good in the whole run is what that sent: in each
/// place one message or none, never a bad one.
pub fn records_of_the_good_are_true()
    ensures { RecordsOfTheGoodAreTrue }
{}

/// A listener trusts, by what it has recorded, only nodes that the bus trusts.
pub fn listeners_trust_the_trusted()
    ensures { ListenersTrustTheTrusted }
{}

/// In each frame whose sync slot the run comes to, each RMU that is good there calls in stage 2,
/// and a listener hears it.
pub fn good_rmus_are_heard_to_call()
    ensures { GoodRmusAreHeardToCall }
{}

/// The calls of good RMUs in one frame come to a listener with stamps at most as far apart as the
/// calls of a pass may be.
pub fn good_calls_come_together()
    ensures { GoodCallsComeTogether }
{}

/// The calls of good RMUs in a later frame come later, and by more than those of a pass may lie
/// apart.
pub fn frames_come_apart()
    ensures { FramesComeApart }
{}

/// If the tick is fixed at which a listener decides, all calls of good RMUs in the frame that it
/// learns come before it.
pub fn decisions_come_after_the_calls()
    ensures { DecisionsComeAfterTheCalls }
{}

/// A listener that starts before the calls of the RMUs in a frame, beside a run that comes to those
/// of the next frame, decides by that next frame or an earlier one, at most the reach of a pass
/// after the last of these calls, if its ticks last so long.
pub fn listeners_decide()
    ensures { ListenersDecide }
{}

/// If a listener decides, all is recorded that an RMU, good in the learned frame up to its sync
/// slot, sent in that frame in the places that are recorded.
pub fn records_of_the_good_are_whole()
    ensures { RecordsOfTheGoodAreWhole }
{}

/// If a listener decides, it trusts by what it has recorded just the nodes that the bus trusts in
/// the learned frame.
pub fn listeners_trust_as_the_bus()
    ensures { ListenersTrustAsTheBus }
{}

/// If a listener decides, it finds its first frame, and the first tick of that is still to come.
pub fn decisions_come_in_time()
    ensures { DecisionsComeInTime }
{}

/// If a listener decides by a frame that comes to its end before the first breach of the premise
/// with the listener, it has learned what it needs to follow: whom the bus trusts in that frame and
/// in the next, the calls of the good RMUs, and the first tick of the next frame by their middle.
pub fn listeners_learn()
    ensures { ListenersLearn }
{}

/// A listener that has decided waits up to the first tick of its first frame, whatever it hears,
/// and with that it begins to follow.
pub fn listeners_wait()
    ensures { ListenersWait }
{}
