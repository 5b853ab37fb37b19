//! Laws of a passive listener beside a run of the bus, from its first frame on. Each law is the
//! contract of a function that does nothing.
#![tactic(auto)]

ghost use Rattle.rb_laws_listener_follows.specs.Following.{ListenersFollowTheBus};
ghost use Rattle.rb_laws_listener_follows.specs.Laws.{FirstFramesBeginNear, RmusAreHeardInTime};
ghost use Rattle.std.specs.Prelude.{[]};
ghost use Rattle.rb_laws_listener_learns.specs.Beside.{decided, ear, two_frames};
ghost use Rattle.rb_laws_listener_follows.specs.Following.{DecidedListenersFollow, IsReachedWell};

/// An instance, computed: the frame after the one that the listener of `a_listener_beside_a_run` in
/// `rb_laws_listener_learns` learns begins before the first breach of the premise with the
/// listener.
pub fn a_frame_after_the_learned_one()
    ensures { IsReachedWell two_frames [] ear 1 decided.lesson.records 2 }
{}

/// A listener that begins a frame at most `p` reference units from each good node hears in its
/// window of each stage below the sync slot to which the run comes what good RMUs send in that
/// stage, and nothing else from those that are good in the next stage, too.
pub fn rmus_are_heard_in_time()
    ensures { RmusAreHeardInTime }
{}

/// If the learned frame comes to its end before the first breach of the premise with the listener,
/// the listener begins its first frame, the one after the learned one, at most `p` reference units
/// from each good node.
pub fn first_frames_begin_near()
    ensures { FirstFramesBeginNear }
{}

/// If the learned frame comes to its end before the first breach of the premise with the listener,
/// the listener follows the bus in each later frame that starts before that breach: it begins the
/// frame at most `p` reference units from each good node, and tells with that tick, and with no
/// other, that it begins and whom the good nodes convict. In each slot that comes before the breach
/// it closes its windows, with their last ticks and with no others, with the schedule and the
/// trusted nodes of the bus, and delivers what the bus does. Of the learned frame and earlier ones
/// it tells nothing.
pub fn decided_listeners_follow()
    ensures { DecidedListenersFollow }
{}

/// A listener that starts before the calls of the RMUs in a frame, beside a run that comes to those
/// of the next frame, decides by that next frame or an earlier one, at most the reach of a pass
/// after the last of these calls, if its ticks last so long. In each frame after the learned one
/// that starts before the first breach of the premise with the listener, it follows the bus, as
/// `decided_listeners_follow` says.
pub fn listeners_follow_the_bus()
    ensures { ListenersFollowTheBus }
{}
