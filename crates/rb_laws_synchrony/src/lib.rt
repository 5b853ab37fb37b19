//! Laws of synchrony: how near good nodes begin their frames and slots, and that what they send
//! each other comes in time. Each law is the contract of a function that does nothing.
#![tactic(auto)]

ghost use Rattle.rb_laws_synchrony.specs.Laws.{EpochsStayNear, SlotsBeginNear, WindowsAreTimely};
ghost use Rattle.rb_laws_synchrony.specs.OneFrame.{OneFrameKeepsTime};
ghost use Rattle.rb_laws_synchrony.specs.OneStage.{MiddlesAreNear, MiddlesLieAmongGoodCalls};

/// In one stage of the sync slot, whatever nodes that are not good do: if good sources call a good
/// node between two reference times, and the node accepts more from them than from others, the
/// middle that it keeps is not before the first of these times and at most a longest tick after the
/// second, and it accuses none of them directly.
pub fn middles_lie_among_good_calls()
    ensures { MiddlesLieAmongGoodCalls }
{}

/// If two good nodes also accept near calls from each source, their middles differ by at most `dmax
/// - dmin` and a longest tick.
pub fn middles_are_near()
    ensures { MiddlesAreNear }
{}

/// One frame, from `p` to `p`, in a feasible plan, and whatever nodes that are not good do. If good
/// nodes begin the frame within `p`, if those of unlike kinds trust each other, do not accuse each
/// other directly before the sync slot, and get each other's calls within the delays, if in each
/// stage of the sync slot they outnumber the others from which something is accepted, and if no
/// node of one of the kinds is asymmetric, then every window is timely, good nodes begin the next
/// frame within `p`, and those of unlike kinds still trust each other and do not accuse each other
/// directly.
pub fn one_frame_keeps_time()
    ensures { OneFrameKeepsTime }
{}

/// Good nodes begin each frame at most `p` reference units apart. A frame takes a good node all
/// ticks of its windows, and fewer than `max(z, v + c)` more.
pub fn epochs_stay_near()
    ensures { EpochsStayNear }
{}

/// Good nodes send at ticks of their own windows, and what they hear of each other comes in the
/// receiver's window, up to the window of the first breach, and in it too.
pub fn windows_are_timely()
    ensures { WindowsAreTimely }
{}

/// Good nodes begin a slot at most `p + 2 * r * o` reference units apart, `o` being the offset of
/// its first tick in the frame.
pub fn slots_begin_near()
    ensures { SlotsBeginNear }
{}
