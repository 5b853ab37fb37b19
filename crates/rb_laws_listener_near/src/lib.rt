//! Laws of a receiver of the RMUs beside the BIUs: as long as the fault premise holds with it as
//! one more receiver, it keeps up with the bus. Each law is the contract of a function that does
//! nothing.
#![tactic(auto)]

ghost use Rattle.rb_laws_listener_near.specs.Laws.{FramesBeginNear};

/// A receiver that takes the calls of stage 2 of the sync slot as a BIU does begins the next frame
/// at most `p` reference units from each good node.
pub fn frames_begin_near()
    ensures { FramesBeginNear }
{}
