//! What crosses a bridge of two buses. Each law is the contract of a function that does nothing.
#![tactic(auto)]

ghost use Rattle.rb_laws_bridge.specs.Laws.{EarlierRecordsStay, FramesAreToldInOrder, FramesBeginInOrder, FramesGoByTheEarlier, GoodBiusTellTheBus, HandInsAreCarried, LaterHandInsTellNothing, OtherBiusTellNothing, WordsCross};

/// In every scenario, what is handed in for frames after this one changes nothing that a port
/// delivers in this frame, nor a breach in it.
pub fn later_hand_ins_tell_nothing()
    ensures { LaterHandInsTellNothing }
{}

/// What is said of a frame of a bridge, and what it carries over, depends only on what was handed
/// in up to the frame's start.
pub fn frames_go_by_the_earlier()
    ensures { FramesGoByTheEarlier }
{}

/// What is handed in for a frame is what the frame before it carries over, by the records of both
/// buses with all that is handed in.
pub fn hand_ins_are_carried()
    ensures { HandInsAreCarried }
{}

/// In every scenario, once a record of a later frame is given, all is told of a frame: what its
/// ports deliver, and a breach in it.
pub fn frames_are_told_in_order()
    ensures { FramesAreToldInOrder }
{}

/// In every lawful scenario, the first record of a later frame is the one with which the next frame
/// begins; or it is the last of the run, and no BIU is good at that frame's start, so nothing is
/// handed in there.
pub fn frames_begin_in_order()
    ensures { FramesBeginInOrder }
{}

/// In every scenario, the first records of a run, up to a frame, stay the first, whatever is handed
/// in for later frames. If the last of them ends the run, they stay all.
pub fn earlier_records_stay()
    ensures { EarlierRecordsStay }
{}

/// In a slot that is complete without a breach, each BIU that is good there delivers what the bus
/// does.
pub fn good_bius_tell_the_bus()
    ensures { GoodBiusTellTheBus }
{}

/// A BIU that is not good in a slot delivers nothing in it, so it carries 0.
pub fn other_bius_tell_nothing()
    ensures { OtherBiusTellNothing }
{}

/// If no breach of either bus comes up to a frame's end: if the pairs whose BIU on a bank owns a
/// data slot in it and is good in all of it, and whose BIU across the bridge was good in all of the
/// frame before, outnumber the other pairs whose BIU there owns one, each BIU of that bank that is
/// good in the whole frame finds the word that the other bus delivered in its carried slot of the
/// frame before.
pub fn words_cross()
    ensures { WordsCross }
{}
