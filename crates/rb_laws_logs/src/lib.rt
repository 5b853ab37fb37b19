//! What a node is given in a run, and what becomes of it when it is given to the node once more.
//! Each law is the contract of a function that does nothing.
#![tactic(auto)]

ghost use Rattle.rb_laws_logs.specs.Laws.{ALogTellsTheReport, OneListIsGiven, ReplayIsTheReport};

/// In every lawful scenario whose faulty nodes do what the entries of a document list, each node is
/// given one list of events: the run in which always the first due event is taken ends, and nothing
/// is given after its end.
pub fn one_list_is_given()
    ensures { OneListIsGiven }
{}

/// A node that is good throughout a run without a breach, and is given once more what it was given
/// in the run, tells once more what the report of the run tells of it: the first ticks of its
/// frames, the times left out, whom it holds convicted, what it delivers, and at the end the number
/// of frames.
pub fn replay_is_the_report()
    ensures { ReplayIsTheReport }
{}

/// The log of the node is right too, if faulty nodes do what the entries of a document list: the
/// header and what the writer gives of these events are a log that a reader accepts, and a replay
/// of what it says tells once more what the report tells of the node.
pub fn a_log_tells_the_report()
    ensures { ALogTellsTheReport }
{}
