//! Laws of groups: the value that a group of replicas has at every good port; and of the lines of
//! each slot's record, from which ports have it. Each law is the contract of a function that does
//! nothing.
#![tactic(auto)]

ghost use Rattle.rb_laws_groups.specs.Laws.{FramesHaveASchedule, GroupsAgree, MidStaysBetween, MostFindsTheWord};
ghost use Rattle.rb_laws_groups.specs.Lines.{RecordsAreRight};

/// Each slot's record of a run has no lines, or one line for each BIU that is good in the slot, all
/// with one sender and one value. If the sender is good and has a table, the value is the word that
/// was handed to it last, or the scenario's word if none was.
pub fn records_are_right()
    ensures { RecordsAreRight }
{}

/// BIUs that are good up to the end of the data slots of a frame find equal values for each group
/// in it, with both voters and every set of members. After a breach this is so of what was
/// delivered before it.
pub fn groups_agree()
    ensures { GroupsAgree }
{}

/// In a frame whose data slots are served without a breach, and in which a BIU is good up to their
/// end, all good nodes hold one schedule.
pub fn frames_have_a_schedule()
    ensures { FramesHaveASchedule }
{}

/// In such a frame, if the members that own a slot and offer a word as good owners outnumber the
/// other members that own one, the voter `most` finds this word at each such BIU.
pub fn most_finds_the_word()
    ensures { MostFindsTheWord }
{}

/// In such a frame, if the good owners among the members outnumber the other members that own a
/// slot, the voter `mid` finds a word at each such BIU, one between the least and the greatest of
/// those that the good owners offer.
pub fn mid_stays_between()
    ensures { MidStaysBetween }
{}
