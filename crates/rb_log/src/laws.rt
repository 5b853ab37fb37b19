//! What holds of writing and reading together.
ghost use Rattle.rb_log.specs.Laws.{ReadIsSpelled, WrittenIsRead};

/// A header and what the writer gives for any events that can happen at the node is a log, which a
/// reader takes, and it says the same numbers, the same node and the same events, tick by tick.
pub fn written_is_read()
    ensures { WrittenIsRead }
{}

/// What a reader takes as a log is exactly what spells one: a header of either form, records of any
/// kind in any order, and the end, with the same numbers, node and events.
pub fn read_is_spelled()
    ensures { ReadIsSpelled }
{}
