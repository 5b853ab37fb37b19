//! What holds of every log that is recorded.
ghost use Rattle.rb_record.specs.Laws.{OneLog, RecordedIsRead};

/// In every lawful scenario whose faulty nodes do what its entries list, the log of what a node of
/// the bus is given in the run is one that a reader takes, and it says the numbers of the bus, the
/// node and those events.
pub fn recorded_is_read()
    ensures { RecordedIsRead }
{}

/// What a node is given in the run of a scenario is one list of events, so it has one log.
pub fn one_log()
    ensures { OneLog }
{}
