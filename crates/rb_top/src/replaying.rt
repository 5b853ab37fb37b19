//! What the node of a log tells.
ghost use Rattle.std.specs.Prelude.{◌≡◌};
ghost use Rattle.rb_run.specs.Seen.{sink_over};
ghost use Rattle.rb_top.specs.Commands.{IsReplay};
ghost use Rattle.rb_top.specs.Inputs.{BreaksLog, fault_text, log_code, log_place};
ghost use Rattle.rb_program.specs.Outside.{RefusesWith};
ghost use Rattle.rb_top.specs.Serving.{TellsOfLog};

use rb_log::{LogReader, LogRefusal};
use rb_outside::{Failed, Sink};
use rb_program::{Status, refuse_with};
use rb_replay::replay;
use rb_report::refused_line;

// The code of a log's fault.
fn code_of(fault: LogRefusal) -> u8
    ensures { result ≡ log_code fault }
{
    match fault {
        LogRefusal::BadMagic => 1,
        LogRefusal::BadField(_) => 2,
        LogRefusal::Truncated(_) => 3,
        LogRefusal::AfterEnd(_) => 4,
    }
}

// The place of a log's fault, if it has one.
fn place_of(fault: LogRefusal) -> Option<u64>
    ensures { result ≡ log_place fault }
{
    match fault {
        LogRefusal::BadMagic => None,
        LogRefusal::BadField(place) | LogRefusal::Truncated(place) | LogRefusal::AfterEnd(place) =>
            Some(place),
    }
}

/// Refuses the log for its fault.
pub(crate) fn refuse_log<K: Sink>(fault: LogRefusal, output: &mut K) -> Status
    ensures { RefusesWith (fault_text fault) result
        (sink_over K.held K.faults output.old output.new) }
{
    let line = refused_line(code_of(fault), place_of(fault), true);
    refuse_with(&line, output)
}

/// Gives the log that the bytes spell to its node and writes what it tells, or the line that says
/// why they spell none.
pub(crate) fn replay_bytes<K: Sink>(bytes: &[u8], output: &mut K) -> Status
    ensures { TellsOfLog IsReplay BreaksLog bytes.now result
        (sink_over K.held K.faults output.old output.new) }
{
    match LogReader::open(bytes) {
        Ok(log) => match replay(log, output) {
            Ok(()) => Status::Done,
            Err(Failed) => Status::WriteFault,
        },
        Err(fault) => refuse_log(fault, output),
    }
}
