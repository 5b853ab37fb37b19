//! What a passive listener tells of a log.
ghost use Rattle.rb_run.specs.Seen.{sink_over};
ghost use Rattle.rb_top.specs.Commands.{IsNotForListeners, IsOverheard};
ghost use Rattle.rb_top.specs.Inputs.{rmu_text};
ghost use Rattle.rb_program.specs.Outside.{RefusesWith};
ghost use Rattle.rb_top.specs.Serving.{TellsOfLog};

use crate::replaying::refuse_log;
use rb_log::LogReader;
use rb_outside::{Failed, Sink};
use rb_program::{Status, refuse_with};
use rb_replay::{is_biu, listen};
use rb_report::refused_line;

// Refuses a log that is not that of a BIU.
fn refuse_rmu<K: Sink>(output: &mut K) -> Status
    ensures { RefusesWith rmu_text result
        (sink_over K.held K.faults output.old output.new) }
{
    let line = refused_line(5, None, true);
    refuse_with(&line, output)
}

/// Gives the log that the bytes spell to a passive listener, from the tick of this number on, and
/// writes what that tells, or the line that says why they spell no log of a BIU.
pub(crate) fn listen_to<K: Sink>(bytes: &[u8], skip: u32, output: &mut K) -> Status
    ensures { TellsOfLog (IsOverheard skip) IsNotForListeners bytes.now result
        (sink_over K.held K.faults output.old output.new) }
{
    let log = match LogReader::open(bytes) {
        Ok(log) => log,
        Err(fault) => return refuse_log(fault, output),
    };
    if !is_biu(&log) {
        return refuse_rmu(output);
    }
    match listen(log, skip, output) {
        Ok(()) => Status::Done,
        Err(Failed) => Status::WriteFault,
    }
}
