//! Writing a text, or the line of a refusal.
ghost use Rattle.rb_program.specs.Outside.{RefusesWith, WritesText};
ghost use Rattle.rb_run.specs.Seen.{sink_over};

use crate::status::Status;
use arrayvec::ArrayString;
use rb_outside::{Failed, Sink, write_all, write_line};

/// Writes a text. `Done`: all is written. `WriteFault`: the sink failed; what it took is a first
/// part of the text.
pub fn write_text<K: Sink>(text: &str, output: &mut K) -> Status
    ensures { WritesText text.now result (sink_over K.held K.faults output.old output.new) }
{
    match write_all(output, text.as_bytes()) {
        Ok(()) => Status::Done,
        Err(Failed) => Status::WriteFault,
    }
}

/// Refuses an input by a line that says why. `Refused`: the line is written. `WriteFault`: the sink
/// failed; what it took is a first part of the line.
pub fn refuse_with<K: Sink, const N: usize>(line: &ArrayString<N>, output: &mut K) -> Status
    ensures { RefusesWith line.now.bytes result
        (sink_over K.held K.faults output.old output.new) }
{
    match write_line(output, line) {
        Ok(()) => Status::Refused,
        Err(Failed) => Status::WriteFault,
    }
}
