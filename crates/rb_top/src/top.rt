//! The top call.
ghost use Rattle.std.specs.Prelude.{◌≡◌, IsTrue};
ghost use Rattle.rb_run.specs.Seen.{drive_over, sink_over, source_over};
ghost use Rattle.rb_top.specs.declared.form.Form.{Form};
ghost use Rattle.rb_top.specs.Answers.{Completes, Ends, FailsToWrite, IsUnread, Refuses, Untouched, UsageExactly};
ghost use Rattle.rb_top.specs.Promise.{KeepsItsPromise};
ghost use Rattle.rb_program.specs.Statuses.{HasEnded};
ghost use Rattle.rb_top.specs.Words.{AskFor};

use crate::form::form_of;
use crate::serving::serve;
use rb_group::Voters;
use rb_outside::{Sink, Source};
use rb_port::Apps;
use rb_program::Status;
use rb_world::Drive;
use std::alloc::Global;

/// The program as a call: it does what the words ask for, and writes to the sink, a line at a time.
///
/// | words | what it does |
/// |---|---|
/// | `run` | reads a scenario, runs it and writes the report of the drive's turns |
/// | `check` | reads a scenario and writes both sides of the seven inequalities of its plan |
/// | `gen SEED FRAMES` | writes the text of the generated scenario; reads nothing |
/// | `stress SEED FRAMES` | runs the generated scenario and writes four numbers of the drive's
/// turns; reads nothing |
/// | `record NODE` | reads a scenario, runs it by first choices and writes the log of all that the
/// node is given |
/// | `replay` | reads a log, gives it to its node and writes what that tells |
/// | `listen SKIP` | reads the log of a BIU, gives it to a passive listener from tick SKIP on and
/// writes what that tells |
/// | `spell HEX` | writes the words that spell a letter of 1 to 255 bytes, each byte being two
/// digits in lower case; reads nothing |
/// | `letters` | reads a scenario, runs it and writes each letter that a port receives whole in the
/// drive's turns |
/// | `group most MASK`, `group mid MASK` | reads a scenario, runs it and writes what the good BIUs
/// find for a group, by majority or as the middle word, in each complete frame of the drive's turns
/// |
/// | `--help`, `-h` | writes a page with these words and the statuses, at once; reads nothing |
/// | `--version` | writes the name of the program and its version; reads nothing |
///
/// The members of a group are the bits of MASK, 1 to 65535. `Done`: all is written. `Breach`: the
/// run of `run`, `stress`, `record`, `letters` or `group` ended with a breach of the fault premise;
/// `run`, `letters` and `group` have written what they tell up to it, `record` the log, `stress`
/// nothing. `Usage`: the words are of no known form; nothing was read or written. `Refused`: the
/// input breaks a rule, has no such node or member, is no log, or for `listen` is that of an RMU;
/// one line with the code says why. `TooLong`: the source gave more than 4,194,304 bytes of a
/// scenario, or 67,108,864 of a log. `ReadFault`, `WriteFault`: the source or the sink failed; what
/// a failing sink took is a first part of what was due. `OutOfMemory`: an allocation failed before
/// anything was written.
pub fn run_robus<S: Source, K: Sink, D: Drive>(
    alloc: Global,
    words: &[String],
    input: &mut S,
    output: &mut K,
    apps: &Apps,
    drive: &mut D,
    voters: &Voters,
) -> Status
    ensures usage { UsageExactly result words.now }
    ensures untouched { Untouched words.now result input.old input.new output.old output.new
        drive.old drive.new }
    ensures ended { HasEnded result → (form : Form) → AskFor words.now form
        → Ends form result (source_over S.left S.faults input.old input.new)
        (sink_over K.held K.faults output.old output.new)
        (drive_over D.is_plain D.told drive.old drive.new) }
    ensures promise { IsTrue (D.is_plain drive.old) → HasEnded result → (form : Form)
        → AskFor words.now form
        → KeepsItsPromise form result (source_over S.left S.faults input.old input.new)
        (sink_over K.held K.faults output.old output.new) }
    ensures refused { result ≡ Status.Refused → (form : Form) → AskFor words.now form
        → Refuses form (source_over S.left S.faults input.old input.new)
        (sink_over K.held K.faults output.old output.new) }
    ensures unread { (form : Form) → AskFor words.now form
        → IsUnread form result (source_over S.left S.faults input.old input.new) }
    ensures write_fault { result ≡ Status.WriteFault → (form : Form) → AskFor words.now form
        → FailsToWrite form (source_over S.left S.faults input.old input.new)
        (sink_over K.held K.faults output.old output.new)
        (drive_over D.is_plain D.told drive.old drive.new) }
    ensures complete { (form : Form) → AskFor words.now form
        → Completes form result (source_over S.left S.faults input.old input.new)
        (sink_over K.held K.faults output.old output.new) }
{
    match form_of(words) {
        Some(form) => serve(alloc, form, input, output, apps, drive, voters),
        None => Status::Usage,
    }
}
