//! The top call of a bridge.
ghost use Rattle.std.specs.Prelude.{◌≡◌, Bool, IsTrue};
ghost use Rattle.rb_flags.specs.declared.Flag.{Flag};
ghost use Rattle.rb_bridge.specs.Crossing.{ArePlain, drives_over};
ghost use Rattle.rb_run.specs.Seen.{sink_over, source_over};
ghost use Rattle.rb_bridge_top.specs.declared.form.Form.TheVariants.{Run, Show};
ghost use Rattle.rb_bridge_top.specs.Answers.{Answers, Completes, Ends, FailsToWrite, Refuses, Untouched, UsageExactly};
ghost use Rattle.rb_bridge_top.specs.Inputs.{IsUnread};
ghost use Rattle.rb_bridge_top.specs.Pages.{page_text};
ghost use Rattle.rb_bridge_top.specs.Promise.{KeepsTheBridge};
ghost use Rattle.rb_program.specs.Outside.{WritesText};
ghost use Rattle.rb_program.specs.Statuses.{HasEnded, RunsNothing, WritesNothing};
ghost use Rattle.rb_bridge_top.specs.Words.{AskFor};

use crate::form::{Form, form_of};
use crate::pages::write_page;
use crate::reading::read_document;
use crate::running::report;
use rb_outside::{Sink, Source};
use rb_port::Apps;
use rb_program::Status;
use rb_world::Drive;
use std::alloc::Global;

// Reads a bridge, runs it and writes what is said of it.
fn serve<S: Source, K: Sink, D: Drive>(
    alloc: Global,
    input: &mut S,
    output: &mut K,
    apps: &Apps,
    left: &mut D,
    right: &mut D,
) -> Status
    ensures answers { (both : Bool) → ArePlain both (D.is_plain left.old) (D.is_plain right.old)
        → Answers both result (source_over S.left S.faults input.old input.new)
        (sink_over K.held K.faults output.old output.new)
        (drives_over D.is_plain D.told left.old left.new right.old right.new) }
    ensures unwritten { WritesNothing result → output.new ≡ output.old }
    ensures not_driven { RunsNothing result → (left.new ≡ left.old) × (right.new ≡ right.old) }
{
    match read_document(alloc, input, output) {
        Ok(bridge) => report(alloc, bridge, output, apps, left, right),
        Err(status) => status,
    }
}

/// The program `robus_bridge` as a call: it does what the words ask for. `left` is asked for the
/// turns of the left bus, and `right` for those of the right one.
///
/// | words | what it does |
/// |---|---|
/// | `run` | reads a bridge of two buses, runs both and writes what their receivers find, a line at
/// a time |
/// | `--help`, `-h` | writes a page with these words and the statuses, at once; reads nothing |
/// | `--version` | writes the name of the program and its version; reads nothing |
///
/// `Done`: all is written. `Breach`: the bridge ended with a breach of the fault premise on one of
/// its buses, and all up to it is written. `Usage`: the words are others; nothing was read or
/// written. `Refused`: the input says no bridge, or one of its scenarios is refused, or a number is
/// out of range; one line with the code says why. `TooLong`: the source gave more than 4,194,304
/// bytes. `ReadFault`, `WriteFault`: the source or the sink failed; what a failing sink took is a
/// first part of what was due. `OutOfMemory`: an allocation failed before anything was written. The
/// bridge is this project's own.
pub fn run_bridge<S: Source, K: Sink, D: Drive>(
    alloc: Global,
    words: &[String],
    input: &mut S,
    output: &mut K,
    apps: &Apps,
    left: &mut D,
    right: &mut D,
) -> Status
    ensures usage { UsageExactly result words.now }
    ensures untouched { Untouched words.now result input.old input.new output.old output.new
        left.old left.new right.old right.new }
    ensures shown { (flag : Flag) → AskFor words.now (Show flag)
        → WritesText (page_text flag) result
        (sink_over K.held K.faults output.old output.new) }
    ensures promise { AskFor words.now Run
        → IsTrue (D.is_plain left.old) → IsTrue (D.is_plain right.old) → HasEnded result
        → KeepsTheBridge result (source_over S.left S.faults input.old input.new)
        (sink_over K.held K.faults output.old output.new) }
    ensures ended { AskFor words.now Run
        → (both : Bool) → ArePlain both (D.is_plain left.old) (D.is_plain right.old)
        → HasEnded result → Ends both result (source_over S.left S.faults input.old input.new)
        (sink_over K.held K.faults output.old output.new)
        (drives_over D.is_plain D.told left.old left.new right.old right.new) }
    ensures refused { result ≡ Status.Refused
        → Refuses (source_over S.left S.faults input.old input.new)
        (sink_over K.held K.faults output.old output.new) }
    ensures unread { AskFor words.now Run
        → IsUnread result (source_over S.left S.faults input.old input.new) }
    ensures write_fault { AskFor words.now Run
        → (both : Bool) → ArePlain both (D.is_plain left.old) (D.is_plain right.old)
        → result ≡ Status.WriteFault
        → FailsToWrite both (source_over S.left S.faults input.old input.new)
        (sink_over K.held K.faults output.old output.new)
        (drives_over D.is_plain D.told left.old left.new right.old right.new) }
    ensures complete { AskFor words.now Run
        → (both : Bool) → ArePlain both (D.is_plain left.old) (D.is_plain right.old)
        → Completes both result (source_over S.left S.faults input.old input.new)
        (sink_over K.held K.faults output.old output.new) }
{
    match form_of(words) {
        Some(Form::Run) => serve(alloc, input, output, apps, left, right),
        Some(Form::Show(flag)) => write_page(flag, output),
        None => Status::Usage,
    }
}
