//! What the program says of itself.
ghost use Rattle.std.specs.Prelude.{◌≡◌};
ghost use Rattle.rb_picture.specs.Answers.{TextAnswers};
ghost use Rattle.rb_picture.specs.Pages.{help_text, page_text};

use crate::status::Status;
use rb_flags::Flag;
use rb_outside::{Failed, Sink, write_all};

const HELP: &'static str = "\
Usage: robus_picture [FIRST LAST] < REPORT > PICTURE
Draws a run of a fault-tolerant broadcast bus from the report of robus run.

words          what is written
none           all frames in panels; from 13 whole frames on an overview
FIRST LAST     panels of the frames from one number to the other
--help, -h     this page; nothing is read
--version      the name and the version; nothing is read

Input: a report, at most 67108864 bytes. Output: one SVG document.
Status: 0 done, 2 unknown words, 3 input refused, 4 input too long,
5 reading failed, 6 writing failed, 7 out of memory,
8 arguments could not be read.

Example: robus run < examples/late_onset.toml | robus_picture > run.svg
Manual: docs/robus_picture.md, or man robus_picture
";

#[tactic(auto, unfolding(crate::specs::Pages::help_text))]
fn help_text() -> &'static str
    ensures { result.now ≡ help_text }
{
    HELP
}

fn page_text(flag: Flag) -> &'static str
    ensures { result.now ≡ page_text flag }
{
    match flag {
        Flag::Help | Flag::ShortHelp => help_text(),
        Flag::Version => "robus_picture 1.0\n",
    }
}

/// Writes what the flag asks for.
pub(crate) fn write_page<K: Sink>(flag: Flag, output: &mut K) -> Status
    ensures { TextAnswers K.held K.faults output.old output.new result Status.Done (page_text flag) }
{
    match write_all(output, page_text(flag).as_bytes()) {
        Ok(()) => Status::Done,
        Err(Failed) => Status::WriteFault,
    }
}
