//! What the program says of itself.
ghost use Rattle.std.specs.Prelude.{◌≡◌};
ghost use Rattle.rb_run.specs.Seen.{sink_over};
ghost use Rattle.rb_program.specs.Outside.{WritesText};
ghost use Rattle.rb_bridge_top.specs.Pages.{help_text, page_text};

use rb_flags::Flag;
use rb_outside::Sink;
use rb_program::{Status, write_text};

const HELP: &'static str = "\
Usage: robus_bridge WORD < INPUT > OUTPUT
Carries words between two fault-tolerant broadcast buses.

WORD        INPUT   OUTPUT
run         bridge  the words that cross, in each frame
--help, -h  none    this page
--version   none    the program's name and version

Status: 0 done, 1 fault premise breached on a bus, 2 unknown words,
3 input refused, 4 input too long, 5 reading failed, 6 writing failed,
7 out of memory, 8 arguments could not be read.

Example: robus_bridge run < examples/bridges/carried_words.toml
Manual: docs/robus_bridge.md
";

const VERSION: &'static str = "robus_bridge 1.0\n";

// How the program is used.
#[tactic(auto, unfolding(crate::specs::Pages::help_text))]
fn help() -> &'static str
    ensures { result.now ≡ help_text }
{
    HELP
}

// What the flag asks for.
fn page_of(flag: Flag) -> &'static str
    ensures { result.now ≡ page_text flag }
{
    match flag {
        Flag::Help => help(),
        Flag::ShortHelp => help(),
        Flag::Version => VERSION,
    }
}

/// Writes what the flag asks for.
pub(crate) fn write_page<K: Sink>(flag: Flag, output: &mut K) -> Status
    ensures { WritesText (page_text flag) result
        (sink_over K.held K.faults output.old output.new) }
{
    write_text(page_of(flag), output)
}
