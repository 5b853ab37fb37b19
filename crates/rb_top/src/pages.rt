//! What the program says of itself.
ghost use Rattle.std.specs.Prelude.{◌≡◌};
ghost use Rattle.rb_run.specs.Seen.{sink_over};
ghost use Rattle.rb_top.specs.Pages.{help_text, page_text};
ghost use Rattle.rb_program.specs.Outside.{WritesText};

use rb_flags::Flag;
use rb_outside::Sink;
use rb_program::{Status, write_text};

const HELP: &'static str = "\
Usage: robus WORDS < INPUT > OUTPUT
Runs and checks scenarios of a fault-tolerant broadcast bus.

WORDS                INPUT     OUTPUT
run                  scenario  the report: frames, convictions, deliveries, end
check                scenario  both sides of the plan's seven inequalities
letters              scenario  the letters that BIUs receive whole
group most|mid MASK  scenario  what the good BIUs find for a group in each frame
record NODE          scenario  the log of all that the node is given
replay               log       the lines of the log's node, from its log alone
listen SKIP          log       the lines of a passive listener that hears the log
gen SEED FRAMES      none      the scenario generated from the seed
stress SEED FRAMES   none      four numbers of that scenario's run
spell HEX            none      the words that spell a letter
--help, -h           none      this page
--version            none      the program's name and version

Status: 0 done, 1 fault premise breached, 2 unknown words, 3 input refused,
4 input too long, 5 reading failed, 6 writing failed, 7 out of memory,
8 arguments could not be read.

Example: robus run < examples/one_silent_rmu.toml
Manual: docs/robus.md
";

const VERSION: &'static str = "robus 1.0\n";

// How the program is used.
#[tactic(auto, unfolding(crate::specs::Pages::help_text))]
fn help() -> &'static str
    ensures { result.now ≡ help_text }
{
    HELP
}

// What the flag asks for.
fn page_of(flag: Flag) -> &'static str
    ensures { result.now ≡ page_text flag }
{
    match flag {
        Flag::Help => help(),
        Flag::ShortHelp => help(),
        Flag::Version => VERSION,
    }
}

/// Writes what the flag asks for.
pub(crate) fn write_page<K: Sink>(flag: Flag, output: &mut K) -> Status
    ensures { WritesText (page_text flag) result
        (sink_over K.held K.faults output.old output.new) }
{
    write_text(page_of(flag), output)
}
