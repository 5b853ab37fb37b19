//! The letters of a run, told turn by turn.
ghost use Rattle.std.specs.Prelude.{◌≡◌, OnOk, []};
ghost use Rattle.rb_world_book.specs.Records.{record_of};
ghost use Rattle.rb_long_run.specs.Letters.{HasHeard};
ghost use Rattle.rb_long_run.specs.Texts.{open_with, turn_text};
ghost use Rattle.rb_outside.specs.Writing.{Writes};

use crate::Receivers;
use rb_outside::{Failed, Sink, write_line};
use rb_report::{breach_line, end_line};
use rb_run::{Teller, newest_block};
use rb_world_book::Turn;

// Hears what a turn says was delivered, and writes what it says, the newest block before it being
// that of frame `newest`.
fn write_turn<K: Sink>(
    turn: &Turn,
    newest: u32,
    receivers: &mut Receivers,
    output: &mut K,
) -> Result<(), Failed>
    ensures writes { Writes K.held K.faults output.old output.new result
        (turn_text newest receivers.old (record_of turn.now)) }
    ensures heard { OnOk result (receivers.new ≡ open_with receivers.old (record_of turn.now)) }
{
    match turn {
        Turn::Slot(slot) => receivers.write_slot(
            slot.frame,
            slot.slot,
            slot.lines.as_slice(),
            output,
        ),
        Turn::Ended => write_line(output, &end_line(newest)),
        Turn::Breach(place, cause) => write_line(output, &breach_line(*place, *cause)),
        _ => Ok(()),
    }
}

/// Tells the letters of a run: a line for each letter that a port receives whole, by slot and
/// receiver, and then how the run ends.
#[derive(Drop)]
pub struct Letters {
    pub newest: u32,
    pub receivers: Receivers,
}

impl Letters {
    /// No letter is open anywhere, and no turn was told.
    pub fn new() -> Letters
        ensures { HasHeard [] result }
    {
        Letters {
            newest: 0,
            receivers: Receivers::new(),
        }
    }
}

impl Teller for Letters {
    ghost use Rattle.std.specs.Prelude.{refl};
    ghost use Rattle.rb_long_run.specs.Letters.{HasHeard};
    ghost use Rattle.rb_long_run.specs.Reports.{letters_report};

    ghost says = { λ _ _ records. letters_report records };

    ghost has_told = { λ letters _ records. HasHeard records letters };

    ghost says_nothing = { λ _ _. refl };

    fn tell<K: Sink>(&mut self, turn: &Turn, output: &mut K) -> Result<(), Failed> {
        write_turn(turn, self.newest, &mut self.receivers, output)?;
        self.newest = newest_block(self.newest, turn);
        Ok(())
    }
}
