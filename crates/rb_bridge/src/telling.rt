//! What is said of a frame of a bridge.
ghost use Rattle.std.specs.Prelude.{◌≡◌, ◌++◌, ℕ, None, option_map};
ghost use Rattle.rb_outside.specs.Causes.{HasCause};
ghost use Rattle.rb_outside.specs.Writing.{Writes};
ghost use Rattle.rb_world_book.specs.Records.{record_of};
ghost use Rattle.rb_report.specs.Report.{end_text};
ghost use Rattle.rb_rules_bridge.specs.Bridges.{Bridge};
ghost use Rattle.rb_rules_bridge.specs.Texts.{frame_text, receivers_text, side_breach_text};
ghost use Rattle.rb_rules_bridge.specs.declared.bank.Bank.TheVariants.{Left, Right};
ghost use Rattle.rb_bridge.specs.Refusals.{bank_of};
ghost use Rattle.rb_bridge.specs.Sides.{break_by};
ghost use Rattle.rb_bridge.specs.Crossing.{Finds, FindBoth, shown, told_text};

use crate::lines::side_breach_line;
use crate::receivers::write_receivers;
use crate::side::Side;
use rb_base::Place;
use rb_outside::{Failed, Sink, write_line};
use rb_report::end_line;
use rb_rules::Cause;
use rb_world_book::Turn;

/// A breach of the fault premise on the left or the right bus.
#[derive(Clone, Copy, Debug, PartialEq, Eq)]
pub struct Breach {
    pub right: bool,
    pub place: Place,
    pub cause: Cause,
}

/// The breach of a frame that a turn of a bus tells, if it does.
pub(crate) fn breach_at(turn: &Turn, right: bool, frame: u32) -> Option<Breach>
    ensures { option_map shown result ≡ break_by (bank_of right) frame (record_of turn.now) }
{
    match turn {
        Turn::Breach(place, cause) => {
            if place.frame == frame {
                Some(Breach {
                    right,
                    place: *place,
                    cause: *cause,
                })
            } else {
                None
            }
        }
        _ => None,
    }
}

// Writes the line of a breach.
fn write_breach<K: Sink>(breach: &Breach, output: &mut K) -> Result<(), Failed>
    ensures { Writes K.held K.faults output.old output.new result
        (side_breach_text (bank_of breach.now.right) breach.now.place breach.now.cause) }
{
    let line = side_breach_line(breach.right, breach.place, breach.cause);
    write_line(output, &line)
}

/// Writes the last line of a bridge without a breach.
pub(crate) fn write_end<K: Sink>(frames: u32, output: &mut K) -> Result<(), Failed>
    ensures { Writes K.held K.faults output.old output.new result (end_text frames) }
{
    let line = end_line(frames);
    write_line(output, &line)
}

// Writes what the receivers of a bus find.
fn write_side<K: Sink>(side: &Side, right: bool, output: &mut K) -> Result<(), Failed>
    ensures writes { (b : Bridge) → Finds b (bank_of right) side.now.passage.ports.frame side.now
        → Writes K.held K.faults output.old output.new result
        (receivers_text b side.now.passage.ports.frame (bank_of right)) }
    ensures cause { HasCause (K.faults output.old) (K.faults output.new) result }
{
    write_receivers(&side.passage.ports, right, &side.scope, output)
}

// Writes what the receivers of both buses find in a frame.
fn write_both<K: Sink>(left: &Side, right: &Side, output: &mut K) -> Result<(), Failed>
    ensures writes { (b : Bridge) (frame : ℕ) → FindBoth b frame left.now right.now
        → Writes K.held K.faults output.old output.new result
        (receivers_text b frame Left ++ receivers_text b frame Right) }
    ensures cause { HasCause (K.faults output.old) (K.faults output.new) result }
{
    write_side(left, false, output)?;
    write_side(right, true, output)
}

// Writes what is said of a frame without a breach. Nothing has crossed in the first.
fn write_frame<K: Sink>(frame: u32, left: &Side, right: &Side, output: &mut K) -> Result<(), Failed>
    ensures writes { (b : Bridge) → FindBoth b frame left.now right.now
        → Writes K.held K.faults output.old output.new result (frame_text b frame) }
    ensures cause { HasCause (K.faults output.old) (K.faults output.new) result }
{
    if frame == 0 {
        return Ok(());
    }
    write_both(left, right, output)
}

/// Writes what is said of a frame: its breach, or what the receivers of both buses find.
pub(crate) fn tell<K: Sink>(
    breach: Option<Breach>,
    frame: u32,
    left: &Side,
    right: &Side,
    output: &mut K,
) -> Result<(), Failed>
    ensures writes { (b : Bridge) → (breach ≡ None → FindBoth b frame left.now right.now)
        → Writes K.held K.faults output.old output.new result
        (told_text b frame (option_map shown breach)) }
    ensures cause { HasCause (K.faults output.old) (K.faults output.new) result }
{
    match breach {
        Some(found) => write_breach(&found, output),
        None => write_frame(frame, left, right, output),
    }
}
