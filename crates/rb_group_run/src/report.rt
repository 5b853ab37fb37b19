//! What turns say of a group, written a line at a time.
ghost use Rattle.std.specs.Prelude.{◌≡◌, ℕ, ◌<◌, List, [], if◌then◌else◌};
ghost use Rattle.rb_base.specs.declared.values.Delivery.{Delivery};
ghost use Rattle.rb_world_book.specs.Records.{record_of};
ghost use Rattle.rb_outside.specs.Causes.{HasCause};
ghost use Rattle.rb_outside.specs.Writing.{Writes};
ghost use Rattle.rb_report.specs.Report.{group_text};
ghost use Rattle.rb_rules.specs.Book.{Record};
ghost use Rattle.rb_rules.specs.Goodness.{Scenario};
ghost use Rattle.rb_group_run.specs.Holding.{HoldPortions, HoldsFrame, IsScopeOf};
ghost use Rattle.rb_group_run.specs.Replies.{ending_in, frame_text, port_text, turn_text, value_found};

use crate::asked::Query;
use crate::ports::{Ports, find, frame_or};
use rb_outside::{Failed, Sink, write_line};
use rb_report::{breach_line, end_line, group_line};
use rb_world_book::Turn;

// Writes the value that a port finds.
fn write_value<K: Sink>(
    ports: &Ports,
    port: u8,
    query: &Query<'_>,
    output: &mut K,
) -> Result<(), Failed>
    requires { port < 16 }
    ensures writes { (told : ℕ → List Delivery)
        → HoldPortions query.now.asked.now.members told ports.now.groups
        → Writes K.held K.faults output.old output.new result
        (group_text ports.now.frame port (value_found query.now.asked.now told port)) }
    ensures cause { HasCause (K.faults output.old) (K.faults output.new) result }
{
    let value = find(&ports.groups, port, query.voters, query.asked);
    write_line(output, &group_line(ports.frame, port, value))
}

// Writes it, if the BIU is good in the last data slot of the frame.
fn write_port<K: Sink>(
    ports: &Ports,
    port: u8,
    query: &Query<'_>,
    output: &mut K,
) -> Result<(), Failed>
    requires { port < 16 }
    ensures writes { (sc : Scenario) (told : ℕ → List Delivery) → IsScopeOf sc query.now.scope.now
        → HoldPortions query.now.asked.now.members told ports.now.groups
        → Writes K.held K.faults output.old output.new result
        (port_text sc ports.now.frame (value_found query.now.asked.now told) port) }
    ensures cause { HasCause (K.faults output.old) (K.faults output.new) result }
{
    if query.scope.is_good_at_last(ports.frame, port) {
        write_value(ports, port, query, output)
    } else {
        Ok(())
    }
}

// Writes the values of the frame that is over.
fn write_frame<K: Sink>(ports: &Ports, query: &Query<'_>, output: &mut K) -> Result<(), Failed>
    ensures writes { (sc : Scenario) (told : ℕ → List Delivery) → IsScopeOf sc query.now.scope.now
        → HoldPortions query.now.asked.now.members told ports.now.groups
        → Writes K.held K.faults output.old output.new result
        (frame_text sc ports.now.frame (value_found query.now.asked.now told)) }
    ensures cause { HasCause (K.faults output.old) (K.faults output.new) result }
{
    for port in 0..query.scope.shape.biu() {
        write_port(ports, port, query, output)?;
    }
    Ok(())
}

// Writes them, if the frame is over.
fn write_if_over<K: Sink>(
    over: bool,
    ports: &Ports,
    query: &Query<'_>,
    output: &mut K,
) -> Result<(), Failed>
    ensures writes { (sc : Scenario) (told : ℕ → List Delivery) → IsScopeOf sc query.now.scope.now
        → HoldPortions query.now.asked.now.members told ports.now.groups
        → Writes K.held K.faults output.old output.new result
        (if over then frame_text sc ports.now.frame (value_found query.now.asked.now told) else []) }
    ensures cause { HasCause (K.faults output.old) (K.faults output.new) result }
{
    if over {
        write_frame(ports, query, output)
    } else {
        Ok(())
    }
}

// Writes the last line, if the turn is the end of the run.
fn write_ending<K: Sink>(turn: &Turn, frames: u32, output: &mut K) -> Result<(), Failed>
    ensures { Writes K.held K.faults output.old output.new result
        (ending_in frames (record_of turn.now)) }
{
    match turn {
        Turn::Ended => write_line(output, &end_line(frames)),
        Turn::Breach(place, cause) => write_line(output, &breach_line(*place, *cause)),
        _ => Ok(()),
    }
}

// Writes what a turn says: with the first turn of a later frame, for each BIU that is good in the
// last data slot of this frame, the value that it finds; and `end` or `breach`. The ports must be
// as all turns before this one left them. A breach leaves the values of its frame out. Each write
// asks for the rest of one line. `Failed` is the answer only if a write failed; a first part of
// the text has then been written.
pub(crate) fn write_turn<K: Sink>(
    turn: &Turn,
    ports: &Ports,
    query: &Query<'_>,
    output: &mut K,
) -> Result<(), Failed>
    ensures writes { (sc : Scenario) (records : List Record) → IsScopeOf sc query.now.scope.now
        → HoldsFrame sc.frames query.now.asked.now records ports.now
        → Writes K.held K.faults output.old output.new result
        (turn_text sc query.now.asked.now records (record_of turn.now)) }
    ensures cause { HasCause (K.faults output.old) (K.faults output.new) result }
{
    let frames = query.scope.frames;
    let over = ports.frame < frame_or(turn, frames, ports.frame);
    write_if_over(over, ports, query, output)?;
    write_ending(turn, frames, output)
}
