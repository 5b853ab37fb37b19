//! The report of a run, written a line at a time.
ghost use Rattle.std.specs.Prelude.{◌≡◌};
ghost use Rattle.rb_world_book.specs.Records.{record_of};
ghost use Rattle.rb_outside.specs.Writing.{Writes};
ghost use Rattle.rb_report.specs.Texts.{block_text, deliveries_text};
ghost use Rattle.rb_run.specs.Reports.{convictions_text, epochs_text, newest_with, ports_text, turn_text};

use crate::telling::Teller;
use rb_outside::{Failed, Sink, write_line};
use rb_report::{breach_line, convicted_line, delivery_line, end_line, epoch_line, port_line};
use rb_world_book::{FrameRecord, NodeLine, PortLine, SlotRecord, Turn};

// Writes the first tick of each node.
fn write_epochs<K: Sink>(frame: u32, nodes: &[NodeLine], output: &mut K) -> Result<(), Failed>
    ensures { Writes K.held K.faults output.old output.new result (epochs_text frame nodes.now) }
{
    for node in nodes {
        write_line(
            output,
            &epoch_line(frame, node.node, node.tick, Some(node.time)),
        )?;
    }
    Ok(())
}

// Writes whom each node holds convicted.
fn write_convicted<K: Sink>(frame: u32, nodes: &[NodeLine], output: &mut K) -> Result<(), Failed>
    ensures { Writes K.held K.faults output.old output.new result
        (convictions_text frame nodes.now) }
{
    for node in nodes {
        write_line(
            output,
            &convicted_line(frame, node.node, node.biu, node.rmu),
        )?;
    }
    Ok(())
}

// Writes each port.
fn write_ports<K: Sink>(frame: u32, ports: &[PortLine], output: &mut K) -> Result<(), Failed>
    ensures { Writes K.held K.faults output.old output.new result (ports_text frame ports.now) }
{
    for port in ports {
        write_line(output, &port_line(frame, port.biu, port.state, port.losses))?;
    }
    Ok(())
}

// Writes the block of a frame.
#[tactic(auto, using(rb_outside::proofs::Known::writes_in_turn))]
fn write_block<K: Sink>(block: &FrameRecord, output: &mut K) -> Result<(), Failed>
    ensures { Writes K.held K.faults output.old output.new result
        (block_text block.now.frame block.now.nodes.items block.now.ports.items) }
{
    write_epochs(block.frame, block.nodes.as_slice(), output)?;
    write_convicted(block.frame, block.nodes.as_slice(), output)?;
    write_ports(block.frame, block.ports.as_slice(), output)
}

// Writes what was delivered in a slot.
fn write_deliveries<K: Sink>(slot: &SlotRecord, output: &mut K) -> Result<(), Failed>
    ensures { Writes K.held K.faults output.old output.new result
        (deliveries_text slot.now.frame slot.now.slot slot.now.lines.items) }
{
    for line in slot.lines.as_slice() {
        write_line(
            output,
            &delivery_line(
                slot.frame,
                slot.slot,
                line.receiver,
                line.sender,
                line.value,
            ),
        )?;
    }
    Ok(())
}

// Writes what a turn says, the newest block before it being that of frame `newest`.
fn write_turn<K: Sink>(turn: &Turn, newest: u32, output: &mut K) -> Result<(), Failed>
    ensures { Writes K.held K.faults output.old output.new result
        (turn_text newest (record_of turn.now)) }
{
    match turn {
        Turn::Quiet => Ok(()),
        Turn::Frame(block) => write_block(block, output),
        Turn::Slot(slot) => write_deliveries(slot, output),
        Turn::Ended => write_line(output, &end_line(newest)),
        Turn::Breach(place, cause) => write_line(output, &breach_line(*place, *cause)),
    }
}

/// The number of the newest block after a turn, which was that of frame `newest` before it.
pub fn newest_block(newest: u32, turn: &Turn) -> u32
    ensures { result ≡ newest_with newest (record_of turn.now) }
{
    match turn {
        Turn::Frame(block) => block.frame,
        _ => newest,
    }
}

/// Tells the report of a run. The newest block so far is that of frame `newest`, which is 0 at the
/// start.
#[derive(Clone, Copy, Debug, PartialEq, Eq)]
pub struct Report {
    pub newest: u32,
}

impl Teller for Report {
    ghost use Rattle.std.specs.Prelude.{◌≡◌, refl};
    ghost use Rattle.rb_report.specs.Texts.{report_of};
    ghost use Rattle.rb_run.specs.Reports.{newest_after};

    ghost says = { λ _ _ records. report_of records };

    ghost has_told = { λ report _ records. report.newest ≡ newest_after 0 records };

    ghost says_nothing = { λ _ _. refl };

    fn tell<K: Sink>(&mut self, turn: &Turn, output: &mut K) -> Result<(), Failed> {
        write_turn(turn, self.newest, output)?;
        self.newest = newest_block(self.newest, turn);
        Ok(())
    }
}
