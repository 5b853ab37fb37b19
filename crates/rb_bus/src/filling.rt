//! Writes a record into the host's struct.
ghost use Rattle.std.specs.Prelude.{◌≡◌, ◌≤◌, Some, length, map, take};
ghost use Rattle.rb_rules.specs.Book.{Record};
ghost use Rattle.rb_world_book.specs.Records.{record_of};
ghost use Rattle.rb_bus.specs.Shown.{Shows, ShowsBreach, ShowsFrame, ShowsSlot};
ghost use Rattle.rb_bus.specs.Shown.{delivery_shown, node_shown, port_shown};

use crate::record::{
    HostDelivery, HostNode, HostPort, HostRecord, cause_number, delivery_shown, node_shown,
    port_shown,
};
use rb_base::Place;
use rb_rules::{Cause, NodeLine, PortLine, SlotLine};
use rb_world::{FrameRecord, SlotRecord, Turn};

// Writes the nodes to the front of `shown`, and returns how many there are.
fn put_nodes(lines: &[NodeLine], shown: &mut [HostNode; 32]) -> u8
    requires { length lines.now ≤ 32 }
    ensures count { result ≡ length lines.now }
    ensures front { take result shown.new ≡ map node_shown lines.now }
{
    for i in 0..lines.len() {
        shown[i] = node_shown(&lines[i]);
    }
    lines.len() as u8
}

// Writes the ports to the front of `shown`, and returns how many there are.
fn put_ports(lines: &[PortLine], shown: &mut [HostPort; 16]) -> u8
    requires { length lines.now ≤ 16 }
    ensures count { result ≡ length lines.now }
    ensures front { take result shown.new ≡ map port_shown lines.now }
{
    for i in 0..lines.len() {
        shown[i] = port_shown(&lines[i]);
    }
    lines.len() as u8
}

// Writes the deliveries to the front of `shown`, and returns how many there are.
fn put_deliveries(lines: &[SlotLine], shown: &mut [HostDelivery; 16]) -> u8
    requires { length lines.now ≤ 16 }
    ensures count { result ≡ length lines.now }
    ensures front { take result shown.new ≡ map delivery_shown lines.now }
{
    for i in 0..lines.len() {
        shown[i] = delivery_shown(&lines[i]);
    }
    lines.len() as u8
}

// Writes the record of a frame.
fn show_frame(frame: &FrameRecord, shown: &mut HostRecord)
    ensures { ShowsFrame shown.new frame.now.frame frame.now.nodes.items frame.now.ports.items }
{
    shown.what = 1;
    shown.frame = frame.frame;
    shown.node_count = put_nodes(frame.nodes.as_slice(), &mut shown.nodes);
    shown.port_count = put_ports(frame.ports.as_slice(), &mut shown.ports);
}

// Writes the record of a slot.
fn show_slot(slot: &SlotRecord, shown: &mut HostRecord)
    ensures { ShowsSlot shown.new slot.now.frame slot.now.slot slot.now.lines.items }
{
    shown.what = 2;
    shown.frame = slot.frame;
    shown.slot = slot.slot;
    shown.delivery_count = put_deliveries(slot.lines.as_slice(), &mut shown.deliveries);
}

// Writes a breach.
fn show_breach(place: Place, cause: Cause, shown: &mut HostRecord)
    ensures { ShowsBreach shown.new place cause }
{
    shown.what = 4;
    shown.frame = place.frame;
    shown.slot = place.slot;
    shown.stage = place.stage;
    shown.cause = cause_number(cause);
}

/// Writes the record of a turn. Fields that the record does not have stay as they were.
pub(crate) fn show(turn: &Turn, shown: &mut HostRecord)
    ensures { (r : Record) → record_of turn.now ≡ Some r → Shows shown.new r }
{
    match turn {
        Turn::Quiet => {}
        Turn::Frame(frame) => show_frame(frame, shown),
        Turn::Slot(slot) => show_slot(slot, shown),
        Turn::Ended => shown.what = 3,
        Turn::Breach(place, cause) => show_breach(*place, *cause, shown),
    }
}
