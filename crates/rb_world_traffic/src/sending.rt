//! Messages on their way.
ghost use Rattle.std.specs.Prelude.{◌≡◌, ◌<◌, ◌^◌, slice_get};
ghost use Rattle.rb_base.specs.Nodes.{has, other};
ghost use Rattle.rb_rules.specs.Lawful.{kind_of};
ghost use Rattle.rb_rules.specs.Links.{delay_of, name_of};
ghost use Rattle.rb_link.specs.Rows.{IsRow};
ghost use Rattle.rb_world_traffic.specs.Arriving.{HaveRoom, coming_to, lanes_with, number_of};
ghost use Rattle.rb_world_traffic.specs.Departing.{CanDepart, Sends, place_of};

use crate::arriving::{number_of, receiver};
use rb_base::{NodeName, NodeSet, Place, Rmu};
use rb_clock::Clock;
use rb_frame::Spelling;
use rb_link::Delays;
use rb_queue::Arrival;
use rb_rules::{Message, Version};
use rb_world_agenda::Agenda;

/// A message that a node sends at a tick of its own, in the frame that it is in.
#[derive(Clone, Copy, Debug, PartialEq, Eq)]
pub struct Departure {
    pub from: NodeName,
    pub frame: u32,
    pub tick: u64,
    pub message: Message,
}

// What a node sends: at a time, in reference units, and with the header of a place.
#[derive(Clone, Copy)]
struct Transmission {
    from: NodeName,
    time: u64,
    place: Place,
}

// The delay that the row has for the node with this number, if it has one.
#[inline(always)]
fn delay_at(row: &[u32], i: u8) -> Option<u32>
    ensures { result ≡ slice_get row.now i }
{
    row.get(usize::from(i)).copied()
}

// The delay to the node of the other kind with this number. It is looked up if the row has none. It
// is the short cut "row of delays" of docs/PERFORMANCE.md.
#[inline(always)]
fn delay_in(row: &[u32], delays: &Delays, from: NodeName, i: u8, place: Place) -> u32
    requires { IsRow delays.now from place row.now }
    ensures { result ≡ delay_of delays.now from (name_of (other (kind_of from)) i) place }
{
    match delay_at(row, i) {
        Some(delay) => delay,
        None => delays.delay(from, receiver(from, i), place),
    }
}

// The place that the message's header names.
#[inline(always)]
fn place_in(departure: &Departure) -> Place
    ensures { result ≡ place_of departure.now }
{
    Place {
        frame: departure.frame,
        slot: departure.message.slot,
        stage: departure.message.stage,
    }
}

// A message that leaves at a time comes to each of these nodes of the other kind, later by its
// delay.
#[inline(always)]
fn spread(
    agenda: &mut Agenda,
    delays: &Delays,
    departure: &Departure,
    time: u64,
    bytes: &Spelling,
    running: u16,
)
    requires room { HaveRoom (other (kind_of departure.now.from)) running agenda.old }
    requires time { time < 2 ^ 53 }
    ensures { agenda.new ≡ lanes_with (other (kind_of departure.now.from))
        (coming_to delays.now (record { from = departure.now.from; time = time; place = place_of departure.now }) bytes.now)
        (has running) agenda.old }
{
    let place = place_in(departure);
    let row = delays.row(departure.from, place);
    let message = Arrival::of(0, number_of(departure.from), *bytes);
    match departure.from {
        NodeName::Biu(i) => {
            let from = NodeName::Biu(i);
            let sent = Transmission { from, time, place };
            spread_from(agenda, delays, sent, row, &message, running);
        }
        NodeName::Rmu(i) => {
            let from = NodeName::Rmu(i);
            let sent = Transmission { from, time, place };
            spread_from(agenda, delays, sent, row, &message, running);
        }
    }
}

// Sends the message to each node of the other kind that is in `running`, by the row of delays and
// the message as all get it. If it is called for a BIU or an RMU alone, the kind of the receivers
// is known when it is compiled.
#[inline(always)]
fn spread_from(
    agenda: &mut Agenda,
    delays: &Delays,
    sent: Transmission,
    row: &[u32],
    message: &Arrival,
    running: u16,
)
    requires row { IsRow delays.now sent.from sent.place row.now }
    requires sender { message.now.from ≡ number_of sent.from }
    requires room { HaveRoom (other (kind_of sent.from)) running agenda.old }
    requires time { sent.time < 2 ^ 53 }
    ensures { agenda.new ≡ lanes_with (other (kind_of sent.from))
        (coming_to delays.now sent message.now.bytes) (has running) agenda.old }
{
    let mut left = NodeSet::<Rmu>::from_bits(running);
    while let Some(id) = left.pop_first() {
        let i = id.index();
        let node = receiver(sent.from, i);
        let delay = delay_in(row, delays, sent.from, i, sent.place);
        agenda.push_like(node, sent.time + u64::from(delay), message);
    }
}

/// Puts a message of a good node into the lanes of the nodes of the other kind that still run, one
/// bit of `running` for each. It comes to each at the time of the sending tick and the delay of the
/// link, and all get the same bytes. `clock` is the sender's.
#[inline(always)]
pub fn send(
    agenda: &mut Agenda,
    clock: &Clock,
    delays: &Delays,
    version: Version,
    departure: &Departure,
    running: u16,
)
    requires departure { CanDepart departure.now }
    requires room { HaveRoom (other (kind_of departure.now.from)) running agenda.old }
    ensures { Sends clock.now delays.now version departure.now running agenda.old agenda.new }
{
    let bytes = Spelling::of_message(version, &departure.message);
    let time = clock.at(departure.tick);
    spread(agenda, delays, departure, time, &bytes, running);
}
