//! The port of a BIU.
ghost use Rattle.std.specs.Prelude.{◌≡◌, ◌<◌, IfOk, count_by};
ghost use Rattle.rb_rules.specs.Ports.{PortState, delivered_to, fresh_port, losses_of, offered_at, word_in};
ghost use Rattle.rb_port.specs.Keeping.{HoldsPort, is_lost};

use crate::apps::Apps;
use circular_buffer::HeapCircularBuffer;
use rb_base::{Delivery, Heard, OutOfMemory};
use std::alloc::Global;
use std::marker::Model;

// How many of the latest deliveries are kept.
const KEPT: usize = 64;

/// The port of a BIU: which application it has, the state of that, and the latest 64 deliveries.
#[derive(Drop)]
pub struct Port {
    app: u8,
    state: u64,
    latest: HeapCircularBuffer<Delivery>,
}

impl Model for Port {
    ghost use Rattle.std.specs.Prelude.{◌≡◌, ◌<◌, ◌≤◌, length};
    ghost use Rattle.rb_port.specs.Keeping.{KeptPort};

    ghost Value = { KeptPort };

    ghost view = { λ p. record { app = p.app; state = p.state; latest = p.latest.items } };

    ghost invariant = { λ p. (p.app < 3) × (p.latest.capacity ≡ 64)
        × (length p.latest.items ≤ 64) };
}

fn word_in(value: Heard) -> Option<u32>
    ensures { result ≡ word_in value }
{
    match value {
        Heard::Word(word) => Some(word),
        Heard::Fault => None,
    }
}

fn is_lost(delivery: &Delivery) -> bool
    ensures { result ≡ is_lost delivery.now }
{
    match delivery.value {
        Heard::Word(_) => false,
        Heard::Fault => true,
    }
}

impl Port {
    /// A port with no deliveries. The application's number is below 3.
    pub fn new(alloc: Global, app: u8, state: u64) -> Result<Port, OutOfMemory>
        requires { app < 3 }
        ensures { IfOk result (λ port. HoldsPort port (fresh_port app state)) }
    {
        let latest = HeapCircularBuffer::with_capacity(alloc, KEPT)?;
        Ok(Port { app, state, latest })
    }

    /// The word that the application offers for the slot.
    pub fn offer(&self, apps: &Apps, slot: u16) -> u32
        ensures { (port : PortState) → HoldsPort self.now port → result ≡ offered_at port slot }
    {
        apps.offer(self.app, self.state, slot)
    }

    /// The application learns a delivery.
    pub fn deliver(&mut self, apps: &Apps, delivery: Delivery)
        ensures { (port : PortState) → HoldsPort self.old port
            → HoldsPort self.new (delivered_to port delivery.value) }
    {
        self.state = apps.learn(
            self.app,
            self.state,
            delivery.slot,
            delivery.sender,
            word_in(delivery.value),
        );
        self.latest.push_back(delivery);
    }

    /// The application's state.
    pub fn state(&self) -> u64
        ensures { (port : PortState) → HoldsPort self.now port → result ≡ port.state }
    {
        self.state
    }

    /// Sets the application's state, and changes nothing else.
    pub fn set(&mut self, state: u64)
        ensures { (port : PortState) → HoldsPort self.old port
            → HoldsPort self.new (record port { state = state }) }
    {
        self.state = state;
    }

    /// How many of the last 64 deliveries were Fault.
    pub fn losses(&self) -> u8
        ensures { (port : PortState) → HoldsPort self.now port → result ≡ losses_of port }
    {
        self.count_lost()
    }

    fn count_lost(&self) -> u8
        ensures { result ≡ count_by is_lost self.now.latest }
    {
        self.latest.iter().filter(|d| is_lost(d)).count() as u8
    }
}
