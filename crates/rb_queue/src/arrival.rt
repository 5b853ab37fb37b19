//! An arrival that is pending.
ghost use Rattle.std.specs.Prelude.{◌≡◌, ◌≤◌};
ghost use Rattle.rb_queue.specs.Waiting.{comes, event_with};
ghost use Rattle.rb_queue.specs.Waiting.Ready.{Comes};
ghost use Rattle.rb_queue.specs.Scanning.{comes_before};

use arrayvec::ArrayVec;
use rb_base::{Event, EventKind, NodeName};
use rb_frame::Spelling;
use std::marker::Model;

/// What comes to a node: the time at which it is due, in reference units, its sender's number and
/// its bytes.
#[derive(Drop)]
pub struct Arrival {
    time: u64,
    spelling: Spelling,
    from: u8,
}

impl Model for Arrival {
    ghost use Rattle.rb_rules.specs.Hearing.{Coming};

    ghost Value = { Coming };

    ghost view = { λ a. record { time = a.time; from = a.from; bytes = a.spelling } };
}

impl Arrival {
    /// What comes at this time, in reference units, from the sender of this number.
    #[inline(always)]
    pub fn new(time: u64, from: u8, bytes: ArrayVec<u8, 32>) -> Arrival
        ensures { result ≡ record { time = time; from = from; bytes = bytes.items } }
    {
        Arrival::of(time, from, Spelling::of(bytes.as_slice()))
    }

    /// What comes at this time, in reference units, from the sender of this number, as its bytes.
    #[inline(always)]
    pub fn of(time: u64, from: u8, bytes: Spelling) -> Arrival
        ensures { result ≡ record { time = time; from = from; bytes = bytes } }
    {
        Arrival {
            time,
            spelling: bytes,
            from,
        }
    }

    /// The arrival at another time, in reference units.
    #[inline(always)]
    pub fn at(&self, time: u64) -> Arrival
        ensures { result ≡ record self.now { time = time } }
    {
        Arrival {
            time,
            spelling: self.spelling,
            from: self.from,
        }
    }

    /// The time at which it is due, in reference units.
    #[inline(always)]
    pub fn time(&self) -> u64
        ensures { result ≡ self.now.time }
    {
        self.time
    }

    /// The number of its sender.
    #[inline(always)]
    pub fn from(&self) -> u8
        ensures { result ≡ self.now.from }
    {
        self.from
    }

    /// The arrival's bytes, kept as numbers.
    #[inline(always)]
    pub fn spelling(&self) -> &Spelling
        ensures { result.now ≡ self.now.bytes }
    {
        &self.spelling
    }

    /// The arrival's bytes, in the form in which an event holds them.
    pub fn held(&self) -> ArrayVec<u8, 32>
        ensures { result.items ≡ self.now.bytes }
    {
        self.spelling.held()
    }

    // The arrival, as an event of the node.
    pub(crate) fn event(&self, node: NodeName) -> Event
        ensures { result ≡ event_with node (Comes 0 self.now) }
    {
        let kind = EventKind::Arrive {
            from: self.from,
            bytes: self.held(),
        };
        Event {
            node,
            quiet: 0,
            kind,
        }
    }

    // The number of its sender.
    pub(crate) fn source(&self) -> u16
        ensures value { result ≡ self.now.from }
        ensures small { result ≤ 255 }
    {
        u16::from(self.from)
    }

    pub(crate) fn comes(&self, time: u64, source: u16) -> bool
        ensures { result ≡ comes time source self.now }
    {
        self.source() == source && self.time == time
    }

    // Whether it comes at an earlier time than the other, or at that time from a lower source.
    #[inline(always)]
    pub(crate) fn comes_before(&self, other: &Arrival) -> bool
        ensures { result ≡ comes_before self.now other.now }
    {
        self.time < other.time || (self.time == other.time && self.from < other.from)
    }
}
