//! A pending event that is kept as it was pushed.
ghost use Rattle.std.specs.Prelude.{◌≡◌, ◌≤◌};
ghost use Rattle.rb_queue.specs.Queued.{is_of, is_sent_between, source_of};

use rb_base::{Event, EventKind};

/// An event and the time at which it is due, in reference units.
#[derive(Drop)]
pub struct Pending {
    pub time: u64,
    pub event: Event,
}

impl Pending {
    // The number of its sender, or 256 for a tick.
    pub(crate) fn source(&self) -> u16
        ensures value { result ≡ source_of self.now.event.kind }
        ensures small { result ≤ 256 }
    {
        match &self.event.kind {
            EventKind::Arrive { from, .. } => u16::from(*from),
            EventKind::Tick { .. } => 256,
        }
    }

    pub(crate) fn is_of(&self, time: u64, source: u16) -> bool
        ensures { result ≡ is_of time source self.now }
    {
        self.source() == source && self.time == time
    }

    // Whether it comes at the time from one of the sources from `first` on and before `end`.
    pub(crate) fn is_between(&self, time: u64, first: u16, end: u16) -> bool
        ensures { result ≡ is_sent_between time first end self.now }
    {
        let source = self.source();
        first <= source && source < end && self.time == time
    }

    // The event as it was pushed.
    pub(crate) fn event(&self) -> Event
        ensures { result ≡ self.now.event }
    {
        let kind = match &self.event.kind {
            EventKind::Arrive { from, bytes } => EventKind::Arrive {
                from: *from,
                bytes: bytes.clone().unwrap(),
            },
            EventKind::Tick { word, wanted } => EventKind::Tick {
                word: *word,
                wanted: *wanted,
            },
        };
        Event {
            node: self.event.node,
            quiet: self.event.quiet,
            kind,
        }
    }
}
