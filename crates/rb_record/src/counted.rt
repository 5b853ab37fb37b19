//! A writer of a log that knows how much room the log has.
ghost use Rattle.std.specs.Prelude.{◌≡◌, ◌+◌, ◌++◌, ◌∷◌, ◌↔◌, [], List, IsTrue};
ghost use Rattle.rb_base.specs.declared.event.Event.{Event as Given};
ghost use Rattle.rb_log.specs.Writing.{HasBytes, ticks_given, written};
ghost use Rattle.rb_record.specs.Recording.{HasRoom, fresh_log};

use arrayvec::ArrayVec;
use rb_base::{Event, EventKind, MOST_TICKS};
use rb_log::LogWriter;
use std::marker::Model;

// How many ticks an event gives.
fn ticks_given(event: &Event) -> u64
    ensures { result ≡ ticks_given event.now }
{
    let quiet = u64::from(event.quiet);
    match event.kind {
        EventKind::Tick { .. } => quiet + 1,
        EventKind::Arrive { .. } => quiet,
    }
}

// Whether there is a byte in what arrives.
fn has_bytes(kind: &EventKind) -> bool
    ensures { IsTrue result ↔ HasBytes kind.now }
{
    match kind {
        EventKind::Tick { .. } => true,
        EventKind::Arrive { bytes, .. } => !bytes.is_empty(),
    }
}

/// A writer of a log, which counts the ticks that it is given.
#[derive(Drop)]
pub(crate) struct CountedLog {
    writer: LogWriter,
    ticks: u64,
}

impl Model for CountedLog {
    ghost use Rattle.std.specs.Prelude.{◌≡◌, ◌≤◌};
    ghost use Rattle.rb_log.specs.Writing.{Tally};

    ghost Value = { Tally };

    ghost view = { λ l. l.writer };

    ghost invariant = { λ l. (l.ticks ≡ l.writer.ticks) × (l.ticks ≤ 2147483648) };
}

impl CountedLog {
    /// One that was given nothing yet.
    pub(crate) fn new() -> CountedLog
        ensures { result ≡ fresh_log }
    {
        CountedLog {
            writer: LogWriter::new(),
            ticks: 0,
        }
    }

    /// Whether the log has room for an event: with it it has at most 2^31 ticks, and what arrives
    /// has bytes.
    pub(crate) fn has_room(&self, event: &Event) -> bool
        ensures { IsTrue result ↔ HasRoom self.now.ticks event.now }
    {
        ticks_given(event) <= MOST_TICKS - self.ticks && has_bytes(&event.kind)
    }

    /// The bytes that are complete with this event, as `LogWriter::event` gives them.
    pub(crate) fn event(&mut self, event: &Event) -> ArrayVec<u8, 64>
        requires { HasRoom self.old.ticks event.now }
        ensures written { (others : List Given)
            → written self.old.waiting (event.now ∷ others)
            ≡ result.items ++ written self.new.waiting others }
        ensures ticks { self.new.ticks ≡ self.old.ticks + ticks_given event.now }
    {
        self.ticks += ticks_given(event);
        self.writer.event(event)
    }

    /// The last bytes of the log.
    pub(crate) fn end(&mut self) -> ArrayVec<u8, 64>
        ensures { result.items ≡ written self.old.waiting [] }
    {
        self.writer.end()
    }
}
