//! Writing a log.
ghost use Rattle.std.specs.Prelude.{◌≡◌, ◌≤◌, ◌+◌, ◌++◌, ◌∷◌, [], List};
ghost use Rattle.arrayvec.specs.ArrayVec.{array_vec_len};
ghost use Rattle.byteorder.specs.Endian.{big_bytes};
ghost use Rattle.rb_base.specs.declared.event.Event.{Event};
ghost use Rattle.rb_log.specs.Writing.{HasBytes, bytes_with, gathered, ticks_given, ticks_with, waiting_with, written};

use arrayvec::ArrayVec;
use byteorder::{BigEndian, ByteOrder};
use rb_base::{Event, EventKind};
use std::marker::Model;

// Appends a number of four bytes.
fn push_number(bytes: &mut ArrayVec<u8, 64>, number: u32)
    requires { array_vec_len bytes.old ≤ 60 }
    ensures items { bytes.new.items ≡ bytes.old.items ++ big_bytes 4 number }
    ensures len { array_vec_len bytes.new ≡ array_vec_len bytes.old + 4 }
{
    let mut digits = [0; 4];
    BigEndian::write_u32(&mut digits, number);
    let Ok(()) = bytes.try_extend_from_slice(&digits) else {
        unreachable!()
    };
}

// The record of `ticks` gathered ticks, if there are any.
fn gathered(ticks: u32) -> ArrayVec<u8, 64>
    ensures items { result.items ≡ gathered ticks }
    ensures len { array_vec_len result ≤ 5 }
{
    let mut bytes = ArrayVec::new();
    if ticks > 0 {
        bytes.push(2);
        push_number(&mut bytes, ticks);
    }
    bytes
}

// The bytes that are complete with what happens, after `ticks` gathered ticks.
fn bytes_with(ticks: u32, kind: &EventKind) -> ArrayVec<u8, 64>
    ensures { result.items ≡ bytes_with ticks kind.now }
{
    match kind {
        EventKind::Tick { wanted: false, .. } => ArrayVec::new(),
        EventKind::Tick { word, .. } => {
            let mut bytes = gathered(ticks);
            bytes.push(1);
            push_number(&mut bytes, *word);
            bytes
        }
        EventKind::Arrive {
            from,
            bytes: message,
        } => {
            let mut bytes = gathered(ticks);
            bytes.push(3);
            bytes.push(*from);
            bytes.push(message.len() as u8);
            let Ok(()) = bytes.try_extend_from_slice(message.as_slice()) else {
                unreachable!()
            };
            bytes
        }
    }
}

// How many ticks wait after it.
fn waiting_with(ticks: u32, kind: &EventKind) -> u32
    requires { ticks ≤ 2147483648 }
    ensures { result ≡ waiting_with ticks kind.now }
{
    match kind {
        EventKind::Tick { wanted: false, .. } => ticks + 1,
        EventKind::Tick { .. } => 0,
        EventKind::Arrive { .. } => 0,
    }
}

// How many ticks it is.
fn ticks_with(kind: &EventKind) -> u32
    ensures value { result ≡ ticks_with kind.now }
    ensures most { result ≤ 1 }
{
    match kind {
        EventKind::Tick { .. } => 1,
        EventKind::Arrive { .. } => 0,
    }
}

/// Gives the bytes of a log behind its header, piece by piece.
#[derive(Drop)]
pub struct LogWriter {
    ticks: u32,
    waiting: u32,
}

impl Model for LogWriter {
    ghost use Rattle.std.specs.Prelude.{◌≤◌};
    ghost use Rattle.rb_log.specs.Writing.{Tally};

    ghost Value = { Tally };

    ghost view = { λ w. record { ticks = w.ticks; waiting = w.waiting } };

    ghost invariant = { λ w. (w.waiting ≤ w.ticks) × (w.ticks ≤ 2147483648) };
}

impl LogWriter {
    /// A writer that was given nothing yet.
    pub fn new() -> LogWriter
        ensures { result ≡ record { ticks = 0; waiting = 0 } }
    {
        LogWriter {
            ticks: 0,
            waiting: 0,
        }
    }

    /// The bytes that are complete with this event. A tick whose word was wanted and an arrival are
    /// complete at once, with the ticks that gathered before them; the event's quiet ticks, and a
    /// tick whose word was not wanted, wait. A log has at most 2^31 ticks, and a message that
    /// arrives has at least one byte.
    ///
    /// For a log that a reader takes, each sender is a node of the bus, and a tick whose word was
    /// not wanted has word 0.
    pub fn event(&mut self, event: &Event) -> ArrayVec<u8, 64>
        requires ticks { self.old.ticks + ticks_given event.now ≤ 2147483648 }
        requires bytes { HasBytes event.now.kind }
        ensures bytes { result.items
            ≡ bytes_with (self.old.waiting + event.now.quiet) event.now.kind }
        ensures written { (others : List Event)
            → written self.old.waiting (event.now ∷ others)
            ≡ result.items ++ written self.new.waiting others }
        ensures ticks { self.new.ticks ≡ self.old.ticks + ticks_given event.now }
    {
        let Event { quiet, kind, .. } = event;
        let ticks = self.waiting + *quiet;
        self.ticks += *quiet + ticks_with(kind);
        self.waiting = waiting_with(ticks, kind);
        bytes_with(ticks, kind)
    }

    /// The last bytes of the log: the ticks that still wait, and the end.
    pub fn end(&mut self) -> ArrayVec<u8, 64>
        ensures written { result.items ≡ written self.old.waiting [] }
        ensures ticks { self.new.ticks ≡ self.old.ticks }
        ensures waiting { self.new.waiting ≡ 0 }
    {
        let mut bytes = gathered(self.waiting);
        self.waiting = 0;
        bytes.push(4);
        bytes
    }
}
