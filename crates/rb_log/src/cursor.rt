//! Going through the records of a log.
ghost use Rattle.std.specs.Prelude.{◌≡◌, ◌≤◌, ◌<◌, ◌+◌, ◌++◌, [], true, false, drop, length, min, option_map, slice_get};
ghost use Rattle.rb_log.specs.Cursor.{IsSound, events_behind, events_left, quiet_in_front, shown};
ghost use Rattle.rb_log.specs.Entries.{HasTicks, events_of, is_end, size_of};

use crate::entry::{Entry, entry_at, is_end, size_of, ticks_of, zeros_of};

/// What a node was given.
#[derive(Clone, Copy, Debug)]
pub enum LogEvent<'a> {
    /// A tick and its word, which is 0 if the node asked for none.
    Tick(u32),
    /// The arrival of a message of 1 to 32 bytes from node `from` of the other kind.
    Arrive { from: u8, bytes: &'a [u8] },
}

/// What is left of a log that was looked at.
#[derive(Drop)]
pub(crate) struct Cursor<'a> {
    pub bytes: &'a [u8],
    /// Where the next record begins, and how many ticks the log has before it.
    pub place: usize,
    pub ticks: u32,
    /// How many ticks with word 0 are left of the record before it.
    pub zeros: u32,
    /// The number of nodes that may have sent what arrives.
    pub senders: u8,
}

impl<'a> Cursor<'a> {
    // Passes the next record and gives it; the end stays where it is.
    fn take_entry(&mut self) -> Entry
        requires { IsSound self.old }
        ensures sound { IsSound self.new }
        ensures events { events_behind self.old
            ≡ events_of self.old.bytes.now self.old.place result ++ events_behind self.new }
        ensures end { is_end result ≡ true → events_behind self.old ≡ [] }
        ensures zeros { self.new.zeros ≡ self.old.zeros }
        ensures bytes { self.new.bytes ≡ self.old.bytes }
        ensures inside { self.old.place + size_of result ≤ length self.old.bytes.now }
        ensures some { HasTicks result }
    {
        let Ok(entry) = entry_at(self.senders, self.bytes, self.place) else {
            unreachable!()
        };
        if is_end(entry) {
            return entry;
        }
        self.place += size_of(entry);
        self.ticks += ticks_of(entry);
        entry
    }

    /// The next event. `None` if and only if none is left.
    pub fn next(&mut self) -> Option<LogEvent<'a>>
        requires { IsSound self.old }
        ensures sound { IsSound self.new }
        ensures event { option_map shown result ≡ slice_get (events_left self.old) 0 }
        ensures rest { events_left self.new ≡ drop 1 (events_left self.old) }
    {
        if self.zeros > 0 {
            self.zeros -= 1;
            return Some(LogEvent::Tick(0));
        }
        let first = self.place + 3;
        match self.take_entry() {
            Entry::Tick(word) => Some(LogEvent::Tick(word)),
            Entry::Ticks(count) => {
                self.zeros = count - 1;
                Some(LogEvent::Tick(0))
            }
            Entry::Arrival { from, size } => Some(LogEvent::Arrive {
                from,
                bytes: &self.bytes[first..first + usize::from(size)],
            }),
            Entry::End => None,
        }
    }

    // Passes what is left of the ticks with word 0 of the record before, at most `most` of them,
    // and gives their number.
    fn pass_zeros(&mut self, most: u64) -> u64
        requires { IsSound self.old }
        ensures sound { IsSound self.new }
        ensures most { result ≤ most }
        ensures rest { events_left self.new ≡ drop result (events_left self.old) }
        ensures front { quiet_in_front (events_left self.old)
            ≡ result + quiet_in_front (events_left self.new) }
        ensures all { result < most → self.new.zeros ≡ 0 }
        ensures bytes { self.new.bytes ≡ self.old.bytes }
        ensures place { self.new.place ≡ self.old.place }
    {
        let passed = most.min(u64::from(self.zeros));
        self.zeros -= passed as u32;
        passed
    }

    // Begins the next record if it is of ticks with word 0, and says whether it is.
    fn begin_zeros(&mut self) -> bool
        requires sound { IsSound self.old }
        requires none { self.old.zeros ≡ 0 }
        ensures sound { IsSound self.new }
        ensures same { events_left self.new ≡ events_left self.old }
        ensures further { result ≡ true → self.old.place < self.new.place }
        ensures none { result ≡ false → quiet_in_front (events_left self.old) ≡ 0 }
        ensures bytes { self.new.bytes ≡ self.old.bytes }
    {
        let Ok(entry) = entry_at(self.senders, self.bytes, self.place) else {
            unreachable!()
        };
        let zeros = zeros_of(entry);
        if zeros == 0 {
            return false;
        }
        self.place += size_of(entry);
        self.ticks += zeros;
        self.zeros = zeros;
        true
    }

    /// Passes the ticks with word 0 that are in a row at the front, at most `most` of them, and
    /// gives their number. A record of many ticks is passed in one step.
    pub fn skip(&mut self, most: u64) -> u64
        requires { IsSound self.old }
        ensures sound { IsSound self.new }
        ensures value { result ≡ min most (quiet_in_front (events_left self.old)) }
        ensures rest { events_left self.new ≡ drop result (events_left self.old) }
    {
        let mut passed = 0;
        loop {
            passed += self.pass_zeros(most - passed);
            if passed == most {
                return passed;
            }
            if !self.begin_zeros() {
                return passed;
            }
        }
    }
}
