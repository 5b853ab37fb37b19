//! What the ports of a bus receive.
ghost use Rattle.std.specs.Prelude.{◌≡◌, ◌≤◌, ℕ, IfSome, None, length, replicate, OnOk};
ghost use Rattle.arrayvec.specs.ArrayVec.{ArrayVec as Letter};
ghost use Rattle.rb_long_run.specs.Hearing.{letter_of, lines_text, with_line, with_lines};
ghost use Rattle.rb_long_run.specs.Reports.{given_text};
ghost use Rattle.rb_long.specs.Delivered.{is_named};
ghost use Rattle.rb_long.specs.Readers.{letter_in};
ghost use Rattle.rb_outside.specs.Writing.{Writes};

use arrayvec::ArrayVec;
use rb_long::LongReceiver;
use rb_outside::{Failed, Sink, write_line};
use rb_report::letter_line;
use rb_rules::SlotLine;
use std::marker::Model;

// Whether its BIUs may be on a bus.
fn is_named(line: &SlotLine) -> bool
    ensures { result ≡ is_named line.now }
{
    line.receiver < 16 && line.sender < 16
}

// The receiver of a delivery hears it, and gives the letter whose last word it is.
fn hear(all: &mut [LongReceiver; 16], line: &SlotLine) -> Option<ArrayVec<u8, 255>>
    ensures given { letter_in result ≡ letter_of all.old line.now }
    ensures some { IfSome result (λ (l : Letter ℕ). 1 ≤ length l.items) }
    ensures after { all.new ≡ with_line all.old line.now }
{
    if !is_named(line) {
        return None;
    }
    all[usize::from(line.receiver)].hear(line.sender, line.value)
}

// Writes the letter that is given with a delivery, if one is.
fn write_letter<K: Sink>(
    frame: u32,
    slot: u16,
    line: &SlotLine,
    letter: Option<ArrayVec<u8, 255>>,
    output: &mut K,
) -> Result<(), Failed>
    requires { IfSome letter (λ (l : Letter ℕ). 1 ≤ length l.items) }
    ensures { Writes K.held K.faults output.old output.new result
        (given_text frame slot line.now (letter_in letter)) }
{
    match letter {
        Some(letter) => write_line(
            output,
            &letter_line(frame, slot, line.receiver, line.sender, letter.as_slice()),
        ),
        None => Ok(()),
    }
}

// Hears deliveries of a slot one after another, and writes the letters that they give.
fn write_given<K: Sink>(
    frame: u32,
    slot: u16,
    lines: &[SlotLine],
    all: &mut [LongReceiver; 16],
    output: &mut K,
) -> Result<(), Failed>
    ensures writes { Writes K.held K.faults output.old output.new result
        (lines_text frame slot all.old lines.now) }
    ensures heard { OnOk result (all.new ≡ with_lines all.old lines.now) }
{
    for line in lines {
        let letter = hear(all, line);
        write_letter(frame, slot, line, letter, output)?;
    }
    Ok(())
}

/// The receivers of a bus, one at each BIU.
#[derive(Drop)]
pub struct Receivers {
    all: [LongReceiver; 16],
}

impl Model for Receivers {
    ghost use Rattle.rb_long_run.specs.Hearing.{Open};

    ghost Value = { Open };

    ghost view = { λ r. r.all };
}

impl Receivers {
    /// No letter is open anywhere.
    pub fn new() -> Receivers
        ensures { result ≡ replicate 16 (replicate 16 None) }
    {
        Receivers {
            all: [
                LongReceiver::new(),
                LongReceiver::new(),
                LongReceiver::new(),
                LongReceiver::new(),
                LongReceiver::new(),
                LongReceiver::new(),
                LongReceiver::new(),
                LongReceiver::new(),
                LongReceiver::new(),
                LongReceiver::new(),
                LongReceiver::new(),
                LongReceiver::new(),
                LongReceiver::new(),
                LongReceiver::new(),
                LongReceiver::new(),
                LongReceiver::new(),
            ],
        }
    }

    /// Hears what was delivered in a slot, and writes a line for each letter that is given with it.
    /// `Failed` is the answer only if a write failed; a first part of these lines has then been
    /// written.
    pub fn write_slot<K: Sink>(
        &mut self,
        frame: u32,
        slot: u16,
        lines: &[SlotLine],
        output: &mut K,
    ) -> Result<(), Failed>
        ensures writes { Writes K.held K.faults output.old output.new result
            (lines_text frame slot self.old lines.now) }
        ensures heard { OnOk result (self.new ≡ with_lines self.old lines.now) }
    {
        write_given(frame, slot, lines, &mut self.all, output)
    }
}
