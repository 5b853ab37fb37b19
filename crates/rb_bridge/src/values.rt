//! What of a bus is carried over a bridge: the values that its BIUs deliver in one slot of a frame,
//! kept turn by turn.

ghost use Rattle.std.specs.Prelude.{◌≡◌, ◌<◌, ◌==◌, if◌then◌else◌, ◌++◌, ◌∷◌, [], ℕ, List, Some, None, Option, get_or};
ghost use Rattle.std.specs.Option.{option_or, option_to_list};
ghost use Rattle.rb_base.specs.declared.values.Heard.{Heard};
ghost use Rattle.rb_world_book.specs.Records.{record_of};
ghost use Rattle.rb_rules_bridge.specs.Crossings.{value_told, word_of};
ghost use Rattle.rb_rules.specs.Book.{Record};
ghost use Rattle.rb_bridge.specs.Holding.{HoldValues, value_by, value_with};

use rb_base::Heard;
use rb_world_book::{SlotLine, SlotRecord, Turn};

/// The values that BIUs deliver in one slot of a frame: of each of the 16 that there may be, the
/// first.
pub(crate) type Values = [Option<Heard>; 16];

/// No values.
pub(crate) fn no_values() -> Values
    ensures { HoldValues (λ i. None) result }
{
    [None; 16]
}

// Keeps the value in this place, if none is there.
fn keep_first(kept: &mut Values, place: u8, value: Heard)
    requires { place < 16 }
    ensures { (told : ℕ → Option Heard) → HoldValues told kept.old
        → HoldValues (λ i. option_or (told i) (if place == i then Some value else None)) kept.new }
{
    let place = usize::from(place);
    if kept[place].is_none() {
        kept[place] = Some(value);
    }
}

// Keeps what a line says.
fn note_line(kept: &mut Values, line: &SlotLine)
    ensures { (told : ℕ → Option Heard) → HoldValues told kept.old
        → HoldValues (λ i. option_or (told i) (value_by (line.now ∷ []) i)) kept.new }
{
    if line.receiver < 16 {
        keep_first(kept, line.receiver, line.value);
    }
}

// Keeps what the lines of a slot say.
fn note_lines(kept: &mut Values, lines: &[SlotLine])
    ensures { (told : ℕ → Option Heard) → HoldValues told kept.old
        → HoldValues (λ i. option_or (told i) (value_by lines.now i)) kept.new }
{
    for line in lines {
        note_line(kept, line);
    }
}

// Keeps what a slot brought, if it is this one.
fn note_slot(kept: &mut Values, frame: u32, slot: u16, brought: &SlotRecord)
    ensures { (told : ℕ → Option Heard) → HoldValues told kept.old
        → HoldValues (λ i. option_or (told i) (value_with frame slot
        (Some (Record.Slot brought.now.frame brought.now.slot brought.now.lines.items)) i)) kept.new }
{
    if brought.frame == frame && brought.slot == slot {
        note_lines(kept, brought.lines.as_slice());
    }
}

// Keeps what a turn tells of the slot.
fn note_turn(kept: &mut Values, frame: u32, slot: u16, turn: &Turn)
    ensures { (told : ℕ → Option Heard) → HoldValues told kept.old
        → HoldValues (λ i. option_or (told i) (value_with frame slot (record_of turn.now) i))
        kept.new }
{
    match turn {
        Turn::Slot(brought) => note_slot(kept, frame, slot, brought),
        Turn::Quiet => {}
        Turn::Frame(_) => {}
        Turn::Ended => {}
        Turn::Breach(_, _) => {}
    }
}

/// Keeps what a turn tells of a slot of a frame: of each BIU the first value that it delivered
/// there.
pub(crate) fn note(kept: &mut Values, frame: u32, slot: u16, turn: &Turn)
    ensures { (records : List Record) → HoldValues (value_told frame slot records) kept.old
        → HoldValues (value_told frame slot (records ++ option_to_list (record_of turn.now)))
        kept.new }
{
    note_turn(kept, frame, slot, turn)
}

/// The word that a BIU, below 16, carries over: 0 if it delivered none, or Fault.
pub(crate) fn word_at(kept: &Values, biu: u8) -> u32
    requires { biu < 16 }
    ensures { (told : ℕ → Option Heard) → HoldValues told kept.now → result ≡ word_of (told biu) }
{
    match kept[usize::from(biu)] {
        Some(Heard::Word(word)) => word,
        Some(Heard::Fault) => 0,
        None => 0,
    }
}
