//! What the deliveries in a slot of a frame say together.
ghost use Rattle.std.specs.Prelude.{◌≡◌, ◌<◌, ◌^◌};
ghost use Rattle.rb_picture.specs.Columns.{all_bring, brings, column_of, column_with, line_mark, outcome_of, slot_mark};

use crate::line::{DeliveryLine, Line};
use rb_base::Heard;

/// What BIUs deliver in a slot.
#[derive(Clone, Copy)]
pub enum Outcome {
    /// All deliver one word.
    Agree,
    /// All deliver none.
    Silent,
    /// Not all deliver the same.
    Differ,
}

/// A slot of a frame in which something is delivered: a number for both, its owner, and what is
/// delivered.
#[derive(Clone, Copy)]
pub struct Column {
    pub mark: u64,
    pub frame: u32,
    pub slot: u16,
    pub sender: u8,
    pub outcome: Outcome,
}

pub(crate) const NO_COLUMN: Column = Column {
    mark: 0,
    frame: 0,
    slot: 0,
    sender: 0,
    outcome: Outcome::Agree,
};

fn slot_mark(l: DeliveryLine) -> u64
    ensures { result ≡ slot_mark l }
{
    u64::from(l.frame) * 65536 + u64::from(l.slot) + 1
}

fn line_mark(line: Line) -> u64
    ensures { result ≡ line_mark line }
{
    match line {
        Line::Delivery(l) => slot_mark(l),
        Line::Epoch(_) | Line::Convicted(_) | Line::Port(_) | Line::End(_) | Line::Breach(_, _) =>
            0,
    }
}

fn brings(value: Heard, line: Line) -> bool
    ensures { result ≡ brings value line }
{
    match line {
        Line::Delivery(l) => match (l.value, value) {
            (Heard::Word(a), Heard::Word(b)) => a == b,
            (Heard::Fault, Heard::Fault) => true,
            (Heard::Word(_), Heard::Fault) | (Heard::Fault, Heard::Word(_)) => false,
        },
        Line::Epoch(_) | Line::Convicted(_) | Line::Port(_) | Line::End(_) | Line::Breach(_, _) =>
            true,
    }
}

// Whether all deliveries in the slot with this mark, which are the first of the lines, bring this.
#[tactic(auto, using(crate::proofs::Turns::bring_turns))]
fn all_bring(mark: u64, value: Heard, lines: &[Line]) -> bool
    ensures { result ≡ all_bring mark value lines.now }
{
    for line in lines {
        if line_mark(*line) != mark {
            return true;
        }
        if !brings(value, *line) {
            return false;
        }
    }
    true
}

fn outcome_of(all: bool, value: Heard) -> Outcome
    ensures { result ≡ outcome_of all value }
{
    if !all {
        return Outcome::Differ;
    }
    match value {
        Heard::Word(_) => Outcome::Agree,
        Heard::Fault => Outcome::Silent,
    }
}

fn column_of(l: DeliveryLine, lines: &[Line]) -> Column
    ensures { result ≡ column_of l lines.now }
{
    let mark = slot_mark(l);
    Column {
        mark,
        frame: l.frame,
        slot: l.slot,
        sender: l.sender,
        outcome: outcome_of(all_bring(mark, l.value, lines), l.value),
    }
}

/// The column of a line, which is the first of these lines: another one if it is the first delivery
/// in its slot.
pub(crate) fn column_with(column: Column, line: Line, lines: &[Line]) -> Column
    ensures { result ≡ column_with column line lines.now }
{
    match line {
        Line::Delivery(l) if slot_mark(l) != column.mark => column_of(l, lines),
        Line::Delivery(_)
        | Line::Epoch(_)
        | Line::Convicted(_)
        | Line::Port(_)
        | Line::End(_)
        | Line::Breach(_, _) => column,
    }
}
