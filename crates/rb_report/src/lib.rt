//! The lines of a report, one function a kind of line. Their form is this project's own: fields
//! that one space separates, decimal numbers without leading zeros, and a line feed, which comes
//! with the line. A node is `B` or `R` and its number.
#![tactic(auto)]

ghost use Rattle.std.specs.Prelude.{◌≡◌, ◌≤◌, length};
ghost use Rattle.rb_report.specs.Report.{IsRefusal, breach_text, convicted_text, delivery_text, end_text, epoch_text, group_text, letter_text, port_text, refused_text, side_text, summary_text, word_text};

use arrayvec::ArrayString;
use fields::{push_heard, push_hex, push_last, push_node, push_number, push_text};
use itoa::Buffer;
use names::{cause_name, refusal_name, summary_name};
use rb_base::{Heard, NodeName, Place};
use rb_rules::Cause;

mod fields;
mod names;

/// The start of a frame at a node, as `e FRAME NODE TICK TIME`: the tick of its clock with which
/// the frame begins, and the reference time of that tick if it is known.
pub fn epoch_line(frame: u32, node: NodeName, tick: u64, time: Option<u64>) -> ArrayString<96>
    ensures bytes { result.bytes ≡ epoch_text frame node tick time }
{
    let mut line = ArrayString::new();
    line.push_str("e");
    push_number(&mut line, frame);
    push_node(&mut line, node);
    push_number(&mut line, tick);
    push_last(&mut line, time);
    line.push_str("\n");
    line
}

/// Whom a node has convicted when a frame begins, as `c FRAME NODE BIUS RMUS`: a mask of BIUs and
/// one of RMUs, in which bit i is node i.
pub fn convicted_line(frame: u32, node: NodeName, biu: u16, rmu: u16) -> ArrayString<96>
    ensures bytes { result.bytes ≡ convicted_text frame node biu rmu }
{
    let mut line = ArrayString::new();
    line.push_str("c");
    push_number(&mut line, frame);
    push_node(&mut line, node);
    push_number(&mut line, biu);
    push_number(&mut line, rmu);
    line.push_str("\n");
    line
}

/// The port of a BIU when a frame begins, as `p FRAME BIU STATE LOSSES`: the state of its
/// application, and how many of its latest deliveries were Fault.
pub fn port_line(frame: u32, biu: u8, state: u64, losses: u8) -> ArrayString<96>
    ensures bytes { result.bytes ≡ port_text frame biu state losses }
{
    let mut line = ArrayString::new();
    line.push_str("p");
    push_number(&mut line, frame);
    push_node(&mut line, NodeName::Biu(biu));
    push_number(&mut line, state);
    push_number(&mut line, losses);
    line.push_str("\n");
    line
}

/// A delivery, as `d FRAME SLOT RECEIVER SENDER WORD`: BIU `receiver` delivers the word of BIU
/// `sender` in that slot of the frame. The word is `none` if `value` is Fault.
pub fn delivery_line(
    frame: u32,
    slot: u16,
    receiver: u8,
    sender: u8,
    value: Heard,
) -> ArrayString<96>
    ensures bytes { result.bytes ≡ delivery_text frame slot receiver sender value }
{
    let mut line = ArrayString::new();
    line.push_str("d");
    push_number(&mut line, frame);
    push_number(&mut line, slot);
    push_node(&mut line, NodeName::Biu(receiver));
    push_node(&mut line, NodeName::Biu(sender));
    push_heard(&mut line, value);
    line.push_str("\n");
    line
}

/// The end of a run without a breach, as `end FRAMES`: the number of its frames.
pub fn end_line(frames: u32) -> ArrayString<96>
    ensures bytes { result.bytes ≡ end_text frames }
{
    let mut line = ArrayString::new();
    line.push_str("end");
    push_number(&mut line, frames);
    line.push_str("\n");
    line
}

/// The end of a run at a breach of the fault premise, as `breach FRAME SLOT STAGE CAUSE`: the
/// place, and which part of the premise fails there.
pub fn breach_line(place: Place, cause: Cause) -> ArrayString<96>
    ensures bytes { result.bytes ≡ breach_text place cause }
{
    let mut line = ArrayString::new();
    line.push_str("breach");
    push_number(&mut line, place.frame);
    push_number(&mut line, place.slot);
    push_number(&mut line, place.stage);
    push_text(&mut line, cause_name(cause));
    line.push_str("\n");
    line
}

/// Why an input is refused, as `refused CODE NAME`: the rule that it breaks, one of logs if
/// `of_log`, and otherwise one of scenarios. A last field is the number of the inequality that a
/// plan fails, or the place in a log, if the rule has one.
pub fn refused_line(code: u8, detail: Option<u64>, of_log: bool) -> ArrayString<96>
    requires { IsRefusal code detail of_log }
    ensures bytes { result.bytes ≡ refused_text code detail of_log }
{
    let mut line = ArrayString::new();
    line.push_str("refused");
    push_number(&mut line, code);
    push_text(&mut line, refusal_name(code, of_log));
    push_last(&mut line, detail);
    line.push_str("\n");
    line
}

/// The two sides of inequality n of a plan, 1 to 7, as `Cn LEFT RIGHT`.
pub fn side_line(n: u8, left: i128, right: i128) -> ArrayString<96>
    requires least { 1 ≤ n }
    requires most { n ≤ 7 }
    ensures bytes { result.bytes ≡ side_text n left right }
{
    let mut line = ArrayString::new();
    line.push_str("C");
    line.push_str(Buffer::new().format(n));
    push_number(&mut line, left);
    push_number(&mut line, right);
    line.push_str("\n");
    line
}

/// A line of the summary of a run, as `NAME VALUE`. The names are `frames`, `deliveries`,
/// `convicted` and `spread`, with the numbers 0 to 3.
pub fn summary_line(which: u8, value: u64) -> ArrayString<96>
    requires { which ≤ 3 }
    ensures bytes { result.bytes ≡ summary_text which value }
{
    let mut line = ArrayString::new();
    line.push_str(summary_name(which));
    push_number(&mut line, value);
    line.push_str("\n");
    line
}

/// A letter that a port has received whole, as `m FRAME SLOT RECEIVER SENDER BYTES`: the slot with
/// its last word, and its 1 to 255 bytes, each as two hexadecimal digits in lower case.
pub fn letter_line(
    frame: u32,
    slot: u16,
    receiver: u8,
    sender: u8,
    letter: &[u8],
) -> ArrayString<560>
    requires some_byte { 1 ≤ length letter.now }
    requires most_bytes { length letter.now ≤ 255 }
    ensures bytes { result.bytes ≡ letter_text frame slot receiver sender letter.now }
{
    let mut line = ArrayString::new();
    line.push_str("m");
    push_number(&mut line, frame);
    push_number(&mut line, slot);
    push_node(&mut line, NodeName::Biu(receiver));
    push_node(&mut line, NodeName::Biu(sender));
    push_hex(&mut line, letter);
    line.push_str("\n");
    line
}

/// A word of the spelling of a letter, as `w WORD`.
pub fn word_line(word: u64) -> ArrayString<96>
    ensures bytes { result.bytes ≡ word_text word }
{
    let mut line = ArrayString::new();
    line.push_str("w");
    push_number(&mut line, word);
    line.push_str("\n");
    line
}

/// The value that BIU `receiver` finds for a group of replicas in a frame, as `g FRAME RECEIVER
/// WORD`. The word is `none` if `value` is Fault.
pub fn group_line(frame: u32, receiver: u8, value: Heard) -> ArrayString<96>
    ensures bytes { result.bytes ≡ group_text frame receiver value }
{
    let mut line = ArrayString::new();
    line.push_str("g");
    push_number(&mut line, frame);
    push_node(&mut line, NodeName::Biu(receiver));
    push_heard(&mut line, value);
    line.push_str("\n");
    line
}
