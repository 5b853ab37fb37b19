//! From bytes to the lines of a report.
ghost use Rattle.std.specs.Prelude.{ℕ, ◌≡◌, ◌<◌, ◌≤◌, ◌+◌, ◌^◌, ◌++◌, ◌∷◌, List, true, length, Some, IfOk, IfSome, IfErr};
ghost use Rattle.rb_base.specs.declared.values.Place.{Place};
ghost use Rattle.rb_rules.specs.declared.cause.Cause.{Cause};
ghost use Rattle.rb_picture.specs.declared.line.ConvictedLine.{ConvictedLine};
ghost use Rattle.rb_picture.specs.declared.line.DeliveryLine.{DeliveryLine};
ghost use Rattle.rb_picture.specs.declared.line.EpochLine.{EpochLine};
ghost use Rattle.rb_picture.specs.declared.line.FramePort.{FramePort};
ghost use Rattle.rb_picture.specs.declared.line.Line.{Line};
ghost use Rattle.rb_picture.specs.Fields.{above};
ghost use Rattle.rb_picture.specs.Lines.{ConvictedFits, DeliveryFits, EpochFits, Explains, FailsBehind, FindsEach, Fits, IsReport, PlaceFits, PortFits, StandsFirst, line_body, line_text};

use crate::field::{
    biu_in, cause_in, fifth_field, first_field, fourth_field, heard_in, node_in, second_field,
    sixth_field, third_field, u8_in, u16_in, u32_in, u64_in,
};
use crate::line::{
    ConvictedLine, DeliveryLine, EpochLine, FramePort, LAST_PLACE, Line, line_place, text_of,
};
use rb_base::{Heard, NodeName, OutOfMemory, Place};
use rb_rules::Cause;
use std::alloc::Global;

/// Why bytes are no report.
#[derive(Clone, Copy)]
pub enum Fault {
    /// What begins here is no line of a report.
    NoLine,
    /// The place of the line in a report is not behind that of the line before it.
    OutOfOrder,
    /// The bytes end before a line that tells how the run ended.
    NoEnd,
}

/// Why there is no list of lines.
#[derive(Clone, Copy)]
pub enum Unreadable {
    /// The bytes are no report: the number of the line, from 1, and the cause.
    At(u64, Fault),
    /// An allocation failed.
    OutOfMemory,
}

fn epoch_of(
    frame: Option<u32>,
    node: Option<NodeName>,
    tick: Option<u64>,
    time: Option<u64>,
) -> Option<Line>
    ensures { (l : EpochLine) → frame ≡ Some l.frame → node ≡ Some l.node → tick ≡ Some l.tick
        → time ≡ Some l.time → result ≡ Some (Line.Epoch l) }
{
    Some(Line::Epoch(EpochLine {
        frame: frame?,
        node: node?,
        tick: tick?,
        time: time?,
    }))
}

fn epoch_in(text: &str) -> Option<Line>
    ensures { (l : EpochLine) → EpochFits l → text.now ≡ line_body (Line.Epoch l)
        → result ≡ Some (Line.Epoch l) }
{
    epoch_of(
        u32_in(second_field(text)),
        node_in(third_field(text)),
        u64_in(fourth_field(text)),
        u64_in(fifth_field(text)),
    )
}

fn convicted_of(
    frame: Option<u32>,
    node: Option<NodeName>,
    biu: Option<u16>,
    rmu: Option<u16>,
) -> Option<Line>
    ensures { (l : ConvictedLine) → frame ≡ Some l.frame → node ≡ Some l.node → biu ≡ Some l.biu
        → rmu ≡ Some l.rmu → result ≡ Some (Line.Convicted l) }
{
    Some(Line::Convicted(ConvictedLine {
        frame: frame?,
        node: node?,
        biu: biu?,
        rmu: rmu?,
    }))
}

fn convicted_in(text: &str) -> Option<Line>
    ensures { (l : ConvictedLine) → ConvictedFits l → text.now ≡ line_body (Line.Convicted l)
        → result ≡ Some (Line.Convicted l) }
{
    convicted_of(
        u32_in(second_field(text)),
        node_in(third_field(text)),
        u16_in(fourth_field(text)),
        u16_in(fifth_field(text)),
    )
}

fn port_of(
    frame: Option<u32>,
    biu: Option<u8>,
    state: Option<u64>,
    losses: Option<u8>,
) -> Option<Line>
    ensures { (l : FramePort) → frame ≡ Some l.frame → biu ≡ Some l.biu → state ≡ Some l.state
        → losses ≡ Some l.losses → result ≡ Some (Line.Port l) }
{
    Some(Line::Port(FramePort {
        frame: frame?,
        biu: biu?,
        state: state?,
        losses: losses?,
    }))
}

fn port_in(text: &str) -> Option<Line>
    ensures { (l : FramePort) → PortFits l → text.now ≡ line_body (Line.Port l)
        → result ≡ Some (Line.Port l) }
{
    port_of(
        u32_in(second_field(text)),
        biu_in(third_field(text)),
        u64_in(fourth_field(text)),
        u8_in(fifth_field(text)),
    )
}

fn delivery_of(
    frame: Option<u32>,
    slot: Option<u16>,
    receiver: Option<u8>,
    sender: Option<u8>,
    value: Option<Heard>,
) -> Option<Line>
    ensures { (l : DeliveryLine) → frame ≡ Some l.frame → slot ≡ Some l.slot
        → receiver ≡ Some l.receiver → sender ≡ Some l.sender → value ≡ Some l.value
        → result ≡ Some (Line.Delivery l) }
{
    Some(Line::Delivery(DeliveryLine {
        frame: frame?,
        slot: slot?,
        receiver: receiver?,
        sender: sender?,
        value: value?,
    }))
}

fn delivery_in(text: &str) -> Option<Line>
    ensures { (l : DeliveryLine) → DeliveryFits l → text.now ≡ line_body (Line.Delivery l)
        → result ≡ Some (Line.Delivery l) }
{
    delivery_of(
        u32_in(second_field(text)),
        u16_in(third_field(text)),
        biu_in(fourth_field(text)),
        biu_in(fifth_field(text)),
        heard_in(sixth_field(text)),
    )
}

fn end_in(text: &str) -> Option<Line>
    ensures { (frames : ℕ) → frames < 2 ^ 32 → text.now ≡ line_body (Line.End frames)
        → result ≡ Some (Line.End frames) }
{
    match u32_in(second_field(text)) {
        Some(frames) => Some(Line::End(frames)),
        None => None,
    }
}

fn breach_of(
    frame: Option<u32>,
    slot: Option<u16>,
    stage: Option<u8>,
    cause: Option<Cause>,
) -> Option<Line>
    ensures { (place : Place) (cause_found : Cause) → frame ≡ Some place.frame
        → slot ≡ Some place.slot → stage ≡ Some place.stage → cause ≡ Some cause_found
        → result ≡ Some (Line.Breach place cause_found) }
{
    Some(Line::Breach(
        Place {
            frame: frame?,
            slot: slot?,
            stage: stage?,
        },
        cause?,
    ))
}

fn breach_in(text: &str) -> Option<Line>
    ensures { (place : Place) (cause : Cause) → PlaceFits place
        → text.now ≡ line_body (Line.Breach place cause) → result ≡ Some (Line.Breach place cause) }
{
    breach_of(
        u32_in(second_field(text)),
        u16_in(third_field(text)),
        u8_in(fourth_field(text)),
        cause_in(fifth_field(text)),
    )
}

// The line that the text may spell.
#[tactic(auto, using(crate::proofs::Parts::line_kinds))]
fn line_in(text: &str) -> Option<Line>
    ensures { (l : Line) → Fits l → text.now ≡ line_body l → result ≡ Some l }
{
    match first_field(text) {
        "e" => epoch_in(text),
        "c" => convicted_in(text),
        "p" => port_in(text),
        "d" => delivery_in(text),
        "end" => end_in(text),
        "breach" => breach_in(text),
        _ => None,
    }
}

// The line that the text in these bytes may spell.
fn line_of_text(bytes: &[u8]) -> Option<Line>
    ensures { (l : Line) → Fits l → bytes.now ≡ line_body l → result ≡ Some l }
{
    match std::str::from_utf8(bytes) {
        Ok(text) => line_in(text),
        Err(_) => None,
    }
}

// The line, if its text is this.
fn checked(line: Option<Line>, bytes: &[u8]) -> Option<Line>
    ensures some { IfSome result (λ l. bytes.now ≡ line_text l) }
    ensures each { (l : Line) → line ≡ Some l → bytes.now ≡ line_text l → result ≡ Some l }
{
    let line = line?;
    if text_of(line).as_str().as_bytes() == bytes {
        Some(line)
    } else {
        None
    }
}

// The line whose text this is, byte by byte.
fn spelled_by(bytes: &[u8]) -> Option<Line>
    ensures some { IfSome result (λ line. bytes.now ≡ line_text line) }
    ensures each { (l : Line) → Fits l → bytes.now ≡ line_text l → result ≡ Some l }
{
    match bytes.split_last() {
        Some((_feed, body)) => checked(line_of_text(body), bytes),
        None => None,
    }
}

// The number of bytes up to the first line feed, and with it.
#[tactic(auto, using(crate::proofs::Spaces::line_feeds))]
fn line_length(bytes: &[u8]) -> Option<usize>
    ensures some { IfSome result (λ n. (0 < n) × (n ≤ length bytes.now)) }
    ensures first { (xs tail : List ℕ) → above 31 xs ≡ true → bytes.now ≡ xs ++ 10 ∷ tail
        → result ≡ Some (length xs + 1) }
{
    for index in 0..bytes.len() {
        if bytes[index] == b'\n' {
            return Some(index + 1);
        }
    }
    None
}

// The line with which the bytes begin, and how many bytes it has. Its place in a report must be
// behind `newest`, the place of the line before it.
#[tactic(auto, using(crate::proofs::Orders::reading_steps))]
fn next_line(bytes: &[u8], newest: u64) -> Result<(Line, usize), Fault>
    requires { 0 < length bytes.now }
    ensures line { IfOk result (λ next. StandsFirst bytes.now newest next.0 next.1) }
    ensures fault { IfErr result (λ fault. FailsBehind newest fault bytes.now) }
    ensures each { FindsEach bytes.now newest result }
{
    let Some(length) = line_length(bytes) else {
        return Err(Fault::NoLine);
    };
    let Some(line) = spelled_by(&bytes[..length]) else {
        return Err(Fault::NoLine);
    };
    if line_place(line) <= newest {
        return Err(Fault::OutOfOrder);
    }
    Ok((line, length))
}

/// The lines of the report that the bytes are. Else the number of the line, from 1, with which they
/// cease to be one, and the cause.
#[tactic(auto, using(crate::proofs::Orders::reading_steps, crate::proofs::Whole::whole_steps))]
pub(crate) fn lines_in(alloc: Global, bytes: &[u8]) -> Result<Vec<Line>, Unreadable>
    ensures report { IfOk result (λ v. IsReport bytes.now v.items) }
    ensures fault { IfErr result (Explains bytes.now) }
{
    let mut lines = Vec::new(alloc);
    let mut newest = 0;
    let mut at = 0;
    while at < bytes.len() {
        let (line, length) = match next_line(&bytes[at..], newest) {
            Ok(next) => next,
            Err(fault) => return Err(Unreadable::At(lines.len() as u64 + 1, fault)),
        };
        let Ok(()) = lines.push(line) else {
            return Err(Unreadable::OutOfMemory);
        };
        newest = line_place(line);
        at += length;
    }
    if newest == LAST_PLACE {
        Ok(lines)
    } else {
        Err(Unreadable::At(lines.len() as u64 + 1, Fault::NoEnd))
    }
}
