//! The lines of a report of a run.
ghost use Rattle.std.specs.Prelude.{◌≡◌, ◌≤◌};
ghost use Rattle.rb_picture.specs.Lines.{last_place, line_place, line_text, node_place, place_of};

use arrayvec::ArrayString;
use rb_base::{Heard, NodeName, Place};
use rb_report::{breach_line, convicted_line, delivery_line, end_line, epoch_line, port_line};
use rb_rules::Cause;

/// A node begins a frame: its tick, and the time of that tick.
#[derive(Clone, Copy)]
pub struct EpochLine {
    pub frame: u32,
    pub node: NodeName,
    pub tick: u64,
    pub time: u64,
}

/// Whom a node holds convicted when it begins a frame, as masks.
#[derive(Clone, Copy)]
pub struct ConvictedLine {
    pub frame: u32,
    pub node: NodeName,
    pub biu: u16,
    pub rmu: u16,
}

/// The port of a BIU when it begins a frame.
#[derive(Clone, Copy)]
pub struct FramePort {
    pub frame: u32,
    pub biu: u8,
    pub state: u64,
    pub losses: u8,
}

/// A delivery: what a BIU receives of the owner of a slot.
#[derive(Clone, Copy)]
pub struct DeliveryLine {
    pub frame: u32,
    pub slot: u16,
    pub receiver: u8,
    pub sender: u8,
    pub value: Heard,
}

/// A line of a report.
#[derive(Clone, Copy)]
pub enum Line {
    /// `e FRAME NODE TICK TIME`
    Epoch(EpochLine),
    /// `c FRAME NODE BIUS RMUS`
    Convicted(ConvictedLine),
    /// `p FRAME BIU STATE LOSSES`
    Port(FramePort),
    /// `d FRAME SLOT RECEIVER SENDER WORD`
    Delivery(DeliveryLine),
    /// `end FRAMES`
    End(u32),
    /// `breach FRAME SLOT STAGE CAUSE`
    Breach(Place, Cause),
}

/// The text of the line, with its line feed.
pub(crate) fn text_of(line: Line) -> ArrayString<96>
    ensures { result.bytes ≡ line_text line }
{
    match line {
        Line::Epoch(l) => epoch_line(l.frame, l.node, l.tick, Some(l.time)),
        Line::Convicted(l) => convicted_line(l.frame, l.node, l.biu, l.rmu),
        Line::Port(l) => port_line(l.frame, l.biu, l.state, l.losses),
        Line::Delivery(l) => delivery_line(l.frame, l.slot, l.receiver, l.sender, l.value),
        Line::End(frames) => end_line(frames),
        Line::Breach(place, cause) => breach_line(place, cause),
    }
}

// The place of a node among those of its bus.
fn node_place(node: NodeName) -> u64
    ensures value { result ≡ node_place node }
    ensures most { result ≤ 511 }
{
    match node {
        NodeName::Biu(i) => u64::from(i),
        NodeName::Rmu(i) => 256 + u64::from(i),
    }
}

// The place of a line of this kind.
fn place_of(frame: u32, kind: u8, slot: u16, node: u64) -> u64
    requires kind { kind ≤ 3 }
    requires node { node ≤ 511 }
    ensures { result ≡ place_of frame kind slot node }
{
    ((u64::from(frame) * 4 + u64::from(kind)) * 65536 + u64::from(slot)) * 512 + node + 1
}

/// The place of the line in a report.
pub(crate) fn line_place(line: Line) -> u64
    ensures { result ≡ line_place line }
{
    match line {
        Line::Epoch(l) => place_of(l.frame, 0, 0, node_place(l.node)),
        Line::Convicted(l) => place_of(l.frame, 1, 0, node_place(l.node)),
        Line::Port(l) => place_of(l.frame, 2, 0, u64::from(l.biu)),
        Line::Delivery(l) => place_of(l.frame, 3, l.slot, u64::from(l.receiver)),
        Line::End(_) | Line::Breach(_, _) => LAST_PLACE,
    }
}

/// The place behind all others.
pub(crate) const LAST_PLACE: u64 = 1_152_921_504_606_846_976;
