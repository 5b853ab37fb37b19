//! An overview: a row for each frame, a cell for each slot, in bands side by side.
ghost use Rattle.std.specs.Prelude.{◌≡◌, ◌≤◌, ◌<◌, ◌^◌, OnOk};
ghost use Rattle.rb_picture.specs.Overview.{band_width, frame_left, frame_top, frames_of, newcomers, newly, outcome_look, overview_height, overview_width, row_area, row_end, row_height, slot_step, slot_width, square_area, with_axes, with_axes_at, with_break, with_frame_number, with_line, with_outcomes, with_row, with_sign, with_signature, with_signs, with_slot_name, with_slot_names, with_square};

use crate::column::{Column, Outcome};
use crate::drawing::{area, push_breach_words, push_names_in};
use crate::extent::{Extent, Nodes};
use crate::markup::{Area, push_box, push_label, push_numbered};
use crate::places::{is_behind, slots_of};
use rb_base::{Biu, NodeSet, OutOfMemory, Place};
use rb_rules::Cause;

/// The most rows of a band.
const BAND_ROWS: u64 = 1200;

fn frames_of(extent: Extent) -> u64
    ensures value { result ≡ frames_of extent }
    ensures most { result ≤ 4294967296 }
{
    (u64::from(extent.last) + 1).saturating_sub(u64::from(extent.first))
}

fn row_height(extent: Extent) -> u64
    ensures value { result ≡ row_height extent }
    ensures least { 3 ≤ result }
    ensures most { result ≤ 12 }
{
    let frames = frames_of(extent);
    if frames <= 300 {
        12
    } else if frames <= 600 {
        6
    } else {
        3
    }
}

fn slot_width(extent: Extent) -> u64
    ensures value { result ≡ slot_width extent }
    ensures most { result ≤ 80 }
{
    (320 / slots_of(extent).max(1)).min(80).max(1)
}

fn band_width(extent: Extent) -> u64
    ensures value { result ≡ band_width extent }
    ensures most { result ≤ 343597384000 }
{
    120 + slot_width(extent) * slots_of(extent)
}

pub(crate) fn overview_width(extent: Extent) -> u64
    ensures { result ≡ overview_width extent }
{
    let bands = (frames_of(extent) + 1199) / BAND_ROWS;
    (20 + band_width(extent) * bands).max(440)
}

pub(crate) fn overview_height(extent: Extent) -> u64
    ensures { result ≡ overview_height extent }
{
    188 + row_height(extent) * frames_of(extent).min(BAND_ROWS)
}

fn frame_left(extent: Extent, frame: u32) -> u64
    ensures value { result ≡ frame_left extent frame }
    ensures most { result < 2 ^ 62 }
{
    let band = u64::from(frame.saturating_sub(extent.first)) / BAND_ROWS;
    20 + band_width(extent) * band
}

fn frame_top(extent: Extent, frame: u32) -> u64
    ensures value { result ≡ frame_top extent frame }
    ensures most { result ≤ 20000 }
{
    let row = u64::from(frame.saturating_sub(extent.first)) % BAND_ROWS;
    176 + row_height(extent) * row
}

fn row_area(extent: Extent, frame: u32) -> Area
    ensures { result ≡ row_area extent frame }
{
    Area {
        x: frame_left(extent, frame) + 48,
        y: frame_top(extent, frame),
        width: slot_width(extent) * slots_of(extent),
        height: row_height(extent),
    }
}

fn square_area(extent: Extent, frame: u32, slot: u16) -> Area
    ensures { result ≡ square_area extent frame slot }
{
    let column = u64::from(slot.saturating_sub(extent.low));
    Area {
        x: frame_left(extent, frame) + 48 + slot_width(extent) * column,
        y: frame_top(extent, frame),
        width: slot_width(extent),
        height: row_height(extent),
    }
}

fn row_end(extent: Extent, frame: u32) -> u64
    ensures value { result ≡ row_end extent frame }
    ensures most { result < 2 ^ 63 }
{
    frame_left(extent, frame) + 52 + slot_width(extent) * slots_of(extent)
}

fn newly(before: u16, after: u16) -> u16
    ensures { result ≡ newly before after }
{
    NodeSet::<Biu>::from_bits(after)
        .difference(NodeSet::from_bits(before))
        .bits()
}

fn newcomers(before: Nodes, after: Nodes) -> Nodes
    ensures { result ≡ newcomers before after }
{
    Nodes {
        biu: newly(before.biu, after.biu),
        rmu: newly(before.rmu, after.rmu),
    }
}

#[tactic(auto, unfolding(crate::specs::Overview::with_frame_number))]
fn push_frame_number(out: &mut Vec<u8>, extent: Extent, frame: u32) -> Result<(), OutOfMemory>
    ensures { OnOk result (out.new.items ≡ with_frame_number extent out.old.items frame) }
{
    if u64::from(frame) % (60 / row_height(extent)) == 0 {
        let x = frame_left(extent, frame);
        let y = frame_top(extent, frame) + 10;
        return push_numbered(out, x, y, "note", "", frame);
    }
    Ok(())
}

fn slot_step(extent: Extent) -> u64
    ensures value { result ≡ slot_step extent }
    ensures least { 1 ≤ result }
{
    let slots = slots_of(extent);
    if slots <= 16 {
        1
    } else if slots <= 64 {
        5
    } else {
        50
    }
}

// The number of a slot, above the row of a frame.
#[tactic(auto, unfolding(crate::specs::Overview::with_slot_name))]
fn push_slot_name(
    out: &mut Vec<u8>,
    extent: Extent,
    frame: u32,
    slot: u64,
) -> Result<(), OutOfMemory>
    requires { slot ≤ 4294967295 }
    ensures { OnOk result (out.new.items ≡ with_slot_name extent frame out.old.items slot) }
{
    let number = u64::from(extent.low) + slot;
    if number % slot_step(extent) == 0 {
        let width = slot_width(extent);
        let x = frame_left(extent, frame) + 48 + width * slot + width / 2;
        return push_numbered(out, x, 170, "slot", "", number);
    }
    Ok(())
}

#[tactic(auto, using(crate::proofs::Turns::each_turns), unfolding(crate::specs::Overview::with_slot_names))]
fn push_slot_names(out: &mut Vec<u8>, extent: Extent, frame: u32) -> Result<(), OutOfMemory>
    ensures { OnOk result (out.new.items ≡ with_slot_names extent frame out.old.items) }
{
    for slot in 0..slots_of(extent) {
        push_slot_name(out, extent, frame, slot)?;
    }
    Ok(())
}

// What the rows and columns of a band are.
#[tactic(auto, unfolding(crate::specs::Overview::with_axes))]
fn push_axes(out: &mut Vec<u8>, extent: Extent, frame: u32) -> Result<(), OutOfMemory>
    ensures { OnOk result (out.new.items ≡ with_axes extent frame out.old.items) }
{
    let left = frame_left(extent, frame);
    push_label(out, left, 170, "scale", "frame", "")?;
    push_label(out, left + 48, 156, "scale", "slot", "")?;
    push_slot_names(out, extent, frame)
}

// Above the first row of a band, what its rows and columns are.
#[tactic(auto, unfolding(crate::specs::Overview::with_axes_at))]
fn push_axes_at(out: &mut Vec<u8>, extent: Extent, frame: u32) -> Result<(), OutOfMemory>
    ensures { OnOk result (out.new.items ≡ with_axes_at extent frame out.old.items) }
{
    if u64::from(frame.saturating_sub(extent.first)) % BAND_ROWS == 0 {
        return push_axes(out, extent, frame);
    }
    Ok(())
}

// A frame's number and its ground, or of the frame that would follow the run a word.
#[tactic(auto, unfolding(crate::specs::Overview::with_line))]
fn push_line(out: &mut Vec<u8>, extent: Extent, frame: u32) -> Result<(), OutOfMemory>
    ensures { OnOk result (out.new.items ≡ with_line extent frame out.old.items) }
{
    if is_behind(extent, frame) {
        let (x, y) = (frame_left(extent, frame), frame_top(extent, frame) + 10);
        return push_label(out, x, y, "note", "after", "");
    }
    push_box(out, row_area(extent, frame), "strip")?;
    push_frame_number(out, extent, frame)
}

/// A frame's row, without its cells.
#[tactic(auto, unfolding(crate::specs::Overview::with_row))]
pub(crate) fn push_row(
    out: &mut Vec<u8>,
    extent: Extent,
    frame: u32,
    before: Nodes,
    after: Nodes,
) -> Result<(), OutOfMemory>
    ensures { OnOk result (out.new.items ≡ with_row extent frame before after out.old.items) }
{
    push_axes_at(out, extent, frame)?;
    push_line(out, extent, frame)?;
    let (x, y) = (row_end(extent, frame), frame_top(extent, frame) + 10);
    push_names_in(out, x, y, newcomers(before, after))
}

fn outcome_look(outcome: Outcome) -> &'static str
    ensures { result.now ≡ outcome_look outcome }
{
    match outcome {
        Outcome::Agree => "agree",
        Outcome::Silent => "silent",
        Outcome::Differ => "differ",
    }
}

/// A cell.
#[tactic(auto, unfolding(crate::specs::Overview::with_square))]
pub(crate) fn push_square(
    out: &mut Vec<u8>,
    extent: Extent,
    column: Column,
) -> Result<(), OutOfMemory>
    ensures { OnOk result (out.new.items ≡ with_square extent out.old.items column) }
{
    let area = square_area(extent, column.frame, column.slot);
    push_box(out, area, outcome_look(column.outcome))
}

/// A breach: its cell, and words.
#[tactic(auto, unfolding(crate::specs::Overview::with_break))]
pub(crate) fn push_break(
    out: &mut Vec<u8>,
    extent: Extent,
    place: Place,
    cause: Cause,
) -> Result<(), OutOfMemory>
    ensures { OnOk result (out.new.items ≡ with_break extent out.old.items place cause) }
{
    push_box(out, square_area(extent, place.frame, place.slot), "breach")?;
    push_breach_words(out, place, cause)
}

// A sign, and beside it what it means.
#[tactic(auto, unfolding(crate::specs::Overview::with_sign))]
fn push_sign(
    out: &mut Vec<u8>,
    x: u64,
    y: u64,
    look: &str,
    meaning: &str,
) -> Result<(), OutOfMemory>
    requires x { x ≤ 640 }
    requires y { y ≤ 128 }
    ensures { OnOk result (out.new.items ≡ with_sign out.old.items x y look.now meaning.now) }
{
    push_box(out, area(x, y, 20, 12), look)?;
    push_label(out, x + 26, y + 10, "note", meaning, "")
}

#[tactic(auto, unfolding(crate::specs::Overview::with_outcomes))]
fn push_outcomes(out: &mut Vec<u8>) -> Result<(), OutOfMemory>
    ensures { OnOk result (out.new.items ≡ with_outcomes out.old.items) }
{
    push_sign(out, 20, 80, "agree", "all deliver one word")?;
    push_sign(out, 230, 80, "silent", "all deliver none")?;
    push_sign(out, 20, 102, "differ", "they do not deliver the same")
}

#[tactic(auto, unfolding(crate::specs::Overview::with_signs))]
fn push_signs(out: &mut Vec<u8>) -> Result<(), OutOfMemory>
    ensures { OnOk result (out.new.items ≡ with_signs out.old.items) }
{
    push_sign(out, 230, 102, "strip", "nothing delivered")?;
    push_sign(out, 20, 124, "breach", "breach of the fault premise")?;
    push_label(out, 230, 134, "newcomer", "R2", "")?;
    push_label(out, 256, 134, "note", "convicted from this frame on", "")
}

/// What colors and signs mean.
#[tactic(auto, unfolding(crate::specs::Overview::with_signature))]
pub(crate) fn push_signature(out: &mut Vec<u8>) -> Result<(), OutOfMemory>
    ensures { OnOk result (out.new.items ≡ with_signature out.old.items) }
{
    push_outcomes(out)?;
    push_signs(out)
}
