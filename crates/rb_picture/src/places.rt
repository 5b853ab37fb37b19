//! The places of things in a picture.
ghost use Rattle.std.specs.Prelude.{◌≡◌, ◌^◌, ◌<◌, ◌≤◌};
ghost use Rattle.rb_picture.specs.Places.{breach_area, cell_area, cell_width, close_area, column_left, grid_area, grid_left, is_behind, margin, panel_area, panel_height, panel_top, panels_of, picture_height, picture_width, offset_of, row_of, row_top, rows_of, slots_of, strip_area, tick_area, word_width};

use crate::extent::Extent;
use crate::line::DeliveryLine;
use crate::markup::Area;
use rb_base::{NodeName, Place};

pub(crate) fn rows_of(extent: Extent) -> u64
    ensures value { result ≡ rows_of extent }
    ensures most { result ≤ 131070 }
{
    u64::from(extent.bius) + u64::from(extent.rmus)
}

pub(crate) fn slots_of(extent: Extent) -> u64
    ensures value { result ≡ slots_of extent }
    ensures most { result ≤ 4294967295 }
{
    u64::from(extent.high).saturating_sub(u64::from(extent.low))
}

fn row_of(extent: Extent, node: NodeName) -> u64
    ensures value { result ≡ row_of extent node }
    ensures most { result ≤ 131070 }
{
    match node {
        NodeName::Biu(i) => u64::from(i),
        NodeName::Rmu(i) => u64::from(extent.bius) + u64::from(i),
    }
}

/// Whether the frame is the one that would follow the run.
pub(crate) fn is_behind(extent: Extent, frame: u32) -> bool
    ensures { result ≡ is_behind extent frame }
{
    u64::from(frame) == extent.run && extent.busy <= u64::from(frame)
}

fn panels_of(extent: Extent) -> u64
    ensures value { result ≡ panels_of extent }
    ensures most { result ≤ 4294967296 }
{
    let (first, last) = (u64::from(extent.first), u64::from(extent.last));
    if is_behind(extent, extent.last) {
        last.saturating_sub(first)
    } else {
        (last + 1).saturating_sub(first)
    }
}

fn panel_height(extent: Extent) -> u64
    ensures value { result ≡ panel_height extent }
    ensures least { 88 ≤ result }
    ensures most { result ≤ 2621488 }
{
    88 + 20 * rows_of(extent)
}

pub(crate) fn panel_top(extent: Extent, frame: u32) -> u64
    ensures value { result ≡ panel_top extent frame }
    ensures most { result < 2 ^ 54 }
{
    180 + panel_height(extent) * u64::from(frame.saturating_sub(extent.first))
}

pub(crate) fn row_top(extent: Extent, frame: u32, row: u64) -> u64
    requires { row ≤ 131070 }
    ensures value { result ≡ row_top extent frame row }
    ensures least { 68 ≤ result }
    ensures most { result < 2 ^ 55 }
{
    panel_top(extent, frame) + 68 + 20 * row
}

pub(crate) fn grid_left(extent: Extent) -> u64
    ensures value { result ≡ grid_left extent }
    ensures least { 196 ≤ result }
    ensures most { result ≤ 284 }
{
    if extent.spread == 0 { 196 } else { 284 }
}

fn word_width(extent: Extent) -> u64
    ensures value { result ≡ word_width extent }
    ensures least { 36 ≤ result }
    ensures most { result ≤ 84 }
{
    if extent.word < 1000 {
        36
    } else if extent.word < 1_000_000 {
        58
    } else {
        84
    }
}

pub(crate) fn cell_width(extent: Extent) -> u64
    ensures value { result ≡ cell_width extent }
    ensures least { 36 ≤ result }
    ensures most { result ≤ 84 }
{
    let room = (416 - grid_left(extent)) / slots_of(extent).max(1);
    word_width(extent).max(room.min(84))
}

pub(crate) fn column_left(extent: Extent, slot: u32) -> u64
    ensures value { result ≡ column_left extent slot }
    ensures most { result < 2 ^ 39 }
{
    grid_left(extent) + cell_width(extent) * u64::from(slot.saturating_sub(u32::from(extent.low)))
}

// Room behind the columns, for the names if there are any.
fn margin(extent: Extent) -> u64
    ensures value { result ≡ margin extent }
    ensures most { result ≤ 56 }
{
    if 12 < slots_of(extent) { 56 } else { 24 }
}

pub(crate) fn picture_width(extent: Extent) -> u64
    ensures value { result ≡ picture_width extent }
    ensures least { 440 ≤ result }
{
    let columns = grid_left(extent) + margin(extent) + cell_width(extent) * slots_of(extent);
    let senders = 40 + 60 * u64::from(extent.bius);
    senders.max(columns).max(440)
}

pub(crate) fn picture_height(extent: Extent) -> u64
    ensures { result ≡ picture_height extent }
{
    let panels = 180 + panel_height(extent) * panels_of(extent);
    if is_behind(extent, extent.last) {
        panels + 72
    } else {
        panels
    }
}

pub(crate) fn panel_area(extent: Extent, frame: u32) -> Area
    ensures { result ≡ panel_area extent frame }
{
    Area {
        x: 8,
        y: panel_top(extent, frame),
        width: picture_width(extent) - 16,
        height: panel_height(extent) - 8,
    }
}

pub(crate) fn close_area(extent: Extent, frame: u32) -> Area
    ensures { result ≡ close_area extent frame }
{
    Area {
        x: 8,
        y: panel_top(extent, frame),
        width: picture_width(extent) - 16,
        height: 64,
    }
}

pub(crate) fn strip_area(extent: Extent, frame: u32) -> Area
    ensures { result ≡ strip_area extent frame }
{
    Area {
        x: 92,
        y: row_top(extent, frame, 0),
        width: 168,
        height: 20 * rows_of(extent),
    }
}

pub(crate) fn grid_area(extent: Extent, frame: u32) -> Area
    ensures { result ≡ grid_area extent frame }
{
    Area {
        x: grid_left(extent),
        y: row_top(extent, frame, 0),
        width: cell_width(extent) * slots_of(extent),
        height: 20 * u64::from(extent.bius),
    }
}

// How many pixels a time is from the first begin.
fn offset_of(extent: Extent, after: u64) -> u64
    ensures { result ≡ offset_of extent after }
{
    let spread = extent.spread;
    if spread < 4_294_967_296 {
        after.min(spread) * 160 / spread.max(1)
    } else {
        after / (spread / 160 + 1)
    }
}

pub(crate) fn tick_area(extent: Extent, frame: u32, node: NodeName, after: u64) -> Area
    ensures { result ≡ tick_area extent frame node after }
{
    Area {
        x: 94 + offset_of(extent, after).min(160),
        y: row_top(extent, frame, row_of(extent, node)) + 3,
        width: 4,
        height: 14,
    }
}

pub(crate) fn cell_area(extent: Extent, l: DeliveryLine) -> Area
    ensures { result ≡ cell_area extent l }
{
    Area {
        x: column_left(extent, u32::from(l.slot)) + 1,
        y: row_top(extent, l.frame, u64::from(l.receiver)) + 1,
        width: cell_width(extent) - 2,
        height: 18,
    }
}

pub(crate) fn breach_area(extent: Extent, place: Place) -> Area
    ensures { result ≡ breach_area extent place }
{
    Area {
        x: column_left(extent, extent.high.min(u32::from(place.slot))),
        y: row_top(extent, place.frame, 0) - 36,
        width: 3,
        height: 20 * rows_of(extent) + 40,
    }
}
