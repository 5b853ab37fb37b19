//! A picture of lines.
ghost use Rattle.std.specs.Prelude.{◌≡◌, ◌++◌, codes, IfOk, OnOk};
ghost use Rattle.rb_picture.specs.Picture.{frame_of, ground_of, head_of, panel_with, picture_text, pieces_at, pieces_of, pieces_of_line, stand_with, with_pieces};
ghost use Rattle.rb_picture.specs.Headings.{with_key};

use crate::column::{Column, NO_COLUMN, column_with};
use crate::drawing::{
    push_breach, push_cell, push_ending, push_heading, push_legend, push_owner, push_panel,
};
use crate::extent::{Extent, Facts, NO_FACTS, facts_of, mark_of};
use crate::line::Line;
use crate::markup::{push, push_box, push_opening};
use crate::overview::{push_break, push_row, push_signature, push_square};
use crate::places::{is_behind, tick_area};
use crate::sheet::{Sheet, View, sheet_height, sheet_width};
use crate::style::STYLE;
use rb_base::OutOfMemory;
use std::alloc::Global;

/// The frame that is drawn: one more than its number, or 0 before the first, and what its lines
/// say.
#[derive(Clone, Copy)]
pub struct Panel {
    pub mark: u64,
    pub frame: u32,
    pub facts: Facts,
}

/// The frame and the slot that are drawn.
#[derive(Clone, Copy)]
pub struct Stand {
    pub panel: Panel,
    pub column: Column,
}

const NO_STAND: Stand = Stand {
    panel: NO_PANEL,
    column: NO_COLUMN,
};

const NO_PANEL: Panel = Panel {
    mark: 0,
    frame: 0,
    facts: NO_FACTS,
};

fn frame_of(frame: u32, line: Line) -> u32
    ensures { result ≡ frame_of frame line }
{
    match line {
        Line::Epoch(l) => l.frame,
        Line::Convicted(l) => l.frame,
        Line::Port(l) => l.frame,
        Line::Delivery(l) => l.frame,
        Line::End(_) => frame,
        Line::Breach(place, _) => place.frame,
    }
}

// The panel of the first of these lines.
fn panel_with(panel: Panel, line: Line, lines: &[Line]) -> Panel
    ensures { result ≡ panel_with panel line lines.now }
{
    let mark = mark_of(panel.mark, line);
    if mark == panel.mark {
        return panel;
    }
    Panel {
        mark,
        frame: frame_of(panel.frame, line),
        facts: facts_of(mark, lines),
    }
}

// The ground of another panel.
fn push_ground_of(
    out: &mut Vec<u8>,
    sheet: Sheet,
    before: Panel,
    after: Panel,
) -> Result<(), OutOfMemory>
    ensures { OnOk result (out.new.items
        ≡ with_pieces sheet out.old.items (ground_of before after)) }
{
    if after.mark == before.mark {
        return Ok(());
    }
    let (earlier, facts) = (before.facts.convicted, after.facts);
    match sheet.view {
        View::Panels => push_panel(out, sheet.extent, after.frame, facts),
        View::Overview => push_row(out, sheet.extent, after.frame, earlier, facts.convicted),
    }
}

// The head of another column.
fn push_head_of(
    out: &mut Vec<u8>,
    sheet: Sheet,
    before: Column,
    after: Column,
) -> Result<(), OutOfMemory>
    ensures { OnOk result (out.new.items ≡ with_pieces sheet out.old.items (head_of before after)) }
{
    if after.mark == before.mark {
        return Ok(());
    }
    match sheet.view {
        View::Panels => push_owner(out, sheet.extent, after),
        View::Overview => push_square(out, sheet.extent, after),
    }
}

// What a line shows in its panel.
#[tactic(auto, unfolding(crate::specs::Drawing::with_tick))]
fn push_in_panel(
    out: &mut Vec<u8>,
    extent: Extent,
    facts: Facts,
    line: Line,
) -> Result<(), OutOfMemory>
    ensures { OnOk result (out.new.items
        ≡ with_pieces (record { view = View.Panels; extent = extent }) out.old.items
        (pieces_of_line facts line)) }
{
    match line {
        Line::Epoch(l) => {
            if is_behind(extent, l.frame) {
                return Ok(());
            }
            let after = l.time.saturating_sub(facts.begins.least);
            push_box(out, tick_area(extent, l.frame, l.node, after), "tick")
        }
        Line::Convicted(_) | Line::Port(_) => Ok(()),
        Line::Delivery(l) => push_cell(out, extent, l),
        Line::End(_) => push_ending(out),
        Line::Breach(place, cause) => push_breach(out, extent, place, cause),
    }
}

// What a line shows in an overview.
fn push_in_overview(
    out: &mut Vec<u8>,
    extent: Extent,
    facts: Facts,
    line: Line,
) -> Result<(), OutOfMemory>
    ensures { OnOk result (out.new.items
        ≡ with_pieces (record { view = View.Overview; extent = extent }) out.old.items
        (pieces_of_line facts line)) }
{
    match line {
        Line::Epoch(_) | Line::Convicted(_) | Line::Port(_) | Line::Delivery(_) => Ok(()),
        Line::End(_) => push_ending(out),
        Line::Breach(place, cause) => push_break(out, extent, place, cause),
    }
}

// What a line shows.
fn push_line(out: &mut Vec<u8>, sheet: Sheet, facts: Facts, line: Line) -> Result<(), OutOfMemory>
    ensures { OnOk result (out.new.items
        ≡ with_pieces sheet out.old.items (pieces_of_line facts line)) }
{
    match sheet.view {
        View::Panels => push_in_panel(out, sheet.extent, facts, line),
        View::Overview => push_in_overview(out, sheet.extent, facts, line),
    }
}

// What the first of these lines shows, and the stand at it.
#[tactic(auto, using(crate::proofs::Turns::piece_turns))]
fn push_next(
    out: &mut Vec<u8>,
    sheet: Sheet,
    stand: Stand,
    line: Line,
    lines: &[Line],
) -> Result<Stand, OutOfMemory>
    ensures { IfOk result (λ after. (after ≡ stand_with stand line lines.now)
        × (out.new.items ≡ with_pieces sheet out.old.items (pieces_at stand after line))) }
{
    let after = Stand {
        panel: panel_with(stand.panel, line, lines),
        column: column_with(stand.column, line, lines),
    };
    push_ground_of(out, sheet, stand.panel, after.panel)?;
    push_head_of(out, sheet, stand.column, after.column)?;
    push_line(out, sheet, after.panel.facts, line)?;
    Ok(after)
}

// What the lines show.
#[tactic(auto, using(crate::proofs::Turns::piece_turns))]
fn push_lines(out: &mut Vec<u8>, sheet: Sheet, lines: &[Line]) -> Result<(), OutOfMemory>
    ensures { OnOk result (out.new.items ≡ with_pieces sheet out.old.items (pieces_of lines.now)) }
{
    let mut stand = NO_STAND;
    for index in 0..lines.len() {
        stand = push_next(out, sheet, stand, lines[index], &lines[index..])?;
    }
    Ok(())
}

// What colors and signs mean.
fn push_key(out: &mut Vec<u8>, sheet: Sheet) -> Result<(), OutOfMemory>
    ensures { OnOk result (out.new.items ≡ with_key sheet.view sheet.extent out.old.items) }
{
    match sheet.view {
        View::Panels => push_legend(out, sheet.extent),
        View::Overview => push_signature(out),
    }
}

/// The text of the picture of these lines.
#[tactic(auto, unfolding(crate::specs::Picture::picture_text))]
pub(crate) fn picture_of(
    alloc: Global,
    sheet: Sheet,
    lines: &[Line],
) -> Result<Vec<u8>, OutOfMemory>
    ensures { IfOk result (λ v. v.items ≡ picture_text STYLE.now sheet lines.now) }
{
    let mut out = Vec::new(alloc);
    push_opening(&mut out, sheet_width(sheet), sheet_height(sheet), STYLE)?;
    push_heading(&mut out, sheet)?;
    push_key(&mut out, sheet)?;
    push_lines(&mut out, sheet, lines)?;
    push(&mut out, "</svg>\n")?;
    Ok(out)
}
