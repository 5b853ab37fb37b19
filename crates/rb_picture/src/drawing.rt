//! The parts of a picture.
ghost use Rattle.std.specs.Prelude.{◌≡◌, ◌<◌, ◌≤◌, ◌^◌, OnOk, slice_index_or, codes, length};
ghost use Rattle.rb_report.specs.Report.{heard_text};
ghost use Rattle.rb_picture.specs.Markup.{with_label};
ghost use Rattle.rb_picture.specs.Headings.{frames_words, last_whole, run_words, with_frames, with_heading};
ghost use Rattle.rb_picture.specs.Drawing.{cause_name, cause_words, look_of, nobody_of, place_words, rank, spread_unit, spread_words, with_absence, with_absent, with_axis, with_breach, with_breach_words, with_cell, with_close, with_cross, with_ending, with_ground, with_legend, with_marks, with_name, with_named, with_named_of, with_names_in, with_names_of, with_owner, with_panel, with_sender, with_senders, with_slot_number, with_slots, with_state, with_states, with_states_of, with_strokes, with_whole};

use crate::column::Column;
use crate::extent::{Begins, Extent, Facts, Nodes, Rows};
use crate::line::DeliveryLine;
use crate::markup::{Area, push_box, push_label, push_numbered};
use crate::places::{
    breach_area, cell_area, cell_width, close_area, column_left, grid_area, grid_left, is_behind,
    panel_area, panel_top, row_top, slots_of, strip_area,
};
use crate::sheet::{Sheet, sheet_height, sheet_width};
use arrayvec::ArrayString;
use itoa::Buffer;
use rb_base::{Biu, Heard, NodeSet, OutOfMemory, Place};
use rb_rules::Cause;

// The look of a sender's cells.
fn look_of(sender: u64) -> &'static str
    ensures { result.now ≡ look_of sender }
{
    match sender {
        0 => "s0",
        1 => "s1",
        2 => "s2",
        3 => "s3",
        4 => "s4",
        5 => "s5",
        6 => "s6",
        7 => "s7",
        8 => "s8",
        9 => "s9",
        10 => "s10",
        11 => "s11",
        12 => "s12",
        13 => "s13",
        14 => "s14",
        _ => "s15",
    }
}

fn cause_name(cause: Cause) -> &'static str
    ensures { result.now ≡ cause_name cause }
{
    match cause {
        Cause::FewGoodBiu => ": FewGoodBiu",
        Cause::FewGoodRmu => ": FewGoodRmu",
        Cause::TwoSided => ": TwoSided",
    }
}

fn cause_words(cause: Cause) -> &'static str
    ensures { result.now ≡ cause_words cause }
{
    match cause {
        Cause::FewGoodBiu => "the good BIUs are no majority",
        Cause::FewGoodRmu => "the good RMUs are no majority",
        Cause::TwoSided => "one BIU, one RMU told two things",
    }
}

/// A delivery.
#[tactic(auto, unfolding(crate::specs::Drawing::with_cell))]
pub(crate) fn push_cell(
    out: &mut Vec<u8>,
    extent: Extent,
    l: DeliveryLine,
) -> Result<(), OutOfMemory>
    ensures { OnOk result (out.new.items ≡ with_cell extent out.old.items l) }
{
    let area = cell_area(extent, l);
    let x = column_left(extent, u32::from(l.slot)) + cell_width(extent) / 2;
    let y = row_top(extent, l.frame, u64::from(l.receiver)) + 15;
    match l.value {
        Heard::Word(word) => {
            push_box(out, area, look_of(u64::from(l.sender)))?;
            push_numbered(out, x, y, "word", "", word)
        }
        Heard::Fault => {
            push_box(out, area, "none")?;
            push_label(out, x, y, "nothing", "", "none")
        }
    }
}

// The place at which the run broke off.
fn place_words(place: Place) -> ArrayString<96>
    ensures { result.bytes ≡ place_words place }
{
    let mut words = ArrayString::new();
    words.push_str("Breach in frame ");
    words.push_str(Buffer::new().format(place.frame));
    words.push_str(", slot ");
    words.push_str(Buffer::new().format(place.slot));
    words.push_str(", stage ");
    words.push_str(Buffer::new().format(place.stage));
    words
}

/// Under the title, where and why the run broke off, and what a report does not say.
#[tactic(auto, unfolding(crate::specs::Drawing::with_breach_words))]
pub(crate) fn push_breach_words(
    out: &mut Vec<u8>,
    place: Place,
    cause: Cause,
) -> Result<(), OutOfMemory>
    ensures { OnOk result (out.new.items ≡ with_breach_words out.old.items place cause) }
{
    let place = place_words(place);
    push_label(out, 20, 48, "cause", place.as_str(), cause_name(cause))?;
    push_label(out, 20, 66, "cause", cause_words(cause), "")?;
    push_label(out, 262, 66, "note", "a report names no culprit", "")
}

/// A breach: a line in its place, and the words.
#[tactic(auto, unfolding(crate::specs::Drawing::with_breach))]
pub(crate) fn push_breach(
    out: &mut Vec<u8>,
    extent: Extent,
    place: Place,
    cause: Cause,
) -> Result<(), OutOfMemory>
    ensures { OnOk result (out.new.items ≡ with_breach extent out.old.items place cause) }
{
    push_box(out, breach_area(extent, place), "breach")?;
    push_breach_words(out, place, cause)
}

/// Under the title, that the run came to its end.
#[tactic(auto, unfolding(crate::specs::Drawing::with_ending))]
pub(crate) fn push_ending(out: &mut Vec<u8>) -> Result<(), OutOfMemory>
    ensures { OnOk result (out.new.items ≡ with_ending out.old.items) }
{
    push_label(out, 20, 52, "note", "The run came to its end.", "")
}

/// The owner of a slot is drawn at its column.
#[tactic(auto, unfolding(crate::specs::Drawing::with_owner))]
pub(crate) fn push_owner(
    out: &mut Vec<u8>,
    extent: Extent,
    column: Column,
) -> Result<(), OutOfMemory>
    ensures { OnOk result (out.new.items ≡ with_owner extent out.old.items column) }
{
    let x = column_left(extent, u32::from(column.slot)) + cell_width(extent) / 2;
    let y = panel_top(extent, column.frame) + 58;
    push_numbered(out, x, y, "owner", "B", column.sender)
}

#[tactic(auto, unfolding(crate::specs::Drawing::with_name))]
fn push_name(
    out: &mut Vec<u8>,
    extent: Extent,
    frame: u32,
    letter: &str,
    row: u64,
    number: u16,
) -> Result<(), OutOfMemory>
    requires { row ≤ 131070 }
    ensures { OnOk result (out.new.items
        ≡ with_name extent frame out.old.items letter.now row number) }
{
    let y = row_top(extent, frame, row) + 15;
    push_numbered(out, 20, y, "name", letter, number)?;
    let slots = slots_of(extent);
    if 12 < slots {
        let x = grid_left(extent) + 8 + cell_width(extent) * slots;
        return push_numbered(out, x, y, "name", letter, number);
    }
    Ok(())
}

#[tactic(auto, using(crate::proofs::Turns::each_turns), unfolding(crate::specs::Drawing::with_names_of))]
fn push_names_of(
    out: &mut Vec<u8>,
    extent: Extent,
    frame: u32,
    letter: &str,
    above: u16,
    count: u16,
) -> Result<(), OutOfMemory>
    ensures { OnOk result (out.new.items
        ≡ with_names_of extent frame letter.now above count out.old.items) }
{
    for number in 0..count {
        let row = u64::from(above) + u64::from(number);
        push_name(out, extent, frame, letter, row, number)?;
    }
    Ok(())
}

#[tactic(auto, unfolding(crate::specs::Drawing::with_slot_number))]
fn push_slot_number(
    out: &mut Vec<u8>,
    extent: Extent,
    frame: u32,
    slot: u64,
) -> Result<(), OutOfMemory>
    requires { slot ≤ 4294967295 }
    ensures { OnOk result (out.new.items ≡ with_slot_number extent frame out.old.items slot) }
{
    let width = cell_width(extent);
    let x = grid_left(extent) + width * slot + width / 2;
    let y = panel_top(extent, frame) + 46;
    let number = u64::from(extent.low) + slot;
    push_numbered(out, x, y, "slot", "", number)
}

#[tactic(auto, using(crate::proofs::Turns::each_turns), unfolding(crate::specs::Drawing::with_slots))]
fn push_slots(out: &mut Vec<u8>, extent: Extent, frame: u32) -> Result<(), OutOfMemory>
    ensures { OnOk result (out.new.items ≡ with_slots extent frame out.old.items) }
{
    for slot in 0..slots_of(extent) {
        push_slot_number(out, extent, frame, slot)?;
    }
    Ok(())
}

#[tactic(auto, unfolding(crate::specs::Drawing::with_cross))]
fn push_cross(out: &mut Vec<u8>, y: u64, set: u16, number: u8) -> Result<(), OutOfMemory>
    requires { number ≤ 15 }
    ensures { OnOk result (out.new.items ≡ with_cross y set out.old.items number) }
{
    if NodeSet::<Biu>::from_bits(set).has(number) {
        return push_label(out, 60, y, "cross", "X", "");
    }
    Ok(())
}

#[tactic(auto, unfolding(crate::specs::Drawing::with_absence))]
fn push_absence(out: &mut Vec<u8>, y: u64, rows: Rows, number: u8) -> Result<(), OutOfMemory>
    requires { number ≤ 15 }
    ensures { OnOk result (out.new.items ≡ with_absence y rows out.old.items number) }
{
    let present = NodeSet::<Biu>::from_bits(rows.present);
    if u16::from(number) < rows.count && !present.has(number) {
        return push_label(out, 100, y, "absent", "absent", "");
    }
    Ok(())
}

#[tactic(auto, unfolding(crate::specs::Drawing::with_state))]
fn push_state(
    out: &mut Vec<u8>,
    extent: Extent,
    frame: u32,
    rows: Rows,
    number: u8,
) -> Result<(), OutOfMemory>
    requires { number ≤ 15 }
    ensures { OnOk result (out.new.items ≡ with_state extent frame rows out.old.items number) }
{
    let y = row_top(extent, frame, u64::from(rows.above) + u64::from(number)) + 15;
    push_cross(out, y, rows.convicted, number)?;
    push_absence(out, y, rows, number)
}

#[tactic(auto, using(crate::proofs::Turns::each_turns), unfolding(crate::specs::Drawing::with_states_of))]
fn push_states_of(
    out: &mut Vec<u8>,
    extent: Extent,
    frame: u32,
    rows: Rows,
) -> Result<(), OutOfMemory>
    ensures { OnOk result (out.new.items ≡ with_states_of extent frame rows out.old.items) }
{
    for number in 0..16 {
        push_state(out, extent, frame, rows, number)?;
    }
    Ok(())
}

#[tactic(auto, unfolding(crate::specs::Drawing::with_states))]
fn push_states(
    out: &mut Vec<u8>,
    extent: Extent,
    frame: u32,
    facts: Facts,
) -> Result<(), OutOfMemory>
    ensures { OnOk result (out.new.items ≡ with_states extent frame facts out.old.items) }
{
    let bius = Rows {
        above: 0,
        count: extent.bius,
        convicted: facts.convicted.biu,
        present: facts.present.biu,
    };
    let rmus = Rows {
        above: extent.bius,
        count: extent.rmus,
        convicted: facts.convicted.rmu,
        present: facts.present.rmu,
    };
    push_states_of(out, extent, frame, bius)?;
    push_states_of(out, extent, frame, rmus)
}

fn spread_unit(extent: Extent) -> &'static str
    ensures { result.now ≡ spread_unit extent }
{
    if extent.spread == 0 {
        ""
    } else {
        " units of time"
    }
}

fn spread_words(begins: Begins) -> ArrayString<96>
    ensures { result.bytes ≡ spread_words begins }
{
    let spread = begins.greatest.saturating_sub(begins.least);
    let mut words = ArrayString::new();
    words.push_str("spread ");
    words.push_str(Buffer::new().format(spread));
    words
}

// How far apart nodes begin a frame.
fn push_spread(out: &mut Vec<u8>, extent: Extent, y: u64, begins: Begins) -> Result<(), OutOfMemory>
    ensures { OnOk result (out.new.items
        ≡ with_label out.old.items 150 y (codes "note") (spread_words begins) (spread_unit extent)) }
{
    push_label(
        out,
        150,
        y,
        "note",
        spread_words(begins).as_str(),
        spread_unit(extent),
    )
}

// The axis of the starts, if they spread.
#[tactic(auto, unfolding(crate::specs::Drawing::with_axis))]
fn push_axis(out: &mut Vec<u8>, extent: Extent, frame: u32) -> Result<(), OutOfMemory>
    ensures { OnOk result (out.new.items ≡ with_axis extent frame out.old.items) }
{
    if extent.spread == 0 {
        return Ok(());
    }
    let top = panel_top(extent, frame);
    push_box(out, strip_area(extent, frame), "strip")?;
    push_label(out, 92, top + 46, "scale", "time after the first node", "")?;
    push_label(out, 92, top + 62, "scale", "0", "")?;
    push_numbered(out, 260, top + 62, "most", "", extent.spread)
}

#[tactic(auto, unfolding(crate::specs::Drawing::with_ground))]
fn push_ground(
    out: &mut Vec<u8>,
    extent: Extent,
    frame: u32,
    facts: Facts,
) -> Result<(), OutOfMemory>
    ensures { OnOk result (out.new.items ≡ with_ground extent frame facts out.old.items) }
{
    let top = panel_top(extent, frame);
    push_box(out, panel_area(extent, frame), "panel")?;
    push_numbered(out, 20, top + 24, "title", "frame ", frame)?;
    push_spread(out, extent, top + 24, facts.begins)?;
    push_label(out, grid_left(extent) - 13, top + 46, "slot", "slot", "")?;
    push_box(out, grid_area(extent, frame), "grid")
}

// A frame without what is in its cells.
#[tactic(auto, unfolding(crate::specs::Drawing::with_whole, crate::specs::Drawing::with_names))]
fn push_whole(
    out: &mut Vec<u8>,
    extent: Extent,
    frame: u32,
    facts: Facts,
) -> Result<(), OutOfMemory>
    ensures { OnOk result (out.new.items ≡ with_whole extent frame facts out.old.items) }
{
    push_ground(out, extent, frame, facts)?;
    push_axis(out, extent, frame)?;
    push_names_of(out, extent, frame, "B", 0, extent.bius)?;
    push_names_of(out, extent, frame, "R", extent.bius, extent.rmus)?;
    push_slots(out, extent, frame)?;
    push_states(out, extent, frame, facts)
}

// How many nodes of the set come before this one.
fn rank(set: u16, number: u8) -> u64
    requires { number ≤ 15 }
    ensures value { result ≡ rank set number }
    ensures most { result ≤ 16 }
{
    let lower = NodeSet::<Biu>::first(number).intersection(NodeSet::from_bits(set));
    u64::from(lower.count())
}

// The place at which a row of names begins, and how many names there are before those of a set.
#[derive(Clone, Copy)]
struct Names {
    x: u64,
    y: u64,
    before: u8,
    set: u16,
}

// The name of this node, if it is one of these.
#[tactic(auto, unfolding(crate::specs::Drawing::with_named))]
fn push_named(out: &mut Vec<u8>, letter: &str, names: Names, number: u8) -> Result<(), OutOfMemory>
    requires number { number ≤ 15 }
    requires x { names.x < 2 ^ 63 }
    ensures { OnOk result (out.new.items
        ≡ with_named names.x names.y letter.now names.before names.set out.old.items number) }
{
    if NodeSet::<Biu>::from_bits(names.set).has(number) {
        let x = names.x + 34 * (u64::from(names.before) + rank(names.set, number));
        return push_numbered(out, x, names.y, "newcomer", letter, number);
    }
    Ok(())
}

#[tactic(auto, using(crate::proofs::Turns::each_turns), unfolding(crate::specs::Drawing::with_named_of))]
fn push_named_of(out: &mut Vec<u8>, letter: &str, names: Names) -> Result<(), OutOfMemory>
    requires { names.x < 2 ^ 63 }
    ensures { OnOk result (out.new.items
        ≡ with_named_of names.x names.y letter.now names.before names.set out.old.items) }
{
    for number in 0..16 {
        push_named(out, letter, names, number)?;
    }
    Ok(())
}

/// The names of these nodes in a row.
#[tactic(auto, unfolding(crate::specs::Drawing::with_names_in))]
pub(crate) fn push_names_in(
    out: &mut Vec<u8>,
    x: u64,
    y: u64,
    nodes: Nodes,
) -> Result<(), OutOfMemory>
    requires { x < 2 ^ 63 }
    ensures { OnOk result (out.new.items ≡ with_names_in x y nodes out.old.items) }
{
    let first = Names {
        x,
        y,
        before: 0,
        set: nodes.biu,
    };
    let second = Names {
        x,
        y,
        before: NodeSet::<Biu>::from_bits(nodes.biu).count(),
        set: nodes.rmu,
    };
    push_named_of(out, "B", first)?;
    push_named_of(out, "R", second)
}

fn nobody_of(nodes: Nodes) -> &'static str
    ensures { result.now ≡ nobody_of nodes }
{
    let bius = NodeSet::<Biu>::from_bits(nodes.biu).count();
    let rmus = NodeSet::<Biu>::from_bits(nodes.rmu).count();
    if bius + rmus == 0 { " nobody" } else { "" }
}

// What the nodes hold as they begin the frame that would follow the run.
#[tactic(auto, unfolding(crate::specs::Drawing::with_close))]
fn push_close(
    out: &mut Vec<u8>,
    extent: Extent,
    frame: u32,
    facts: Facts,
) -> Result<(), OutOfMemory>
    ensures { OnOk result (out.new.items ≡ with_close extent frame facts out.old.items) }
{
    let top = panel_top(extent, frame);
    push_box(out, close_area(extent, frame), "panel")?;
    push_label(out, 20, top + 24, "title", "after the run", "")?;
    push_spread(out, extent, top + 24, facts.begins)?;
    push_label(
        out,
        20,
        top + 48,
        "note",
        "convicted:",
        nobody_of(facts.convicted),
    )?;
    push_names_in(out, 92, top + 48, facts.convicted)
}

/// A frame without what is in its cells, or what follows the run.
#[tactic(auto, unfolding(crate::specs::Drawing::with_panel))]
pub(crate) fn push_panel(
    out: &mut Vec<u8>,
    extent: Extent,
    frame: u32,
    facts: Facts,
) -> Result<(), OutOfMemory>
    ensures { OnOk result (out.new.items ≡ with_panel extent frame facts out.old.items) }
{
    if is_behind(extent, frame) {
        push_close(out, extent, frame, facts)
    } else {
        push_whole(out, extent, frame, facts)
    }
}

#[tactic(auto, unfolding(crate::specs::Drawing::with_sender))]
fn push_sender(out: &mut Vec<u8>, sender: u16) -> Result<(), OutOfMemory>
    ensures { OnOk result (out.new.items ≡ with_sender out.old.items sender) }
{
    let left = 60 * u64::from(sender);
    push_box(out, area(20 + left, 80, 16, 16), look_of(u64::from(sender)))?;
    push_numbered(out, 42 + left, 93, "name", "B", sender)
}

pub(crate) fn area(x: u64, y: u64, width: u64, height: u64) -> Area
    ensures { result ≡ record { x = x; y = y; width = width; height = height } }
{
    Area {
        x,
        y,
        width,
        height,
    }
}

#[tactic(auto, unfolding(crate::specs::Drawing::with_marks))]
fn push_marks(out: &mut Vec<u8>) -> Result<(), OutOfMemory>
    ensures { OnOk result (out.new.items ≡ with_marks out.old.items) }
{
    push_box(out, area(20, 105, 36, 18), "none")?;
    push_label(out, 38, 119, "nothing", "none", "")?;
    push_label(out, 64, 119, "note", "no majority", "")?;
    push_label(out, 240, 119, "cross", "X", "")?;
    push_label(out, 258, 119, "note", "convicted", "")
}

#[tactic(auto, unfolding(crate::specs::Drawing::with_strokes))]
fn push_strokes(out: &mut Vec<u8>) -> Result<(), OutOfMemory>
    ensures { OnOk result (out.new.items ≡ with_strokes out.old.items) }
{
    push_box(out, area(20, 130, 4, 14), "tick")?;
    push_label(out, 32, 142, "note", "a good node begins the frame", "")?;
    push_box(out, area(240, 128, 3, 18), "breach")?;
    push_label(out, 258, 142, "note", "breach of the fault premise", "")
}

#[tactic(auto, unfolding(crate::specs::Drawing::with_absent))]
fn push_absent(out: &mut Vec<u8>) -> Result<(), OutOfMemory>
    ensures { OnOk result (out.new.items ≡ with_absent out.old.items) }
{
    let meaning = "no line of this node: it is faulty, or not in the bus";
    push_label(out, 20, 165, "absent", "absent", "")?;
    push_label(out, 70, 165, "note", meaning, "")
}

#[tactic(auto, using(crate::proofs::Turns::each_turns), unfolding(crate::specs::Drawing::with_senders))]
fn push_senders(out: &mut Vec<u8>, extent: Extent) -> Result<(), OutOfMemory>
    ensures { OnOk result (out.new.items ≡ with_senders extent out.old.items) }
{
    for sender in 0..extent.bius {
        push_sender(out, sender)?;
    }
    Ok(())
}

/// What colors and signs mean.
#[tactic(auto, unfolding(crate::specs::Drawing::with_legend))]
pub(crate) fn push_legend(out: &mut Vec<u8>, extent: Extent) -> Result<(), OutOfMemory>
    ensures { OnOk result (out.new.items ≡ with_legend extent out.old.items) }
{
    push_senders(out, extent)?;
    push_marks(out)?;
    push_strokes(out)?;
    push_absent(out)
}

fn last_whole(extent: Extent) -> u32
    ensures { result ≡ last_whole extent }
{
    if is_behind(extent, extent.last) {
        extent.last.saturating_sub(1)
    } else {
        extent.last
    }
}

// Which of the run's frames are drawn.
fn frames_words(extent: Extent) -> ArrayString<96>
    ensures { result.bytes ≡ frames_words extent }
{
    let mut words = ArrayString::new();
    let last = last_whole(extent);
    if extent.last < extent.first {
        words.push_str("No frame");
    } else if is_behind(extent, extent.first) {
        words.push_str("After the last frame");
    } else if extent.first == last {
        words.push_str("Frame ");
        words.push_str(Buffer::new().format(extent.first));
    } else {
        words.push_str("Frames ");
        words.push_str(Buffer::new().format(extent.first));
        words.push_str(" to ");
        words.push_str(Buffer::new().format(last));
    }
    words
}

// How many frames the run has, if it came to its end.
fn run_words(extent: Extent) -> ArrayString<96>
    ensures { result.bytes ≡ run_words extent }
{
    let mut words = ArrayString::new();
    if extent.run < 4_294_967_296 {
        words.push_str(" of ");
        words.push_str(Buffer::new().format(extent.run));
    }
    words
}

#[tactic(auto, unfolding(crate::specs::Headings::with_frames))]
fn push_frames(out: &mut Vec<u8>, extent: Extent) -> Result<(), OutOfMemory>
    ensures { OnOk result (out.new.items ≡ with_frames extent out.old.items) }
{
    let (frames, run) = (frames_words(extent), run_words(extent));
    push_label(out, 20, 28, "title", frames.as_str(), run.as_str())
}

/// The page, and which frames are drawn.
#[tactic(auto, unfolding(crate::specs::Headings::with_heading))]
pub(crate) fn push_heading(out: &mut Vec<u8>, sheet: Sheet) -> Result<(), OutOfMemory>
    ensures { OnOk result (out.new.items ≡ with_heading sheet out.old.items) }
{
    let page = area(0, 0, sheet_width(sheet), sheet_height(sheet));
    push_box(out, page, "page")?;
    push_frames(out, sheet.extent)
}
