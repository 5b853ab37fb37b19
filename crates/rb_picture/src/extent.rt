//! What the lines of the frames asked for span.
ghost use Rattle.std.specs.Prelude.{◌≡◌};
ghost use Rattle.rb_picture.specs.Extents.{both, extent_after, extent_of, facts_after, facts_of, is_asked, is_between, least_rows, mark_of, newest_after, top_of, with_begin, with_breach, with_busy, with_frame, with_name, with_node, with_number, with_present, with_sets, with_slot, with_word};

use crate::line::Line;
use rb_base::{Biu, Heard, NodeId, NodeName, NodeSet, Place};
use rb_rules::Cause;

/// Frames, nodes, slots, and the greatest word and spread: what a picture has to have room for. Of
/// the frames the first and the last, of the nodes of a kind one more than the greatest number, of
/// the slots the lowest and one more than the highest. `busy` is one more than the last frame with
/// a delivery or a breach, and `run` is how many frames a run has that came to its end, else 2^32.
#[derive(Clone, Copy)]
pub struct Extent {
    pub first: u32,
    pub last: u32,
    pub bius: u16,
    pub rmus: u16,
    pub low: u16,
    pub high: u32,
    pub word: u32,
    pub spread: u64,
    pub busy: u64,
    pub run: u64,
}

/// The first and the last time at which a good node begins a frame.
#[derive(Clone, Copy)]
pub struct Begins {
    pub frame: u32,
    pub least: u64,
    pub greatest: u64,
}

fn is_between(first: u32, last: u32, frame: u32) -> bool
    ensures { result ≡ is_between first last frame }
{
    first <= frame && frame <= last
}

/// Whether the line is of a frame from first to last. That a run came to its end is always wanted.
pub(crate) fn is_asked(first: u32, last: u32, line: Line) -> bool
    ensures { result ≡ is_asked first last line }
{
    match line {
        Line::Epoch(l) => is_between(first, last, l.frame),
        Line::Convicted(l) => is_between(first, last, l.frame),
        Line::Port(l) => is_between(first, last, l.frame),
        Line::Delivery(l) => is_between(first, last, l.frame),
        Line::End(_) => true,
        Line::Breach(place, _) => is_between(first, last, place.frame),
    }
}

/// Nodes of both kinds, as masks.
#[derive(Clone, Copy)]
pub struct Nodes {
    pub biu: u16,
    pub rmu: u16,
}

/// What the lines of a frame say: when it begins, whom any node holds convicted, and of which nodes
/// they are.
#[derive(Clone, Copy)]
pub struct Facts {
    pub begins: Begins,
    pub convicted: Nodes,
    pub present: Nodes,
}

/// The newest frame: one more than its number, or 0 before the first, and what its lines say.
#[derive(Clone, Copy)]
pub struct Newest {
    pub mark: u64,
    pub facts: Facts,
}

/// The rows of the nodes of a kind: how many rows are above them, how many they are, and which
/// nodes are convicted and present.
#[derive(Clone, Copy)]
pub struct Rows {
    pub above: u16,
    pub count: u16,
    pub convicted: u16,
    pub present: u16,
}

const NO_EXTENT: Extent = Extent {
    first: u32::MAX,
    last: 0,
    bius: 0,
    rmus: 0,
    low: u16::MAX,
    high: 0,
    word: 0,
    spread: 0,
    busy: 0,
    run: 4_294_967_296,
};

const NO_BEGINS: Begins = Begins {
    frame: 0,
    least: u64::MAX,
    greatest: 0,
};

const NO_NODES: Nodes = Nodes { biu: 0, rmu: 0 };

pub(crate) const NO_FACTS: Facts = Facts {
    begins: NO_BEGINS,
    convicted: NO_NODES,
    present: NO_NODES,
};

const NO_NEWEST: Newest = Newest {
    mark: 0,
    facts: NO_FACTS,
};

fn with_begin(begins: Begins, frame: u32, time: u64) -> Begins
    ensures { result ≡ with_begin begins frame time }
{
    if begins.frame == frame {
        Begins {
            frame,
            least: begins.least.min(time),
            greatest: begins.greatest.max(time),
        }
    } else {
        Begins {
            frame,
            least: time,
            greatest: time,
        }
    }
}

/// One more than the greatest number of the set with this mask, 0 for the empty set.
#[tactic(auto, using(crate::proofs::Turns::top_turns))]
fn top_of(set: u16) -> u16
    ensures { result ≡ top_of set }
{
    let nodes = NodeSet::<Biu>::from_bits(set);
    let mut top = 0;
    for number in 0..16u8 {
        if nodes.has(number) {
            top = u16::from(number) + 1;
        }
    }
    top
}

fn with_frame(extent: Extent, frame: u32) -> Extent
    ensures { result ≡ with_frame extent frame }
{
    Extent {
        first: extent.first.min(frame),
        last: extent.last.max(frame),
        ..extent
    }
}

fn with_node(extent: Extent, node: NodeName) -> Extent
    ensures { result ≡ with_node extent node }
{
    match node {
        NodeName::Biu(i) => Extent {
            bius: extent.bius.max(u16::from(i) + 1),
            ..extent
        },
        NodeName::Rmu(i) => Extent {
            rmus: extent.rmus.max(u16::from(i) + 1),
            ..extent
        },
    }
}

fn with_sets(extent: Extent, biu: u16, rmu: u16) -> Extent
    ensures { result ≡ with_sets extent biu rmu }
{
    Extent {
        bius: extent.bius.max(top_of(biu)),
        rmus: extent.rmus.max(top_of(rmu)),
        ..extent
    }
}

fn with_slot(extent: Extent, slot: u16) -> Extent
    ensures { result ≡ with_slot extent slot }
{
    Extent {
        low: extent.low.min(slot),
        high: extent.high.max(u32::from(slot) + 1),
        ..extent
    }
}

fn with_word(extent: Extent, value: Heard) -> Extent
    ensures { result ≡ with_word extent value }
{
    match value {
        Heard::Word(word) => Extent {
            word: extent.word.max(word),
            ..extent
        },
        Heard::Fault => extent,
    }
}

/// One more than the frame of the line, and this number for the end of a run.
pub(crate) fn mark_of(mark: u64, line: Line) -> u64
    ensures { result ≡ mark_of mark line }
{
    match line {
        Line::Epoch(l) => u64::from(l.frame) + 1,
        Line::Convicted(l) => u64::from(l.frame) + 1,
        Line::Port(l) => u64::from(l.frame) + 1,
        Line::Delivery(l) => u64::from(l.frame) + 1,
        Line::End(_) => mark,
        Line::Breach(place, _) => u64::from(place.frame) + 1,
    }
}

fn both(first: u16, second: u16) -> u16
    ensures { result ≡ both first second }
{
    NodeSet::<Biu>::from_bits(first)
        .union(NodeSet::from_bits(second))
        .bits()
}

// The set with one more node, which a bus has.
fn with_number(set: u16, number: u8) -> u16
    ensures { result ≡ with_number set number }
{
    if number < 16 {
        let mut nodes = NodeSet::<Biu>::from_bits(set);
        nodes.insert(NodeId::of(number));
        return nodes.bits();
    }
    set
}

fn with_name(nodes: Nodes, node: NodeName) -> Nodes
    ensures { result ≡ with_name nodes node }
{
    match node {
        NodeName::Biu(i) => Nodes {
            biu: with_number(nodes.biu, i),
            ..nodes
        },
        NodeName::Rmu(i) => Nodes {
            rmu: with_number(nodes.rmu, i),
            ..nodes
        },
    }
}

fn with_present(facts: Facts, node: NodeName) -> Facts
    ensures { result ≡ with_present facts node }
{
    Facts {
        present: with_name(facts.present, node),
        ..facts
    }
}

fn facts_after(facts: Facts, line: Line) -> Facts
    ensures { result ≡ facts_after facts line }
{
    match line {
        Line::Epoch(l) => {
            let begins = with_begin(facts.begins, l.frame, l.time);
            with_present(Facts { begins, ..facts }, l.node)
        }
        Line::Convicted(l) => {
            let convicted = Nodes {
                biu: both(facts.convicted.biu, l.biu),
                rmu: both(facts.convicted.rmu, l.rmu),
            };
            with_present(Facts { convicted, ..facts }, l.node)
        }
        Line::Port(l) => with_present(facts, NodeName::Biu(l.biu)),
        Line::Delivery(l) => with_present(facts, NodeName::Biu(l.receiver)),
        Line::End(_) | Line::Breach(_, _) => facts,
    }
}

/// What the lines of the frame with this number less one say, which are the first of the lines.
#[tactic(auto, using(crate::proofs::Turns::line_turns))]
pub(crate) fn facts_of(mark: u64, lines: &[Line]) -> Facts
    ensures { result ≡ facts_of mark lines.now }
{
    let mut facts = NO_FACTS;
    for line in lines {
        if mark_of(0, *line) != mark {
            return facts;
        }
        facts = facts_after(facts, *line);
    }
    facts
}

#[tactic(auto, unfolding(crate::specs::Extents::newest_after))]
fn newest_after(newest: Newest, line: Line) -> Newest
    ensures { result ≡ newest_after newest line }
{
    let mark = mark_of(newest.mark, line);
    let known = if mark == newest.mark {
        newest.facts
    } else {
        NO_FACTS
    };
    Newest {
        mark,
        facts: facts_after(known, line),
    }
}

// Something is delivered in the frame, or the run breaks off in it.
fn with_busy(extent: Extent, frame: u32) -> Extent
    ensures { result ≡ with_busy extent frame }
{
    Extent {
        busy: extent.busy.max(u64::from(frame) + 1),
        ..extent
    }
}

// How many nodes of a kind the bus has at least if these good nodes do not outnumber the others
// that are not convicted.
#[tactic(auto, unfolding(crate::specs::Extents::least_rows))]
fn least_rows(present: u16, convicted: u16) -> u16
    ensures { result ≡ least_rows present convicted }
{
    let good = NodeSet::<Biu>::from_bits(present).count();
    let others = NodeSet::<Biu>::from_bits(convicted).count();
    (2 * u16::from(good) + u16::from(others)).min(16)
}

// Room for the faulty nodes that a breach in the first slot of a frame implies.
fn with_breach(extent: Extent, facts: Facts, place: Place, cause: Cause) -> Extent
    ensures { result ≡ with_breach extent facts place cause }
{
    if place.slot != 0 {
        return extent;
    }
    let (present, convicted) = (facts.present, facts.convicted);
    match cause {
        Cause::FewGoodBiu => Extent {
            bius: extent.bius.max(least_rows(present.biu, convicted.biu)),
            ..extent
        },
        Cause::FewGoodRmu => Extent {
            rmus: extent.rmus.max(least_rows(present.rmu, convicted.rmu)),
            ..extent
        },
        Cause::TwoSided => extent,
    }
}

fn extent_after(extent: Extent, facts: Facts, line: Line) -> Extent
    ensures { result ≡ extent_after extent facts line }
{
    match line {
        Line::Epoch(l) => {
            let extent = with_node(with_frame(extent, l.frame), l.node);
            let spread = facts.begins.greatest.saturating_sub(facts.begins.least);
            Extent {
                spread: extent.spread.max(spread),
                ..extent
            }
        }
        Line::Convicted(l) => with_sets(
            with_node(with_frame(extent, l.frame), l.node),
            l.biu,
            l.rmu,
        ),
        Line::Port(l) => with_node(with_frame(extent, l.frame), NodeName::Biu(l.biu)),
        Line::Delivery(l) => {
            let extent = with_busy(with_frame(extent, l.frame), l.frame);
            let extent = with_node(extent, NodeName::Biu(l.receiver));
            let extent = with_node(extent, NodeName::Biu(l.sender));
            with_word(with_slot(extent, l.slot), l.value)
        }
        Line::End(frames) => Extent {
            run: u64::from(frames),
            ..extent
        },
        Line::Breach(place, cause) => {
            let extent = with_busy(with_frame(extent, place.frame), place.frame);
            with_breach(with_slot(extent, place.slot), facts, place, cause)
        }
    }
}

/// What the lines span.
#[tactic(auto, using(crate::proofs::Turns::line_turns))]
pub(crate) fn extent_of(lines: &[Line]) -> Extent
    ensures { result ≡ extent_of lines.now }
{
    let mut extent = NO_EXTENT;
    let mut newest = NO_NEWEST;
    for line in lines {
        newest = newest_after(newest, *line);
        extent = extent_after(extent, newest.facts, *line);
    }
    extent
}
