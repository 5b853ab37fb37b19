//! Walks over what the nodes of a kind have told.
ghost use Rattle.std.specs.Prelude.{◌≡◌, ℕ, ◌+◌, ◌<◌, ◌≤◌, ◌++◌, [], not, ◌&&◌, true, ◌==◌, if◌then◌else◌, nat_lt, option_to_list, length};
ghost use Rattle.rb_base.specs.Nodes.{has, set_of};
ghost use Rattle.rb_rules.specs.WorldStep.{row_for};
ghost use Rattle.rb_world_book.specs.Telling.{has_told, row_told};
ghost use Rattle.rb_world_book.specs.Waiting.{first_trusted, found_of, line_of, node_line_of, port_line_of, row_at, waiting_for, was_taken, was_unlike};

use crate::milestone::Milestone;
use crate::told::Told;
use arrayvec::ArrayVec;
use rb_base::{NodeId, NodeSet, Place};
use rb_judge::SourceSights;
use rb_rules::{NodeLine, PortLine, SlotLine};

// The nodes of a set that are among the first `count`.
fn those_below<K: Copy>(count: u8, set: NodeSet<K>) -> NodeSet<K>
    requires { count ≤ 16 }
    ensures { result ≡ set_of (λ i. nat_lt i count && has set i) }
{
    NodeSet::first(count).intersection(set)
}

/// The set with node i if and only if `member`.
pub(crate) fn with_or_without<K: Copy>(set: NodeSet<K>, i: u8, member: bool) -> NodeSet<K>
    requires { i < 16 }
    ensures { result ≡ set_of (λ k. if k == i then member else has set k) }
{
    let mut changed = NodeSet::from_bits(set.bits());
    if member {
        changed.insert(NodeId::of(i));
    } else {
        changed.remove(NodeId::of(i));
    }
    changed
}

fn is_awaited(told: &Told, milestone: Milestone) -> bool
    ensures { result ≡ not (has_told milestone told.now) }
{
    !told.has_told(milestone)
}

/// The nodes below `count` that are good and have not told of the milestone.
pub(crate) fn waiting_for<K: Copy>(
    count: u8,
    good: NodeSet<K>,
    milestone: Milestone,
    told: &[Told; 16],
) -> NodeSet<K>
    requires { count ≤ 16 }
    ensures { result ≡ waiting_for count good milestone told.now }
{
    let mut waiting = NodeSet::empty();
    let mut left = those_below(count, good);
    while let Some(id) = left.pop_first() {
        let i = id.index();
        let member = is_awaited(&told[usize::from(i)], milestone);
        waiting = with_or_without(waiting, i, member);
    }
    waiting
}

// Adds the item, if there is one.
fn add<T: Drop, const N: usize>(items: &mut ArrayVec<T, N>, item: Option<T>)
    requires { length items.old.items < N }
    ensures { items.new.items ≡ items.old.items ++ option_to_list item }
{
    if let Some(item) = item {
        items.push(item);
    }
}

fn node_line(told: &Told, frame: u32) -> Option<NodeLine>
    ensures { result ≡ node_line_of frame true told.now }
{
    match told.begun {
        Some(begun) if begun.frame == frame => Some(begun.line),
        _ => None,
    }
}

fn port_line(told: &Told, frame: u32) -> Option<PortLine>
    ensures { result ≡ port_line_of frame true told.now }
{
    match told.begun {
        Some(begun) if begun.frame == frame => Some(begun.port),
        _ => None,
    }
}

fn slot_line(told: &Told, place: Place) -> Option<SlotLine>
    ensures { result ≡ line_of place true told.now }
{
    match told.line {
        Some(line) if told.has_told(Milestone::Stage(place)) => Some(line),
        _ => None,
    }
}

/// Adds the lines of the nodes below `count` that are good and began the frame.
pub(crate) fn add_node_lines<K: Copy>(
    lines: &mut ArrayVec<NodeLine, 32>,
    count: u8,
    good: NodeSet<K>,
    frame: u32,
    told: &[Told; 16],
)
    requires count { count ≤ 16 }
    requires room { length lines.old.items ≤ 16 }
    ensures lines { lines.new.items
        ≡ lines.old.items ++ found_of (λ i t. node_line_of frame (has good i) t) count told.now }
    ensures most { length lines.new.items ≤ length lines.old.items + count }
{
    let mut left = those_below(count, good);
    while let Some(id) = left.pop_first() {
        let line = node_line(&told[usize::from(id.index())], frame);
        add(lines, line);
    }
}

/// The ports of the BIUs below `count` that are good and began the frame.
pub(crate) fn port_lines<K: Copy>(
    count: u8,
    good: NodeSet<K>,
    frame: u32,
    told: &[Told; 16],
) -> ArrayVec<PortLine, 16>
    requires { count ≤ 16 }
    ensures { result.items ≡ found_of (λ i t. port_line_of frame (has good i) t) count told.now }
{
    let mut lines = ArrayVec::new();
    let mut left = those_below(count, good);
    while let Some(id) = left.pop_first() {
        let line = port_line(&told[usize::from(id.index())], frame);
        add(&mut lines, line);
    }
    lines
}

/// What the good ones of the first `count` BIUs delivered in a stage, in place of the lines so far.
pub(crate) fn slot_lines<K: Copy>(
    lines: &mut ArrayVec<SlotLine, 16>,
    count: u8,
    good: NodeSet<K>,
    place: Place,
    told: &[Told; 16],
)
    requires { count ≤ 16 }
    ensures { lines.new.items ≡ found_of (λ i t. line_of place (has good i) t) count told.now }
{
    lines.clear();
    let mut left = those_below(count, good);
    while let Some(id) = left.pop_first() {
        let line = slot_line(&told[usize::from(id.index())], place);
        add(lines, line);
    }
}

fn trusted_in(told: &Told, place: Place) -> Option<(u16, u16)>
    ensures { result ≡ first_trusted (option_to_list (row_for place (row_told told.now))) }
{
    if told.has_told(Milestone::Stage(place)) {
        Some((told.biu, told.rmu))
    } else {
        None
    }
}

/// The trusted nodes of both kinds, as masks, as they were held by the first of the nodes below
/// `count` that is good and told of a stage; None if there is no such node.
pub(crate) fn first_trusted<K: Copy>(
    count: u8,
    good: NodeSet<K>,
    place: Place,
    told: &[Told; 16],
) -> Option<(u16, u16)>
    requires { count ≤ 16 }
    ensures { result ≡ first_trusted (found_of (row_at good place) count told.now) }
{
    let mut left = those_below(count, good);
    while let Some(id) = left.pop_first() {
        let trusted = trusted_in(&told[usize::from(id.index())], place);
        if trusted.is_some() {
            return trusted;
        }
    }
    None
}

/// What is kept of what the good ones of the first `count` receivers saw of a source.
pub(crate) fn sights_of<K: Copy>(
    eps: u32,
    count: u8,
    good: NodeSet<K>,
    told: &[Told; 16],
    source: u8,
) -> SourceSights
    requires count { count ≤ 16 }
    requires source { source < 16 }
    ensures heard { result.heard ≡ was_taken count good told.now source }
    ensures unlike { result.unlike ≡ was_unlike eps count good told.now source }
{
    let receivers = those_below(count, good);
    let mut sights = SourceSights::none();
    let mut left = receivers;
    while let Some(receiver) = left.pop_first() {
        let i = receiver.index();
        let see = told[usize::from(i)].see(source);
        sights = sights.noted(receivers, eps, i, see);
    }
    sights
}
