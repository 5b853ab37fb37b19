//! What is looked up among the least times of all nodes.
ghost use Rattle.std.specs.Prelude.{◌≡◌, ◌+◌, ◌<◌, ◌≤◌, All, length, nat_lt, if◌then◌else◌};
ghost use Rattle.rb_rules.specs.Book.{in_order};
ghost use Rattle.rb_queue.specs.Waiting.{HasLane, lane_of, tick_time_of};
ghost use Rattle.rb_world_agenda.specs.Agenda.{AreFew, AreTicks, StandsAt, due_count, due_in, first_time, is_tick, key_of, keys_of, mark_of, node_at, position_of, tick_times, ticks_after};
ghost use Rattle.rb_world_agenda.specs.Fronts.{IsFront};
ghost use Rattle.rb_world_agenda.specs.Fours.{AreFours};

use crate::run_lanes::RunLanes;
use crate::tick_marks::Marks;
use rb_base::{EventKind, NodeName};

// The node at a position, BIUs before RMUs.
pub(crate) fn node_at(bius: usize, position: usize) -> NodeName
    requires bius { bius ≤ 16 }
    requires position { position < 256 }
    ensures { result ≡ node_at bius position }
{
    if position < bius {
        NodeName::Biu(position as u8)
    } else {
        NodeName::Rmu((position - bius) as u8)
    }
}

pub(crate) fn position_of(bius: usize, node: NodeName) -> usize
    requires { bius ≤ 16 }
    ensures { result ≡ position_of bius node }
{
    match node {
        NodeName::Biu(i) => usize::from(i),
        NodeName::Rmu(i) => bius + usize::from(i),
    }
}

// The least time at a node, or the last time that there is.
pub(crate) fn key_of(lanes: &RunLanes, node: NodeName) -> u64
    requires { HasLane lanes.now node }
    ensures value { result ≡ key_of (lane_of lanes.now node) }
    ensures small { result ≤ 18446744073709551615 }
{
    lanes.head(node).unwrap_or(u64::MAX)
}

/// The least of the keys, and the first place that has it.
#[derive(Clone, Copy)]
pub struct Front {
    pub(crate) first: usize,
    pub(crate) least: u64,
}

// One key more is looked at.
fn with_key(front: Front, place: usize, key: u64) -> Front
    ensures { result ≡ (if nat_lt key front.least then record { first = place; least = key }
        else front) }
{
    if key < front.least {
        Front {
            first: place,
            least: key,
        }
    } else {
        front
    }
}

// The least time of all nodes, or the last time that there is.
pub(crate) fn least_of(lanes: &RunLanes, bius: usize, nodes: usize) -> u64
    requires few { AreFew lanes.now bius }
    requires many { nodes ≡ length (keys_of lanes.now) }
    ensures value { result ≡ first_time lanes.now }
    ensures times { All (λ k. k ≤ 18446744073709551615) (keys_of lanes.now) }
{
    let mut least = u64::MAX;
    for position in 0..nodes {
        least = least.min(key_of(lanes, node_at(bius, position)));
    }
    least
}

#[inline(always)]
pub(crate) fn is_tick(kind: &EventKind) -> bool
    ensures { result ≡ is_tick kind.now }
{
    match kind {
        EventKind::Arrive { .. } => false,
        EventKind::Tick { .. } => true,
    }
}

// The mark of a tick: its time, and then the position of its node.
#[inline(always)]
pub(crate) fn mark_of(position: usize, time: u64) -> u64
    requires { position < 32 }
    ensures { result ≡ mark_of position time }
{
    if time < 576460752303423488 {
        time * 32 + position as u64
    } else {
        u64::MAX
    }
}

// The time of a node's tick, or the last time that there is.
fn tick_time_of(lanes: &RunLanes, node: NodeName) -> u64
    requires { HasLane lanes.now node }
    ensures { result ≡ tick_time_of (lane_of lanes.now node) }
{
    lanes.tick(node).unwrap_or(u64::MAX)
}

// The front of the ticks, node by node.
#[inline(never)]
fn late_front(lanes: &RunLanes, bius: usize, count: usize) -> Front
    requires few { AreFew lanes.now bius }
    requires many { count ≡ length (tick_times lanes.now) }
    ensures front { IsFront (tick_times lanes.now) result }
    ensures few { result.first < 32 }
{
    let mut front = Front {
        first: 0,
        least: u64::MAX,
    };
    for position in 0..count {
        let key = tick_time_of(lanes, node_at(bius, position));
        front = with_key(front, position, key);
    }
    front
}

// The front of the ticks: mostly it is read off the least of the marks.
#[inline(always)]
pub(crate) fn tick_front(lanes: &RunLanes, ticks: &mut Marks, bius: usize, count: usize) -> Front
    requires few { AreFew lanes.now bius }
    requires many { count ≡ length (tick_times lanes.now) }
    requires ticks { AreTicks lanes.now ticks.old.all }
    requires fours { AreFours ticks.old.all ticks.old.leasts ticks.old.opened ticks.old.at }
    ensures front { IsFront (tick_times lanes.now) result }
    ensures few { result.first < 32 }
    ensures ticks { ticks.new.all ≡ ticks.old.all }
    ensures fours { AreFours ticks.new.all ticks.new.leasts ticks.new.opened ticks.new.at }
{
    let least = ticks.least();
    if least == u64::MAX {
        return late_front(lanes, bius, count);
    }
    Front {
        first: (least % 32) as usize,
        least: least / 32,
    }
}

// An event of the node whose place this is was taken.
pub(crate) fn after_event(ticks: &mut Marks, place: usize, kind: &EventKind)
    requires place { place < 32 }
    requires fours { AreFours ticks.old.all ticks.old.leasts ticks.old.opened ticks.old.at }
    ensures ticks { ticks.new.all ≡ ticks_after kind.now place ticks.old.all }
    ensures fours { AreFours ticks.new.all ticks.new.leasts ticks.new.opened ticks.new.at }
{
    if is_tick(kind) {
        ticks.put(place, u64::MAX);
    }
}

// How many events of a node are due at a time.
fn due_in(lanes: &RunLanes, node: NodeName, time: u64) -> usize
    requires lane { HasLane lanes.now node }
    requires short { (lane_of lanes.now node).room ≤ 65536 }
    ensures value { result ≡ length (due_in time (lane_of lanes.now node)) }
    ensures few { result ≤ 65537 }
{
    let key = key_of(lanes, node);
    if key == time { lanes.ready(node) } else { 0 }
}

// How many events are due at a time.
pub(crate) fn due_count(lanes: &RunLanes, bius: usize, nodes: usize, time: u64) -> usize
    requires few { AreFew lanes.now bius }
    requires many { nodes ≡ length (keys_of lanes.now) }
    ensures { result ≡ due_count time (in_order lanes.now) }
{
    let mut count = 0;
    for position in 0..nodes {
        count += due_in(lanes, node_at(bius, position), time);
    }
    count
}

// The node of the i-th event that is due at a time, and the event's place among those that are
// ready there.
pub(crate) fn locate(
    lanes: &RunLanes,
    bius: usize,
    nodes: usize,
    time: u64,
    i: usize,
) -> (NodeName, usize)
    requires few { AreFew lanes.now bius }
    requires many { nodes ≡ length (keys_of lanes.now) }
    requires below { i < due_count time (in_order lanes.now) }
    ensures { StandsAt lanes.now time i result.0 result.1 }
{
    let mut left = i;
    for position in 0..nodes {
        let node = node_at(bius, position);
        let due = due_in(lanes, node, time);
        if left < due {
            return (node, left);
        }
        left -= due;
    }
    (NodeName::Biu(0), left)
}
