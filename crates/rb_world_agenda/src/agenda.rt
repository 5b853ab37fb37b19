//! The agenda of all nodes.
ghost use Rattle.std.specs.Prelude.{◌≡◌, ℕ, ◌<◌, ◌≤◌, [], length, slice_get, IfOk, Some};
ghost use Rattle.rb_base.specs.Nodes.{Side};
ghost use Rattle.rb_base.specs.Sizes.{Sizes};
ghost use Rattle.rb_rules.specs.Book.{Each, each_of};
ghost use Rattle.rb_rules.specs.Goodness.{Scenario};
ghost use Rattle.rb_rules.specs.Links.{name_of};
ghost use Rattle.rb_rules.specs.WorldStep.{Site, World};
ghost use Rattle.rb_queue.specs.Waiting.{HasLane, IsFirstBefore, empty_lane, lane_of, ready_event, ready_of, spare_of, with_arrival, with_lane, with_tick, without_before, without_events, without_place, without_tick};
ghost use Rattle.rb_world_agenda.specs.Agenda.{IsDue, IsFirstAhead, StandsAt, Takes, TakesDue, due_now, first_tick_time, first_time, how_many};
ghost use Rattle.rb_world_agenda.specs.Holding.{HoldsSites};

use crate::run_lanes::RunLanes;
use crate::scan::{
    after_event, due_count, least_of, locate, mark_of, node_at, position_of, tick_front,
};
use crate::tick_marks::Marks;
use arrayvec::ArrayVec;
use rb_base::{Event, NodeName, OutOfMemory, Shape};
use rb_queue::Arrival;
use std::alloc::Global;
use std::marker::Model;

/// The pending events of the nodes of a bus, and which of them may be taken next: those of the
/// least time, node by node.
#[derive(Drop)]
pub struct Agenda {
    lanes: RunLanes,
    // For each node, by its position, the mark of its tick: 32 times the time, plus the position,
    // if the time is below 2^59, and otherwise 2^64 - 1. All 32 are there, also of positions
    // without a node.
    ticks: Marks,
    bius: usize,
    nodes: usize,
}

impl Model for Agenda {
    ghost use Rattle.std.specs.Prelude.{◌≡◌, length};
    ghost use Rattle.rb_rules.specs.Book.{Each};
    ghost use Rattle.rb_queue.specs.Waiting.{Held};
    ghost use Rattle.rb_world_agenda.specs.Agenda.{AreFew, AreTicks, keys_of};
    ghost use Rattle.rb_world_agenda.specs.Fours.{AreFours};

    ghost Value = { Each Held };

    ghost view = { λ a. a.lanes };

    ghost invariant = { λ a. AreFew a.lanes a.bius × (a.nodes ≡ length (keys_of a.lanes))
        × AreTicks a.lanes a.ticks.all
        × AreFours a.ticks.all a.ticks.leasts a.ticks.opened a.ticks.at };
}

impl Agenda {
    /// No event, and at each node of the shape room for `room` events, at most 65536. All memory is
    /// taken here.
    pub fn new(alloc: Global, shape: &Shape, room: usize) -> Result<Agenda, OutOfMemory>
        requires { room ≤ 65536 }
        ensures { IfOk result (λ a. a ≡ each_of shape.now (λ side i. empty_lane room)) }
    {
        let lanes = RunLanes::new(alloc, shape, room)?;
        let bius = usize::from(shape.biu());
        Ok(Agenda {
            lanes,
            ticks: Marks::new(),
            bius,
            nodes: bius + usize::from(shape.rmu()),
        })
    }

    /// How many events more there is room for at the node.
    pub fn spare(&self, node: NodeName) -> usize
        requires in_shape { HasLane self.now node }
        ensures value { result ≡ spare_of (lane_of self.now node) }
    {
        self.lanes.spare(node)
    }

    /// Adds what comes to a node from a sender, due at this time in reference units. There is room
    /// for it.
    #[inline(always)]
    pub fn push_arrival(&mut self, node: NodeName, time: u64, from: u8, bytes: ArrayVec<u8, 32>)
        requires in_shape { HasLane self.old node }
        requires spare { 1 ≤ spare_of (lane_of self.old node) }
        ensures after { self.new ≡ with_lane node
            (with_arrival (record { time = time; from = from; bytes = bytes.items }) (lane_of self.old node))
            self.old }
    {
        self.lanes.push(node, Arrival::new(time, from, bytes));
    }

    /// Adds what comes to a node, due at this time in reference units, with the sender and the
    /// bytes of another arrival: for a message that comes to many. There is room for it.
    #[inline(always)]
    pub fn push_like(&mut self, node: NodeName, time: u64, like: &Arrival)
        requires in_shape { HasLane self.old node }
        requires spare { 1 ≤ spare_of (lane_of self.old node) }
        ensures after { self.new ≡ with_lane node
            (with_arrival (record like.now { time = time }) (lane_of self.old node))
            self.old }
    {
        self.lanes.push(node, like.at(time));
    }

    /// The node's tick is pending, due at this time in reference units.
    #[inline(always)]
    pub fn push_tick(&mut self, node: NodeName, time: u64)
        requires in_shape { HasLane self.old node }
        ensures after { self.new ≡ with_lane node (with_tick time (lane_of self.old node))
            self.old }
    {
        self.lanes.push_tick(node, time);
        let place = position_of(self.bius, node);
        self.ticks.put(place, mark_of(place, time));
    }

    /// The least time of all events, in reference units; 2^64 - 1 if there is none.
    pub fn first_time(&self) -> u64
        ensures value { result ≡ first_time self.now }
    {
        least_of(&self.lanes, self.bius, self.nodes)
    }

    /// How many events are due: those of the least time that may be taken.
    pub fn due(&self) -> usize
        ensures value { result ≡ how_many self.now }
        ensures world { (sc : Scenario) → (w : World) → HoldsSites sc.sizes self.now w.sites
            → result ≡ length (due_now sc w) }
    {
        let time = least_of(&self.lanes, self.bius, self.nodes);
        due_count(&self.lanes, self.bius, self.nodes, time)
    }

    /// The node at which the i-th due event waits, counted from 0, and the event's place among
    /// those that are ready there.
    pub fn locate(&self, i: usize) -> (NodeName, usize)
        requires below { i < how_many self.now }
        ensures stands { StandsAt self.now (first_time self.now) i result.0 result.1 }
        ensures world { (sc : Scenario) → (w : World) → HoldsSites sc.sizes self.now w.sites
            → IsDue sc w self.now i result.0 result.1 }
    {
        let time = least_of(&self.lanes, self.bius, self.nodes);
        locate(&self.lanes, self.bius, self.nodes, time, i)
    }

    /// The event at this place among those that are ready at the node.
    pub fn event(&self, node: NodeName, place: usize) -> Event
        requires in_shape { HasLane self.now node }
        requires below { place < length (ready_of (lane_of self.now node)) }
        ensures value { ready_event node place (lane_of self.now node) ≡ Some result }
    {
        self.lanes.event(node, place)
    }

    /// Takes the i-th due event, counted from 0, out of the lane of its node, and no other.
    pub fn take(&mut self, i: usize) -> (NodeName, Event)
        requires below { i < how_many self.old }
        ensures taken { Takes self.old i result.0 result.1 self.new }
        ensures world { (sc : Scenario) → (w : World) → HoldsSites sc.sizes self.old w.sites
            → TakesDue sc w i (first_time self.old) result.0 result.1 self.new }
    {
        let time = least_of(&self.lanes, self.bius, self.nodes);
        let (node, place) = locate(&self.lanes, self.bius, self.nodes, time, i);
        let event = self.lanes.take(node, place);
        let place = position_of(self.bius, node);
        after_event(&mut self.ticks, place, &event.kind);
        (node, event)
    }

    /// The node whose tick is the first of all, in time and then in the order of nodes, and the
    /// tick's time in reference units. If no tick is pending the time is 2^64 - 1.
    #[inline(always)]
    pub fn first_tick(&mut self) -> (NodeName, u64)
        ensures world { (sizes : Sizes) (sites : Each Site) → HoldsSites sizes self.old sites
            → (me : Side) (i time : ℕ) → IsFirstAhead sites me i time
            → (result.0 ≡ name_of me i) × (result.1 ≡ time) }
        ensures time { result.1 ≡ first_tick_time self.old }
        ensures lanes { self.new ≡ self.old }
    {
        let front = tick_front(&self.lanes, &mut self.ticks, self.bius, self.nodes);
        (node_at(self.bius, front.first), front.least)
    }

    /// The place, among the arrivals of the node in the order of pushing, of the first that is
    /// ready, if it is due before this time. `None` if and only if nothing is due at the node
    /// before this time, or its tick is what is ready: it is due before all arrivals at the node.
    #[inline(always)]
    pub fn first_before(&self, node: NodeName, until: u64) -> Option<usize>
        requires in_shape { HasLane self.now node }
        ensures first { IsFirstBefore until (lane_of self.now node) result }
    {
        self.lanes.first_before(node, until)
    }

    /// The arrival at this place among those of the node, in the order of pushing.
    #[inline(always)]
    pub fn arrival(&self, node: NodeName, place: usize) -> &Arrival
        requires in_shape { HasLane self.now node }
        requires below { place < length (lane_of self.now node).arrivals }
        ensures value { slice_get (lane_of self.now node).arrivals place ≡ Some result.now }
    {
        self.lanes.arrival(node, place)
    }

    /// Drops the arrival at this place among those of the node, in the order of pushing, and
    /// nothing else.
    #[inline(always)]
    pub fn drop_at(&mut self, node: NodeName, place: usize)
        requires in_shape { HasLane self.old node }
        requires below { place < length (lane_of self.old node).arrivals }
        ensures after { self.new ≡ with_lane node (without_place place (lane_of self.old node))
            self.old }
    {
        self.lanes.drop_at(node, place);
    }

    /// The arrivals of the node, in the order of pushing.
    #[inline(always)]
    pub fn waiting(&self, node: NodeName) -> &[Arrival]
        requires in_shape { HasLane self.now node }
        ensures value { result.now ≡ (lane_of self.now node).arrivals }
    {
        self.lanes.waiting(node)
    }

    /// Drops the arrivals of the node that are due before this time, and nothing else. The others
    /// stay in the order of pushing.
    #[inline(always)]
    pub fn drop_before(&mut self, node: NodeName, until: u64)
        requires in_shape { HasLane self.old node }
        ensures after { self.new ≡ with_lane node (without_before until (lane_of self.old node))
            self.old }
    {
        self.lanes.drop_before(node, until);
    }

    /// The time of the node's tick, in reference units, if one is pending.
    #[inline(always)]
    pub fn tick(&self, node: NodeName) -> Option<u64>
        requires in_shape { HasLane self.now node }
        ensures value { result ≡ (lane_of self.now node).tick }
    {
        self.lanes.tick(node)
    }

    /// Takes the node's pending tick away. Nothing else changes.
    #[inline(always)]
    pub fn take_tick(&mut self, node: NodeName)
        requires in_shape { HasLane self.old node }
        ensures after { self.new ≡ with_lane node (without_tick (lane_of self.old node)) self.old }
    {
        self.lanes.take_tick(node);
        let place = position_of(self.bius, node);
        self.ticks.put(place, u64::MAX);
    }

    /// Drops all events of the node, and no others.
    pub fn drop_all(&mut self, node: NodeName)
        requires in_shape { HasLane self.old node }
        ensures after { self.new ≡ with_lane node (without_events (lane_of self.old node))
            self.old }
    {
        self.lanes.drop_all(node);
        let place = position_of(self.bius, node);
        self.ticks.put(place, u64::MAX);
    }
}
