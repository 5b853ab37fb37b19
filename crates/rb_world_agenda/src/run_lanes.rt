//! The lanes of a run.
ghost use Rattle.std.specs.Prelude.{◌≡◌, ◌+◌, ◌<◌, ◌≤◌, [], ◌∷◌, ◌++◌, length, map, slice_get, IfOk, Some};
ghost use Rattle.rb_base.specs.Counting.{numbers};
ghost use Rattle.rb_rules.specs.Book.{each_of};
ghost use Rattle.rb_queue.specs.Waiting.{HasLane, IsFirstBefore, empty_lane, head_of, lane_of, ready_event, ready_of, spare_of, with_arrival, with_lane, with_tick, without_before, without_events, without_place, without_ready, without_tick};

use rb_base::{Event, NodeName, OutOfMemory, Shape};
use rb_queue::{Arrival, Lane};
use std::alloc::Global;
use std::marker::Model;

/// What is pending in a run: a lane for each node.
#[derive(Drop)]
pub struct RunLanes {
    bius: Vec<Lane>,
    rmus: Vec<Lane>,
}

impl Model for RunLanes {
    ghost use Rattle.rb_rules.specs.Book.{Each};
    ghost use Rattle.rb_queue.specs.Waiting.{Held};

    ghost Value = { Each Held };

    ghost view = { λ l. record { bius = l.bius.items; rmus = l.rmus.items } };
}

fn add_lane(lanes: &mut Vec<Lane>, lane: Lane) -> Result<(), OutOfMemory>
    ensures { IfOk result (λ _. lanes.new.items ≡ lanes.old.items ++ lane ∷ []) }
{
    lanes.push(lane).map_err(|_| OutOfMemory)
}

fn empty_lanes(alloc: Global, count: u8, room: usize) -> Result<Vec<Lane>, OutOfMemory>
    ensures { IfOk result (λ lanes. lanes.items ≡ map (λ _. empty_lane room) (numbers count)) }
{
    let mut lanes = Vec::with_capacity(alloc, usize::from(count))?;
    for node in 0..count {
        let lane = Lane::new(alloc, room)?;
        add_lane(&mut lanes, lane)?;
    }
    Ok(lanes)
}

impl RunLanes {
    pub(crate) fn new(alloc: Global, shape: &Shape, room: usize) -> Result<RunLanes, OutOfMemory>
        ensures { IfOk result (λ lanes. lanes ≡ each_of shape.now (λ side i. empty_lane room)) }
    {
        let bius = empty_lanes(alloc, shape.biu(), room)?;
        let rmus = empty_lanes(alloc, shape.rmu(), room)?;
        Ok(RunLanes { bius, rmus })
    }

    #[inline(always)]
    fn lane(&self, node: NodeName) -> &Lane
        requires { HasLane self.now node }
        ensures { result.now ≡ lane_of self.now node }
    {
        match node {
            NodeName::Biu(i) => &self.bius[usize::from(i)],
            NodeName::Rmu(i) => &self.rmus[usize::from(i)],
        }
    }

    #[inline(always)]
    pub(crate) fn spare(&self, node: NodeName) -> usize
        requires in_shape { HasLane self.now node }
        ensures value { result ≡ spare_of (lane_of self.now node) }
    {
        self.lane(node).spare()
    }

    #[inline(always)]
    pub(crate) fn push(&mut self, node: NodeName, arrival: Arrival)
        requires in_shape { HasLane self.old node }
        requires spare { 1 ≤ spare_of (lane_of self.old node) }
        ensures after { self.new
            ≡ with_lane node (with_arrival arrival (lane_of self.old node)) self.old }
    {
        match node {
            NodeName::Biu(i) => self.bius[usize::from(i)].push(arrival),
            NodeName::Rmu(i) => self.rmus[usize::from(i)].push(arrival),
        }
    }

    #[inline(always)]
    pub(crate) fn push_tick(&mut self, node: NodeName, time: u64)
        requires in_shape { HasLane self.old node }
        ensures after { self.new
            ≡ with_lane node (with_tick time (lane_of self.old node)) self.old }
    {
        match node {
            NodeName::Biu(i) => self.bius[usize::from(i)].push_tick(time),
            NodeName::Rmu(i) => self.rmus[usize::from(i)].push_tick(time),
        }
    }

    #[inline(always)]
    pub(crate) fn head(&self, node: NodeName) -> Option<u64>
        requires in_shape { HasLane self.now node }
        ensures value { result ≡ head_of (lane_of self.now node) }
    {
        self.lane(node).head()
    }

    #[inline(always)]
    pub(crate) fn ready(&self, node: NodeName) -> usize
        requires in_shape { HasLane self.now node }
        ensures value { result ≡ length (ready_of (lane_of self.now node)) }
        ensures few { result ≤ (lane_of self.now node).room + 1 }
    {
        self.lane(node).ready()
    }

    #[inline(always)]
    pub(crate) fn event(&self, node: NodeName, i: usize) -> Event
        requires in_shape { HasLane self.now node }
        requires below { i < length (ready_of (lane_of self.now node)) }
        ensures value { ready_event node i (lane_of self.now node) ≡ Some result }
    {
        self.lane(node).event(node, i)
    }

    #[inline(always)]
    pub(crate) fn take(&mut self, node: NodeName, i: usize) -> Event
        requires in_shape { HasLane self.old node }
        requires below { i < length (ready_of (lane_of self.old node)) }
        ensures value { ready_event node i (lane_of self.old node) ≡ Some result }
        ensures after { self.new
            ≡ with_lane node (without_ready i (lane_of self.old node)) self.old }
    {
        match node {
            NodeName::Biu(index) => self.bius[usize::from(index)].take(node, i),
            NodeName::Rmu(index) => self.rmus[usize::from(index)].take(node, i),
        }
    }

    #[inline(always)]
    pub(crate) fn first_before(&self, node: NodeName, until: u64) -> Option<usize>
        requires in_shape { HasLane self.now node }
        ensures first { IsFirstBefore until (lane_of self.now node) result }
    {
        self.lane(node).first_before(until)
    }

    #[inline(always)]
    pub(crate) fn arrival(&self, node: NodeName, place: usize) -> &Arrival
        requires in_shape { HasLane self.now node }
        requires below { place < length (lane_of self.now node).arrivals }
        ensures value { slice_get (lane_of self.now node).arrivals place ≡ Some result.now }
    {
        self.lane(node).arrival(place)
    }

    #[inline(always)]
    pub(crate) fn drop_at(&mut self, node: NodeName, place: usize)
        requires in_shape { HasLane self.old node }
        requires below { place < length (lane_of self.old node).arrivals }
        ensures after { self.new
            ≡ with_lane node (without_place place (lane_of self.old node)) self.old }
    {
        match node {
            NodeName::Biu(i) => self.bius[usize::from(i)].drop_at(place),
            NodeName::Rmu(i) => self.rmus[usize::from(i)].drop_at(place),
        }
    }

    #[inline(always)]
    pub(crate) fn waiting(&self, node: NodeName) -> &[Arrival]
        requires in_shape { HasLane self.now node }
        ensures value { result.now ≡ (lane_of self.now node).arrivals }
    {
        self.lane(node).waiting()
    }

    #[inline(always)]
    pub(crate) fn drop_before(&mut self, node: NodeName, until: u64)
        requires in_shape { HasLane self.old node }
        ensures after { self.new
            ≡ with_lane node (without_before until (lane_of self.old node)) self.old }
    {
        match node {
            NodeName::Biu(i) => self.bius[usize::from(i)].drop_before(until),
            NodeName::Rmu(i) => self.rmus[usize::from(i)].drop_before(until),
        }
    }

    #[inline(always)]
    pub(crate) fn tick(&self, node: NodeName) -> Option<u64>
        requires in_shape { HasLane self.now node }
        ensures value { result ≡ (lane_of self.now node).tick }
    {
        self.lane(node).tick()
    }

    #[inline(always)]
    pub(crate) fn take_tick(&mut self, node: NodeName)
        requires in_shape { HasLane self.old node }
        ensures after { self.new ≡ with_lane node (without_tick (lane_of self.old node)) self.old }
    {
        match node {
            NodeName::Biu(i) => self.bius[usize::from(i)].take_tick(),
            NodeName::Rmu(i) => self.rmus[usize::from(i)].take_tick(),
        }
    }

    #[inline(always)]
    pub(crate) fn drop_all(&mut self, node: NodeName)
        requires in_shape { HasLane self.old node }
        ensures after { self.new
            ≡ with_lane node (without_events (lane_of self.old node)) self.old }
    {
        match node {
            NodeName::Biu(i) => self.bius[usize::from(i)].clear(),
            NodeName::Rmu(i) => self.rmus[usize::from(i)].clear(),
        }
    }
}
