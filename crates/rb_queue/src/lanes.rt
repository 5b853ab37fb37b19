//! The pending events of all nodes.
ghost use Rattle.std.specs.Prelude.{◌≡◌, ◌+◌, ◌<◌, ◌≤◌, [], ◌∷◌, ◌++◌, length, map, Some, IfOk, IsNone, ◌↔◌};
ghost use Rattle.rb_base.specs.Counting.{numbers};
ghost use Rattle.rb_rules.specs.Book.{each_of};
ghost use Rattle.rb_queue.specs.Queued.{HasQueue, IsEmpty, IsLastOf, emptied, empty_queue, least_time_of, queue_of, room_left, takeable_event, takeable_of, with_pushed, with_queue, without_takeable};

use crate::queue::Queue;
use rb_base::{Event, EventKind, NodeName, OutOfMemory, Shape};
use std::alloc::Global;
use std::marker::Model;

/// The pending events of the nodes of a bus, a lane for each node, with room for a fixed number of
/// events. A lane holds what comes to the node in the order of pushing, and the time of the node's
/// tick. What it does not hold whole is kept beside it: a further tick, a tick with a word, what
/// has quiet ticks before it, and all that `push` is given after such an event.
#[derive(Drop)]
pub struct Lanes {
    bius: Vec<Queue>,
    rmus: Vec<Queue>,
}

impl Model for Lanes {
    ghost use Rattle.rb_rules.specs.Book.{Each};
    ghost use Rattle.rb_queue.specs.Queued.{Queued};

    ghost Value = { Each Queued };

    ghost view = { λ l. record { bius = l.bius.items; rmus = l.rmus.items } };
}

fn add_queue(queues: &mut Vec<Queue>, queue: Queue) -> Result<(), OutOfMemory>
    ensures { IfOk result (λ _. queues.new.items ≡ queues.old.items ++ queue ∷ []) }
{
    queues.push(queue).map_err(|_| OutOfMemory)
}

fn empty_queues(alloc: Global, count: u8, room: usize) -> Result<Vec<Queue>, OutOfMemory>
    ensures { IfOk result (λ queues. queues.items ≡ map (λ _. empty_queue room) (numbers count)) }
{
    let mut queues = Vec::with_capacity(alloc, usize::from(count))?;
    for node in 0..count {
        let queue = Queue::new(alloc, room)?;
        add_queue(&mut queues, queue)?;
    }
    Ok(queues)
}

impl Lanes {
    /// A lane with no event for each node of the shape. Each has room for `room` events, all of it
    /// taken from memory here: no other call takes memory.
    pub fn new(alloc: Global, shape: &Shape, room: usize) -> Result<Lanes, OutOfMemory>
        ensures { IfOk result (λ lanes. lanes ≡ each_of shape.now (λ side i. empty_queue room)) }
    {
        let bius = empty_queues(alloc, shape.biu(), room)?;
        let rmus = empty_queues(alloc, shape.rmu(), room)?;
        Ok(Lanes { bius, rmus })
    }

    #[inline(always)]
    fn queue(&self, node: NodeName) -> &Queue
        requires { HasQueue self.now node }
        ensures { result.now ≡ queue_of self.now node }
    {
        match node {
            NodeName::Biu(i) => &self.bius[usize::from(i)],
            NodeName::Rmu(i) => &self.rmus[usize::from(i)],
        }
    }

    /// How many events more the node's lane has room for: the room less the number of its events.
    pub fn spare(&self, node: NodeName) -> usize
        requires in_shape { HasQueue self.now node }
        ensures value { result ≡ room_left (queue_of self.now node) }
    {
        self.queue(node).spare()
    }

    /// Adds an event to its node's events, due at this time in reference units. There is room for
    /// it. It comes back as it is given here, and comes after all that was pushed from its sender,
    /// or of the node's own ticks, before it.
    pub fn push(&mut self, time: u64, event: Event)
        requires in_shape { HasQueue self.old event.node }
        requires spare { 1 ≤ room_left (queue_of self.old event.node) }
        ensures after { self.new
            ≡ with_queue event.node (with_pushed time event (queue_of self.old event.node))
            self.old }
        ensures last { IsLastOf time event (queue_of self.old event.node)
            (queue_of self.new event.node) }
    {
        match event.node {
            NodeName::Biu(i) => self.bius[usize::from(i)].push(time, event),
            NodeName::Rmu(i) => self.rmus[usize::from(i)].push(time, event),
        }
    }

    /// The least time, in reference units, at which an event of the node is due. `None` if and only
    /// if the node has no event.
    pub fn head(&self, node: NodeName) -> Option<u64>
        requires in_shape { HasQueue self.now node }
        ensures value { result ≡ least_time_of (queue_of self.now node) }
        ensures none { IsNone result ↔ IsEmpty (queue_of self.now node) }
    {
        self.queue(node).head()
    }

    /// How many events of the node are ready: the arrivals of its least time or, if there are none,
    /// its ticks of that time.
    pub fn ready(&self, node: NodeName) -> usize
        requires in_shape { HasQueue self.now node }
        ensures value { result ≡ length (takeable_of (queue_of self.now node)) }
        ensures few { result ≤ (queue_of self.now node).lane.room + 1 }
    {
        self.queue(node).ready()
    }

    /// The ready event at place `i`, counted from 0. They are listed by sender and then in the
    /// order of pushing, and ticks in the order of pushing. It is the event as it was pushed.
    pub fn event(&self, node: NodeName, i: usize) -> Event
        requires in_shape { HasQueue self.now node }
        requires below { i < length (takeable_of (queue_of self.now node)) }
        ensures value { takeable_event node i (queue_of self.now node) ≡ Some result }
    {
        self.queue(node).event(node, i)
    }

    /// Takes the ready event at place `i`, counted from 0, out of the node's events, and no other.
    pub fn take(&mut self, node: NodeName, i: usize) -> Event
        requires in_shape { HasQueue self.old node }
        requires below { i < length (takeable_of (queue_of self.old node)) }
        ensures value { takeable_event node i (queue_of self.old node) ≡ Some result }
        ensures after { self.new ≡ with_queue node (without_takeable i (queue_of self.old node))
            self.old }
    {
        match node {
            NodeName::Biu(index) => self.bius[usize::from(index)].take(node, i),
            NodeName::Rmu(index) => self.rmus[usize::from(index)].take(node, i),
        }
    }

    /// Drops all events of the node, and no others.
    pub fn drop_all(&mut self, node: NodeName)
        requires in_shape { HasQueue self.old node }
        ensures after { self.new ≡ with_queue node (emptied (queue_of self.old node)) self.old }
    {
        match node {
            NodeName::Biu(i) => self.bius[usize::from(i)].clear(),
            NodeName::Rmu(i) => self.rmus[usize::from(i)].clear(),
        }
    }
}
