//! All that is pending at one node.
ghost use Rattle.std.specs.Prelude.{◌≡◌, ◌+◌, ◌<◌, ◌≤◌, length, Some, IfOk, IsNone, ◌↔◌};
ghost use Rattle.rb_queue.specs.Waiting.{spare_of, with_event};
ghost use Rattle.rb_queue.specs.Queued.{IsEmpty, IsLastOf, IsSent, emptied, empty_queue, fits_lane, has_place, least_time_of, room_left, takeable_event, takeable_of, with_pushed, without_takeable};
ghost use Rattle.rb_queue.specs.Spots.{IsSpot};

use crate::arrival::Arrival;
use crate::beside::{Spot, count_takeable, least_time, spot_at};
use crate::lane::{Lane, tick_event};
use crate::pending::Pending;
use rb_base::{Event, EventKind, NodeName, OutOfMemory};
use std::alloc::Global;
use std::marker::Model;

// What the node's lane holds and, in the order of pushing, all else that was pushed. The room is
// taken from memory at the start.
#[derive(Drop)]
pub(crate) struct Queue {
    lane: Lane,
    more: Vec<Pending>,
}

impl Model for Queue {
    ghost use Rattle.std.specs.Prelude.{vec_capacity};
    ghost use Rattle.rb_queue.specs.Queued.{IsQueue, Queued};

    ghost Value = { Queued };

    ghost view = { λ q. record { lane = q.lane; more = q.more.items } };

    ghost invariant = { λ q. IsQueue q.lane q.more.items (vec_capacity q.more) };
}

// Whether a lane with this tick keeps all of an event of this kind.
fn has_place(kind: &EventKind, tick: Option<u64>) -> bool
    ensures { result ≡ has_place kind.now tick }
{
    match kind {
        EventKind::Arrive { .. } => true,
        EventKind::Tick { word, wanted } => *word == 0 && !*wanted && tick.is_none(),
    }
}

fn push_plain(lane: &mut Lane, time: u64, kind: EventKind)
    requires { 1 ≤ spare_of lane.old }
    ensures after { lane.new ≡ with_event time kind lane.old }
    ensures sent { IsSent kind }
{
    match kind {
        EventKind::Arrive { from, bytes } => lane.push(Arrival::new(time, from, bytes)),
        EventKind::Tick { .. } => lane.push_tick(time),
    }
}

impl Queue {
    pub(crate) fn new(alloc: Global, room: usize) -> Result<Queue, OutOfMemory>
        ensures { IfOk result (λ q. q ≡ empty_queue room) }
    {
        let lane = Lane::new(alloc, room)?;
        let more = Vec::with_capacity(alloc, room)?;
        Ok(Queue { lane, more })
    }

    pub(crate) fn spare(&self) -> usize
        ensures { result ≡ room_left self.now }
    {
        self.lane.spare().saturating_sub(self.more.len())
    }

    fn fits_lane(&self, event: &Event) -> bool
        ensures { result ≡ fits_lane event.now self.now }
    {
        self.more.len() == 0 && event.quiet == 0 && has_place(&event.kind, self.lane.tick())
    }

    pub(crate) fn push(&mut self, time: u64, event: Event)
        requires { 1 ≤ room_left self.old }
        ensures after { self.new ≡ with_pushed time event self.old }
        ensures last { IsLastOf time event self.old self.new }
    {
        if self.fits_lane(&event) {
            push_plain(&mut self.lane, time, event.kind);
        } else {
            self.more.push_reserved(Pending { time, event });
        }
    }

    pub(crate) fn head(&self) -> Option<u64>
        ensures value { result ≡ least_time_of self.now }
        ensures none { IsNone result ↔ IsEmpty self.now }
    {
        if self.more.len() == 0 {
            return self.lane.head();
        }
        least_time(&self.lane, &self.more)
    }

    pub(crate) fn ready(&self) -> usize
        ensures value { result ≡ length (takeable_of self.now) }
        ensures few { result ≤ self.now.lane.room + 1 }
    {
        if self.more.len() == 0 {
            return self.lane.ready();
        }
        match self.head() {
            None => 0,
            Some(time) => count_takeable(&self.lane, &self.more, time),
        }
    }

    // The spot of the i-th that may be taken.
    fn spot(&self, i: usize) -> Spot
        requires { i < length (takeable_of self.now) }
        ensures { IsSpot (takeable_of self.now) i self.now.lane self.now.more result }
    {
        match self.head() {
            None => Spot::Tick,
            Some(time) => spot_at(&self.lane, &self.more, time, i),
        }
    }

    #[inline(never)]
    fn event_among(&self, node: NodeName, i: usize) -> Event
        requires { i < length (takeable_of self.now) }
        ensures { takeable_event node i self.now ≡ Some result }
    {
        match self.spot(i) {
            Spot::Arrival(place) => self.lane.arrival(place).event(node),
            Spot::Tick => tick_event(node),
            Spot::Kept(place) => self.more[place].event(),
        }
    }

    pub(crate) fn event(&self, node: NodeName, i: usize) -> Event
        requires { i < length (takeable_of self.now) }
        ensures { takeable_event node i self.now ≡ Some result }
    {
        if self.more.len() == 0 {
            return self.lane.event(node, i);
        }
        self.event_among(node, i)
    }

    #[inline(never)]
    fn take_among(&mut self, node: NodeName, i: usize) -> Event
        requires { i < length (takeable_of self.old) }
        ensures event { takeable_event node i self.old ≡ Some result }
        ensures after { self.new ≡ without_takeable i self.old }
    {
        match self.spot(i) {
            Spot::Arrival(place) => {
                let event = self.lane.arrival(place).event(node);
                self.lane.drop_at(place);
                event
            }
            Spot::Tick => {
                self.lane.take_tick();
                tick_event(node)
            }
            Spot::Kept(place) => self.more.remove(place).event,
        }
    }

    pub(crate) fn take(&mut self, node: NodeName, i: usize) -> Event
        requires { i < length (takeable_of self.old) }
        ensures event { takeable_event node i self.old ≡ Some result }
        ensures after { self.new ≡ without_takeable i self.old }
    {
        if self.more.len() == 0 {
            return self.lane.take(node, i);
        }
        self.take_among(node, i)
    }

    pub(crate) fn clear(&mut self)
        ensures { self.new ≡ emptied self.old }
    {
        self.lane.clear();
        self.more.clear();
    }
}
