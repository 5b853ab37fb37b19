//! The pending events of one node.
ghost use Rattle.std.specs.Prelude.{◌≡◌, [], ◌+◌, ◌-◌, ◌<◌, ◌≤◌, drop, filter, length, nat_le, Some, IfOk, slice_get, IsNone, IsTrue, ◌↔◌, vec_capacity};
ghost use Rattle.rb_queue.specs.Waiting.{IsFirstBefore, IsIdle, empty_lane, event_with, head_of, ready_event, ready_of, spare_of, with_arrival, with_tick, without_before, without_events, without_place, without_ready, without_tick};
ghost use Rattle.rb_queue.specs.Waiting.Ready.{Comes, Ticks};
ghost use Rattle.rb_queue.specs.Scanning.{HasFirst, IsReadyAt};

use crate::arrival::Arrival;
use crate::scan::{count, count_ready, first_of, is_sooner, latest_with, least_time, place_of};
use rb_base::{Event, EventKind, NodeName, OutOfMemory};
use std::alloc::Global;
use std::marker::Model;

/// What is pending at one node of a run: what comes to it, in the order of pushing, and the time of
/// its tick. The room is taken from memory at the start.
#[derive(Drop)]
pub struct Lane {
    // The arrivals before `start` are gone.
    kept: Vec<Arrival>,
    start: usize,
    // All arrivals are due by this time.
    latest: u64,
    tick: Option<u64>,
    room: usize,
}

impl Model for Lane {
    ghost use Rattle.std.specs.Prelude.{drop, vec_capacity};
    ghost use Rattle.rb_queue.specs.Waiting.{Held};
    ghost use Rattle.rb_queue.specs.Keeping.{IsLane};

    ghost Value = { Held };

    ghost view = { λ l. record {
      arrivals = drop l.start l.kept.items;
      tick = l.tick;
      room = l.room;
    } };

    ghost invariant = { λ l. IsLane l.kept.items l.start l.room (vec_capacity l.kept) l.latest };
}

// The arrivals before `start` are gone. If there is no room behind, the others move to the front.
// Returns the new start.
#[inline(always)]
fn make_room(kept: &mut Vec<Arrival>, start: usize, room: usize) -> usize
    requires begins { start ≤ length kept.old.items }
    requires fits { length kept.old.items - start < room }
    ensures same { drop result kept.new.items ≡ drop start kept.old.items }
    ensures begins { result ≤ length kept.new.items }
    ensures room { length kept.new.items < room }
    ensures capacity { vec_capacity kept.new ≡ vec_capacity kept.old }
{
    if kept.len() < room {
        return start;
    }
    drop_gone(kept, start);
    0
}

// Takes out the arrivals before `start`.
#[inline(never)]
fn drop_gone(kept: &mut Vec<Arrival>, start: usize)
    requires { start ≤ length kept.old.items }
    ensures left { kept.new.items ≡ drop start kept.old.items }
    ensures capacity { vec_capacity kept.new ≡ vec_capacity kept.old }
{
    kept.drain(..start);
}

// Keeps the arrivals from `start` on that are due at or after `until`, and no others.
#[inline(never)]
fn keep_later(kept: &mut Vec<Arrival>, start: usize, until: u64)
    requires { start ≤ length kept.old.items }
    ensures left { kept.new.items ≡ filter (λ c. nat_le until c.time) (drop start kept.old.items) }
    ensures capacity { vec_capacity kept.new ≡ vec_capacity kept.old }
{
    drop_gone(kept, start);
    kept.retain(|arrival| arrival.time() >= until);
}

// The tick, as an event of the node.
pub(crate) fn tick_event(node: NodeName) -> Event
    ensures { result ≡ event_with node Ticks }
{
    let kind = EventKind::Tick {
        word: 0,
        wanted: false,
    };
    Event {
        node,
        quiet: 0,
        kind,
    }
}

impl Lane {
    /// An empty lane with room for `room` events, all of it taken from memory here.
    pub fn new(alloc: Global, room: usize) -> Result<Lane, OutOfMemory>
        ensures { IfOk result (λ lane. lane ≡ empty_lane room) }
    {
        let kept = Vec::with_capacity(alloc, room)?;
        Ok(Lane {
            kept,
            start: 0,
            latest: 0,
            tick: None,
            room,
        })
    }

    /// The arrivals, in the order of pushing.
    #[inline(always)]
    pub fn waiting(&self) -> &[Arrival]
        ensures { result.now ≡ self.now.arrivals }
    {
        &self.kept[self.start..]
    }

    /// How many events more there is room for: the room less the number of its events.
    pub fn spare(&self) -> usize
        ensures { result ≡ spare_of self.now }
    {
        let ticks = usize::from(self.tick.is_some());
        self.room.saturating_sub(self.waiting().len() + ticks)
    }

    /// Adds what comes to the node. There is room for it.
    #[inline(always)]
    pub fn push(&mut self, arrival: Arrival)
        requires { 1 ≤ spare_of self.old }
        ensures { self.new ≡ with_arrival arrival self.old }
    {
        self.start = make_room(&mut self.kept, self.start, self.room);
        let waiting = &self.kept[self.start..];
        self.latest = latest_with(waiting, self.latest, &arrival);
        self.kept.push_reserved(arrival);
    }

    /// The tick is pending, due at this time in reference units, in place of the one that was.
    #[inline(always)]
    pub fn push_tick(&mut self, time: u64)
        ensures { self.new ≡ with_tick time self.old }
    {
        self.tick = Some(time);
    }

    // The place of the first arrival.
    #[inline(always)]
    fn first(&self) -> usize
        ensures { HasFirst self.now.arrivals result }
    {
        first_of(self.waiting())
    }

    /// The least time, in reference units, at which an event is due. `None` if and only if there is
    /// none.
    #[inline(never)]
    #[tactic(auto, using(crate::proofs::Idle::none_pending))]
    pub fn head(&self) -> Option<u64>
        ensures value { result ≡ head_of self.now }
        ensures none { IsNone result ↔ IsIdle self.now }
    {
        least_time(self.waiting(), self.first(), self.tick)
    }

    /// How many events are ready: the arrivals of the least time or, if there are none, the tick of
    /// that time.
    pub fn ready(&self) -> usize
        ensures value { result ≡ length (ready_of self.now) }
        ensures few { result ≤ self.now.room + 1 }
    {
        match self.head() {
            None => 0,
            Some(time) => count_ready(self.waiting(), self.tick, time),
        }
    }

    // The place of the i-th that is ready. None for the tick. The first is mostly looked for.
    #[inline(always)]
    fn place(&self, i: usize) -> Option<usize>
        requires { i < length (ready_of self.now) }
        ensures { IsReadyAt i self.now result }
    {
        if i == 0 {
            return self.first_place();
        }
        self.place_among(i)
    }

    // The place of the first that is ready.
    #[inline(always)]
    fn first_place(&self) -> Option<usize>
        requires { 0 < length (ready_of self.now) }
        ensures { IsReadyAt 0 self.now result }
    {
        match self.first_before(u64::MAX) {
            None => self.place_among(0),
            Some(place) => Some(place),
        }
    }

    // The place of the i-th, among all arrivals of the least time.
    #[inline(never)]
    fn place_among(&self, i: usize) -> Option<usize>
        requires { i < length (ready_of self.now) }
        ensures { IsReadyAt i self.now result }
    {
        let time = self.head().unwrap_or(0);
        if count(self.waiting(), time, 0, 256) == 0 {
            return None;
        }
        Some(place_of(self.waiting(), time, i))
    }

    /// The ready event at place `i`, counted from 0, as an event of the node. Arrivals are listed
    /// by sender and then in the order of pushing.
    pub fn event(&self, node: NodeName, i: usize) -> Event
        requires { i < length (ready_of self.now) }
        ensures { ready_event node i self.now ≡ Some result }
    {
        match self.place(i) {
            None => tick_event(node),
            Some(place) => self.waiting()[place].event(node),
        }
    }

    /// Takes the ready event at place `i`, counted from 0, out of the lane, and no other.
    pub fn take(&mut self, node: NodeName, i: usize) -> Event
        requires { i < length (ready_of self.old) }
        ensures event { ready_event node i self.old ≡ Some result }
        ensures after { self.new ≡ without_ready i self.old }
    {
        match self.place(i) {
            None => {
                self.take_tick();
                tick_event(node)
            }
            Some(place) => {
                let event = self.waiting()[place].event(node);
                self.drop_at(place);
                event
            }
        }
    }

    /// The place, among the arrivals in the order of pushing, of the first that is ready, if it is
    /// due before this time. `None` if and only if nothing is due before this time, or the tick is
    /// what is ready: it is due before all arrivals.
    #[inline(always)]
    pub fn first_before(&self, until: u64) -> Option<usize>
        ensures { IsFirstBefore until self.now result }
    {
        let first = self.first();
        let arrivals = self.waiting();
        if first >= arrivals.len() {
            return None;
        }
        let time = arrivals[first].time();
        if time >= until {
            return None;
        }
        if is_sooner(self.tick, time) {
            return None;
        }
        Some(first)
    }

    /// The arrival at this place, in the order of pushing.
    #[inline(always)]
    pub fn arrival(&self, place: usize) -> &Arrival
        requires { place < length self.now.arrivals }
        ensures { slice_get self.now.arrivals place ≡ Some result.now }
    {
        &self.waiting()[place]
    }

    // Drops all arrivals.
    #[inline(always)]
    fn drop_waiting(&mut self)
        ensures { self.new ≡ record self.old { arrivals = [] } }
    {
        self.kept.clear();
        self.start = 0;
        self.latest = 0;
    }

    // Drops the first in the order of pushing.
    #[inline(always)]
    fn drop_front(&mut self)
        requires { 0 < length self.old.arrivals }
        ensures { self.new ≡ without_place 0 self.old }
    {
        if self.start + 1 < self.kept.len() {
            self.start += 1;
            return;
        }
        self.drop_waiting();
    }

    /// Drops the arrival at this place, in the order of pushing, and nothing else.
    #[inline(always)]
    pub fn drop_at(&mut self, place: usize)
        requires { place < length self.old.arrivals }
        ensures { self.new ≡ without_place place self.old }
    {
        if place == 0 {
            self.drop_front();
            return;
        }
        let _ = self.kept.remove(self.start + place);
    }

    /// Drops the arrivals that are due before this time, and nothing else. The others stay in the
    /// order of pushing. Usually none or all of them are due before: this is the short cut
    /// "arrivals dropped at once" of docs/PERFORMANCE.md.
    #[inline(always)]
    pub fn drop_before(&mut self, until: u64)
        ensures { self.new ≡ without_before until self.old }
    {
        if self.kept.len() == 0 {
            return;
        }
        if self.latest < until {
            self.drop_waiting();
            return;
        }
        keep_later(&mut self.kept, self.start, until);
        self.start = 0;
    }

    /// The time of the tick, in reference units, if one is pending.
    #[inline(always)]
    pub fn tick(&self) -> Option<u64>
        ensures { result ≡ self.now.tick }
    {
        self.tick
    }

    /// Takes the pending tick away. Nothing else changes.
    #[inline(always)]
    pub fn take_tick(&mut self)
        ensures { self.new ≡ without_tick self.old }
    {
        self.tick = None;
    }

    /// Drops all events.
    pub fn clear(&mut self)
        ensures { self.new ≡ without_events self.old }
    {
        self.drop_waiting();
        self.tick = None;
    }
}
