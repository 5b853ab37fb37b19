//! What may be taken.
ghost use Rattle.std.specs.Prelude.{◌≡◌, ℕ, ◌<◌, ◌≤◌, Option, Some, List, is_some, length};
ghost use Rattle.rb_base.specs.Nodes.{side_of};
ghost use Rattle.rb_base.specs.Sizes.{Sizes};
ghost use Rattle.rb_rules.specs.Ports.{PortState};
ghost use Rattle.rb_rules.specs.WorldStep.{Pending, Site as WorldSite, World as RunWorld, due_of, event_at, event_of};
ghost use Rattle.rb_rules.specs.WorldStep.Pending.{Tick};
ghost use Rattle.rb_node.specs.Wants.{want_for};
ghost use Rattle.rb_world.specs.Sites.{number_of};
ghost use Rattle.rb_world.specs.Showing.{CanShow, CanShowArrival, CanShowTick, MayShow, MayShowTick, ShowsArrival};
ghost use Rattle.rb_world.specs.Worlds.{NeedsEvent, Stands, due_in};
ghost use Rattle.rb_world.specs.Buses.{scenario_of};

use crate::Site;
use crate::bus::Bus;
use crate::scene::number_of as number_in;
use crate::ticking::word_for;
use crate::world::World;
use arrayvec::ArrayVec;
use rb_base::{Event, EventKind, Kind, NodeName};
use rb_node::Want;
use rb_port::{Apps, Port};

// The bytes with room for as many as an arrival may have.
fn copied(bytes: &[u8]) -> ArrayVec<u8, 32>
    requires { length bytes.now ≤ 32 }
    ensures { result.items ≡ bytes.now }
{
    let mut copy = ArrayVec::new();
    let _ = copy.try_extend_from_slice(bytes);
    copy
}

// Whether this is a word.
fn is_word(want: Want) -> bool
    ensures { (sizes : Sizes) (slot : Option ℕ) → want ≡ want_for sizes slot
        → result ≡ is_some slot }
{
    match want {
        Want::Nothing => false,
        Want::Request => true,
        Want::Data { .. } => true,
    }
}

// The next tick of a node, as it is shown.
pub(crate) fn show_tick<K: Kind>(
    bus: &Bus,
    apps: &Apps,
    site: &Site<K>,
    ports: &[Port],
    node: NodeName,
) -> Event
    requires may { CanShowTick bus.now (side_of K.CODE) node site.now ports.now }
    ensures { (k : ℕ) (states : List PortState) (s : WorldSite)
        → MayShowTick (scenario_of bus.now) (side_of K.CODE) (number_of site.now) k site.now
        ports.now
        node states s
        → result ≡ event_of (scenario_of bus.now) states (side_of K.CODE)
        (number_of site.now) s.core (Tick k) }
{
    let own = site.node();
    let had = own.had();
    let k = own.next_tick().unwrap_or(had);
    let want = own.wants_then();
    let word = word_for(bus, apps, ports, number_in(node), want);
    let kind = EventKind::Tick {
        word,
        wanted: is_word(want),
    };
    Event {
        node,
        quiet: (k - had) as u32,
        kind,
    }
}

// An arrival at a node, as it is shown.
pub(crate) fn show_arrival<K: Kind>(
    bus: &Bus,
    site: &Site<K>,
    time: u64,
    node: NodeName,
    from: u8,
    bytes: &ArrayVec<u8, 32>,
) -> Event
    requires may { CanShowArrival bus.now (side_of K.CODE) site.now time node }
    ensures { ShowsArrival bus.now (side_of K.CODE) site.now time node from bytes.now.items result }
{
    let had = site.node().had();
    let quiet = bus.clock(node).first_at(time).saturating_sub(had) as u32;
    let kind = EventKind::Arrive {
        from,
        bytes: copied(bytes),
    };
    Event { node, quiet, kind }
}

// An event as it is shown, at a node.
fn show<K: Kind>(
    bus: &Bus,
    apps: &Apps,
    site: &Site<K>,
    ports: &[Port],
    time: u64,
    event: &Event,
) -> Event
    requires may { CanShow bus.now (side_of K.CODE) site.now ports.now time event.now }
    ensures { (waits : Pending) (states : List PortState) (s : WorldSite)
        → MayShow (scenario_of bus.now) (side_of K.CODE) (number_of site.now) waits site.now
        ports.now time
        event.now states s
        → result ≡ event_of (scenario_of bus.now) states (side_of K.CODE)
        (number_of site.now) s.core waits }
{
    let node = site.name();
    match &event.kind {
        EventKind::Tick { .. } => show_tick(bus, apps, site, ports, node),
        EventKind::Arrive { from, bytes } => { show_arrival(bus, site, time, node, *from, bytes) }
    }
}

impl World {
    /// How many events may be taken: those of the least time at which any is pending. None if the
    /// next record needs no event, and none after the last. If it needs one, at least one may be
    /// taken.
    pub fn due(&self) -> usize
        ensures value { result ≡ due_in self.now }
        ensures world { (w : RunWorld) → Stands self.now w
            → result ≡ length (due_of self.now.bus w) }
        ensures some { (w : RunWorld) → Stands self.now w → NeedsEvent self.now.bus w → 1 ≤ result }
        ensures stands { (w : RunWorld) × Stands self.now w }
    {
        if self.run.scene.book.has_ended() || self.run.scene.book.needs_no_event() {
            return 0;
        }
        self.run.scene.agenda.due()
    }

    /// The i-th of the events that are due, counted from 0: how many quiet ticks its node has
    /// before it, and the arrival, or the tick with the word that it takes. `wanted` says whether
    /// the node asks for a word: its request, or what its port offers now.
    pub fn event(&self, apps: &Apps, i: usize) -> Event
        requires below { i < due_in self.now }
        ensures world { (w : RunWorld) → Stands self.now w
            → event_at self.now.bus w i ≡ Some result }
    {
        let (node, place) = self.run.scene.agenda.locate(i);
        let time = self.run.scene.agenda.first_time();
        let event = self.run.scene.agenda.event(node, place);
        match node {
            NodeName::Biu(k) => show(
                &self.bus,
                apps,
                &self.run.bius[usize::from(k)],
                &self.run.scene.ports,
                time,
                &event,
            ),
            NodeName::Rmu(k) => show(
                &self.bus,
                apps,
                &self.run.rmus[usize::from(k)],
                &self.run.scene.ports,
                time,
                &event,
            ),
        }
    }
}
