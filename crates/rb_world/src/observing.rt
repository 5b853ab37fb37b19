//! Who is told what one node is given while a run goes on.
ghost use Rattle.std.specs.Prelude.{◌≡◌, ⊤, ℕ, List, Some};
ghost use Rattle.rb_base.specs.Nodes.{side_of};
ghost use Rattle.rb_base.specs.declared.node.NodeName.{NodeName};
ghost use Rattle.rb_rules.specs.Goodness.{Scenario};
ghost use Rattle.rb_rules.specs.Links.{name_of, same_node};
ghost use Rattle.rb_rules.specs.Ports.{PortState};
ghost use Rattle.rb_rules.specs.WorldStep.{Site as WorldSite};
ghost use Rattle.rb_rules.specs.WorldStep.Pending.{Tick};
ghost use Rattle.rb_world.specs.Sites.{Stands as StandsFor, StandsForSome, number_of};
ghost use Rattle.rb_laws_sweeps.specs.Told.{Told, telling};
ghost use Rattle.rb_world.specs.Showing.{CanShowTick, MayShowTick};
ghost use Rattle.rb_world.specs.Steps.{CanHearAt};
ghost use Rattle.rb_world.specs.Observing.{TellsArrival, TellsTickFor};
ghost use Rattle.rb_world.specs.Buses.{scenario_of};

use crate::Site;
use crate::bus::Bus;
use crate::due::{show_arrival, show_tick};
use crate::run::Setup;
use rb_base::{Event, Kind, NodeName};
use rb_port::{Apps, Port};
use rb_world_agenda::Agenda;

/// Who is told what one node is given while a run goes on, event by event.
pub trait Observer {
    /// What it was, what it is told, and what it may be then.
    ghost observes: { Self → Told → Self → Type 0 };

    /// The node is given this event, and stood in this frame before it.
    fn observe(&mut self, frame: u32, event: &Event)
        ensures { observes self.old (record { frame = frame; event = event.now }) self.new };
}

/// Nobody, who is told nothing.
#[derive(Clone, Copy)]
pub(crate) struct Nobody;

impl Observer for Nobody {
    ghost observes = { λ _ _ _. ⊤ };

    fn observe(&mut self, _frame: u32, _event: &Event) {}
}

// Whether this is the node that is observed.
#[inline(always)]
pub(crate) fn is_observed(observed: Option<NodeName>, node: NodeName) -> bool
    ensures { (name : NodeName) → observed ≡ Some name → result ≡ same_node node name }
{
    match observed {
        None => false,
        Some(name) => node == name,
    }
}

// The frame in which a node is.
fn frame_of<K: Kind>(site: &Site<K>) -> u32
    ensures { (sc : Scenario) (s : WorldSite) → StandsFor sc (side_of K.CODE) site.now s
        → result ≡ s.core.state.frame }
{
    site.node().engine().frame()
}

// An arrival that is pending at the node is told, before it comes to the node.
pub(crate) fn tell_arrival<K: Kind, T: Observer>(
    bus: &Bus,
    node: NodeName,
    place: usize,
    site: &Site<K>,
    agenda: &Agenda,
    observer: &mut T,
)
    requires name { node ≡ name_of (side_of K.CODE) (number_of site.now) }
    requires stands { StandsForSome (scenario_of bus.now) (side_of K.CODE) site.now }
    requires may { CanHearAt bus.now (side_of K.CODE) node place site.now agenda.now }
    ensures { TellsArrival T.observes bus.now (side_of K.CODE) node place site.now agenda.now
        observer.old observer.new }
{
    let arrival = agenda.arrival(node, place);
    let time = arrival.time();
    let from = arrival.from();
    let bytes = arrival.held();
    let event = show_arrival(bus, site, time, node, from, &bytes);
    observer.observe(frame_of(site), &event);
}

// The tick that is ahead of the node is told, before the node takes it.
fn tell_tick<K: Kind, T: Observer>(
    bus: &Bus,
    apps: &Apps,
    site: &Site<K>,
    ports: &[Port],
    node: NodeName,
    observer: &mut T,
)
    requires may { CanShowTick bus.now (side_of K.CODE) node site.now ports.now }
    ensures { (k : ℕ) (states : List PortState) (s : WorldSite)
        → MayShowTick (scenario_of bus.now) (side_of K.CODE) (number_of site.now) k site.now
        ports.now
        node states s
        → T.observes observer.old
        (telling (scenario_of bus.now) states (side_of K.CODE) (number_of site.now) s
        (Tick k)) observer.new }
{
    let event = show_tick(bus, apps, site, ports, node);
    observer.observe(frame_of(site), &event);
}

// The observer is told of a node's tick if that node is the one that is observed.
#[inline(always)]
pub(crate) fn tell_tick_for<K: Kind, T: Observer>(
    setup: &Setup<'_>,
    site: &Site<K>,
    ports: &[Port],
    node: NodeName,
    observer: &mut T,
)
    requires may { CanShowTick setup.now.bus.now (side_of K.CODE) node site.now ports.now }
    ensures { TellsTickFor T.observes setup.now.bus.now setup.now.observed (side_of K.CODE) node
        site.now ports.now observer.old observer.new }
{
    if is_observed(setup.observed, node) {
        tell_tick(setup.bus, setup.apps, site, ports, node, observer);
    }
}
