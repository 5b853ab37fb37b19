//! How arrivals that were left behind are taken.
ghost use Rattle.std.specs.Prelude.{◌≡◌, [], ◌∷◌, ◌<◌};
ghost use Rattle.rb_base.specs.Nodes.{side_of};
ghost use Rattle.rb_rules.specs.Lawful.{kind_of};
ghost use Rattle.rb_queue.specs.Waiting.{HasLane, lane_of};
ghost use Rattle.rb_world.specs.Sites.{IsSource};
ghost use Rattle.rb_laws_sweeps.specs.AheadOf.{until_tick};
ghost use Rattle.rb_world_traffic.specs.Arriving.{number_of as number_in};
ghost use Rattle.rb_world.specs.Trailing.{CanCatchUpAll, CanCatchUp, CanSweep, CatchesUp, CatchesUpAll, HasSwept, HasLater, KeepsLanes};
ghost use Rattle.rb_world.specs.Unstamped.{AreOfSources, TakesInDue, with_nothing_before};
ghost use Rattle.rb_world.specs.Observing.{TellsCatchUp, TellsCatchUpAll, TellsSweep, TellsSweepFor};

use crate::Site;
use crate::bus::Bus;
use crate::observing::{Observer, is_observed, tell_arrival};
use crate::run::{Run, Setup};
use crate::taking::hear_at;
use rb_base::{Kind, NodeName};
use rb_queue::Arrival;
use rb_world_agenda::Agenda;

/// What comes to the node before this time is taken, one arrival after another, and with it a tick
/// of the node before then.
#[inline(always)]
pub(crate) fn sweep<K: Kind>(
    bus: &Bus,
    node: NodeName,
    until: u64,
    site: &mut Site<K>,
    agenda: &mut Agenda,
)
    requires may { CanSweep bus.now (side_of K.CODE) node until site.old agenda.old }
    ensures swept { HasSwept bus.now (side_of K.CODE) until site.old site.new agenda.old
        agenda.new }
    ensures lanes { KeepsLanes agenda.old agenda.new }
{
    let clock = bus.clock(node);
    'events: loop {
        match agenda.first_before(node, until) {
            None => {
                let tick = agenda.tick(node).unwrap_or(u64::MAX);
                if tick >= until {
                    return;
                }
                agenda.take_tick(node);
                return;
            }
            Some(place) => {
                let arrival = agenda.arrival(node, place);
                let time = arrival.time();
                let from = arrival.from();
                site.arrive(clock, time, from, arrival.spelling());
                agenda.drop_at(node, place);
            }
        }
    }
}

// An arrival is taken in unstamped, if it comes before this time.
#[inline(always)]
fn take_in_before<K: Kind>(until: u64, arrival: &Arrival, site: &mut Site<K>)
    requires sender { IsSource (side_of K.CODE) site.old arrival.now.from }
    ensures stands { TakesInDue (side_of K.CODE) until (arrival.now ∷ []) site.old site.new }
    ensures seat { site.new.node.seat ≡ site.old.node.seat }
{
    let time = arrival.time();
    if time < until {
        site.take_in(time, arrival.from(), arrival.spelling());
    }
}

/// All that comes to the node before this time is taken in, unstamped and in the order of pushing.
/// Neither that nor the node's tick is pending any more.
#[inline(always)]
pub(crate) fn take_in_all<K: Kind>(
    node: NodeName,
    until: u64,
    site: &mut Site<K>,
    agenda: &mut Agenda,
)
    requires lane { HasLane agenda.old node }
    requires senders { AreOfSources (side_of K.CODE) site.old (lane_of agenda.old node).arrivals }
    ensures stands { TakesInDue (side_of K.CODE) until (lane_of agenda.old node).arrivals site.old
        site.new }
    ensures seat { site.new.node.seat ≡ site.old.node.seat }
    ensures lanes { agenda.new ≡ with_nothing_before until node agenda.old }
{
    for arrival in agenda.waiting(node) {
        take_in_before(until, arrival, site);
    }
    agenda.drop_before(node, until);
    agenda.take_tick(node);
}

// What comes to the node before this time is taken, and each arrival is told to an observer before
// it is taken.
fn sweep_told<K: Kind, T: Observer>(
    bus: &Bus,
    node: NodeName,
    until: u64,
    site: &mut Site<K>,
    agenda: &mut Agenda,
    observer: &mut T,
)
    requires may { CanSweep bus.now (side_of K.CODE) node until site.old agenda.old }
    ensures swept { HasSwept bus.now (side_of K.CODE) until site.old site.new agenda.old
        agenda.new }
    ensures lanes { KeepsLanes agenda.old agenda.new }
    ensures told { TellsSweep T.observes bus.now (side_of K.CODE) until site.old agenda.old
        observer.old observer.new }
{
    'events: loop {
        match agenda.first_before(node, until) {
            None => {
                sweep(bus, node, until, site, agenda);
                return;
            }
            Some(place) => {
                tell_arrival(bus, node, place, site, agenda, observer);
                hear_at(bus, node, place, site, agenda);
            }
        }
    }
}

// The node is swept. If it is the one that is observed, each arrival is told.
#[inline(always)]
pub(crate) fn sweep_for<K: Kind, T: Observer>(
    setup: &Setup<'_>,
    node: NodeName,
    until: u64,
    site: &mut Site<K>,
    agenda: &mut Agenda,
    observer: &mut T,
)
    requires may { CanSweep setup.now.bus.now (side_of K.CODE) node until site.old agenda.old }
    ensures swept { HasSwept setup.now.bus.now (side_of K.CODE) until site.old site.new agenda.old
        agenda.new }
    ensures lanes { KeepsLanes agenda.old agenda.new }
    ensures told { TellsSweepFor T.observes setup.now.bus.now setup.now.observed (side_of K.CODE)
        node until site.old agenda.old observer.old observer.new }
{
    if is_observed(setup.observed, node) {
        sweep_told(setup.bus, node, until, site, agenda, observer);
        return;
    }
    sweep(setup.bus, node, until, site, agenda);
}

// The time up to which a node is swept before the tick of another node at this time.
fn until_before(from: NodeName, time: u64, node: NodeName) -> u64
    requires { time < 18446744073709551615 }
    ensures { result ≡ until_tick (kind_of from) (number_in from) time (kind_of node)
        (number_in node) }
{
    match (from, node) {
        (NodeName::Biu(i), NodeName::Biu(j)) => if i < j { time } else { time + 1 },
        (NodeName::Biu(_), NodeName::Rmu(_)) => time,
        (NodeName::Rmu(_), NodeName::Biu(_)) => time + 1,
        (NodeName::Rmu(i), NodeName::Rmu(j)) => if i < j { time } else { time + 1 },
    }
}

// Sweeps every node of one kind up to the tick of a node at a time.
fn catch_up_all<K: Kind, T: Observer>(
    setup: &Setup<'_>,
    tick: (NodeName, u64),
    sites: &mut Vec<Site<K>>,
    agenda: &mut Agenda,
    observer: &mut T,
)
    requires { CanCatchUpAll setup.now.bus.now tick (side_of K.CODE) sites.old.items agenda.old }
    ensures caught { CatchesUpAll setup.now.bus.now tick (side_of K.CODE) sites.old.items
        sites.new.items agenda.old agenda.new }
    ensures told { TellsCatchUpAll T.observes setup.now.bus.now setup.now.observed tick
        (side_of K.CODE) sites.old.items agenda.old observer.old observer.new }
{
    for i in 0..sites.len() {
        let site = &mut sites[i];
        let node = site.name();
        let until = until_before(tick.0, tick.1, node);
        sweep_for(setup, node, until, site, agenda, observer);
    }
}

/// All nodes are swept up to the last tick, if there was one.
pub(crate) fn catch_up<T: Observer>(
    setup: &Setup<'_>,
    tick: Option<(NodeName, u64)>,
    run: &mut Run,
    observer: &mut T,
)
    requires small { HasLater tick }
    requires trails { CanCatchUp setup.now.bus.now tick run.old }
    ensures caught { CatchesUp setup.now.bus.now tick run.old run.new }
    ensures told { TellsCatchUp T.observes setup.now.bus.now setup.now.observed tick run.old
        observer.old observer.new }
{
    if let Some(tick) = tick {
        catch_up_all(setup, tick, &mut run.bius, &mut run.scene.agenda, observer);
        catch_up_all(setup, tick, &mut run.rmus, &mut run.scene.agenda, observer);
    }
}
