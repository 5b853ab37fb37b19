//! A tick of a node.
ghost use Rattle.std.specs.Prelude.{◌≡◌, ℕ, ◌<◌, ◌≤◌, ◌^◌, true, IfSome, Option, Some, List, length};
ghost use Rattle.rb_base.specs.Nodes.{other, side_of};
ghost use Rattle.rb_base.specs.Nodes.Side.{Biu};
ghost use Rattle.rb_rules.specs.Hearing.{port_at, port_line};
ghost use Rattle.rb_rules.specs.Lawful.{IsNodeOf, kind_of};
ghost use Rattle.rb_rules.specs.Ports.{PortState};
ghost use Rattle.rb_node.specs.Acts.{IsSendable};
ghost use Rattle.rb_node.specs.Wants.{want_for};
ghost use Rattle.rb_world.specs.Worlds.{HoldsPorts, Surrounds};
ghost use Rattle.rb_rules.specs.WorldStep.{World, with_delivery, word_of};
ghost use Rattle.rb_world.specs.Sites.{number_of};
ghost use Rattle.rb_world.specs.Steps.{CanTick, CanWant, Changes, Closes, DoesTick, HasRoomFor, IsWordAt, IsWordSlot, SeesOnlyNodes, begun_at, sent_by};
ghost use Rattle.rb_world.specs.Buses.{scenario_of};

use crate::Site;
use crate::bus::Bus;
use crate::opening::name_of;
use crate::proceeding::proceed;
use crate::scene::{Scene, number_of};
use rb_base::{Delivery, Kind, NodeName};
use rb_node::Want;
use rb_port::{Apps, Port};
use rb_rules::{Epoch, Message, NodeLine, PortLine};
use rb_world_traffic::Departure;

// The word that a node is handed for a tick: its request, or what its port offers.
pub(crate) fn word_for(bus: &Bus, apps: &Apps, ports: &[Port], i: u8, want: Want) -> u32
    requires want { CanWant (scenario_of bus.now) i want }
    requires many { length ports.now ≡ bus.now.sizes.bius }
    ensures { (states : List PortState) (slot : Option ℕ)
        → HoldsPorts (scenario_of bus.now) ports.now states
        → IsWordSlot bus.now.sizes slot
        → want ≡ want_for bus.now.sizes slot → result ≡ word_of
        (scenario_of bus.now) states i slot }
{
    match want {
        Want::Nothing => 0,
        Want::Request => bus.request(i),
        Want::Data { slot } => ports[usize::from(i)].offer(apps, slot),
    }
}

// What a BIU tells of its port.
fn line_of_port(bus: &Bus, i: u8, ports: &[Port]) -> PortLine
    requires within { i < bus.now.sizes.bius }
    requires many { length ports.now ≡ bus.now.sizes.bius }
    ensures { (states : List PortState) → HoldsPorts (scenario_of bus.now) ports.now states
        → Some result ≡ port_line Biu i (port_at (scenario_of bus.now) states i) }
{
    let port = &ports[usize::from(i)];
    PortLine {
        biu: i,
        state: port.state(),
        losses: port.losses(),
    }
}

// A node begins a frame, if one begins.
#[inline(always)]
fn begin(bus: &Bus, node: NodeName, epoch: Option<Epoch>, scene: &mut Scene)
    requires node { IsNodeOf bus.now.sizes node }
    requires tick { IfSome epoch (λ e. e.tick ≤ 2 ^ 31) }
    requires around { (w : World) × Surrounds (scenario_of bus.now) scene.old w }
    ensures around { Changes bus.now scene.old scene.new
        (begun_at (scenario_of bus.now) node epoch) }
    ensures rest { scene.new ≡ record scene.old { book = scene.new.book } }
{
    if let Some(epoch) = epoch {
        let line = NodeLine {
            node,
            tick: epoch.tick,
            time: bus.clock(node).at(epoch.tick),
            biu: epoch.biu,
            rmu: epoch.rmu,
        };
        match node {
            NodeName::Biu(i) => {
                let port = line_of_port(bus, i, &scene.ports);
                scene.book.begin_biu(i, epoch.frame, line, port);
            }
            NodeName::Rmu(i) => scene.book.begin_rmu(i, epoch.frame, line),
        }
    }
}

// What a BIU delivers goes to its port. RMUs deliver nothing.
#[inline(always)]
fn deliver(bus: &Bus, apps: &Apps, i: u8, delivered: Option<Delivery>, ports: &mut Vec<Port>)
    ensures { (states : List PortState) → HoldsPorts (scenario_of bus.now) ports.old.items states
        → HoldsPorts (scenario_of bus.now) ports.new.items (with_delivery
        (scenario_of bus.now) i delivered states) }
{
    if let Some(delivery) = delivered {
        if usize::from(i) < ports.len() {
            ports[usize::from(i)].deliver(apps, delivery);
        }
    }
}

// A node has closed a window, if it has: it tells what it saw, and what it delivers goes to its
// port.
#[inline(always)]
fn close<K: Kind>(
    bus: &Bus,
    apps: &Apps,
    node: NodeName,
    closed: bool,
    site: &Site<K>,
    scene: &mut Scene,
)
    requires node { IsNodeOf bus.now.sizes node }
    requires sources { closed ≡ true → SeesOnlyNodes (scenario_of bus.now)
        (kind_of node) site.now.node.shown }
    requires around { (w : World) × Surrounds (scenario_of bus.now) scene.old w }
    ensures around { Closes bus.now (side_of K.CODE) node closed site.now scene.old scene.new }
    ensures agenda { scene.new.agenda ≡ scene.old.agenda }
{
    if !closed {
        return;
    }
    let closed = site.node().shown();
    let engine = site.node().engine();
    scene.book.close(
        node,
        closed,
        site.times(),
        engine.trusted_biu(),
        engine.trusted_rmu(),
    );
    deliver(
        bus,
        apps,
        number_of(node),
        closed.delivered(),
        &mut scene.ports,
    );
}

// What a node sends at a tick is on its way.
#[inline(always)]
fn depart(
    bus: &Bus,
    node: NodeName,
    frame: u32,
    k: u64,
    message: Option<Message>,
    scene: &mut Scene,
)
    requires node { IsNodeOf bus.now.sizes node }
    requires tick { k ≤ 2 ^ 31 }
    requires message { IfSome message IsSendable }
    requires around { (w : World) × Surrounds (scenario_of bus.now) scene.old w }
    requires room { HasRoomFor (scenario_of bus.now) (other (kind_of node)) scene.old }
    ensures { Changes bus.now scene.old scene.new
        (sent_by (scenario_of bus.now) node frame k message) }
{
    if let Some(message) = message {
        let departure = Departure {
            from: node,
            frame,
            tick: k,
            message,
        };
        let running = scene.running_others(node);
        bus.send(&mut scene.agenda, &departure, running);
    }
}

// A node takes its next tick, which has this number, with the word that it wants for it.
#[inline(always)]
fn tick_with_word<K: Kind>(
    bus: &Bus,
    apps: &Apps,
    k: u64,
    word: u32,
    site: &mut Site<K>,
    scene: &mut Scene,
)
    requires may { CanTick bus.now (side_of K.CODE) k site.old scene.old }
    requires word { IsWordAt bus.now (side_of K.CODE) k word site.old scene.old }
    ensures { DoesTick bus.now (side_of K.CODE) k site.old site.new scene.old scene.new }
{
    let node = site.name();
    let step = site.tick(k, word);
    begin(bus, node, step.epoch, scene);
    close(bus, apps, node, step.closed, site, scene);
    proceed(bus, node, site, scene);
    let frame = site.node().engine().frame();
    depart(bus, node, frame, k, step.message, scene);
}

// Node `i` of the kind takes its next tick, whatever happens at it.
#[inline(never)]
fn tick_in_full<K: Kind>(
    bus: &Bus,
    apps: &Apps,
    i: u8,
    k: u64,
    site: &mut Site<K>,
    scene: &mut Scene,
)
    requires number { i ≡ number_of site.old }
    requires may { CanTick bus.now (side_of K.CODE) k site.old scene.old }
    ensures { DoesTick bus.now (side_of K.CODE) k site.old site.new scene.old scene.new }
{
    let word = word_for(bus, apps, &scene.ports, i, site.node().wants_then());
    tick_with_word(bus, apps, k, word, site, scene);
}

/// Node `i` of the kind takes its next tick, which has this number. This is the short cut "end of a
/// window alone" of docs/PERFORMANCE.md.
#[inline(always)]
pub(crate) fn tick<K: Kind>(
    bus: &Bus,
    apps: &Apps,
    i: u8,
    k: u64,
    site: &mut Site<K>,
    scene: &mut Scene,
)
    requires number { i ≡ number_of site.old }
    requires may { CanTick bus.now (side_of K.CODE) k site.old scene.old }
    ensures { DoesTick bus.now (side_of K.CODE) k site.old site.new scene.old scene.new }
{
    if site.end_window() {
        let node = name_of::<K>(i);
        close(bus, apps, node, true, site, scene);
        proceed(bus, node, site, scene);
    } else {
        tick_in_full(bus, apps, i, k, site, scene);
    }
}
