//! A node goes on to its next tick.
ghost use Rattle.std.specs.Prelude.{◌≡◌, ◌<◌};
ghost use Rattle.rb_base.specs.Nodes.{side_of};
ghost use Rattle.rb_rules.specs.Lawful.{IsNodeOf};
ghost use Rattle.rb_rules.specs.Links.{name_of};
ghost use Rattle.rb_rules.specs.WorldStep.{World};
ghost use Rattle.rb_queue.specs.Waiting.{HasLane};
ghost use Rattle.rb_world.specs.Sites.{number_of};
ghost use Rattle.rb_world.specs.Steps.{AwaitsNext, CanProceed, HasProceeded, stopped, without};
ghost use Rattle.rb_world.specs.Worlds.{Surrounds};
ghost use Rattle.rb_world.specs.Buses.{scenario_of};

use crate::Site;
use crate::bus::Bus;
use crate::scene::Scene;
use rb_base::{Kind, NodeId, NodeName, NodeSet};

// The set without node i.
fn without<K: Copy>(set: NodeSet<K>, i: u8) -> NodeSet<K>
    requires { i < 16 }
    ensures { result ≡ without set i }
{
    let mut changed = NodeSet::from_bits(set.bits());
    changed.remove(NodeId::of(i));
    changed
}

// The node's next tick that is not quiet is pending.
#[inline(always)]
fn await_tick<K: Kind>(bus: &Bus, node: NodeName, site: &Site<K>, scene: &mut Scene)
    requires node { IsNodeOf bus.now.sizes node }
    requires lane { HasLane scene.old.agenda node }
    ensures { AwaitsNext bus.now (side_of K.CODE) node site.now scene.old scene.new }
{
    if let Some(tick) = site.node().next_tick() {
        let time = bus.clock(node).at(tick);
        scene.agenda.push_tick(node, time);
    }
}

// The node stops: nothing is pending at it any more, and nothing comes to it.
fn stop_at(bus: &Bus, node: NodeName, scene: &mut Scene)
    requires node { IsNodeOf bus.now.sizes node }
    requires around { (w : World) × Surrounds (scenario_of bus.now) scene.old w }
    ensures { scene.new ≡ stopped node scene.old }
{
    scene.agenda.drop_all(node);
    match node {
        NodeName::Biu(i) => scene.running_biu = without(scene.running_biu, i),
        NodeName::Rmu(i) => scene.running_rmu = without(scene.running_rmu, i),
    }
}

// The node goes on to its next tick, as in `proceed`. This is the way for a node that may stop, or
// be told something, in a window that begins.
#[inline(always)]
fn proceed_in_full<K: Kind>(bus: &Bus, node: NodeName, site: &mut Site<K>, scene: &mut Scene)
    requires name { node ≡ name_of (side_of K.CODE) (number_of site.old) }
    requires may { CanProceed bus.now (side_of K.CODE) site.old scene.old }
    ensures { HasProceeded bus.now (side_of K.CODE) site.old site.new scene.old scene.new }
{
    if let Some(span) = site.entering() {
        if !bus.is_good(node, &span) {
            site.stop();
            stop_at(bus, node, scene);
            return;
        }
        bus.say(&mut scene.agenda, node, &span);
    }
    await_tick(bus, node, site, scene);
}

/// The node goes on to its next tick. At a window's start a node that is not good there stops, and
/// to the others comes what they are told in it. This is the short cut "calm nodes" of
/// docs/PERFORMANCE.md.
#[inline(always)]
pub(crate) fn proceed<K: Kind>(bus: &Bus, node: NodeName, site: &mut Site<K>, scene: &mut Scene)
    requires name { node ≡ name_of (side_of K.CODE) (number_of site.old) }
    requires may { CanProceed bus.now (side_of K.CODE) site.old scene.old }
    ensures { HasProceeded bus.now (side_of K.CODE) site.old site.new scene.old scene.new }
{
    if bus.is_calm(node, site.node().engine().frame()) {
        await_tick(bus, node, site, scene);
    } else {
        proceed_in_full(bus, node, site, scene);
    }
}
