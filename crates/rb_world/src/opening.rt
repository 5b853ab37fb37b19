//! How a run begins.
ghost use Rattle.std.specs.Prelude.{◌≡◌, ◌<◌, ◌∷◌, ◌++◌, [], IfOk, map};
ghost use Rattle.rb_base.specs.Counting.{numbers};
ghost use Rattle.rb_base.specs.Nodes.{side_of};
ghost use Rattle.rb_rules.specs.Entries.{IsListed};
ghost use Rattle.rb_rules.specs.Hearing.{port_at};
ghost use Rattle.rb_rules.specs.Lawful.{IsLawful};
ghost use Rattle.rb_rules.specs.Links.{name_of};
ghost use Rattle.rb_rules.specs.Slots.{count_of};
ghost use Rattle.rb_rules.specs.WorldStep.{first_world};
ghost use Rattle.rb_scenario.specs.Acceptance.{as_scenario};
ghost use Rattle.rb_world.specs.Openings.{AreFresh, Begins, BeginsAll, CanBegin, CanBeginAll, before_all};
ghost use Rattle.rb_world.specs.Worlds.{HoldsPorts, Stands, Surrounds};
ghost use Rattle.rb_world.specs.Buses.{scenario_of};

use crate::Site;
use crate::bus::Bus;
use crate::last::Last;
use crate::proceeding::proceed;
use crate::run::Run;
use crate::scene::Scene;
use crate::ties::Seeding;
use crate::world::World;
use rb_base::{Biu, Kind, NodeName, NodeSet, OutOfMemory, Rmu};
use rb_port::Port;
use rb_scenario::Scenario;
use rb_world_agenda::Agenda;
use std::alloc::Global;

fn add_port(ports: &mut Vec<Port>, port: Port) -> Result<(), OutOfMemory>
    ensures { IfOk result (λ _. ports.new.items ≡ ports.old.items ++ port ∷ []) }
{
    ports.push(port).map_err(|_| OutOfMemory)
}

// The ports of all BIUs.
fn open_ports(alloc: Global, bus: &Bus) -> Result<Vec<Port>, OutOfMemory>
    ensures { IfOk result (λ ports. HoldsPorts (scenario_of bus.now) ports.items
        (map (port_at (scenario_of bus.now) []) (numbers bus.now.sizes.bius))) }
{
    let biu = bus.shape().biu();
    let mut ports = Vec::with_capacity(alloc, usize::from(biu))?;
    for i in 0..biu {
        let port = Port::new(alloc, bus.app(i), bus.word(i))?;
        add_port(&mut ports, port)?;
    }
    Ok(ports)
}

fn add_site<K: Kind>(sites: &mut Vec<Site<K>>, site: Site<K>) -> Result<(), OutOfMemory>
    ensures { IfOk result (λ _. sites.new.items ≡ sites.old.items ++ site ∷ []) }
{
    sites.push(site).map_err(|_| OutOfMemory)
}

// The `count` nodes of a kind before their first ticks.
fn open_sites<K: Kind>(alloc: Global, bus: &Bus, count: u8) -> Result<Vec<Site<K>>, OutOfMemory>
    requires { count ≡ count_of (side_of K.CODE) bus.now.sizes }
    ensures { IfOk result (λ sites. AreFresh (scenario_of bus.now) (side_of K.CODE) sites.items) }
{
    let mut sites = Vec::with_capacity(alloc, usize::from(count))?;
    for i in 0..count {
        let site = Site::new(bus.plan(), i);
        add_site(&mut sites, site)?;
    }
    Ok(sites)
}

// What surrounds them before anything is pending.
fn open_scene(alloc: Global, bus: &Bus) -> Result<Scene, OutOfMemory>
    ensures { IfOk result (λ scene. Surrounds (scenario_of bus.now) scene
        (before_all (scenario_of bus.now))) }
{
    let agenda = Agenda::new(alloc, bus.shape(), bus.room())?;
    let ports = open_ports(alloc, bus)?;
    Ok(Scene {
        agenda,
        book: bus.book(),
        ports,
        running_biu: NodeSet::first(bus.shape().biu()),
        running_rmu: NodeSet::first(bus.shape().rmu()),
    })
}

// The name of a node of the kind.
pub(crate) fn name_of<K: Kind>(i: u8) -> NodeName
    ensures { result ≡ name_of (side_of K.CODE) i }
{
    if K::CODE == 0 {
        NodeName::Biu(i)
    } else {
        NodeName::Rmu(i)
    }
}

// Node `i` of the kind begins, the ones before it having begun.
fn begin<K: Kind>(bus: &Bus, i: u8, sites: &mut Vec<Site<K>>, scene: &mut Scene)
    requires within { i < count_of (side_of K.CODE) bus.now.sizes }
    requires lawful { IsLawful (scenario_of bus.now) }
    requires listed { IsListed (scenario_of bus.now) }
    requires may { CanBegin bus.now (side_of K.CODE) i sites.old.items scene.old }
    ensures { Begins bus.now (side_of K.CODE) i sites.old.items sites.new.items scene.old
        scene.new }
{
    proceed(bus, name_of::<K>(i), &mut sites[usize::from(i)], scene);
}

// All nodes of the kind begin, one after another.
fn begin_all<K: Kind>(bus: &Bus, count: u8, sites: &mut Vec<Site<K>>, scene: &mut Scene)
    requires count { count ≡ count_of (side_of K.CODE) bus.now.sizes }
    requires fresh { AreFresh (scenario_of bus.now) (side_of K.CODE) sites.old.items }
    requires may { CanBeginAll bus.now (side_of K.CODE) scene.old }
    ensures { BeginsAll bus.now (side_of K.CODE) count sites.new.items scene.old scene.new }
{
    for i in 0..count {
        begin(bus, i, sites, scene);
    }
}

impl World {
    /// The run of a scenario before its first event. All memory is taken here: no other call of the
    /// world takes any.
    pub fn open(alloc: Global, scenario: Scenario) -> Result<World, OutOfMemory>
        requires lawful { IsLawful (as_scenario scenario) }
        requires listed { IsListed (as_scenario scenario) }
        ensures stands { IfOk result (λ w. Stands w (first_world (as_scenario scenario))) }
        ensures bus { IfOk result (λ w. w.bus ≡ as_scenario scenario) }
    {
        let bus = Bus::new(alloc, scenario)?;
        let mut scene = open_scene(alloc, &bus)?;
        let mut bius = open_sites::<Biu>(alloc, &bus, bus.shape().biu())?;
        let mut rmus = open_sites::<Rmu>(alloc, &bus, bus.shape().rmu())?;
        begin_all(&bus, bus.shape().biu(), &mut bius, &mut scene);
        begin_all(&bus, bus.shape().rmu(), &mut rmus, &mut scene);
        Ok(World {
            bus,
            run: Run { bius, rmus, scene },
            seeding: Seeding::new(0),
            last: Last::Quiet,
        })
    }
}
