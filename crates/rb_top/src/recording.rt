//! The log of one node in a run.
ghost use Rattle.std.specs.Prelude.{◌≡◌, ◌↔◌, IsTrue};
ghost use Rattle.rb_rules.specs.Entries.{IsListed};
ghost use Rattle.rb_rules.specs.Lawful.{IsLawful, IsNodeOf};
ghost use Rattle.rb_scenario.specs.Acceptance.{as_scenario};
ghost use Rattle.rb_run.specs.Seen.{sink_over};
ghost use Rattle.rb_top.specs.Serving.{Logs};

use rb_base::{NodeName, OutOfMemory};
use rb_outside::{Failed, Sink};
use rb_port::Apps;
use rb_program::{Status, status_of};
use rb_record::record;
use rb_scenario::Scenario;
use rb_world::World;
use std::alloc::Global;

/// Whether the node is one of the scenario's bus.
pub(crate) fn has_node(scenario: &Scenario, node: NodeName) -> bool
    ensures { IsTrue result ↔ IsNodeOf scenario.now.plan.sizes node }
{
    match node {
        NodeName::Biu(i) => i < scenario.plan.shape().biu(),
        NodeName::Rmu(i) => i < scenario.plan.shape().rmu(),
    }
}

/// Opens the run of a scenario and writes the log of a node of its bus.
pub(crate) fn write_log<K: Sink>(
    alloc: Global,
    scenario: Scenario,
    node: NodeName,
    output: &mut K,
    apps: &Apps,
) -> Status
    requires lawful { IsLawful (as_scenario scenario) }
    requires listed { IsListed (as_scenario scenario) }
    requires node { IsNodeOf scenario.plan.sizes node }
    ensures logs { Logs scenario node result
        (sink_over K.held K.faults output.old output.new) }
    ensures unopened { result ≡ Status.OutOfMemory → output.new ≡ output.old }
{
    let mut world = match World::open(alloc, scenario) {
        Ok(world) => world,
        Err(OutOfMemory) => return Status::OutOfMemory,
    };
    match record(&mut world, apps, node, output) {
        Ok(ending) => status_of(ending),
        Err(Failed) => Status::WriteFault,
    }
}
