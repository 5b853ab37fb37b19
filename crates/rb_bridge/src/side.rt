//! One bus of a bridge under way.
ghost use Rattle.std.specs.Prelude.{◌≡◌, ◌+◌, ◌<◌, IfOk};
ghost use Rattle.rb_rules.specs.Entries.{IsListed};
ghost use Rattle.rb_rules.specs.Lawful.{IsLawful};
ghost use Rattle.rb_scenario.specs.Acceptance.{as_scenario};
ghost use Rattle.rb_bridge.specs.Sides.{HasOpened};

use crate::passing::{Passage, Terms};
use crate::values::no_values;
use rb_base::{Biu, NodeSet, OutOfMemory};
use rb_group::Which;
use rb_group_run::{Asked, Scope, first_ports, scope_of};
use rb_scenario::Scenario;
use rb_world::World;
use rb_world_book::Turn;
use std::alloc::Global;

/// A bus of a bridge: its run, what is kept of the frame that it has reached, what is asked of it,
/// and the last turn that was given.
#[derive(Drop)]
pub struct Side {
    pub world: World,
    pub passage: Passage,
    pub terms: Terms,
    pub scope: Scope,
    pub turn: Turn,
}

// What is asked of a bus: the bridge's BIUs, and which data slot is carried over, counted from 0.
fn terms_of(scope: &Scope, members: NodeSet<Biu>, slot: u16) -> Terms
    requires { slot < scope.now.shape.data_slots }
    ensures { result ≡ record {
      asked = record { which = Which.Most; members = members };
      slot = scope.now.shape.bius + slot;
      frames = scope.now.frames;
    } }
{
    Terms {
        asked: Asked {
            which: Which::Most,
            members,
        },
        slot: u16::from(scope.shape.biu()) + slot,
        frames: scope.frames,
    }
}

/// The side of a scenario before its first frame, with the BIUs of the bridge on it, and the data
/// slot that is carried over, counted from 0. All memory of its run is taken here.
pub fn open_side(
    alloc: Global,
    scenario: Scenario,
    members: NodeSet<Biu>,
    slot: u16,
) -> Result<Side, OutOfMemory>
    requires lawful { IsLawful (as_scenario scenario) }
    requires listed { IsListed (as_scenario scenario) }
    requires slot { slot < scenario.plan.sizes.data_slots }
    ensures { IfOk result (HasOpened (as_scenario scenario) members slot) }
{
    let scope = scope_of(&scenario);
    let terms = terms_of(&scope, members, slot);
    let world = match World::open(alloc, scenario) {
        Ok(world) => world,
        Err(OutOfMemory) => return Err(OutOfMemory),
    };
    let ports = first_ports(&terms.asked);
    Ok(Side {
        world,
        passage: Passage {
            ports,
            values: no_values(),
        },
        terms,
        scope,
        turn: Turn::Quiet,
    })
}
