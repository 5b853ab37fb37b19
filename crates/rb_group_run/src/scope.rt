//! The parts of a scenario that decide which receivers are reported, and who they are.
ghost use Rattle.std.specs.Prelude.{◌≡◌};
ghost use Rattle.rb_base.specs.Nodes.Side.{Biu};
ghost use Rattle.rb_rules.specs.Goodness.{Scenario as Bus, is_good};
ghost use Rattle.rb_scenario.specs.Acceptance.{as_scenario};
ghost use Rattle.rb_group_run.specs.Holding.{IsScopeOf};
ghost use Rattle.rb_group_run.specs.Replies.{last_data_slot};

use crate::Scope;
use rb_base::{NodeName, Shape};
use rb_scenario::Scenario;
use rb_world_onset::Onsets;

/// The parts of a scenario that decide which receivers of its run are reported.
pub fn scope_of(scenario: &Scenario) -> Scope
    ensures { IsScopeOf (as_scenario scenario.now) result }
{
    let shape = *scenario.plan.shape();
    Scope {
        shape,
        frames: scenario.frames,
        onsets: Onsets::new(shape, scenario.biu_onset, scenario.rmu_onset),
    }
}

impl Scope {
    /// Whether the BIU is good in the last data slot of a frame.
    pub fn is_good_at_last(&self, frame: u32, port: u8) -> bool
        ensures { (sc : Bus) → IsScopeOf sc self.now
            → result ≡ is_good sc Biu port frame (last_data_slot sc.sizes) }
    {
        let slot = last_data_slot(&self.shape);
        self.onsets.is_good(NodeName::Biu(port), frame, slot)
    }
}

// The number of the last data slot.
fn last_data_slot(shape: &Shape) -> u16
    ensures { result ≡ last_data_slot shape.now }
{
    u16::from(shape.biu()) + shape.slots() - 1
}
