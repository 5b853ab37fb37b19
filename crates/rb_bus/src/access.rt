//! Decides to which BIUs a host may hand words.
ghost use Rattle.std.specs.Prelude.{◌≡◌, ◌==◌, get_or};
ghost use Rattle.rb_base.specs.Nodes.Side.{Biu};
ghost use Rattle.rb_rules.specs.Goodness.{Scenario as RunScenario, is_good};
ghost use Rattle.rb_scenario.specs.Acceptance.{as_scenario};
ghost use Rattle.rb_bus.specs.Access.{IsAccessOf};

use rb_base::NodeName;
use rb_scenario::Scenario;
use rb_world_onset::Onsets;

/// The part of a scenario that decides which BIUs may be handed words: the place from which on each
/// node is faulty, and the application of each BIU.
#[derive(Clone, Copy, Debug, PartialEq, Eq)]
pub struct Access {
    pub onsets: Onsets,
    pub apps: [u8; 16],
}

/// The access that a scenario gives.
pub(crate) fn access_of(scenario: &Scenario) -> Access
    ensures { IsAccessOf (as_scenario scenario.now) result }
{
    let shape = *scenario.plan.shape();
    Access {
        onsets: Onsets::new(shape, scenario.biu_onset, scenario.rmu_onset),
        apps: scenario.apps,
    }
}

// The number of a BIU's application; 0 if there can be no such BIU.
fn app_at(apps: &[u8; 16], biu: u8) -> u8
    ensures { result ≡ get_or apps.now biu 0 }
{
    if biu < 16 { apps[usize::from(biu)] } else { 0 }
}

/// Whether the bus has this BIU, and the BIU is good as the frame begins.
pub(crate) fn is_good_at_begin(access: &Access, biu: u8, frame: u32) -> bool
    ensures { (sc : RunScenario) → IsAccessOf sc access.now → result ≡ is_good sc Biu biu frame 0 }
{
    access.onsets.is_good(NodeName::Biu(biu), frame, 0)
}

/// Whether the application of a BIU is a table.
pub(crate) fn has_table(access: &Access, biu: u8) -> bool
    ensures { (sc : RunScenario) → IsAccessOf sc access.now → result ≡ (get_or sc.apps biu 0 == 0) }
{
    app_at(&access.apps, biu) == 0
}
