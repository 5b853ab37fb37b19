//! All nodes of a run.
use crate::bus::Bus;
use crate::last::Last;
use crate::run::Run;
use crate::ties::Seeding;
use std::marker::Model;

/// All nodes of a bus, with what is pending at each: a run of a scenario, event by event. It stands
/// for a world of the definitions that some choices lead to.
#[derive(Drop)]
pub struct World {
    pub(crate) bus: Bus,
    pub(crate) run: Run,
    pub(crate) seeding: Seeding,
    pub(crate) last: Last,
}

impl Model for World {
    ghost use Rattle.rb_rules.specs.WorldStep.{World as RunWorld};
    ghost use Rattle.std.specs.Coded.{code_by, codes};
    ghost use Rattle.rb_world.specs.Kept.{KeptParts, kept_of, parts_of, world-again, world_of};
    ghost use Rattle.rb_world.specs.Worlds.{KeptWorld, Stands};

    ghost Value = { KeptWorld };

    ghost coded = { code_by KeptParts (Prim.hlevel codes) parts_of world_of world-again };

    ghost view = { kept_of };

    ghost invariant = { λ w. (run : RunWorld) × Stands (kept_of w) run };
}
