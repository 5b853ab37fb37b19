//! What may be asked of a run.
ghost use Rattle.std.specs.Prelude.{◌≡◌, ◌↔◌, IsTrue, Some, slice_get};
ghost use Rattle.rb_rules.specs.Book.{of_kind};
ghost use Rattle.rb_rules.specs.Lawful.{IsNodeOf, kind_of};
ghost use Rattle.rb_rules.specs.WorldStep.{Site as WorldSite, World as RunWorld};
ghost use Rattle.rb_world_traffic.specs.Arriving.{number_of};
ghost use Rattle.rb_world.specs.Worlds.{Stands};

use crate::world::World;
use rb_base::NodeName;
use rb_plan::Feasible;

impl World {
    /// The size and the plan of the bus.
    pub fn plan(&self) -> &Feasible
        ensures { result.now ≡ record { sizes = self.now.bus.sizes; plan = self.now.bus.plan } }
    {
        self.bus.plan()
    }

    /// The number of frames of the run.
    pub fn frames(&self) -> u32
        ensures { result ≡ self.now.bus.frames }
    {
        self.bus.frames()
    }

    /// Whether the node is one of the bus.
    pub fn has_node(&self, node: NodeName) -> bool
        ensures { IsTrue result ↔ IsNodeOf self.now.bus.sizes node }
    {
        match node {
            NodeName::Biu(i) => i < self.bus.shape().biu(),
            NodeName::Rmu(i) => i < self.bus.shape().rmu(),
        }
    }

    /// The frame in which a node of the bus is. It begins with the node's first tick of it.
    pub fn frame(&self, node: NodeName) -> u32
        requires node { IsNodeOf self.now.bus.sizes node }
        ensures world { (w : RunWorld) → Stands self.now w → (s : WorldSite)
            → slice_get (of_kind (kind_of node) w.sites) (number_of node) ≡ Some s
            → result ≡ s.core.state.frame }
    {
        match node {
            NodeName::Biu(i) => self.run.bius[usize::from(i)].node().engine().frame(),
            NodeName::Rmu(i) => self.run.rmus[usize::from(i)].node().engine().frame(),
        }
    }
}
