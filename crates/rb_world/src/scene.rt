//! What surrounds the nodes of a run.
ghost use Rattle.std.specs.Prelude.{◌≡◌};
ghost use Rattle.rb_base.specs.Nodes.{other};
ghost use Rattle.rb_rules.specs.Lawful.{kind_of};
ghost use Rattle.rb_world_traffic.specs.Arriving.{number_of};
ghost use Rattle.rb_world.specs.Worlds.{running_of};

use rb_base::{Biu, NodeName, NodeSet, Rmu};
use rb_port::Port;
use rb_world_agenda::Agenda;
use rb_world_book::Book;

/// What is pending at the nodes, what they told, the ports of the BIUs, and which nodes run.
#[derive(Drop)]
pub struct Scene {
    pub agenda: Agenda,
    pub book: Book,
    pub ports: Vec<Port>,
    pub running_biu: NodeSet<Biu>,
    pub running_rmu: NodeSet<Rmu>,
}

impl Scene {
    /// The nodes of the other kind that run, one bit for each.
    pub fn running_others(&self, node: NodeName) -> u16
        ensures { result ≡ running_of (other (kind_of node)) self.now }
    {
        match node {
            NodeName::Biu(_) => self.running_rmu.bits(),
            NodeName::Rmu(_) => self.running_biu.bits(),
        }
    }
}

/// The number of a node among those of its kind.
pub(crate) fn number_of(node: NodeName) -> u8
    ensures { result ≡ number_of node }
{
    match node {
        NodeName::Biu(i) => i,
        NodeName::Rmu(i) => i,
    }
}
