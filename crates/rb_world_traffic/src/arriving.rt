//! What comes to a node.
ghost use Rattle.std.specs.Prelude.{◌≡◌};
ghost use Rattle.rb_base.specs.Nodes.{other};
ghost use Rattle.rb_rules.specs.Lawful.{kind_of};
ghost use Rattle.rb_rules.specs.Links.{name_of};
ghost use Rattle.rb_world_traffic.specs.Arriving.{number_of};

use rb_base::NodeName;

// The node of the other kind with this number.
#[inline]
pub(crate) fn receiver(from: NodeName, i: u8) -> NodeName
    ensures { result ≡ name_of (other (kind_of from)) i }
{
    match from {
        NodeName::Biu(_) => NodeName::Rmu(i),
        NodeName::Rmu(_) => NodeName::Biu(i),
    }
}

// The number of a node among those of its kind.
#[inline]
pub(crate) fn number_of(node: NodeName) -> u8
    ensures { result ≡ number_of node }
{
    match node {
        NodeName::Biu(i) => i,
        NodeName::Rmu(i) => i,
    }
}
