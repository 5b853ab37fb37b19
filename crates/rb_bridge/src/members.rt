//! The BIUs of a bridge.
ghost use Rattle.std.specs.Prelude.{◌≡◌, ◌<◌, ◌==◌, ◌||◌, All};
ghost use Rattle.std.specs.List.{list_any};
ghost use Rattle.rb_base.specs.Nodes.{has, set_of};
ghost use Rattle.rb_rules_bridge.specs.Bridges.{biu_on};

use rb_base::{Biu, NodeId, NodeSet};
use rb_rules_bridge::{Bank, Pair};

// The BIU of a pair on a bank.
fn biu_on(bank: Bank, pair: &Pair) -> u8
    ensures { result ≡ biu_on bank pair.now }
{
    match bank {
        Bank::Left => pair.left,
        Bank::Right => pair.right,
    }
}

// The set of these and of one more node.
fn with_node(set: NodeSet<Biu>, node: u8) -> NodeSet<Biu>
    requires { node < 16 }
    ensures { result ≡ set_of (λ i. has set i || (i == node)) }
{
    let mut more = set;
    more.insert(NodeId::of(node));
    more
}

/// The BIUs of all pairs on a bank.
pub fn members_on(bank: Bank, pairs: &[Pair]) -> NodeSet<Biu>
    requires { All (λ pair. biu_on bank pair < 16) pairs.now }
    ensures { result ≡ set_of (λ i. list_any (λ pair. biu_on bank pair == i) pairs.now) }
{
    let mut members = NodeSet::empty();
    for pair in pairs {
        members = with_node(members, biu_on(bank, pair));
    }
    members
}
