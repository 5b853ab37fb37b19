//! Quiet ticks of a node.
ghost use Rattle.std.specs.Prelude.{◌≡◌, ◌+◌, ◌-◌, min};
ghost use Rattle.rb_base.specs.Nodes.{side_of};
ghost use Rattle.rb_rules.specs.Core.{Core};
ghost use Rattle.rb_node.specs.Cores.{IsCore, passing_end, ticks_of};

use rb_base::{Kind, MOST_TICKS};
use rb_node::Node;

/// Lets as many quiet ticks pass as there are before the next that is not quiet, and at most
/// `ticks`; gives how many did.
pub(crate) fn pass_some<K: Kind>(node: &mut Node<K>, ticks: u64) -> u64
    ensures many { result ≡ min ticks (passing_end (side_of K.CODE) node.old - node.old.had) }
    ensures rest { node.new ≡ record node.old { had = node.old.had + result } }
    ensures core { (c : Core) → IsCore node.old c
        → IsCore node.new (ticks_of (side_of K.CODE) node.old result c) }
{
    let quiet = node.next_tick().unwrap_or(MOST_TICKS) - node.had();
    let passed = ticks.min(quiet);
    node.pass(passed);
    passed
}
