//! A node of either kind.
use crate::quiet::pass_some;
use rb_base::{Biu, NodeName, Rmu};
use rb_node::{Act, Node, Want};
use rb_plan::Feasible;

/// A node of either kind.
#[derive(Drop)]
pub enum AnyNode {
    Biu(Node<Biu>),
    Rmu(Node<Rmu>),
}

impl AnyNode {
    ghost use Rattle.std.specs.Prelude.{◌≡◌};
    ghost use Rattle.rb_plan.specs.Timetable.{Timetable};
    ghost use Rattle.rb_rules.specs.Lawful.{IsNodeOf};
    ghost use Rattle.rb_host.specs.Nodes.{Arrives, IsFirst, IsNextTick, IsWant, Passes, Steps};

    /// A node of the plan's bus, before its first tick.
    pub fn new(plan: &Feasible, name: NodeName) -> AnyNode
        requires { IsNodeOf plan.now.sizes name }
        ensures { IsFirst plan.now name result }
    {
        match name {
            NodeName::Biu(index) => AnyNode::Biu(Node::<Biu>::new(plan, index)),
            NodeName::Rmu(index) => AnyNode::Rmu(Node::<Rmu>::new(plan, index)),
        }
    }

    /// A message comes, or other bytes, with the number of their source among the nodes of the
    /// other kind.
    pub fn arrive(&mut self, from: u8, bytes: &[u8])
        ensures { Arrives self.old from bytes.now self.new }
    {
        match self {
            AnyNode::Biu(node) => node.arrive(from, bytes),
            AnyNode::Rmu(node) => node.arrive(from, bytes),
        }
    }

    /// What the node wants to be handed for its next tick.
    pub fn wants(&self) -> Want
        ensures { IsWant self.now result }
    {
        match self {
            AnyNode::Biu(node) => node.wants(),
            AnyNode::Rmu(node) => node.wants(),
        }
    }

    /// A tick of the node's clock, with the request or the word for the case that one is wanted.
    pub fn tick(&mut self, word: u32) -> Act
        ensures { Steps self.old word self.new result }
    {
        match self {
            AnyNode::Biu(node) => node.tick(word),
            AnyNode::Rmu(node) => node.tick(word),
        }
    }

    /// The number of the first tick from the next on that is not quiet, or 2^31 if that would not
    /// be below 2^31.
    pub fn next_tick(&self) -> u64
        ensures { IsNextTick self.now result }
    {
        match self {
            AnyNode::Biu(node) => node.next_tick().unwrap_or(2_147_483_648),
            AnyNode::Rmu(node) => node.next_tick().unwrap_or(2_147_483_648),
        }
    }

    /// Lets quiet ticks pass: as many as there are before the next that is not quiet, and at most
    /// `ticks`; gives how many did.
    pub fn pass(&mut self, ticks: u64) -> u64
        ensures { Passes self.old ticks result self.new }
    {
        match self {
            AnyNode::Biu(node) => pass_some(node, ticks),
            AnyNode::Rmu(node) => pass_some(node, ticks),
        }
    }
}
