//! What is asked of a run.
ghost use Rattle.std.specs.Prelude.{◌↔◌, IsTrue};
ghost use Rattle.rb_group_run.specs.Members.{AreMembers};

use rb_base::{Biu, NodeSet, Shape};
use rb_group::{Voters, Which};
use rb_world_onset::Onsets;

/// A group of replicas, and the voter that finds one value for it.
#[derive(Clone, Copy, Debug, PartialEq, Eq)]
pub struct Asked {
    pub which: Which,
    pub members: NodeSet<Biu>,
}

/// The part of a scenario that decides which receivers are asked: the bus's size, the number of
/// frames, and from which slot on nodes are not good.
#[derive(Clone, Copy, Debug, PartialEq, Eq)]
pub struct Scope {
    pub shape: Shape,
    pub frames: u32,
    pub onsets: Onsets,
}

/// What is asked of a run: for which group, in which scope, and by which voters.
#[derive(Clone, Copy)]
pub struct Query<'a> {
    pub scope: &'a Scope,
    pub voters: &'a Voters,
    pub asked: &'a Asked,
}

/// Whether each node of the mask, whose bit i is BIU i, is a BIU of a bus of this shape. If one is
/// not, the scenario is refused with code 14 after all rules of a scenario; the line is
/// `refused_line(14, None, false)`.
pub fn has_members(shape: &Shape, mask: u16) -> bool
    ensures { IsTrue result ↔ AreMembers shape.now mask }
{
    let members = NodeSet::<Biu>::from_bits(mask);
    let bius = NodeSet::first(shape.biu());
    members.difference(bius).bits() == 0
}
