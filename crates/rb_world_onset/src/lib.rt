//! Which nodes of a bus are good in which slot.
#![tactic(auto)]

ghost use Rattle.std.specs.Prelude.{◌≡◌, ◌<◌, ◌≤◌, None, get_or};
ghost use Rattle.rb_base.specs.Nodes.{set_of};
ghost use Rattle.rb_base.specs.Nodes.Side.{Biu as biu, Rmu as rmu};
ghost use Rattle.rb_rules.specs.Goodness.{Scenario, good_at, is_before};
ghost use Rattle.rb_rules.specs.Lawful.{is_node_good};
ghost use Rattle.rb_world_onset.specs.Faults.{IsNextChange, earlier_after, faults_of, is_good_among};
ghost use Rattle.rb_world_onset.specs.Search.{IsNextAmong};

use rb_base::{Biu, NodeId, NodeName, NodeSet, Rmu, Shape};
use std::marker::Model;

/// The numbers of nodes of a bus, and from which slot on each of them is not good.
#[derive(Clone, Copy, Debug, PartialEq, Eq)]
pub struct Onsets {
    shape: Shape,
    bius: [Option<(u32, u16)>; 16],
    rmus: [Option<(u32, u16)>; 16],
}

impl Model for Onsets {
    ghost use Rattle.rb_world_onset.specs.Faults.{Faults};

    ghost Value = { Faults };

    ghost view = { λ o. record { sizes = o.shape; biu_onsets = o.bius; rmu_onsets = o.rmus } };

    ghost inverse = { λ v. record { shape = v.sizes; bius = v.biu_onsets; rmus = v.rmu_onsets } };
}

// Whether a slot of a frame comes before the onset, if there is one.
fn is_before(onset: Option<(u32, u16)>, frame: u32, slot: u16) -> bool
    ensures { result ≡ is_before onset frame slot }
{
    match onset {
        Some(onset) => frame < onset.0 || (frame == onset.0 && slot < onset.1),
        None => true,
    }
}

fn onset_at(onsets: &[Option<(u32, u16)>; 16], index: u8) -> Option<(u32, u16)>
    requires { index < 16 }
    ensures { result ≡ get_or onsets.now index None }
{
    onsets[usize::from(index)]
}

// Whether node `index` is one of the first `count` nodes and good in this slot of this frame.
fn is_good_among(
    count: u8,
    onsets: &[Option<(u32, u16)>; 16],
    frame: u32,
    slot: u16,
    index: u8,
) -> bool
    requires { count ≤ 16 }
    ensures { result ≡ is_good_among count onsets.now frame slot index }
{
    index < count && is_before(onset_at(onsets, index), frame, slot)
}

// The nodes with numbers below `count` that are good in this slot of this frame.
fn good_among<K: Copy>(
    count: u8,
    onsets: &[Option<(u32, u16)>; 16],
    frame: u32,
    slot: u16,
) -> NodeSet<K>
    requires { count ≤ 16 }
    ensures { result ≡ set_of (is_good_among count onsets.now frame slot) }
{
    let mut good = NodeSet::empty();
    for index in 0..16 {
        if is_good_among(count, onsets, frame, slot, index) {
            good.insert(NodeId::of(index));
        }
    }
    good
}

// The earlier of two onsets, of which the second counts only if it comes after this slot of this
// frame.
fn earlier_after(
    frame: u32,
    slot: u16,
    next: Option<(u32, u16)>,
    onset: Option<(u32, u16)>,
) -> Option<(u32, u16)>
    ensures { result ≡ earlier_after frame slot next onset }
{
    match onset {
        Some(at) if is_before(onset, frame, slot) && is_before(next, at.0, at.1) => onset,
        _ => next,
    }
}

// The first of the onsets of the first `count` nodes that comes after this slot of this frame, or
// `change` if that is earlier.
fn next_among(
    count: u8,
    onsets: &[Option<(u32, u16)>; 16],
    frame: u32,
    slot: u16,
    change: Option<(u32, u16)>,
) -> Option<(u32, u16)>
    requires { count ≤ 16 }
    ensures { IsNextAmong count onsets.now frame slot change result }
{
    let mut next = change;
    for index in 0..count {
        next = earlier_after(frame, slot, next, onset_at(onsets, index));
    }
    next
}

impl Onsets {
    /// The onsets of the nodes of this shape. An onset is the frame and the slot from which on the
    /// node is not good; a node without one is good in every slot.
    pub fn new(
        shape: Shape,
        bius: [Option<(u32, u16)>; 16],
        rmus: [Option<(u32, u16)>; 16],
    ) -> Onsets
        ensures { result ≡ record { sizes = shape; biu_onsets = bius; rmu_onsets = rmus } }
    {
        Onsets { shape, bius, rmus }
    }

    /// Whether the node is good in this slot of this frame. A node that the bus does not have is
    /// not.
    pub fn is_good(&self, node: NodeName, frame: u32, slot: u16) -> bool
        ensures { (sc : Scenario) → self.now ≡ faults_of sc
            → result ≡ is_node_good sc node frame slot }
    {
        match node {
            NodeName::Biu(i) => is_good_among(self.shape.biu(), &self.bius, frame, slot, i),
            NodeName::Rmu(i) => is_good_among(self.shape.rmu(), &self.rmus, frame, slot, i),
        }
    }

    /// The BIUs that are good in this slot of this frame.
    pub fn good_biu(&self, frame: u32, slot: u16) -> NodeSet<Biu>
        ensures { (sc : Scenario) → self.now ≡ faults_of sc → result ≡ good_at sc biu frame slot }
    {
        good_among(self.shape.biu(), &self.bius, frame, slot)
    }

    /// The RMUs that are good in this slot of this frame.
    pub fn good_rmu(&self, frame: u32, slot: u16) -> NodeSet<Rmu>
        ensures { (sc : Scenario) → self.now ≡ faults_of sc → result ≡ good_at sc rmu frame slot }
    {
        good_among(self.shape.rmu(), &self.rmus, frame, slot)
    }

    /// The frame and the slot, after this slot of this frame, at which a node is not good any more
    /// for the first time. Until there the same nodes are good as here. None if no node has an
    /// onset after this place.
    #[tactic(auto, using(crate::proofs::Changes::next_change))]
    pub fn next_change(&self, frame: u32, slot: u16) -> Option<(u32, u16)>
        ensures { (sc : Scenario) → self.now ≡ faults_of sc → IsNextChange sc frame slot result }
    {
        let change = next_among(self.shape.biu(), &self.bius, frame, slot, None);
        next_among(self.shape.rmu(), &self.rmus, frame, slot, change)
    }
}
