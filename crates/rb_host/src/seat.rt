//! A node's place on a bus, as a host gives it.
use rb_base::{NodeName, Shape};
use rb_plan::{Feasible, Plan};
use rb_rules::Version;

/// A node, its bus and the bus's plan, as plain numbers.
#[repr(C)]
#[derive(Clone, Copy, Debug, PartialEq, Eq)]
pub struct Seat {
    /// 0 for a BIU, 1 for an RMU.
    pub kind: u8,
    /// The number of the node among those of its kind.
    pub index: u8,
    /// How many BIUs, RMUs and data slots the bus has.
    pub biu: u8,
    pub rmu: u8,
    pub slots: u16,
    /// The version of messages, 1 or 2, and for version 2 the number of the bus.
    pub version: u8,
    pub bus: u8,
    /// After how many frames without new evidence a direct accusation lapses; 0 for never.
    pub probation: u16,
    /// The plan. Times are in reference units, lengths of windows in ticks.
    pub u: u32,
    pub r: u32,
    pub dmin: u32,
    pub dmax: u32,
    pub l: u32,
    pub h: u32,
    pub v: u32,
    pub z: u32,
    pub c: u32,
    pub p: u32,
}

/// Why there is no node.
#[derive(Clone, Copy, Debug, PartialEq, Eq)]
pub enum NoNode {
    /// The bus has not 1 to 16 BIUs, 1 to 16 RMUs and 1 to 64 data slots.
    Sizes,
    /// The bus has no such node.
    Node,
    /// A number of the plan, or the version, is out of its range.
    Plan,
    /// The plan is not feasible: this inequality, 1 to 7, fails, and none before it.
    Inequality(u8),
    /// There is no memory for it.
    OutOfMemory,
}

impl Seat {
    ghost use Rattle.std.specs.Prelude.{◌≡◌, ◌↔◌, ◌==◌, IfErr, IfOk, IsTrue, OnOk, if◌then◌else◌};
    ghost use Rattle.rb_host.specs.Seats.{AreBounds, AreLengths, AreTimes, IsAccepted, IsNode, IsPlanned, IsRefused, IsVersion, count_in, name_of, plan_of, timetable_of, version_of};

    // How many nodes of its kind the bus has.
    fn count(&self) -> u8
        ensures { result ≡ count_in self.now }
    {
        if self.kind == 0 { self.biu } else { self.rmu }
    }

    // Whether the bus has such a node.
    fn is_node(&self) -> bool
        ensures { IsTrue result ↔ IsNode self.now }
    {
        self.kind <= 1 && self.index < self.count()
    }

    // The name of the node.
    fn name(&self) -> NodeName
        ensures { result ≡ name_of self.now }
    {
        if self.kind == 0 {
            NodeName::Biu(self.index)
        } else {
            NodeName::Rmu(self.index)
        }
    }

    fn has_times(&self) -> bool
        ensures { IsTrue result ↔ AreTimes self.now }
    {
        2 <= self.u && self.u <= 1_000_000 && self.r < self.u
    }

    fn has_bounds(&self) -> bool
        ensures { IsTrue result ↔ AreBounds self.now }
    {
        1 <= self.dmin
            && self.dmin <= self.dmax
            && self.dmax <= 1_000_000_000
            && self.p <= 1_000_000_000
    }

    fn has_lengths(&self) -> bool
        ensures { IsTrue result ↔ AreLengths self.now }
    {
        (1..=1000).contains(&self.l)
            && (1..=1000).contains(&self.h)
            && (1..=1000).contains(&self.v)
            && (1..=1000).contains(&self.z)
    }

    fn has_version(&self) -> bool
        ensures { IsTrue result ↔ IsVersion self.now }
    {
        (1..=2).contains(&self.version) && self.c <= 1000 && self.probation <= 4096
    }

    // Whether the numbers are those of a plan.
    fn is_planned(&self) -> bool
        ensures { IsTrue result ↔ IsPlanned self.now }
    {
        self.has_times() && self.has_bounds() && self.has_lengths() && self.has_version()
    }

    fn version(&self) -> Version
        ensures { result ≡ version_of self.now }
    {
        if self.version == 2 {
            Version::Two { bus: self.bus }
        } else {
            Version::One
        }
    }

    // The plan of the bus.
    fn plan(&self) -> Plan
        ensures { result ≡ plan_of self.now }
    {
        Plan {
            u: self.u,
            r: self.r,
            dmin: self.dmin,
            dmax: self.dmax,
            l: self.l,
            h: self.h,
            v: self.v,
            z: self.z,
            c: self.c,
            p: self.p,
            version: self.version(),
            probation: self.probation,
        }
    }

    /// The plan of the bus with its sizes, and the node's name; or the first reason why there is no
    /// such node: its sizes, its number, the plan's ranges, or an inequality of the plan.
    pub fn seated(&self) -> Result<(Feasible, NodeName), NoNode>
        ensures plan { IfOk result (λ seated. seated.0 ≡ timetable_of self.now) }
        ensures name { IfOk result (λ seated. seated.1 ≡ name_of self.now) }
        ensures accepted { OnOk result (IsAccepted self.now) }
        ensures refused { IfErr result (IsRefused self.now) }
    {
        let Some(shape) = Shape::new(self.biu, self.rmu, self.slots) else {
            return Err(NoNode::Sizes);
        };
        if !self.is_node() {
            return Err(NoNode::Node);
        }
        if !self.is_planned() {
            return Err(NoNode::Plan);
        }
        match Feasible::new(&shape, &self.plan()) {
            Ok(plan) => Ok((plan, self.name())),
            Err(n) => Err(NoNode::Inequality(n)),
        }
    }
}
