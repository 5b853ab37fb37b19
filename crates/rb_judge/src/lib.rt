//! Judges whether the premise on faults holds, by what the good nodes saw of each other and of the
//! rest.
#![tactic(auto)]

ghost use Rattle.std.specs.Prelude.{◌≡◌, ◌<◌, true, false, [], ◌∷◌, List};
ghost use Rattle.rb_base.specs.Nodes.Side.{Biu as biu_side, Rmu as rmu_side};
ghost use Rattle.rb_rules.specs.Judging.{JudgedStage, are_few_good, by_kind, cause_of, classes_of, with_newest_sight, stage_begun, verdict_of};
ghost use Rattle.rb_judge.specs.Kinds.{AreSetsOf, sets_of};
ghost use Rattle.rb_judge.specs.Stages.{Knows, HoldsStages, has_noted, is_good_now, sources_of};

pub use classes::Classes;
use rb_base::{Biu, NodeName, NodeSet, Rmu, See, Shape};
pub use rb_rules::Cause;
pub use seen::{KeptSight, SourceSights};
use sources::Sources;
pub use stage_sets::StageSets;
use std::marker::Model;

mod classes;
mod seen;
mod sources;
mod stage_sets;

/// What was seen in the stages of a frame so far, as much of it as the classes of nodes depend on.
/// Its size does not depend on how much was seen.
#[derive(Drop)]
pub struct Judge {
    shape: Shape,
    eps: u32,
    bius: Sources<Biu>,
    rmus: Sources<Rmu>,
}

impl Model for Judge {
    ghost use Rattle.rb_judge.specs.Kinds.{kept_kind};
    ghost use Rattle.rb_judge.specs.Stages.{KeptJudge};

    ghost Value = { KeptJudge };

    ghost view = { λ j. record {
      sizes = j.shape;
      eps = j.eps;
      bius = kept_kind j.bius;
      rmus = kept_kind j.rmus;
    } };
}

impl Judge {
    /// A judge of a bus of this shape, at the start of a frame.
    pub fn new(shape: &Shape) -> Judge
        ensures begun { HoldsStages result [] }
        ensures shape { result.sizes ≡ shape.now }
    {
        Judge {
            shape: *shape,
            eps: 0,
            bius: Sources::new(),
            rmus: Sources::new(),
        }
    }

    /// A frame begins: all that was seen is forgotten.
    pub fn frame(&mut self)
        ensures begun { HoldsStages self.new [] }
        ensures shape { self.new.sizes ≡ self.old.sizes }
    {
        self.eps = 0;
        self.bius = Sources::new();
        self.rmus = Sources::new();
    }

    /// A stage begins, with the good nodes of both kinds, the trusted ones, and how far apart the
    /// times of one message may be at two good receivers, in reference units.
    pub fn stage(
        &mut self,
        good_biu: NodeSet<Biu>,
        good_rmu: NodeSet<Rmu>,
        trusted_biu: NodeSet<Biu>,
        trusted_rmu: NodeSet<Rmu>,
        eps: u32,
    )
        ensures begun { (stages : List JudgedStage) → Knows self.old stages
            → HoldsStages self.new (stage_begun (by_kind good_biu good_rmu) (by_kind trusted_biu trusted_rmu) eps ∷ stages) }
        ensures shape { self.new.sizes ≡ self.old.sizes }
    {
        self.eps = eps;
        self.bius.begin(good_biu, trusted_biu);
        self.rmus.begin(good_rmu, trusted_rmu);
    }

    /// In the stage that runs, the receiver saw this of node `from` of the other kind. If nothing
    /// is noted, it saw nothing.
    pub fn note(&mut self, receiver: NodeName, from: u8, see: See)
        requires good { is_good_now self.old receiver ≡ true }
        requires source { from < sources_of self.old receiver }
        requires once { has_noted self.old receiver from ≡ false }
        ensures seen { (stages : List JudgedStage) → HoldsStages self.old stages
            → HoldsStages self.new (with_newest_sight receiver from see stages) }
        ensures shape { self.new.sizes ≡ self.old.sizes }
    {
        match receiver {
            NodeName::Biu(i) => {
                prove!(from < self.shape.rmu());
                self.rmus.note(self.bius.good, self.eps, i, from, see);
            }
            NodeName::Rmu(i) => {
                prove!(from < self.shape.biu());
                self.bius.note(self.rmus.good, self.eps, i, from, see);
            }
        }
    }

    /// Begins a stage with the sets of its nodes of both kinds, which say all that is needed of it.
    /// It is for callers that keep these sets themselves and is an alternative to `stage` with a
    /// `note` for each sight: no single sights can be noted of such a stage.
    pub fn whole_stage(&mut self, biu: &StageSets<Biu>, rmu: &StageSets<Rmu>)
        ensures known { (stages : List JudgedStage) (s : JudgedStage) → Knows self.old stages
            → AreSetsOf biu_side biu.now s → AreSetsOf rmu_side rmu.now s
            → Knows self.new (s ∷ stages) }
        ensures shape { self.new.sizes ≡ self.old.sizes }
        ensures bound { self.new.eps ≡ self.old.eps }
    {
        self.bius.pass(biu);
        self.rmus.pass(rmu);
    }

    /// The classes of the trusted BIUs, by all that was seen in the frame so far.
    pub fn biu(&self) -> Classes<Biu>
        ensures { (stages : List JudgedStage) → Knows self.now stages
            → sets_of result ≡ classes_of biu_side stages }
    {
        self.bius.classes()
    }

    /// The classes of the trusted RMUs, by all that was seen in the frame so far.
    pub fn rmu(&self) -> Classes<Rmu>
        ensures { (stages : List JudgedStage) → Knows self.now stages
            → sets_of result ≡ classes_of rmu_side stages }
    {
        self.rmus.classes()
    }

    /// Why the premise fails, if it does: the good BIUs do not outnumber the symmetric and
    /// asymmetric together, the good RMUs do not, or both kinds have an asymmetric node. The first
    /// that applies is the cause. This is the premise of Miner, Geser, Pike and Maddalon (FORMATS
    /// 2004) on symmetric and asymmetric faults.
    pub fn verdict(&self) -> Option<Cause>
        ensures { (stages : List JudgedStage) → Knows self.now stages → result ≡ verdict_of stages }
    {
        cause_of(&self.biu(), &self.rmu())
    }
}

// Whether the good do not outnumber the symmetric and the asymmetric together.
fn are_few_good<K: Copy>(classes: &Classes<K>) -> bool
    ensures { result ≡ are_few_good (sets_of classes.now) }
{
    classes.good.count() <= classes.symmetric.count() + classes.asymmetric.count()
}

// The first cause for which the premise fails, by the classes of both kinds.
fn cause_of(biu: &Classes<Biu>, rmu: &Classes<Rmu>) -> Option<Cause>
    ensures { result ≡ cause_of (sets_of biu.now) (sets_of rmu.now) }
{
    if are_few_good(biu) {
        Some(Cause::FewGoodBiu)
    } else if are_few_good(rmu) {
        Some(Cause::FewGoodRmu)
    } else if 0 < biu.asymmetric.count() && 0 < rmu.asymmetric.count() {
        Some(Cause::TwoSided)
    } else {
        None
    }
}
