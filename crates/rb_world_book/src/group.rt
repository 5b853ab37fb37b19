//! What the nodes of one kind have told.
ghost use Rattle.std.specs.Prelude.{◌≡◌, ◌<◌, ◌≤◌, ℕ, true, false, nat_lt, not, ◌&&◌, ◌==◌, replicate, slice_set, if◌then◌else◌};
ghost use Rattle.rb_base.specs.Nodes.{has, set_of};
ghost use Rattle.rb_world_book.specs.Changing.{line_from};
ghost use Rattle.rb_world_book.specs.declared.milestone.Milestone.{Milestone};
ghost use Rattle.rb_world_book.specs.Grouping.{AwaitsGood, IsNoted};
ghost use Rattle.rb_world_book.specs.Telling.{fresh_told, has_told, is_at, told_at, told_begun_frame, told_closed};
ghost use Rattle.rb_world_book.specs.Waiting.{all_but, waiting_for, was_taken, was_unlike};

use crate::milestone::Milestone;
use crate::told::{Begin, Told, TrustedNodes};
use crate::walks::{sights_of, waiting_for, with_or_without};
use rb_base::NodeSet;
use rb_judge::StageSets;
use rb_slot::Shown;

/// What the nodes of one kind have told, and of whom more is to come.
#[derive(Clone, Copy)]
pub struct Group<K> {
    /// What each node told last.
    pub told: [Told; 16],
    /// The nodes that are good at the upcoming milestone, and those of them that have not told of
    /// it.
    pub good: NodeSet<K>,
    pub waiting: NodeSet<K>,
    /// The nodes that are good to the end of the frame.
    pub lasting: NodeSet<K>,
    /// All others. As sources in the upcoming stage they are those of which it counts what is seen.
    pub counted: NodeSet<K>,
}

/// The nodes with numbers below `count` that are not in the set.
pub(crate) fn all_but<K: Copy>(count: u8, set: NodeSet<K>) -> NodeSet<K>
    requires { count ≤ 16 }
    ensures { result ≡ all_but count set }
{
    NodeSet::first(count).difference(set)
}

fn told_of_nothing() -> [Told; 16]
    ensures { result ≡ replicate 16 fresh_told }
{
    [Told::none(); 16]
}

impl<K: Copy> Group<K> {
    /// Nodes that have told nothing. None is good or awaited yet.
    pub(crate) fn new() -> Group<K>
        ensures { result.told ≡ replicate 16 fresh_told }
    {
        Group {
            told: told_of_nothing(),
            good: NodeSet::empty(),
            waiting: NodeSet::empty(),
            lasting: NodeSet::empty(),
            counted: NodeSet::empty(),
        }
    }

    /// A milestone is the upcoming one, and these nodes are good there.
    pub(crate) fn await_all(&mut self, count: u8, milestone: Milestone, good: NodeSet<K>)
        requires { count ≤ 16 }
        ensures told { self.new.told ≡ self.old.told }
        ensures lasting { self.new.lasting ≡ self.old.lasting }
        ensures counted { self.new.counted ≡ self.old.counted }
        ensures good { self.new.good ≡ good }
        ensures waiting { self.new.waiting ≡ waiting_for count good milestone self.old.told }
    {
        self.good = good;
        self.waiting = waiting_for(count, good, milestone, &self.told);
    }

    /// A stage is the upcoming one, after another of which all good nodes have told, and the same
    /// nodes are good there.
    pub(crate) fn await_good(&mut self)
        ensures { AwaitsGood self.old self.new }
    {
        self.waiting = self.good;
    }

    /// The node has told something more.
    #[inline(never)]
    pub(crate) fn note(&mut self, node: u8, upcoming: Milestone)
        requires { node < 16 }
        ensures { self.new ≡ record self.old {
          waiting = set_of (λ i. if i == node
              then (has self.old.good node && not (has_told upcoming (told_at self.old.told node)))
              else has self.old.waiting i);
        } }
    {
        let has_told = self.told[usize::from(node)].has_told(upcoming);
        let is_awaited = self.good.has(node) && !has_told;
        self.waiting = with_or_without(self.waiting, node, is_awaited);
    }

    // The node has told of the upcoming milestone.
    fn strike(&mut self, node: u8)
        requires { node < 16 }
        ensures { self.new
            ≡ record self.old { waiting = set_of (λ i. if i == node then false else has self.old.waiting i) } }
    {
        self.waiting = with_or_without(self.waiting, node, false);
    }

    /// A node closes a stage. What it saw is kept of the sources of which that counts, and it is
    /// still to be noted that it has told something more.
    pub(crate) fn close<S: Copy>(
        &mut self,
        node: u8,
        closed: &Shown,
        times: &[u64; 16],
        counted: NodeSet<S>,
        trusted: TrustedNodes,
    )
        requires { node < 16 }
        ensures { self.new ≡ record self.old {
          told = slice_set self.old.told node
              (told_closed counted closed.now times.now trusted.biu trusted.rmu
              (line_from node closed.now.delivered) (told_at self.old.told node));
        } }
    {
        self.told[usize::from(node)].close(node, closed, times, counted, trusted);
    }

    /// A node closes the stage that is the upcoming milestone.
    #[inline(always)]
    pub(crate) fn close_upcoming<S: Copy>(
        &mut self,
        node: u8,
        closed: &Shown,
        times: &[u64; 16],
        counted: NodeSet<S>,
        trusted: TrustedNodes,
    )
        requires { node < 16 }
        ensures { (upcoming : Milestone) → is_at upcoming closed.now.place ≡ true
            → IsNoted self.old self.new node upcoming
            (told_closed counted closed.now times.now trusted.biu trusted.rmu
            (line_from node closed.now.delivered) (told_at self.old.told node)) }
    {
        self.told[usize::from(node)].close(node, closed, times, counted, trusted);
        self.strike(node);
    }

    /// A node begins a frame.
    pub(crate) fn begin(&mut self, node: u8, upcoming: Milestone, begun: Begin)
        requires { node < 16 }
        ensures { IsNoted self.old self.new node upcoming
            (told_begun_frame begun (told_at self.old.told node)) }
    {
        self.told[usize::from(node)].begin(begun);
        self.note(node, upcoming);
    }

    /// The sets of these nodes as sources in a stage, by what the receivers told of them. What was
    /// seen of those that are good to the end of the frame is left out.
    pub(crate) fn stage_sets<R: Copy>(
        &self,
        count: u8,
        trusted: NodeSet<K>,
        eps: u32,
        receivers: u8,
        others: &Group<R>,
    ) -> StageSets<K>
        requires count { count ≤ 16 }
        requires receivers { receivers ≤ 16 }
        ensures good { result.good ≡ self.now.good }
        ensures trusted { result.trusted ≡ trusted }
        ensures taken { result.taken
            ≡ set_of (λ j. nat_lt j count
            && (not (has self.now.lasting j)
            && was_taken receivers others.now.good others.now.told j)) }
        ensures unlike { result.unlike
            ≡ set_of (λ j. nat_lt j count
            && (not (has self.now.lasting j)
            && was_unlike eps receivers others.now.good others.now.told j)) }
    {
        let mut left = all_but(count, self.lasting);
        let mut taken = NodeSet::empty();
        let mut unlike = NodeSet::empty();
        while let Some(source) = left.pop_first() {
            let j = source.index();
            let sights = sights_of(eps, receivers, others.good, &others.told, j);
            taken = with_or_without(taken, j, sights.heard);
            unlike = with_or_without(unlike, j, sights.unlike);
        }
        StageSets {
            good: self.good,
            trusted,
            taken,
            unlike,
        }
    }
}
