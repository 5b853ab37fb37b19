//! What is kept of the nodes of one kind as sources.
ghost use Rattle.std.specs.Prelude.{◌≡◌, ◌≢◌, ℕ, ◌<◌, true, false, ◌==◌, if◌then◌else◌, slice_index};
ghost use Rattle.rb_base.specs.Nodes.{has};
ghost use Rattle.rb_base.specs.declared.values.See.{See};
ghost use Rattle.rb_judge.specs.Sights.{ShowsSource};
ghost use Rattle.rb_judge.specs.Kinds.{Begins, KeepsSets, classes_kept, kept_kind, seen_of, sets_of};

use crate::classes::Classes;
use crate::seen::{KeptSight, SourceSights};
use crate::stage_sets::StageSets;
use rb_base::{NodeId, NodeSet, See};

/// What is kept of the nodes of one kind as sources.
#[derive(Clone, Copy)]
pub struct Sources<K> {
    /// The good nodes and the trusted ones in the newest stage.
    pub good: NodeSet<K>,
    pub trusted: NodeSet<K>,
    /// The nodes that were seen unlike in an earlier stage of the frame, and those from which
    /// something was accepted.
    pub unlike: NodeSet<K>,
    pub taken: NodeSet<K>,
    /// The nodes that were seen unlike in the newest stage, and those from which something was
    /// accepted in it.
    pub unlike_now: NodeSet<K>,
    pub heard_now: NodeSet<K>,
    /// By source, which receivers saw something of it in the newest stage, as a mask, and what is
    /// kept of that.
    pub by: [u16; 16],
    pub kept: [KeptSight; 16],
}

// The set with node i if and only if `member`.
fn with_or_without<K: Copy>(set: NodeSet<K>, i: u8, member: bool) -> NodeSet<K>
    requires { i < 16 }
    ensures { (k : ℕ) → k < 16 → has result k ≡ (if k == i then member else has set k) }
{
    let mut changed = set;
    if member {
        changed.insert(NodeId::of(i));
    } else {
        changed.remove(NodeId::of(i));
    }
    changed
}

impl<K: Copy> Sources<K> {
    /// Nothing was seen of any node, and none is good or trusted.
    pub(crate) fn new() -> Sources<K>
        ensures none_good { result.good ≡ 0 }
        ensures none_trusted { result.trusted ≡ 0 }
        ensures none_unlike { result.unlike ≡ 0 }
        ensures none_taken { result.taken ≡ 0 }
        ensures none_unlike_now { result.unlike_now ≡ 0 }
        ensures none_heard { result.heard_now ≡ 0 }
        ensures by_none { (j : ℕ) → slice_index result.by j ≡ 0 }
    {
        Sources {
            good: NodeSet::empty(),
            trusted: NodeSet::empty(),
            unlike: NodeSet::empty(),
            taken: NodeSet::empty(),
            unlike_now: NodeSet::empty(),
            heard_now: NodeSet::empty(),
            by: [0; 16],
            kept: [KeptSight::Unlike; 16],
        }
    }

    /// A new stage with these sets, told at once.
    pub(crate) fn pass(&mut self, stage: &StageSets<K>)
        ensures { Begins (kept_kind self.old) (kept_kind self.new) stage.now.good stage.now.trusted
            stage.now.taken stage.now.unlike }
    {
        self.good = stage.good;
        self.trusted = stage.trusted;
        self.unlike = self.unlike.union(self.unlike_now);
        self.taken = self.taken.union(self.heard_now);
        self.unlike_now = stage.unlike;
        self.heard_now = stage.taken;
    }

    /// A new stage with these good and trusted nodes, in which nothing was seen yet.
    pub(crate) fn begin(&mut self, good: NodeSet<K>, trusted: NodeSet<K>)
        ensures sets { Begins (kept_kind self.old) (kept_kind self.new) good trusted 0 0 }
        ensures by_none { (j : ℕ) → slice_index self.new.by j ≡ 0 }
    {
        self.pass(&StageSets {
            good,
            trusted,
            taken: NodeSet::empty(),
            unlike: NodeSet::empty(),
        });
        self.by = [0; 16];
    }

    fn seen(&self, source: u8) -> SourceSights
        requires { source < 16 }
        ensures { result ≡ seen_of source (kept_kind self.now) }
    {
        let at = usize::from(source);
        SourceSights {
            by: self.by[at],
            heard: self.heard_now.has(source),
            unlike: self.unlike_now.has(source),
            kept: self.kept[at],
        }
    }

    fn put(&mut self, source: u8, seen: SourceSights)
        requires { source < 16 }
        ensures here { seen_of source (kept_kind self.new) ≡ seen }
        ensures others { (j : ℕ) → j < 16 → j ≢ source
            → seen_of j (kept_kind self.new) ≡ seen_of j (kept_kind self.old) }
        ensures sets { KeepsSets (kept_kind self.old) (kept_kind self.new) }
    {
        let at = usize::from(source);
        self.by[at] = seen.by;
        self.heard_now = with_or_without(self.heard_now, source, seen.heard);
        self.unlike_now = with_or_without(self.unlike_now, source, seen.unlike);
        self.kept[at] = seen.kept;
    }

    /// One sight more of a source. The receiver is one of the good nodes of the other kind.
    pub(crate) fn note<R: Copy>(
        &mut self,
        good: NodeSet<R>,
        eps: u32,
        receiver: u8,
        source: u8,
        see: See,
    )
        requires source { source < 16 }
        requires good { has good receiver ≡ true }
        requires once { has (slice_index self.old.by source) receiver ≡ false }
        ensures here { (sight : ℕ → See)
            → ShowsSource eps good sight (seen_of source (kept_kind self.old))
            → ShowsSource eps good (λ i. if i == receiver then see else sight i)
            (seen_of source (kept_kind self.new)) }
        ensures others { (j : ℕ) → j < 16 → j ≢ source
            → seen_of j (kept_kind self.new) ≡ seen_of j (kept_kind self.old) }
        ensures sets { KeepsSets (kept_kind self.old) (kept_kind self.new) }
    {
        let seen = self.seen(source).noted(good, eps, receiver, see);
        self.put(source, seen);
    }

    /// The classes by what was seen so far.
    pub(crate) fn classes(&self) -> Classes<K>
        ensures { sets_of result ≡ classes_kept (kept_kind self.now) }
    {
        let unlike = self.unlike.union(self.unlike_now);
        let taken = self.taken.union(self.heard_now);
        let suspects = self.trusted.difference(self.good);
        Classes {
            good: self.trusted.intersection(self.good),
            benign: suspects.difference(taken),
            symmetric: suspects.intersection(taken).difference(unlike),
            asymmetric: suspects.intersection(unlike),
        }
    }
}
