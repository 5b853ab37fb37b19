//! What a node holds of the nodes of the other kind.
ghost use Rattle.std.specs.Prelude.{◌≡◌, ℕ, ◌≤◌, ◌<◌, ◌+◌, ◌==◌, ◌||◌, ◌&&◌, if◌then◌else◌, map, min, not};
ghost use Rattle.rb_base.specs.Counting.{numbers};
ghost use Rattle.rb_base.specs.Nodes.{has, set_of};
ghost use Rattle.rb_rules.specs.Probation.{HasNewest, LapsesByFrames, newest_with};
ghost use Rattle.rb_rules.specs.Standing.{calm_after, first_standing, is_eligible, standing_at_end, lapses, next_calm, vector_of, with_evidence, with_mismatch, without};
ghost use Rattle.rb_eligible.specs.Standings.{standing_of};

use rb_base::{NodeId, NodeSet};

/// What a node holds of the nodes of the other kind: which it trusts; which it accuses directly
/// (`direct`), for what came from them or did not come; which it accuses by mismatch, for a value
/// that differed; and against which it had direct evidence in the current frame (`fresh`). `calm`
/// has for each node the number of whole frames in a row without direct evidence while it is
/// accused directly, counted up to 4096.
#[derive(Clone, Copy, Debug, PartialEq, Eq)]
pub struct Standing<K> {
    pub trusted: NodeSet<K>,
    pub direct: NodeSet<K>,
    pub mismatch: NodeSet<K>,
    pub fresh: NodeSet<K>,
    pub calm: [u16; 16],
}

// One frame more, counted up to 4096.
fn one_more(calm: u16) -> u16
    ensures { result ≡ min (calm + 1) 4096 }
{
    if calm < 4096 { calm + 1 } else { 4096 }
}

/// The set, with this node added if the test holds.
#[inline(always)]
pub fn with_node_if<K: Copy>(set: NodeSet<K>, node: u8, holds: bool) -> NodeSet<K>
    requires { node < 16 }
    ensures { result ≡ (if holds then set_of (λ j. has set j || (j == node)) else set) }
{
    let mut with_node = set;
    if holds {
        with_node.insert(NodeId::of(node));
    }
    with_node
}

impl<K: Copy> Standing<K> {
    /// At first the nodes with the numbers below `count`, at most 16 of them, are trusted, and none
    /// is accused.
    pub fn new(count: u8) -> Standing<K>
        requires { count ≤ 16 }
        ensures first { standing_of result ≡ first_standing count }
        ensures newest { (newest : ℕ → ℕ) → HasNewest (standing_of result) 0 newest }
    {
        Standing {
            trusted: NodeSet::first(count),
            direct: NodeSet::empty(),
            mismatch: NodeSet::empty(),
            fresh: NodeSet::empty(),
            calm: [0; 16],
        }
    }

    /// Whether messages from the node may be accepted: it is trusted and not accused directly.
    pub fn eligible(&self, id: NodeId<K>) -> bool
        ensures { result ≡ is_eligible (standing_of self.now) id }
    {
        self.eligible_of(NodeSet::only(id)).has(id.index())
    }

    /// The nodes of the set that are eligible.
    pub fn eligible_of(&self, set: NodeSet<K>) -> NodeSet<K>
        ensures { result ≡ set_of (λ j. has set j && is_eligible (standing_of self.now) j) }
    {
        set.intersection(self.trusted.difference(self.direct))
    }

    /// Direct evidence against the node: it is accused, which it may be already, and the evidence
    /// is of this frame.
    pub fn accuse_direct(&mut self, id: NodeId<K>)
        ensures accused { standing_of self.new
            ≡ with_evidence (λ j. j == id) (standing_of self.old) }
        ensures newest { (frame : ℕ) (newest : ℕ → ℕ)
            → HasNewest (standing_of self.old) frame newest
            → HasNewest (standing_of self.new) frame (newest_with (λ j. j == id) frame newest) }
    {
        self.accuse_each(NodeSet::only(id));
    }

    /// The nodes against which there is direct evidence: the trusted ones that were expected and
    /// did not send exactly their message, and those that were not expected and sent something.
    /// `ones` are those of which exactly one message came that is meant for the window, `came`
    /// those of which anything came.
    pub fn evidence(&self, expected: NodeSet<K>, ones: NodeSet<K>, came: NodeSet<K>) -> NodeSet<K>
        ensures { result ≡ set_of (λ j. has self.now.trusted j
            && (if has expected j then not (has ones j) else has came j)) }
    {
        let missed = expected.difference(ones);
        let unasked = came.difference(expected);
        self.trusted.intersection(missed.union(unasked))
    }

    /// Direct evidence against each node of the set.
    pub fn accuse_each(&mut self, set: NodeSet<K>)
        ensures accused { standing_of self.new ≡ with_evidence (has set) (standing_of self.old) }
        ensures newest { (frame : ℕ) (newest : ℕ → ℕ)
            → HasNewest (standing_of self.old) frame newest
            → HasNewest (standing_of self.new) frame (newest_with (has set) frame newest) }
    {
        self.direct = self.direct.union(set);
        self.fresh = self.fresh.union(set);
    }

    /// Accuses the node for a value that differed. It stays eligible.
    pub fn accuse_mismatch(&mut self, id: NodeId<K>)
        ensures { standing_of self.new ≡ with_mismatch (λ j. j == id) (standing_of self.old) }
    {
        self.accuse_differing(NodeSet::only(id));
    }

    /// Accuses each node of the set for a value that differed. They stay eligible.
    pub fn accuse_differing(&mut self, set: NodeSet<K>)
        ensures { standing_of self.new ≡ with_mismatch (has set) (standing_of self.old) }
    {
        self.mismatch = self.mismatch.union(set);
    }

    /// From now on the nodes of the set are not trusted.
    pub fn convict(&mut self, set: NodeSet<K>)
        ensures { standing_of self.new
            ≡ record (standing_of self.old) { trusted = without self.old.trusted set } }
    {
        self.trusted = self.trusted.difference(set);
    }

    /// The vector that the node sends in its diagnosis slot: the mask of the trusted nodes that it
    /// accuses in one way or the other, bit i for node i.
    pub fn vector(&self) -> u32
        ensures { result ≡ vector_of (standing_of self.now) }
    {
        let accused = self.direct.union(self.mismatch);
        u32::from(self.trusted.intersection(accused).bits())
    }

    // The node's calm at the end of a frame, while it stays accused.
    fn calm_after(&self, id: NodeId<K>) -> u16
        ensures { result ≡ calm_after (standing_of self.now) id }
    {
        if self.fresh.contains(id) {
            0
        } else {
            one_more(self.calm[usize::from(id.index())])
        }
    }

    // Whether the direct accusation of the node lapses.
    fn lapses(&self, id: NodeId<K>, probation: u16) -> bool
        ensures { result ≡ lapses probation (standing_of self.now) id }
    {
        self.direct.contains(id)
            && !self.fresh.contains(id)
            && 1 <= probation
            && probation <= self.calm_after(id)
    }

    // The node's calm in the next frame.
    fn next_calm(&self, id: NodeId<K>, probation: u16) -> u16
        ensures { result ≡ next_calm probation (standing_of self.now) id }
    {
        if !self.direct.contains(id) {
            self.calm[usize::from(id.index())]
        } else if self.lapses(id, probation) {
            0
        } else {
            self.calm_after(id)
        }
    }

    // The nodes whose direct accusation lapses.
    fn lapsing(&self, probation: u16) -> NodeSet<K>
        ensures { result ≡ set_of (lapses probation (standing_of self.now)) }
    {
        let mut set = NodeSet::empty();
        for i in 0..16u8 {
            set = with_node_if(set, i, self.lapses(NodeId::of(i), probation));
        }
        set
    }

    // The calm of each node in the next frame.
    fn calms(&self, probation: u16) -> [u16; 16]
        ensures { result ≡ map (next_calm probation (standing_of self.now)) (numbers 16) }
    {
        let mut calms = [0; 16];
        for i in 0..16u8 {
            calms[usize::from(i)] = self.next_calm(NodeId::of(i), probation);
        }
        calms
    }

    /// Ends a frame. If `probation`, a number of frames up to 4096, is at least 1, the direct
    /// accusation of a node lapses after `probation` whole frames in a row without direct evidence
    /// against it: an accusation whose newest evidence is of frame e lapses as frame e + probation
    /// + 1 begins. With 0 no accusation lapses. Mismatch accusations stay, and so do convictions.
    /// The next frame begins without evidence.
    pub fn lapse(&mut self, probation: u16)
        ensures ends { standing_of self.new ≡ standing_at_end probation (standing_of self.old) }
        ensures by_frames { (frame : ℕ) (newest : ℕ → ℕ) → probation ≤ 4096
            → HasNewest (standing_of self.old) frame newest
            → LapsesByFrames probation (frame + 1) newest (standing_of self.old)
            (standing_of self.new) }
    {
        let lapsing = self.lapsing(probation);
        self.calm = self.calms(probation);
        self.direct = self.direct.difference(lapsing);
        self.fresh = NodeSet::empty();
    }
}
