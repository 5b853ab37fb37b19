//! What came from each source in a window.
ghost use Rattle.std.specs.Prelude.{◌≡◌, List, [], ◌∷◌, ◌++◌, ◌≤◌, ℕ};
ghost use Rattle.rb_base.specs.Nodes.{set_of};
ghost use Rattle.rb_rules.specs.Sense.{sense_of};
ghost use Rattle.rb_frame.specs.Spellings.{len_of};
ghost use Rattle.rb_eligible.specs.Inboxes.{Received, HoldsArrivals, StampsUpTo, arrivals_of, is_sole, sole_at};

use crate::reading::{MOST_BYTES, Sole, sense_of_sole, sole_of};
use rb_base::{NodeId, NodeSet};
use rb_frame::Spelling;
use rb_rules::{Expect, Sense};
use std::marker::Model;

/// What came from each source since the last window was closed: as much of it as the sense of a
/// source depends on. Its size does not depend on how much comes.
#[derive(Drop)]
pub struct Inbox<K> {
    // The sources of which something came.
    came: NodeSet<K>,
    // The sources whose arrivals can be no message: more than one arrived, or one that is longer
    // than any message.
    spoilt: NodeSet<K>,
    // The arrivals of the others.
    soles: [Sole; 16],
}

impl<K> Model for Inbox<K> {
    ghost use Rattle.rb_eligible.specs.Inboxes.{IsInbox, KeptArrivals};

    ghost Value = { KeptArrivals };

    ghost view = { λ b. record { came = b.came; spoilt = b.spoilt; soles = b.soles } };

    ghost invariant = { λ b. IsInbox (record { came = b.came; spoilt = b.spoilt; soles = b.soles }) };
}

impl<K: Copy> Inbox<K> {
    /// An inbox in which nothing came.
    pub fn new() -> Inbox<K>
        ensures shows { HoldsArrivals result [] }
        ensures stamps { (n : ℕ) → StampsUpTo n result }
    {
        Inbox {
            came: NodeSet::empty(),
            spoilt: NodeSet::empty(),
            soles: [Sole {
                at: 0,
                low: 0,
                tail: 0,
            }; 16],
        }
    }

    /// One arrival of the source, with its stamp in ticks. Any bytes may come.
    #[inline(always)]
    pub fn take(&mut self, from: NodeId<K>, at: u64, bytes: &[u8])
        ensures shows { (received : List Received) → HoldsArrivals self.old received
            → HoldsArrivals self.new (received
            ++ record { source = from; arrival = record { stamp = at; bytes = bytes.now } } ∷ []) }
        ensures stamps { (n : ℕ) → at ≤ n → StampsUpTo n self.old → StampsUpTo n self.new }
    {
        let source = from.index();
        let again = self.came.contains(from);
        self.came.insert(from);
        if !again && bytes.len() <= MOST_BYTES {
            self.soles[usize::from(source)] = sole_of(at, bytes);
        } else {
            self.spoilt.insert(from);
        }
    }

    /// Does what `take` does, with the bytes as numbers: nothing is looked at byte by byte.
    #[inline(always)]
    pub fn take_spelled(&mut self, from: NodeId<K>, at: u64, bytes: &Spelling)
        ensures shows { (received : List Received) → HoldsArrivals self.old received
            → HoldsArrivals self.new (received
            ++ record { source = from; arrival = record { stamp = at; bytes = bytes.now } } ∷ []) }
        ensures stamps { (n : ℕ) → at ≤ n → StampsUpTo n self.old → StampsUpTo n self.new }
    {
        let source = from.index();
        let again = self.came.contains(from);
        self.came.insert(from);
        let (low, tail) = bytes.words();
        // At most 12 bytes are no longer than any message.
        if !again && tail < 13 << 32 {
            self.soles[usize::from(source)] = Sole { at, low, tail };
        } else {
            self.spoilt.insert(from);
        }
    }

    /// The sources from which something came. An inbox stands for some list of arrivals, whatever
    /// came.
    pub fn came(&self) -> NodeSet<K>
        ensures value { result ≡ self.now.came }
        ensures stands { (received : List Received) × HoldsArrivals self.now received }
    {
        self.came
    }

    /// The sources of which one arrival came that is no longer than any message.
    pub fn soles(&self) -> NodeSet<K>
        ensures { result ≡ set_of (is_sole self.now) }
    {
        self.came.difference(self.spoilt)
    }

    /// The arrival of such a source.
    pub fn sole_at(&self, source: NodeId<K>) -> &Sole
        ensures value { result.now ≡ sole_at self.now.soles source }
        ensures short { len_of result.now.tail ≤ 12 }
    {
        &self.soles[usize::from(source.index())]
    }

    /// What the node makes of the source's arrivals in the window that the expectation describes.
    pub fn sense(&self, from: NodeId<K>, expect: &Expect) -> Sense
        ensures { (received : List Received) → HoldsArrivals self.now received
            → result ≡ sense_of expect.now (arrivals_of from received) }
    {
        let source = from.index();
        if !self.came.contains(from) {
            Sense::Silent
        } else if self.spoilt.contains(from) {
            Sense::Bad
        } else {
            sense_of_sole(&self.soles[usize::from(source)], expect)
        }
    }

    /// A new window begins, in which nothing came.
    pub fn clear(&mut self)
        ensures shows { HoldsArrivals self.new [] }
        ensures stamps { (n : ℕ) → StampsUpTo n self.new }
    {
        self.came = NodeSet::empty();
        self.spoilt = NodeSet::empty();
    }
}
