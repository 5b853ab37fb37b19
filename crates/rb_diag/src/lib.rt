//! Whom the votes of a frame on the nodes' vectors convict.
#![tactic(auto)]

ghost use Rattle.std.specs.Prelude.{◌≡◌, ℕ, ◌≤◌, ◌<◌, ◌&&◌, slice_set};
ghost use Rattle.rb_base.specs.Nodes.{has, set_of};
ghost use Rattle.rb_rules.specs.Conviction.{convicted_by, is_valid, names};
ghost use Rattle.rb_diag.specs.Votes.{Votes, against, counts, most_against, no_vectors, vector_in};

use rb_base::{Heard, Kind, NodeId, NodeSet};
use std::marker::{Model, PhantomData};

/// The votes of one frame on the vectors of the nodes of kind K: bit i of a vector accuses node i
/// of the other kind.
#[derive(Drop)]
pub struct Ballot<K: Kind> {
    others: u8,
    vectors: [Heard; 16],
    senders: PhantomData<K>,
}

impl<K: Kind> Model for Ballot<K> {
    ghost Value = { Votes };

    ghost view = { λ b. record { others = b.others; vectors = b.vectors } };

    ghost invariant = { λ b. b.others ≤ 16 };
}

impl<K: Kind> Ballot<K> {
    /// A ballot with no vector, for `others` nodes of the other kind.
    pub fn new(others: u8) -> Ballot<K>
        requires { others ≤ 16 }
        ensures { result ≡ record { others = others; vectors = no_vectors } }
    {
        Ballot {
            others,
            vectors: [Heard::Fault; 16],
            senders: PhantomData,
        }
    }

    /// Enters the vote on the vector of this sender, in place of one that was entered before.
    pub fn enter(&mut self, sender: NodeId<K>, voted: Heard)
        ensures { self.new ≡ record self.old { vectors = slice_set self.old.vectors sender voted } }
    {
        self.vectors[usize::from(sender.index())] = voted;
    }

    /// Takes all vectors out, as at the beginning of a frame.
    pub fn clear(&mut self)
        ensures { self.new ≡ record self.old { vectors = no_vectors } }
    {
        self.vectors = [Heard::Fault; 16];
    }

    /// The nodes to convict: the `trusted` ones of the other kind that more of the valid vectors
    /// name than spare. Only the vectors of `senders`, the trusted nodes of kind K, count. A vector
    /// is valid if it names only nodes that there are.
    pub fn convicted(&self, senders: NodeSet<K>, trusted: NodeSet<K::Other>) -> NodeSet<K::Other>
        ensures { result
            ≡ convicted_by self.now.others senders trusted (vector_in self.now.vectors) }
    {
        let valid = valid_senders(&self.vectors, self.others, senders);
        let suspects = suspects(&self.vectors, valid, trusted);
        named_by_most(&self.vectors, valid, suspects)
    }
}

// Whether a vector names none but the nodes that there are.
fn is_valid(voted: Heard, others: u8) -> bool
    requires { others ≤ 16 }
    ensures { result ≡ is_valid others voted }
{
    let past: u32 = 1 << others;
    match voted {
        Heard::Word(mask) => mask < past,
        Heard::Fault => false,
    }
}

// Whether a vector names node j.
fn names(voted: Heard, j: u8) -> bool
    requires { j < 16 }
    ensures { result ≡ names j voted }
{
    match voted {
        Heard::Word(mask) => (mask >> j) & 1 == 1,
        Heard::Fault => false,
    }
}

// Whether the vector of sender i counts.
fn counts<S: Copy>(vectors: &[Heard; 16], others: u8, senders: NodeSet<S>, i: u8) -> bool
    requires others { others ≤ 16 }
    requires sender { i < 16 }
    ensures { result ≡ counts others senders (vector_in vectors.now) i }
{
    senders.has(i) && is_valid(vectors[usize::from(i)], others)
}

// The senders whose vectors count.
fn valid_senders<S: Copy>(vectors: &[Heard; 16], others: u8, senders: NodeSet<S>) -> NodeSet<S>
    requires { others ≤ 16 }
    ensures { result ≡ set_of (counts others senders (vector_in vectors.now)) }
{
    let mut valid = NodeSet::empty();
    for i in 0..16 {
        if counts(vectors, others, senders, i) {
            valid.insert(NodeId::of(i));
        }
    }
    valid
}

// The mask of the nodes that a vector names.
fn mask_of(voted: Heard) -> u32
    ensures { (j : ℕ) → has result j ≡ names j voted }
{
    match voted {
        Heard::Word(mask) => mask,
        Heard::Fault => 0,
    }
}

// The mask of the nodes that the vector of sender i names, if it is one of the senders.
fn named_by<S: Copy>(vectors: &[Heard; 16], senders: NodeSet<S>, i: u8) -> u32
    requires { i < 16 }
    ensures { (j : ℕ) → has result j ≡ (has senders i && names j (vector_in vectors.now i)) }
{
    if senders.has(i) {
        mask_of(vectors[usize::from(i)])
    } else {
        0
    }
}

// The trusted nodes without those that no sender names, which are the most: counting would find
// nothing against them.
fn suspects<S: Copy, T: Copy>(
    vectors: &[Heard; 16],
    senders: NodeSet<S>,
    trusted: NodeSet<T>,
) -> NodeSet<T>
    ensures { (j : ℕ) → (has result j && most_against senders (vector_in vectors.now) j)
        ≡ (has trusted j && most_against senders (vector_in vectors.now) j) }
{
    let mut named: u32 = 0;
    for i in 0..16 {
        named |= named_by(vectors, senders, i);
    }
    NodeSet::from_bits((u32::from(trusted.bits()) & named) as u16)
}

// Whether sender i is in the set and its vector names node j.
fn is_against<S: Copy>(vectors: &[Heard; 16], senders: NodeSet<S>, i: u8, j: u8) -> bool
    requires sender { i < 16 }
    requires node { j < 16 }
    ensures { result ≡ (has senders i && names j (vector_in vectors.now i)) }
{
    senders.has(i) && names(vectors[usize::from(i)], j)
}

// How many of the senders' vectors name node j.
fn naming<S: Copy>(vectors: &[Heard; 16], senders: NodeSet<S>, j: u8) -> u8
    requires { j < 16 }
    ensures value { result ≡ against senders (vector_in vectors.now) j }
    ensures most { result ≤ 16 }
{
    let mut naming: u8 = 0;
    for i in 0..16 {
        naming += u8::from(is_against(vectors, senders, i, j));
    }
    naming
}

// Whether more than half of the senders' vectors name node j.
fn most_name<S: Copy>(vectors: &[Heard; 16], senders: NodeSet<S>, j: u8) -> bool
    requires { j < 16 }
    ensures { result ≡ most_against senders (vector_in vectors.now) j }
{
    senders.count() < 2 * naming(vectors, senders, j)
}

// Whether node j is trusted until now, and more than half of the senders' vectors name it.
fn is_convicted<S: Copy, T: Copy>(
    vectors: &[Heard; 16],
    senders: NodeSet<S>,
    trusted: NodeSet<T>,
    j: u8,
) -> bool
    requires { j < 16 }
    ensures { result ≡ (has trusted j && most_against senders (vector_in vectors.now) j) }
{
    trusted.has(j) && most_name(vectors, senders, j)
}

// The trusted nodes that more than half of the senders' vectors name.
fn named_by_most<S: Copy, T: Copy>(
    vectors: &[Heard; 16],
    senders: NodeSet<S>,
    trusted: NodeSet<T>,
) -> NodeSet<T>
    ensures { result
        ≡ set_of (λ j. has trusted j && most_against senders (vector_in vectors.now) j) }
{
    let mut named = NodeSet::empty();
    for j in 0..16 {
        if is_convicted(vectors, senders, trusted, j) {
            named.insert(NodeId::of(j));
        }
    }
    named
}
