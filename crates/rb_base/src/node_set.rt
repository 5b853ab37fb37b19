//! Sets of nodes of one kind.
ghost use Rattle.std.specs.Prelude.{◌≡◌, ℕ, ◌≤◌, ◌↔◌, ◌||◌, ◌&&◌, ◌==◌, not, false, nat_lt, IfSome, IsNone, IsTrue};
ghost use Rattle.rb_base.specs.Nodes.{TakesFirst, has, set_of, size};

use crate::NodeId;
use std::marker::{Model, PhantomData};

/// A set of nodes of one kind.
#[derive(Clone, Copy, Debug, PartialEq, Eq)]
pub struct NodeSet<K> {
    bits: u16,
    kind: PhantomData<K>,
}

impl<K> Model for NodeSet<K> {
    ghost Value = { ℕ };

    ghost view = { λ s. s.bits };

    ghost inverse = { λ n. record { bits = n; kind = record {} } };
}

impl<K: Copy> NodeSet<K> {
    /// The set with no node.
    pub fn empty() -> NodeSet<K>
        ensures value { result ≡ 0 }
        ensures none { (i : ℕ) → has result i ≡ false }
    {
        NodeSet::from_bits(0)
    }

    /// The nodes with the numbers below `count`, at most 16 of them.
    pub fn first(count: u8) -> NodeSet<K>
        requires { count ≤ 16 }
        ensures { result ≡ set_of (λ i. nat_lt i count) }
    {
        let next: u32 = 1 << count;
        NodeSet::from_bits((next - 1) as u16)
    }

    /// The set of this node alone.
    pub fn only(id: NodeId<K>) -> NodeSet<K>
        ensures { result ≡ set_of (λ i. i == id) }
    {
        NodeSet::from_bits(1 << id.index())
    }

    /// Adds the node, which may be in the set already.
    pub fn insert(&mut self, id: NodeId<K>)
        ensures { self.new ≡ set_of (λ i. has self.old i || (i == id)) }
    {
        self.bits |= 1 << id.index();
    }

    /// Takes the node out, which need not be in the set.
    pub fn remove(&mut self, id: NodeId<K>)
        ensures { self.new ≡ set_of (λ i. has self.old i && not (i == id)) }
    {
        self.bits &= !(1 << id.index());
    }

    /// Takes the node with the lowest number out of the set and gives it. `None` if and only if the
    /// set is empty. So a loop `while let Some(id) = left.pop_first()` walks over the nodes of a
    /// set in order.
    pub fn pop_first(&mut self) -> Option<NodeId<K>>
        ensures empty { IsNone result ↔ (self.old ≡ 0) }
        ensures first { IfSome result (TakesFirst self.old self.new) }
        ensures ended { IsNone result → self.new ≡ 0 }
    {
        if self.bits == 0 {
            return None;
        }
        let first = NodeId::of(self.bits.trailing_zeros() as u8);
        self.bits &= self.bits - 1;
        Some(first)
    }

    /// Whether the node is in the set.
    pub fn contains(&self, id: NodeId<K>) -> bool
        ensures { result ≡ has self.now id }
    {
        (self.bits >> id.index()) & 1 == 1
    }

    /// Whether the node with this number is in the set. No set has a node from 16 on.
    pub fn has(&self, index: u8) -> bool
        ensures { result ≡ has self.now index }
    {
        let bits = self.bits;
        index < 16 && (bits >> index) & 1 == 1
    }

    /// Whether no node is in the set.
    pub fn is_empty(&self) -> bool
        ensures { IsTrue result ↔ (self.now ≡ 0) }
    {
        self.bits == 0
    }

    /// The nodes that are in one of the two sets.
    pub fn union(self, other: NodeSet<K>) -> NodeSet<K>
        ensures { result ≡ set_of (λ i. has self i || has other i) }
    {
        NodeSet::from_bits(self.bits | other.bits)
    }

    /// The nodes that are in both sets.
    pub fn intersection(self, other: NodeSet<K>) -> NodeSet<K>
        ensures { result ≡ set_of (λ i. has self i && has other i) }
    {
        NodeSet::from_bits(self.bits & other.bits)
    }

    /// The nodes of this set that are not in the other.
    pub fn difference(self, other: NodeSet<K>) -> NodeSet<K>
        ensures { result ≡ set_of (λ i. has self i && not (has other i)) }
    {
        NodeSet::from_bits(self.bits & !other.bits)
    }

    /// The number of nodes in the set.
    pub fn count(&self) -> u8
        ensures value { result ≡ size self.now }
        ensures most { result ≤ 16 }
    {
        self.bits.count_ones() as u8
    }

    /// The set as a mask: bit i is set if and only if node i is in the set.
    pub fn bits(&self) -> u16
        ensures { result ≡ self.now }
    {
        self.bits
    }

    /// The set with this mask.
    pub fn from_bits(bits: u16) -> NodeSet<K>
        ensures { result ≡ bits }
    {
        NodeSet {
            bits,
            kind: PhantomData,
        }
    }
}
