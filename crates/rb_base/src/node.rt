//! How a node is named.
ghost use Rattle.std.specs.Prelude.{◌≡◌, ℕ, ◌<◌, ◌↔◌, IsSome, IfSome};
ghost use Rattle.rb_base.specs.declared.node.NodeName.{NodeName};

use std::marker::{Model, PhantomData};

/// The number of a node among those of its kind, below 16.
#[derive(Clone, Copy, Debug, PartialEq, Eq)]
pub struct NodeId<K> {
    index: u8,
    kind: PhantomData<K>,
}

impl<K> Model for NodeId<K> {
    ghost Value = { ℕ };

    ghost view = { λ n. n.index };

    ghost invariant = { λ n. n.index < 16 };

    ghost inverse = { λ n. record { index = n; kind = record {} } };
}

impl<K> NodeId<K> {
    /// The node with this number. None exactly for 16 and above.
    pub fn new(index: u8) -> Option<NodeId<K>>
        ensures range { IsSome result ↔ (index < 16) }
        ensures value { IfSome result (λ id. id ≡ index) }
    {
        if index < 16 {
            Some(NodeId::of(index))
        } else {
            None
        }
    }

    /// The node with this number, which is below 16.
    pub fn of(index: u8) -> NodeId<K>
        requires { index < 16 }
        ensures { result ≡ index }
    {
        NodeId {
            index,
            kind: PhantomData,
        }
    }

    /// The number, below 16.
    pub fn index(&self) -> u8
        ensures value { result ≡ self.now }
        ensures range { result < 16 }
    {
        self.index
    }
}

/// A node by its kind and its number among those of its kind.
#[derive(Clone, Copy, Debug, PartialEq, Eq)]
pub enum NodeName {
    Biu(u8),
    Rmu(u8),
}

impl Default for NodeName {
    fn default() -> NodeName
        ensures { result ≡ NodeName.Biu 0 }
    {
        NodeName::Biu(0)
    }
}
