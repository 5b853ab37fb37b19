//! The two kinds of node.
ghost use Rattle.std.specs.Prelude.{ℕ, ◌≤◌};
ghost use Rattle.std.proofs.Common.{lit≤};

/// A kind of node. Each node has links to all nodes of the other kind, and to none of its own.
pub trait Kind: Copy {
    /// The kind at the far end of the links.
    type Other: Copy;

    ghost CODE: { ℕ };

    /// 0 for a bus interface unit, 1 for a redundancy management unit.
    const CODE: u8;

    ghost code_in_range: { CODE ≤ 1 };
}

/// A bus interface unit: a node at which an application is attached.
#[derive(Clone, Copy, Debug, PartialEq, Eq)]
pub struct Biu;

/// A redundancy management unit: a node that relays what the BIUs send.
#[derive(Clone, Copy, Debug, PartialEq, Eq)]
pub struct Rmu;

impl Kind for Biu {
    type Other = Rmu;

    ghost CODE = { 0 };

    const CODE: u8 = 0;

    ghost code_in_range = { lit≤ tt };
}

impl Kind for Rmu {
    type Other = Biu;

    ghost CODE = { 1 };

    const CODE: u8 = 1;

    ghost code_in_range = { lit≤ tt };
}
