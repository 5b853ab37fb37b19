//! What a slot is for.

/// In a schedule slot a BIU asks for data slots, in a data slot the slot's owner sends its word, in
/// a diagnosis slot a node sends the mask of the nodes that it accuses. In the sync slot all nodes
/// resynchronize.
#[derive(Clone, Copy, Debug, PartialEq, Eq)]
pub enum Role {
    /// Of this BIU.
    Schedule(u8),
    /// The data slot with this number, counted from 0.
    Data(u16),
    /// Of this BIU.
    DiagBiu(u8),
    /// Of this RMU.
    DiagRmu(u8),
    Sync,
}
