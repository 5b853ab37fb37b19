//! What the close of a window gives.
use rb_base::{Delivery, Heard, Place, See};

/// What was accepted from each source in a stage below the sync slot, and the majority of it.
#[derive(Clone, Copy, Debug, PartialEq, Eq)]
pub struct Closing {
    pub taken: [Option<Heard>; 16],
    pub voted: Heard,
}

/// The stamps that were accepted from each source in a stage of the sync slot, in ticks, and the
/// middle of them.
#[derive(Clone, Copy, Debug, PartialEq, Eq)]
pub struct SyncClosing {
    pub taken: [Option<u64>; 16],
    pub middle: u64,
}

/// What a node shows of a window that it has closed: what it saw of each source, a time being a
/// stamp in its own ticks, and what it delivers.
#[derive(Clone, Copy, Debug, PartialEq, Eq)]
pub struct Closed {
    pub place: Place,
    pub sees: [See; 16],
    pub delivered: Option<Delivery>,
}
