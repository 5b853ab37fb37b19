//! What a listener tells at a tick.
use rb_base::Delivery;
use rb_rules::Epoch;

/// The frame that begins at the listener, and what it delivers in the window that it closes.
#[derive(Clone, Copy, Debug, PartialEq, Eq)]
pub struct Heed {
    pub epoch: Option<Epoch>,
    pub delivered: Option<Delivery>,
}
