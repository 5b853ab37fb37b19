//! Which turn came last.
use rb_base::Place;
use rb_rules::Cause;

/// What is kept of the last turn: whether it was a record, and which. Of a frame its number is
/// kept.
#[derive(Clone, Copy, Debug, PartialEq, Eq)]
pub enum Last {
    Quiet,
    Frame(u32),
    Slot,
    Ended,
    Breach(Place, Cause),
}
