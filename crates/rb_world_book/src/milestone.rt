//! What is to be settled in a run.
use rb_base::Place;

/// What is to be settled: the start of a frame, a stage of a slot, or the end.
#[derive(Clone, Copy, Debug, PartialEq, Eq)]
pub enum Milestone {
    Begin(u32),
    Stage(Place),
    End,
}

/// How a milestone is settled: by an event, or by itself if no node is good, and at the end.
#[derive(Clone, Copy, Debug, PartialEq, Eq)]
pub enum Way {
    ByAnEvent,
    ByItself,
}
