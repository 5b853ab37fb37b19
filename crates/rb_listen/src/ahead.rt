//! When something happens at a follower next.
ghost use Rattle.std.specs.Prelude.{◌≤◌, ◌^◌};
ghost use Rattle.rb_listen.specs.Waking.{LooksAhead};

use rb_base::Biu;
use rb_node::ahead::{next_wake, window_of};
use rb_plan::Window;
use rb_slot::Engine;

/// What is ahead of a follower.
#[derive(Clone, Copy)]
pub struct Ahead {
    // The follower's next tick that is not quiet, or 2^31 if there is none.
    pub(crate) tick: u64,
    // The window of all ticks up to that one.
    pub(crate) window: Window,
}

// What is ahead of a follower that has had `had` ticks.
#[inline(always)]
pub(crate) fn look_ahead(engine: &Engine<Biu>, had: u64) -> Ahead
    requires epoch { engine.now.state.epoch ≤ had }
    requires had { had ≤ 2 ^ 31 }
    ensures { LooksAhead engine.now had result }
{
    let window = window_of(engine, had);
    let tick = next_wake(engine, &window, had);
    Ahead { tick, window }
}
