//! The parts of a follower's tick that are not those of a node's.
ghost use Rattle.std.specs.Prelude.{◌≡◌, ◌<◌, ◌≤◌, ◌^◌};
ghost use Rattle.rb_base.specs.Nodes.Side.{Biu as TheBiu};
ghost use Rattle.rb_node.specs.Aheads.{IsWindowOf, seated_at};

use rb_base::Biu;
use rb_node::ahead::{is_tick, window_of};
use rb_plan::Window;
use rb_slot::Engine;

// The follower turns, if this is the tick of its next epoch. It gives the tick's window, which was
// this in the state before.
pub(crate) fn turn_at(engine: &mut Engine<Biu>, window: &Window, now: u64) -> Window
    requires now { now < 2 ^ 31 }
    requires frame { engine.old.state.frame < 2 ^ 31 }
    requires epoch { engine.old.state.epoch ≤ now }
    requires window { IsWindowOf TheBiu engine.old now window.now }
    ensures state { engine.new ≡ seated_at TheBiu engine.old now }
    ensures window { IsWindowOf TheBiu engine.new now result }
{
    if is_tick(engine.new_epoch(), now) {
        engine.turn();
        window_of(engine, now)
    } else {
        *window
    }
}
