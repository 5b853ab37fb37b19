//! How a state is handed to a port.
ghost use Rattle.std.specs.Prelude.{◌≡◌, ◌<◌, List, length};
ghost use Rattle.rb_base.specs.Nodes.Side.{Biu};
ghost use Rattle.rb_rules.specs.Goodness.{Scenario, is_good};
ghost use Rattle.rb_rules.specs.Ports.{PortState, with_state};
ghost use Rattle.rb_rules.specs.WorldStep.{World as RunWorld, hand};
ghost use Rattle.rb_world.specs.Worlds.{HoldsPorts, Stands};
ghost use Rattle.rb_world.specs.Buses.{scenario_of};

use crate::bus::Bus;
use crate::last::Last;
use crate::world::World;
use rb_base::{NodeName, Place};
use rb_node::Span;
use rb_port::Port;

// Whether a BIU is good at the start of a frame.
fn is_good_at_begin(bus: &Bus, biu: u8, frame: u32) -> bool
    ensures { result ≡ is_good (scenario_of bus.now) Biu biu frame 0 }
{
    let place = Place {
        frame,
        slot: 0,
        stage: 0,
    };
    let begin = Span {
        place,
        first: 0,
        last: 0,
    };
    bus.is_good(NodeName::Biu(biu), &begin)
}

// The application at BIU `biu` has this state.
fn set_state(ports: &mut Vec<Port>, biu: u8, state: u64)
    requires { biu < length ports.old.items }
    ensures { (sc : Scenario) (states : List PortState) → HoldsPorts sc ports.old.items states
        → HoldsPorts sc ports.new.items (with_state biu state states) }
{
    ports[usize::from(biu)].set(state);
}

impl World {
    /// Hands a state to the application at BIU `biu`, if the last turn was the record of a frame,
    /// no event was taken since, and the BIU is good at that frame's start. It is the state that
    /// the record's port line would have shown. Nothing else changes, and nothing at all if one of
    /// these conditions does not hold.
    pub fn hand(&mut self, biu: u8, state: u64)
        ensures world { (w : RunWorld) → Stands self.old w
            → Stands self.new (hand self.old.bus w biu state) }
        ensures bus { self.new.bus ≡ self.old.bus }
        ensures seeding { self.new.seeding ≡ self.old.seeding }
        ensures rounds { (w : RunWorld) → Stands self.old w
            → (hand self.old.bus w biu state).book ≡ w.book }
    {
        let Last::Frame(frame) = self.last else {
            return;
        };
        if is_good_at_begin(&self.bus, biu, frame) {
            set_state(&mut self.run.scene.ports, biu, state);
        }
    }
}
