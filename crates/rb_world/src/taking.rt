//! How an event is taken.
ghost use Rattle.std.specs.Prelude.{◌≡◌, ◌<◌, ℕ};
ghost use Rattle.rb_base.specs.Nodes.{side_of};
ghost use Rattle.rb_rules.specs.Links.{name_of};
ghost use Rattle.rb_world.specs.Sites.{number_of};
ghost use Rattle.rb_rules.specs.WorldStep.{Due, World as RunWorld, take};
ghost use Rattle.rb_laws_events.specs.Promise.{NodesKeepThePromise};
ghost use Rattle.rb_world.specs.Numbering.{TakesInRounds, TakesItInRounds};
ghost use Rattle.rb_world.specs.Runs.{nodes_of};
ghost use Rattle.rb_world.specs.Steps.{CanHearAt, CanTickNext, Happens, HasHeard, MayHappen, TicksNext, without_arrival};
ghost use Rattle.rb_world.specs.Turning.{Gives};
ghost use Rattle.rb_world.specs.Worlds.{Stands, due_in, last_of};
ghost use Rattle.rb_world_book.specs.declared.turn.Turn.{Turn};
ghost use Rattle.rb_world_book.specs.Records.{record_of};
ghost use Rattle.rb_world.specs.Buses.{scenario_of};

use crate::Site;
use crate::bus::Bus;
use crate::last::Last;
use crate::run::Run;
use crate::scene::Scene;
use crate::ticking::tick;
use crate::world::World;
use rb_base::{Event, EventKind, Kind, NodeName};
use rb_frame::Spelling;
use rb_port::Apps;
use rb_world_agenda::Agenda;
use rb_world_book::{Turn, Way};

// What is kept of a turn.
pub(crate) fn last_of(turn: &Turn) -> Last
    ensures { result ≡ last_of (record_of turn.now) }
{
    match turn {
        Turn::Quiet => Last::Quiet,
        Turn::Frame(frame) => Last::Frame(frame.frame),
        Turn::Slot(_) => Last::Slot,
        Turn::Ended => Last::Ended,
        Turn::Breach(place, cause) => Last::Breach(*place, *cause),
    }
}

// Node `i` of the kind takes the tick that is ahead of it.
#[inline(always)]
pub(crate) fn tick_at<K: Kind>(bus: &Bus, apps: &Apps, i: u8, site: &mut Site<K>, scene: &mut Scene)
    requires number { i ≡ number_of site.old }
    requires may { CanTickNext bus.now (side_of K.CODE) site.old scene.old }
    ensures { TicksNext bus.now (side_of K.CODE) site.old site.new scene.old scene.new }
{
    if let Some(k) = site.node().next_tick() {
        tick(bus, apps, i, k, site, scene);
    }
}

// The event happens at its node, at a time.
fn happen(bus: &Bus, apps: &Apps, run: &mut Run, time: u64, node: NodeName, event: &Event)
    requires { (w : RunWorld) × (i : ℕ) × (d : Due)
        × MayHappen (scenario_of bus.now) (nodes_of run.old) run.old.scene time node event.now w i
        d }
    ensures { (w : RunWorld) (i : ℕ) (d : Due)
        → MayHappen (scenario_of bus.now) (nodes_of run.old) run.old.scene time node event.now w i d
        → Happens (scenario_of bus.now) (nodes_of run.new) run.new.scene w d }
{
    match (&event.kind, node) {
        (EventKind::Tick { .. }, NodeName::Biu(i)) => {
            tick_at(bus, apps, i, &mut run.bius[usize::from(i)], &mut run.scene);
        }
        (EventKind::Tick { .. }, NodeName::Rmu(i)) => {
            tick_at(bus, apps, i, &mut run.rmus[usize::from(i)], &mut run.scene);
        }
        (EventKind::Arrive { from, bytes }, NodeName::Biu(i)) => {
            run.bius[usize::from(i)].arrive(bus.clock(node), time, *from, &Spelling::of(bytes));
        }
        (EventKind::Arrive { from, bytes }, NodeName::Rmu(i)) => {
            run.rmus[usize::from(i)].arrive(bus.clock(node), time, *from, &Spelling::of(bytes));
        }
    }
}

// An arrival that is pending at a node comes to it, and is no longer pending.
pub(crate) fn hear_at<K: Kind>(
    bus: &Bus,
    node: NodeName,
    place: usize,
    site: &mut Site<K>,
    agenda: &mut Agenda,
)
    requires name { node ≡ name_of (side_of K.CODE) (number_of site.old) }
    requires may { CanHearAt bus.now (side_of K.CODE) node place site.old agenda.old }
    ensures lane { agenda.new ≡ without_arrival node place agenda.old }
    ensures stands { HasHeard bus.now (side_of K.CODE) node place site.old site.new agenda.old }
    ensures number { number_of site.new ≡ number_of site.old }
{
    let arrival = agenda.arrival(node, place);
    let time = arrival.time();
    let from = arrival.from();
    site.arrive(bus.clock(node), time, from, arrival.spelling());
    agenda.drop_at(node, place);
}

impl World {
    // Takes an event, as `take` does. The turn is `Quiet` before, and is written over if a record
    // comes with the event.
    pub(crate) fn take_into(&mut self, apps: &Apps, i: usize, turn: &mut Turn)
        requires below { i < due_in self.old }
        requires quiet { turn.old ≡ Turn.Quiet }
        ensures world { (w : RunWorld) → Stands self.old w
            → Gives self.new turn.new (take self.old.bus w i) }
        ensures bus { self.new.bus ≡ self.old.bus }
        ensures seeding { self.new.seeding ≡ self.old.seeding }
        ensures rounds { TakesItInRounds self.old i turn.new }
    {
        let time = self.run.scene.agenda.first_time();
        let (node, event) = self.run.scene.agenda.take(i);
        happen(&self.bus, apps, &mut self.run, time, node, &event);
        self.run.scene.book.settle_into(Way::ByAnEvent, turn);
        self.last = last_of(turn);
    }

    /// Takes the i-th of the events that are due, counted from 0: the node has its quiet ticks, and
    /// then its tick or the arrival. The turn is the record that comes with it, and `Quiet` if none
    /// does.
    pub fn take(&mut self, apps: &Apps, i: usize) -> Turn
        requires below { i < due_in self.old }
        ensures world { (w : RunWorld) → Stands self.old w
            → Gives self.new result (take self.old.bus w i) }
        ensures bus { self.new.bus ≡ self.old.bus }
        ensures seeding { self.new.seeding ≡ self.old.seeding }
        ensures rounds { (w : RunWorld) → Stands self.old w
            → TakesInRounds self.old.bus w (take self.old.bus w i) (record_of result) }
        ensures nodes { (w : RunWorld) → Stands self.new w → NodesKeepThePromise self.new.bus w }
    {
        let mut turn = Turn::Quiet;
        self.take_into(apps, i, &mut turn);
        turn
    }
}
