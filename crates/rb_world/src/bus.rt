//! The bus of a run.
ghost use Rattle.std.specs.Prelude.{◌≡◌, ◌+◌, ◌<◌, ◌≤◌, IfOk, get_or, length};
ghost use Rattle.rb_base.specs.Nodes.{other};
ghost use Rattle.rb_base.specs.Nodes.Side.{Biu as biu, Rmu as rmu};
ghost use Rattle.rb_rules.specs.WorldStep.{first_world};
ghost use Rattle.rb_laws_events.specs.PendingEvents.{most_pending};
ghost use Rattle.rb_node.specs.Acts.{span_in};
ghost use Rattle.rb_queue.specs.Waiting.{HasLane, lane_of, spare_of};
ghost use Rattle.rb_rules.specs.Entries.{IsListed};
ghost use Rattle.rb_rules.specs.Goodness.{clock_of};
ghost use Rattle.rb_rules.specs.Lawful.{IsLawful, IsNodeOf, is_node_good, kind_of};
ghost use Rattle.rb_world_book.specs.Holding.{Holds};
ghost use Rattle.rb_scenario.specs.Acceptance.{as_scenario};
ghost use Rattle.rb_world_traffic.specs.Arriving.{HaveRoom, number_of};
ghost use Rattle.rb_world_traffic.specs.Departing.{CanDepart};
ghost use Rattle.rb_world.specs.Buses.{HasSaid, HasSent, HaveRooms, scenario_of, with_said};
ghost use Rattle.rb_world.specs.Calm.{is_calm};
ghost use Rattle.rb_world.specs.Steps.{SpanFits};

use crate::calm::{Restless, is_outside, restless_nodes};
use rb_base::{Biu, NodeName, OutOfMemory, Rmu, Shape};
use rb_clock::Clock;
use rb_link::Delays;
use rb_node::Span;
use rb_plan::Feasible;
use rb_scenario::{ClockList, Scenario};
use rb_world_agenda::Agenda;
use rb_world_book::Book;
use rb_world_onset::Onsets;
use rb_world_traffic::{Departure, Sayings, send};
use std::alloc::Global;
use std::marker::Model;

/// What a scenario fixes for its whole run.
#[derive(Drop)]
pub struct Bus {
    plan: Feasible,
    frames: u32,
    requests: [u16; 16],
    words: [u32; 16],
    apps: [u8; 16],
    clocks: ClockList,
    delays: Delays,
    onsets: Onsets,
    sayings: Sayings,
    says: usize,
    // For each node the frames in which it may not be good, or something may be said to it.
    restless_biu: [Restless; 16],
    restless_rmu: [Restless; 16],
}

impl Model for Bus {
    ghost use Rattle.rb_world.specs.Buses.{IsBus, KeptBus, bus_of, scenario_of};

    ghost Value = { KeptBus };

    ghost view = { λ b. bus_of b.plan b.frames b.requests b.words b.apps b.clocks b.delays b.onsets
        b.sayings };

    ghost invariant = { λ b. IsBus b.says (scenario_of (bus_of b.plan b.frames b.requests b.words
        b.apps b.clocks b.delays b.onsets b.sayings)) b.onsets b.sayings b.restless_biu
        b.restless_rmu };
}

impl Bus {
    /// The bus of a scenario. All memory is taken here.
    pub fn new(alloc: Global, scenario: Scenario) -> Result<Bus, OutOfMemory>
        requires lawful { IsLawful (as_scenario scenario) }
        requires listed { IsListed (as_scenario scenario) }
        ensures { IfOk result (λ b. scenario_of b ≡ as_scenario scenario) }
    {
        let shape = *scenario.plan.shape();
        let version = scenario.plan.plan().version;
        let onsets = Onsets::new(shape, scenario.biu_onset, scenario.rmu_onset);
        let says = scenario.says.len();
        let sayings = Sayings::new(alloc, &shape, onsets, version, scenario.says)?;
        let restless_biu = restless_nodes::<Biu>(shape.biu(), &scenario.biu_onset, &sayings);
        let restless_rmu = restless_nodes::<Rmu>(shape.rmu(), &scenario.rmu_onset, &sayings);
        let delays = Delays::new(alloc, scenario.delays.base(), scenario.delays.rules())?;
        Ok(Bus {
            plan: scenario.plan,
            frames: scenario.frames,
            requests: scenario.requests,
            words: scenario.words,
            apps: scenario.apps,
            clocks: scenario.clocks,
            delays,
            onsets,
            sayings,
            says,
            restless_biu,
            restless_rmu,
        })
    }

    /// How many nodes and data slots the bus has.
    pub fn shape(&self) -> &Shape
        ensures { result.now ≡ self.now.sizes }
    {
        self.plan.shape()
    }

    /// The plan of the bus.
    pub fn plan(&self) -> &Feasible
        ensures { result.now ≡ record { sizes = self.now.sizes; plan = self.now.plan } }
    {
        &self.plan
    }

    /// How many frames a run has.
    pub fn frames(&self) -> u32
        ensures { result ≡ self.now.frames }
    {
        self.frames
    }

    /// The application at BIU `i`.
    pub fn app(&self, i: u8) -> u8
        requires { i < self.now.sizes.bius }
        ensures value { result ≡ get_or self.now.apps i 0 }
        ensures known { result < 3 }
    {
        self.apps[usize::from(i)]
    }

    /// The state with which the port of BIU `i` begins.
    pub fn word(&self, i: u8) -> u64
        requires { i < self.now.sizes.bius }
        ensures { result ≡ get_or self.now.words i 0 }
    {
        u64::from(self.words[usize::from(i)])
    }

    /// The book of a run of the bus at its start.
    pub fn book(&self) -> Book
        ensures { Holds (scenario_of self.now) result (first_world (scenario_of self.now)) }
    {
        let plan = self.plan.plan();
        Book::new(
            *self.plan.shape(),
            self.frames,
            plan.dmax - plan.dmin,
            self.onsets,
        )
    }

    /// The clock of a node.
    pub fn clock(&self, node: NodeName) -> &Clock
        requires { IsNodeOf self.now.sizes node }
        ensures { result.now ≡ clock_of (scenario_of self.now) (kind_of node) (number_of node) }
    {
        match node {
            NodeName::Biu(i) => self.clocks.get(usize::from(i)),
            NodeName::Rmu(i) => self
                .clocks
                .get(usize::from(self.plan.shape().biu()) + usize::from(i)),
        }
    }

    /// Whether the node is good in a window.
    pub fn is_good(&self, node: NodeName, span: &Span) -> bool
        ensures { result ≡ is_node_good (scenario_of self.now) node span.now.place.frame span.now.place.slot }
    {
        self.onsets.is_good(node, span.place.frame, span.place.slot)
    }

    /// Whether in this frame and in the next the node is good, and no entry for it speaks of them
    /// or of frames on both sides.
    #[inline(always)]
    pub fn is_calm(&self, node: NodeName, frame: u32) -> bool
        requires { IsNodeOf self.now.sizes node }
        ensures { result ≡ is_calm (scenario_of self.now) (kind_of node) (number_of node) frame }
    {
        let restless = match node {
            NodeName::Biu(i) => self.restless_biu[usize::from(i)],
            NodeName::Rmu(i) => self.restless_rmu[usize::from(i)],
        };
        is_outside(restless, frame)
    }

    /// How many data slots BIU `i` asks for.
    pub fn request(&self, i: u8) -> u32
        requires { i < self.now.sizes.bius }
        ensures { result ≡ get_or self.now.requests i 0 }
    {
        u32::from(self.requests[usize::from(i)])
    }

    /// How much may be pending at a node at most, with what comes to it when an event is taken.
    pub fn room(&self) -> usize
        ensures biu { most_pending (scenario_of self.now) biu + length self.now.says + 1 ≤ result }
        ensures rmu { most_pending (scenario_of self.now) rmu + length self.now.says + 1 ≤ result }
        ensures most { result ≤ 65536 }
    {
        let nodes = self.plan.shape().biu().max(self.plan.shape().rmu());
        4 * usize::from(nodes) + 4 * self.says + 2
    }

    /// What nodes that are not good say to the node in a window comes to it.
    #[inline(always)]
    pub fn say(&self, agenda: &mut Agenda, node: NodeName, span: &Span)
        requires node { IsNodeOf self.now.sizes node }
        requires lane { HasLane agenda.old node }
        requires spare { length self.now.says ≤ spare_of (lane_of agenda.old node) }
        requires span { SpanFits (span_in span.now) }
        ensures lanes { agenda.new ≡ with_said (scenario_of self.now) node span.now agenda.old }
        ensures world { HasSaid (scenario_of self.now) node span.now agenda.old agenda.new }
    {
        let span = rb_world_traffic::Span {
            place: span.place,
            first: span.first,
            last: span.last,
        };
        self.sayings.say(agenda, self.clock(node), node, &span);
    }

    /// A message of a good node is on its way to the nodes of the other kind that run.
    #[inline(always)]
    pub fn send(&self, agenda: &mut Agenda, departure: &Departure, running: u16)
        requires node { IsNodeOf self.now.sizes departure.now.from }
        requires departs { CanDepart departure.now }
        requires room { HaveRoom (other (kind_of departure.now.from)) running agenda.old }
        ensures world { HasSent (scenario_of self.now) departure.now running agenda.old agenda.new }
        ensures rooms { HaveRooms (scenario_of self.now) agenda.old
            → HaveRooms (scenario_of self.now) agenda.new }
    {
        let clock = self.clock(departure.from);
        let version = self.plan.plan().version;
        send(agenda, clock, &self.delays, version, departure, running);
    }
}
