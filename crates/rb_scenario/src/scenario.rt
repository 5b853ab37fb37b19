//! What a document says.
use rb_clock::Clock;
use rb_plan::Feasible;
use rb_rules::{Rule, Say};
use std::marker::Model;

/// The clocks of the nodes of a bus: those of the BIUs, then those of the RMUs.
#[derive(Drop)]
pub struct ClockList {
    items: Vec<Clock>,
}

impl Model for ClockList {
    ghost use Rattle.std.specs.Prelude.{List};
    ghost use Rattle.rb_rules.specs.Clock.{Timeline};

    ghost Value = { List Timeline };

    ghost view = { λ l. l.items.items };
}

impl ClockList {
    ghost use Rattle.std.specs.Prelude.{◌≡◌, ◌<◌, Some, length, slice_get};

    /// The list of these clocks.
    pub fn new(items: Vec<Clock>) -> ClockList
        ensures { result ≡ items.items }
    {
        ClockList { items }
    }

    /// How many clocks there are.
    pub fn len(&self) -> usize
        ensures { result ≡ length self.now }
    {
        self.items.len()
    }

    /// The clock at a place.
    pub fn get(&self, i: usize) -> &Clock
        requires { i < length self.now }
        ensures { slice_get self.now i ≡ Some result.now }
    {
        &self.items[i]
    }
}

/// How long messages are on their way, in reference units: the base for a message for which there
/// is no rule, and the rules.
#[derive(Drop)]
pub struct DelayList {
    base: u32,
    rules: Vec<Rule>,
}

impl Model for DelayList {
    ghost use Rattle.rb_rules.specs.Links.{DelayRules};

    ghost Value = { DelayRules };

    ghost view = { λ d. record { base = d.base; rules = d.rules.items } };
}

impl DelayList {
    ghost use Rattle.std.specs.Prelude.{◌≡◌};

    /// The list of these rules, with this base.
    pub fn new(base: u32, rules: Vec<Rule>) -> DelayList
        ensures { result ≡ record { base = base; rules = rules.items } }
    {
        DelayList { base, rules }
    }

    /// The delay of a message for which there is no rule.
    pub fn base(&self) -> u32
        ensures { result ≡ self.now.base }
    {
        self.base
    }

    /// The rules, as the document has them.
    pub fn rules(&self) -> &[Rule]
        ensures { result.now ≡ self.now.rules }
    {
        &self.rules
    }
}

/// What nodes that are not good say.
#[derive(Drop)]
pub struct SayList {
    items: Vec<Say>,
}

impl Model for SayList {
    ghost use Rattle.std.specs.Prelude.{List};
    ghost use Rattle.rb_rules.specs.declared.say.Say.{Say};

    ghost Value = { List Say };

    ghost view = { λ l. l.items.items };
}

impl SayList {
    ghost use Rattle.std.specs.Prelude.{◌≡◌, ◌<◌, Some, length, slice_get};

    /// The list of these entries.
    pub fn new(items: Vec<Say>) -> SayList
        ensures { result ≡ items.items }
    {
        SayList { items }
    }

    /// How many entries there are.
    pub fn len(&self) -> usize
        ensures { result ≡ length self.now }
    {
        self.items.len()
    }

    /// The entry at a place.
    pub fn get(&self, i: usize) -> &Say
        requires { i < length self.now }
        ensures { slice_get self.now i ≡ Some result.now }
    {
        &self.items[i]
    }
}

/// A bus and what happens to it.
#[derive(Drop)]
pub struct Scenario {
    /// How many nodes and data slots the bus has, and its plan, which is feasible for them.
    pub plan: Feasible,
    /// For how many frames the bus runs, 1 to 4096.
    pub frames: u32,
    /// How many data slots each BIU asks for; past the last BIU 0.
    pub requests: [u16; 16],
    /// The state with which the port of each BIU begins; past the last BIU 0.
    pub words: [u32; 16],
    /// The application at each BIU: 0 for `table`, 1 for `counter`, 2 for `follow`.
    pub apps: [u8; 16],
    /// The clocks of all nodes.
    pub clocks: ClockList,
    /// How long messages are on their way.
    pub delays: DelayList,
    /// For each BIU the frame and the slot from which on it is not good, if it ever is not.
    pub biu_onset: [Option<(u32, u16)>; 16],
    /// For each RMU the first slot in which it is not good, if there is one.
    pub rmu_onset: [Option<(u32, u16)>; 16],
    /// What nodes that are not good say.
    pub says: SayList,
}
