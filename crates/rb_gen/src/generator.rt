//! From a seed to a scenario.
ghost use Rattle.std.specs.Prelude.{◌≡◌, ◌≤◌, ◌<◌, ◌∷◌, [], ◌++◌, map, IfOk};
ghost use Rattle.rb_base.specs.Counting.{numbers};
ghost use Rattle.rb_rules.specs.Entries.{IsListed};
ghost use Rattle.rb_rules.specs.Lawful.{IsLawful};
ghost use Rattle.rb_scenario.specs.Acceptance.{Says, as_scenario};
ghost use Rattle.rb_gen.specs.Table.{table_of};
ghost use Rattle.rb_gen.specs.Generated.{clock_of, drawn_from, generated, plan, receiver_of, rule_of, say_to, sender_of, sizes, start_of, tick_of};

use crate::draws::Draws;
use rb_base::{NodeName, OutOfMemory, Shape};
use rb_clock::Clock;
use rb_plan::Feasible;
use rb_rules::{Content, Pattern, Plan, Rule, Say, Version};
use rb_scenario::{ClockList, DelayList, SayList, Scenario};
use std::alloc::Global;

// One for the silence of RMU 4, 11 for starts, 13 for lengths of ticks, 80 for delays.
const DRAWS: usize = 105;

const BIUS: usize = 8;

const NODES: usize = 13;

const LINKS: usize = 80;

const PLAN: Plan = Plan {
    u: 10000,
    r: 1,
    dmin: 5000,
    dmax: 15000,
    l: 15,
    h: 6,
    v: 18,
    z: 20,
    c: 1,
    p: 60200,
    version: Version::One,
    probation: 0,
};

// The numbers that the seed gives, in order.
fn drawn_from(seed: u64) -> [u32; DRAWS]
    ensures { result ≡ drawn_from seed }
{
    let mut draws = Draws::new(seed);
    let mut drawn = [0; DRAWS];
    for number in 0..DRAWS {
        drawn[number] = draws.draw();
    }
    drawn
}

// The bus and its plan.
fn plan() -> Feasible
    ensures { result ≡ record { sizes = sizes; plan = plan } }
{
    let Some(shape) = Shape::new(8, 5, 16) else {
        unreachable!()
    };
    match Feasible::new(&shape, &PLAN) {
        Ok(plan) => plan,
        Err(_) => unreachable!(),
    }
}

// When the clock of a node starts.
fn start_of(drawn: &[u32; DRAWS], node: usize) -> u64
    requires { node < NODES }
    ensures value { result ≡ start_of drawn.now node }
    ensures most { result ≤ 60200 }
{
    if node == 0 {
        60200
    } else if node < BIUS {
        u64::from(drawn[node] % 60201)
    } else if node == BIUS {
        0
    } else {
        u64::from(drawn[node - 1] % 60201)
    }
}

// How long the ticks of a node are.
fn tick_of(drawn: &[u32; DRAWS], node: usize) -> u32
    requires { node < NODES }
    ensures value { result ≡ tick_of drawn.now node }
    ensures least { 9999 ≤ result }
    ensures most { result ≤ 10001 }
{
    9999 + drawn[12 + node] % 3
}

// The clock of a node. It is refused only if memory runs out.
fn clock_of(alloc: Global, drawn: &[u32; DRAWS], node: usize) -> Result<Clock, OutOfMemory>
    requires { node < NODES }
    ensures { IfOk result (λ c. c ≡ clock_of drawn.now node) }
{
    let segments = [(0, tick_of(drawn, node))];
    match Clock::new(alloc, start_of(drawn, node), &segments, PLAN.u, PLAN.r) {
        Ok(clock) => Ok(clock),
        Err(_) => Err(OutOfMemory),
    }
}

fn add<T: Drop>(list: &mut Vec<T>, item: T) -> Result<(), OutOfMemory>
    ensures { IfOk result (λ _. list.new.items ≡ list.old.items ++ item ∷ []) }
{
    list.push(item).map_err(|_| OutOfMemory)
}

// The clocks of all nodes.
fn clocks_of(alloc: Global, drawn: &[u32; DRAWS]) -> Result<Vec<Clock>, OutOfMemory>
    ensures { IfOk result (λ v. v.items ≡ map (clock_of drawn.now) (numbers 13)) }
{
    let mut clocks = Vec::new(alloc);
    for node in 0..NODES {
        let clock = clock_of(alloc, drawn, node)?;
        add(&mut clocks, clock)?;
    }
    Ok(clocks)
}

// The node from which a link comes.
fn sender_of(link: usize) -> NodeName
    requires { link < LINKS }
    ensures { result ≡ sender_of link }
{
    if link < 40 {
        NodeName::Biu((link / 5) as u8)
    } else {
        NodeName::Rmu(((link - 40) / 8) as u8)
    }
}

// The node to which a link goes.
fn receiver_of(link: usize) -> NodeName
    requires { link < LINKS }
    ensures { result ≡ receiver_of link }
{
    if link < 40 {
        NodeName::Rmu((link % 5) as u8)
    } else {
        NodeName::Biu(((link - 40) % 8) as u8)
    }
}

// The rule on the delay of a link.
fn rule_of(drawn: &[u32; DRAWS], frames: u32, link: usize) -> Rule
    requires link { link < LINKS }
    requires frames { 1 ≤ frames }
    ensures { result ≡ rule_of drawn.now frames link }
{
    Rule {
        from: Pattern::One(sender_of(link)),
        to: Pattern::One(receiver_of(link)),
        frames: (0, frames - 1),
        slots: (0, 37),
        stages: (1, 3),
        delay: 5000 + drawn[25 + link] % 10001,
    }
}

// The rules on the delays of all links.
fn rules_of(alloc: Global, drawn: &[u32; DRAWS], frames: u32) -> Result<Vec<Rule>, OutOfMemory>
    requires { 1 ≤ frames }
    ensures { IfOk result (λ v. v.items ≡ map (rule_of drawn.now frames) (numbers 80)) }
{
    let mut rules = Vec::new(alloc);
    for link in 0..LINKS {
        add(&mut rules, rule_of(drawn, frames, link))?;
    }
    Ok(rules)
}

// What BIU 7 says to an RMU.
fn say_to(frames: u32, rmu: u8) -> Say
    requires { rmu < 4 }
    ensures { result ≡ say_to frames rmu }
{
    Say {
        from: NodeName::Biu(7),
        to: Pattern::One(NodeName::Rmu(rmu)),
        frames: (frames / 2, frames / 2),
        slots: (15, 15),
        stages: (1, 1),
        offset: 6,
        early: 0,
        content: Content::Word(1 + u32::from(rmu / 2)),
    }
}

// All that is said.
fn says_of(alloc: Global, frames: u32) -> Result<Vec<Say>, OutOfMemory>
    ensures { IfOk result (λ v. v.items ≡ map (say_to frames) (numbers 4)) }
{
    let mut says = Vec::new(alloc);
    for rmu in 0..4 {
        add(&mut says, say_to(frames, rmu))?;
    }
    Ok(says)
}

/// The scenario of a seed and a number of frames, 1 to 4096. It has 8 BIUs, each of which asks for
/// two of the 16 data slots, and 5 RMUs. The starts of the clocks, the lengths of their ticks, the
/// delays of the links, and the frame from which on RMU 4 is silent are drawn. In the frame
/// halfway, `frames / 2`, BIU 7 becomes faulty and says unlike words. The only error is out of
/// memory. The choice of the scenario is this project's own.
pub fn generate(alloc: Global, seed: u64, frames: u32) -> Result<Scenario, OutOfMemory>
    requires least { 1 ≤ frames }
    requires most { frames ≤ 4096 }
    ensures scenario { IfOk result (λ s. as_scenario s ≡ generated seed frames) }
    ensures lawful { IfOk result (λ s. IsLawful (as_scenario s)) }
    ensures listed { IfOk result (λ s. IsListed (as_scenario s)) }
    ensures said { IfOk result (λ s. Says (table_of (as_scenario s)) s) }
{
    let drawn = drawn_from(seed);
    let clocks = clocks_of(alloc, &drawn)?;
    let rules = rules_of(alloc, &drawn, frames)?;
    let says = says_of(alloc, frames)?;
    let mut biu_onset = [None; 16];
    biu_onset[7] = Some((frames / 2, 15));
    let mut rmu_onset = [None; 16];
    rmu_onset[4] = Some((drawn[0] % frames, 0));
    Ok(Scenario {
        plan: plan(),
        frames,
        requests: [2, 2, 2, 2, 2, 2, 2, 2, 0, 0, 0, 0, 0, 0, 0, 0],
        words: [1, 2, 3, 4, 5, 6, 7, 8, 0, 0, 0, 0, 0, 0, 0, 0],
        apps: [0; 16],
        clocks: ClockList::new(clocks),
        delays: DelayList::new(10000, rules),
        biu_onset,
        rmu_onset,
        says: SayList::new(says),
    })
}
