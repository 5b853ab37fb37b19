//! How a run goes from tick to tick: arrivals are left behind until a tick of their node comes, or
//! a record.
ghost use Rattle.std.specs.Prelude.{◌≡◌, ◌<◌, IsTrue, Some, false};
ghost use Rattle.rb_base.specs.Nodes.{side_of};
ghost use Rattle.rb_rules.specs.Links.{same_node};
ghost use Rattle.rb_rules.specs.WorldStep.{World as RunWorld};
ghost use Rattle.rb_world_book.specs.declared.turn.Turn.{Turn};
ghost use Rattle.rb_world.specs.Runs.{nodes_of};
ghost use Rattle.rb_world.specs.Trailing.{CanStepOn, CanTakeFirst, CanTakeOwn, CanTickFirst, HasLater, MayRun, RunsToRecord, StepsOn, TakesFirstOf, TakesOwn, TicksFirst};
ghost use Rattle.rb_world.specs.Unstamped.{CanTakeExactly, EndsExactly, TakesExactly};
ghost use Rattle.rb_world.specs.Observing.{TellsFirst, TellsOwn, TellsRun, TellsStep};
ghost use Rattle.rb_world.specs.Buses.{scenario_of};

use crate::Site;
use crate::bus::Bus;
use crate::observing::{Observer, is_observed, tell_tick_for};
use crate::opening::name_of;
use crate::run::{Run, Setup};
use crate::scene::Scene;
use crate::sweeping::{catch_up, sweep_for, take_in_all};
use crate::taking::tick_at;
use rb_base::{Kind, NodeName};
use rb_port::Apps;
use rb_world_book::{Turn, Way};

// Whether the node is not the one that is observed, and may take in unstamped what came to it
// before its next tick: that tick ends a window of a slot before the sync slot, and gives the same
// for any stamps. This is the short cut "sweep without stamps" of docs/PERFORMANCE.md.
#[inline(always)]
fn needs_no_stamps<K: Kind>(node: NodeName, observed: Option<NodeName>, site: &Site<K>) -> bool
    ensures other { IsTrue result → (name : NodeName) → observed ≡ Some name
        → same_node node name ≡ false }
    ensures ends { IsTrue result → EndsExactly (side_of K.CODE) site.now.node }
{
    !is_observed(observed, node) && site.node().ends_exact_window()
}

// Node `i` of the kind takes its tick, which comes at this time and needs no stamps. What came to
// it up to then is taken in first.
#[inline(always)]
fn take_exact_tick<K: Kind>(
    bus: &Bus,
    apps: &Apps,
    i: u8,
    time: u64,
    site: &mut Site<K>,
    scene: &mut Scene,
)
    requires small { time < 18446744073709551615 }
    requires may { CanTakeExactly bus.now (side_of K.CODE) i time site.old scene.old }
    ensures takes { TakesExactly bus.now (side_of K.CODE) i time site.old site.new scene.old
        scene.new }
{
    take_in_all(name_of::<K>(i), time + 1, site, &mut scene.agenda);
    tick_at(bus, apps, i, site, scene)
}

// Node `i` of the kind is swept up to its tick, which comes at this time, and takes it. If it is
// the node that is observed, it is told first what the node is given.
#[inline(always)]
fn take_tick<K: Kind, T: Observer>(
    setup: &Setup<'_>,
    i: u8,
    time: u64,
    sites: &mut Vec<Site<K>>,
    scene: &mut Scene,
    observer: &mut T,
)
    requires may { CanTakeOwn setup.now.bus.now (side_of K.CODE) i time sites.old.items scene.old }
    ensures takes { TakesOwn setup.now.bus.now (side_of K.CODE) i time sites.old.items
        sites.new.items scene.old scene.new }
    ensures told { TellsOwn T.observes setup.now.bus.now setup.now.observed (side_of K.CODE) i time
        sites.old.items scene.old observer.old observer.new }
{
    let node = name_of::<K>(i);
    let site = &mut sites[usize::from(i)];
    if needs_no_stamps(node, setup.observed, site) {
        take_exact_tick(setup.bus, setup.apps, i, time, site, scene);
        return;
    }
    sweep_for(setup, node, time + 1, site, &mut scene.agenda, observer);
    tell_tick_for(setup, site, &scene.ports, node, observer);
    tick_at(setup.bus, setup.apps, i, site, scene);
}

// The first tick of all is taken at its node. Before it the node is swept.
#[inline(always)]
fn take_first<T: Observer>(setup: &Setup<'_>, run: &mut Run, observer: &mut T) -> (NodeName, u64)
    requires may { CanTakeFirst setup.now.bus.now run.old }
    ensures happens { TakesFirstOf setup.now.bus.now run.old run.new result }
    ensures told { TellsFirst T.observes setup.now.bus.now setup.now.observed run.old observer.old
        observer.new }
{
    let (node, time) = run.scene.agenda.first_tick();
    match node {
        NodeName::Biu(i) => take_tick(setup, i, time, &mut run.bius, &mut run.scene, observer),
        NodeName::Rmu(i) => take_tick(setup, i, time, &mut run.rmus, &mut run.scene, observer),
    }
    (node, time)
}

// The first tick of all is taken at its node, and what that completes is settled.
#[inline(always)]
fn tick_first<T: Observer>(
    setup: &Setup<'_>,
    run: &mut Run,
    turn: &mut Turn,
    observer: &mut T,
) -> (NodeName, u64)
    requires quiet { turn.old ≡ Turn.Quiet }
    requires may { CanTickFirst setup.now.bus.now run.old }
    ensures goes { TicksFirst setup.now.bus.now run.old run.new result turn.new }
    ensures small { result.1 < 18446744073709551615 }
    ensures told { TellsFirst T.observes setup.now.bus.now setup.now.observed run.old observer.old
        observer.new }
{
    let (node, time) = take_first(setup, run, observer);
    run.scene.book.settle_into(Way::ByAnEvent, turn);
    (node, time)
}

// What needs no event is given, or the first tick of all is taken.
#[inline(always)]
fn step_on<T: Observer>(
    setup: &Setup<'_>,
    run: &mut Run,
    turn: &mut Turn,
    tick: &mut Option<(NodeName, u64)>,
    observer: &mut T,
)
    requires quiet { turn.old ≡ Turn.Quiet }
    requires small { HasLater tick.old }
    requires may { CanStepOn setup.now.bus.now tick.old run.old }
    ensures comes { StepsOn setup.now.bus.now tick.old tick.new run.old run.new turn.new }
    ensures small { HasLater tick.new }
    ensures told { TellsStep T.observes setup.now.bus.now setup.now.observed tick.old tick.new
        run.old run.new turn.new observer.old observer.new }
{
    if run.scene.book.needs_no_event() {
        run.scene.book.settle_into(Way::ByItself, turn);
        return;
    }
    *tick = Some(tick_first(setup, run, turn, observer));
}

/// Takes the run from tick to tick up to its next record. Before that it has not ended. A run has
/// fewer than 2^64 - 1 events. What the node that is observed is given up to there is told.
#[inline(always)]
pub(crate) fn run_ticks<T: Observer>(
    setup: &Setup<'_>,
    run: &mut Run,
    turn: &mut Turn,
    observer: &mut T,
)
    requires quiet { turn.old ≡ Turn.Quiet }
    requires may { (w : RunWorld) × MayRun (scenario_of setup.now.bus.now)
        (nodes_of run.old) run.old.scene w }
    ensures comes { RunsToRecord setup.now.bus.now run.old run.new turn.new }
    ensures told { TellsRun T.observes setup.now.bus.now setup.now.observed run.old run.new turn.new
        observer.old observer.new }
{
    let mut tick = None;
    for passed in 0..u64::MAX {
        step_on(setup, run, turn, &mut tick, observer);
        if let Turn::Quiet = turn {
            continue;
        }
        catch_up(setup, tick, run, observer);
        return;
    }
    unreachable!()
}
