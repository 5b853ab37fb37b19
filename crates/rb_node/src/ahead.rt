//! When something happens at a node next.
ghost use Rattle.std.specs.Prelude.{◌≡◌, ◌+◌, ◌<◌, ◌≤◌, ◌==◌, ◌^◌, Some, false, true};
ghost use Rattle.rb_base.specs.Nodes.{side_of};
ghost use Rattle.rb_base.specs.Sizes.{IsShape, sync_slot_of};
ghost use Rattle.rb_rules.specs.Core.{is_tick};
ghost use Rattle.rb_rules.specs.Hearing.{tail_at};
ghost use Rattle.rb_rules.specs.Plan.{IsFeasible, IsPlan, tail_start_of};
ghost use Rattle.rb_rules.specs.SyncStage.{send_tick_of};
ghost use Rattle.rb_node.specs.Aheads.{IsChosen, IsEnded, IsExactUntil, IsNextBusy, IsNextWake, IsSaidNext, IsSooner, IsWindowOf, LooksAhead, SaysIn, following, is_alone, tick_said, want_ahead, want_at, window_of_tick};
ghost use Rattle.rb_node.specs.Wants.{slot_of_words, want_for};

use crate::act::Want;
use rb_base::{Kind, MOST_TICKS, Shape};
use rb_plan::{Feasible, Plan, Window};
use rb_slot::Engine;

/// A tick that is not quiet, and the stage of the message that the node says then; 0 if it says
/// none.
#[derive(Clone, Copy)]
pub struct Busy {
    pub(crate) tick: u64,
    pub(crate) stage: u8,
}

/// What is ahead of a node.
#[derive(Clone, Copy)]
pub struct Ahead {
    // The node's next tick that is not quiet, or 2^31 if there is none.
    pub(crate) busy: Busy,
    // The window of all ticks up to that one.
    pub(crate) window: Window,
    // What it wants at that one.
    pub(crate) want: Want,
    // Whether all that happens at that one is that a window of a slot before the sync slot ends.
    pub(crate) alone: bool,
}

/// The sizes and the plan are within their bounds. It does nothing: a proof that needs a bound
/// reads it at its call.
pub fn bounds<K: Kind>(engine: &Engine<K>)
    ensures shape { IsShape engine.now.sizes }
    ensures plan { IsPlan engine.now.plan }
    ensures feasible { IsFeasible engine.now.sizes engine.now.plan }
{
    let _plan = engine.plan().plan();
    let _biu = engine.plan().shape().biu();
}

// The offset at which the tail begins.
fn tail_start(plan: &Feasible) -> u64
    ensures value { result ≡ tail_start_of plan.now.sizes plan.now.plan }
    ensures small { result ≤ 340000 }
{
    let numbers = plan.plan();
    plan.f0() + u64::from(numbers.l) + u64::from(numbers.v) + u64::from(numbers.z)
}

// The tail of the frame.
fn tail<K: Kind>(engine: &Engine<K>) -> Window
    requires { engine.now.state.epoch ≤ 2 ^ 31 }
    ensures value { result ≡ tail_at engine.now.sizes engine.now.plan (side_of K.CODE)
        engine.now.state }
    ensures first { result.first ≤ 400000 }
    ensures fits { engine.now.state.epoch + result.last < 2 ^ 64 }
{
    let end = engine
        .new_epoch()
        .unwrap_or(0)
        .saturating_sub(engine.epoch());
    Window {
        slot: engine.plan().shape().sync_slot(),
        stage: 4,
        first: tail_start(engine.plan()),
        last: end.saturating_sub(1),
    }
}

/// The window of a tick of the frame.
#[inline(always)]
pub fn window_of<K: Kind>(engine: &Engine<K>, tick: u64) -> Window
    requires epoch { engine.now.state.epoch ≤ tick }
    requires tick { tick ≤ 2 ^ 31 }
    ensures { IsWindowOf (side_of K.CODE) engine.now tick result }
{
    bounds(engine);
    match engine.plan().window(tick - engine.epoch()) {
        Some(window) => window,
        None => tail(engine),
    }
}

// The window after one below the sync slot.
#[inline(always)]
pub(crate) fn following(plan: &Plan, window: &Window) -> Window
    requires plan { IsPlan plan.now }
    requires slot { window.now.slot < 112 }
    requires stage { window.now.stage ≤ 3 }
    requires last { window.now.last ≤ 400000 }
    ensures { result ≡ following plan.now window.now }
{
    let (first, last) = (window.last + 1, window.last + u64::from(plan.l));
    if window.stage < 3 {
        Window {
            slot: window.slot,
            stage: window.stage + 1,
            first,
            last,
        }
    } else {
        Window {
            slot: window.slot + 1,
            stage: 1,
            first,
            last,
        }
    }
}

// The window of the tick before becomes that of the next tick, if it was closed; else it goes on.
// After a window below the sync slot comes the one that follows it.
#[inline(always)]
pub(crate) fn go_on<K: Kind>(engine: &Engine<K>, window: &mut Window, closed: bool, next: u64)
    requires epoch { engine.now.state.epoch ≤ next }
    requires next { next ≤ 2 ^ 31 }
    requires ended { closed ≡ true → IsEnded engine.now window.old next }
    requires goes_on { closed ≡ false → IsWindowOf (side_of K.CODE) engine.now next window.old }
    ensures { IsWindowOf (side_of K.CODE) engine.now next window.new }
{
    if !closed {
        return;
    }
    bounds(engine);
    if window.slot < engine.plan().shape().sync_slot() {
        *window = following(engine.plan().plan(), window);
    } else {
        *window = window_of(engine, next);
    }
}

// The earlier of two ticks: `candidate` is ignored if it is absent or over.
fn sooner(before: u64, had: u64, candidate: Option<u64>) -> u64
    requires { had ≤ before }
    ensures { IsSooner had candidate before result }
{
    match candidate {
        Some(tick) if had <= tick && tick < before => tick,
        _ => before,
    }
}

// The earlier of `before` and the tick at which a message of the stage is sent, if the node has one
// to send. It comes before those of later stages at the same tick.
#[inline(always)]
fn sooner_due<K: Kind>(
    before: Busy,
    had: u64,
    engine: &Engine<K>,
    slot: u16,
    stage: u8,
    tick: u64,
) -> Busy
    requires had { had ≤ before.tick }
    requires index { engine.now.index < 16 }
    requires tick { send_tick_of engine.now.sizes engine.now.plan engine.now.state slot stage
        ≡ Some tick }
    ensures { IsChosen had (tick_said (side_of K.CODE) engine.now slot stage) stage before result }
{
    if tick < had {
        return before;
    }
    if tick > before.tick {
        return before;
    }
    if !engine.speaks_in(slot, stage) {
        return before;
    }
    Busy { tick, stage }
}

// The earlier of `before` and the tick of the node's message in a stage of any slot.
#[inline(always)]
fn sooner_send<K: Kind>(before: Busy, had: u64, engine: &Engine<K>, slot: u16, stage: u8) -> Busy
    requires had { had ≤ before.tick }
    requires index { engine.now.index < 16 }
    requires slot { slot ≤ sync_slot_of engine.now.sizes }
    requires first { 1 ≤ stage }
    requires last { stage ≤ 3 }
    ensures { IsChosen had (tick_said (side_of K.CODE) engine.now slot stage) stage before result }
{
    match engine.send_tick(slot, stage) {
        Some(tick) => sooner_due(before, had, engine, slot, stage, tick),
        None => before,
    }
}

// The earlier of `before` and the tick of the node's message in a window below the sync slot, where
// only the message of the window's own stage can be due.
#[inline(always)]
fn sooner_word<K: Kind>(before: Busy, had: u64, engine: &Engine<K>, window: &Window) -> Busy
    requires had { had ≤ before.tick }
    requires index { engine.now.index < 16 }
    requires epoch { engine.now.state.epoch ≤ had }
    requires most { had ≤ 2 ^ 31 }
    requires window { IsWindowOf (side_of K.CODE) engine.now had window.now }
    requires ends { before.tick ≤ engine.now.state.epoch + window.now.last }
    requires slot { window.now.slot < sync_slot_of engine.now.sizes }
    ensures { IsSaidNext (side_of K.CODE) engine.now window.now.slot had before result }
{
    bounds(engine);
    let tick = engine.epoch() + window.first + u64::from(engine.plan().plan().h);
    sooner_due(before, had, engine, window.slot, window.stage, tick)
}

// The earlier of `before` and the tick of the node's calls in the sync slot, where what is due
// depends on what the node accepted.
fn sooner_call<K: Kind>(before: Busy, had: u64, engine: &Engine<K>, slot: u16) -> Busy
    requires had { had ≤ before.tick }
    requires index { engine.now.index < 16 }
    requires slot { slot ≤ sync_slot_of engine.now.sizes }
    ensures { IsSaidNext (side_of K.CODE) engine.now slot had before result }
{
    let third = sooner_send(before, had, engine, slot, 3);
    let second = sooner_send(third, had, engine, slot, 2);
    sooner_send(second, had, engine, slot, 1)
}

// The earlier of `before` and the tick of the node's message in any window. If the window is not
// over, it ends no sooner than the tick of `before`.
#[inline(always)]
fn sooner_said<K: Kind>(before: Busy, had: u64, engine: &Engine<K>, window: &Window) -> Busy
    requires had { had ≤ before.tick }
    requires index { engine.now.index < 16 }
    requires epoch { engine.now.state.epoch ≤ had }
    requires most { had ≤ 2 ^ 31 }
    requires window { IsWindowOf (side_of K.CODE) engine.now had window.now }
    requires ends { had ≤ engine.now.state.epoch + window.now.last
        → before.tick ≤ engine.now.state.epoch + window.now.last }
    ensures { IsSaidNext (side_of K.CODE) engine.now window.now.slot had before result }
{
    bounds(engine);
    if window.slot < engine.plan().shape().sync_slot() {
        sooner_word(before, had, engine, window)
    } else {
        sooner_call(before, had, engine, window.slot)
    }
}

/// The next tick with which a frame begins or a window ends, `window` being that of tick `had`;
/// 2^31 if there is none.
#[inline(always)]
pub fn next_wake<K: Kind>(engine: &Engine<K>, window: &Window, had: u64) -> u64
    requires epoch { engine.now.state.epoch ≤ had }
    requires had { had ≤ 2 ^ 31 }
    requires window { IsWindowOf (side_of K.CODE) engine.now had window.now }
    ensures { IsNextWake (side_of K.CODE) engine.now had result }
{
    bounds(engine);
    let begun = sooner(MOST_TICKS, had, Some(engine.epoch()));
    let closed = sooner(begun, had, Some(engine.epoch() + window.last));
    sooner(closed, had, engine.new_epoch())
}

// The next tick that is not quiet, `window` being that of tick `had`; 2^31 if there is none.
#[inline(always)]
fn busy_tick<K: Kind>(engine: &Engine<K>, window: &Window, had: u64) -> Busy
    requires index { engine.now.index < 16 }
    requires epoch { engine.now.state.epoch ≤ had }
    requires had { had ≤ 2 ^ 31 }
    requires window { IsWindowOf (side_of K.CODE) engine.now had window.now }
    ensures next { IsNextBusy (side_of K.CODE) engine.now had result.tick }
    ensures stage { SaysIn (side_of K.CODE) engine.now window.now.slot result.tick result.stage }
{
    let tick = next_wake(engine, window, had);
    sooner_said(Busy { tick, stage: 0 }, had, engine, window)
}

/// Whether this is the tick.
pub fn is_tick(tick: Option<u64>, now: u64) -> bool
    ensures { result ≡ is_tick tick now }
{
    match tick {
        Some(tick) => tick == now,
        None => false,
    }
}

// What is wanted for the first stage of a slot.
fn want_in(shape: &Shape, slot: u16) -> Want
    ensures { result ≡ want_for shape.now (slot_of_words shape.now slot) }
{
    let bius = u16::from(shape.biu());
    if slot < bius {
        Want::Request
    } else if slot < bius + shape.slots() {
        Want::Data { slot }
    } else {
        Want::Nothing
    }
}

// What the node wants at a tick of the window, at which it says its message of a stage.
fn want_at<K: Kind>(engine: &Engine<K>, window: &Window, busy: Busy) -> Want
    requires window { window.now ≡ window_of_tick (side_of K.CODE) engine.now busy.tick }
    requires stage { SaysIn (side_of K.CODE) engine.now window.now.slot busy.tick busy.stage }
    ensures { result ≡ want_at (side_of K.CODE) engine.now busy.tick }
{
    bounds(engine);
    if busy.stage == 1 {
        if is_tick(engine.new_epoch(), busy.tick) {
            Want::Nothing
        } else {
            want_in(engine.plan().shape(), window.slot)
        }
    } else {
        Want::Nothing
    }
}

// What the node wants of the window that is ahead, and nothing if no tick is to come.
fn want_ahead<K: Kind>(engine: &Engine<K>, window: &Window, busy: Busy) -> Want
    requires window { window.now ≡ window_of_tick (side_of K.CODE) engine.now busy.tick }
    requires stage { SaysIn (side_of K.CODE) engine.now window.now.slot busy.tick busy.stage }
    ensures { result ≡ want_ahead (side_of K.CODE) engine.now busy.tick }
{
    if busy.tick < MOST_TICKS {
        want_at(engine, window, busy)
    } else {
        Want::Nothing
    }
}

// Whether all that happens at this tick of the window is that the window ends, which is one of a
// slot before the sync slot.
#[inline(always)]
fn is_alone<K: Kind>(engine: &Engine<K>, window: &Window, busy: Busy) -> bool
    requires { engine.now.state.epoch + window.now.last < 2 ^ 64 }
    ensures { result ≡ is_alone (side_of K.CODE) engine.now window.now busy }
{
    busy.stage == 0
        && window.slot < engine.plan().shape().sync_slot()
        && engine.epoch() + window.last == busy.tick
        && busy.tick < MOST_TICKS
        && !is_tick(engine.new_epoch(), busy.tick)
}

// What is ahead of a node that has had `had` ticks. The window is that of its next tick.
#[inline(always)]
pub(crate) fn look_ahead<K: Kind>(engine: &Engine<K>, ahead: &mut Ahead, had: u64)
    requires index { engine.now.index < 16 }
    requires epoch { engine.now.state.epoch ≤ had }
    requires had { had ≤ 2 ^ 31 }
    requires window { IsWindowOf (side_of K.CODE) engine.now had ahead.old.window }
    ensures { LooksAhead (side_of K.CODE) engine.now had ahead.new }
{
    let busy = busy_tick(engine, &ahead.window, had);
    ahead.want = want_ahead(engine, &ahead.window, busy);
    ahead.alone = is_alone(engine, &ahead.window, busy);
    ahead.busy = busy;
}

// Does what `look_ahead` does, in a call of its own.
#[inline(never)]
fn look_anew<K: Kind>(engine: &Engine<K>, ahead: &mut Ahead, had: u64)
    requires index { engine.now.index < 16 }
    requires epoch { engine.now.state.epoch ≤ had }
    requires had { had ≤ 2 ^ 31 }
    requires window { IsWindowOf (side_of K.CODE) engine.now had ahead.old.window }
    ensures { LooksAhead (side_of K.CODE) engine.now had ahead.new }
{
    look_ahead(engine, ahead, had);
}

// The tick of what is said next in a window below the sync slot in which no frame begins, or the
// window's last tick if nothing is said.
#[inline(always)]
fn word_or_end<K: Kind>(engine: &Engine<K>, window: &Window, had: u64, last: u64) -> Busy
    requires index { engine.now.index < 16 }
    requires epoch { engine.now.state.epoch < had }
    requires had { had ≤ 2 ^ 31 }
    requires window { IsWindowOf (side_of K.CODE) engine.now had window.now }
    requires last { IsExactUntil (side_of K.CODE) engine.now window.now last }
    ensures next { IsNextBusy (side_of K.CODE) engine.now had result.tick }
    ensures stage { SaysIn (side_of K.CODE) engine.now window.now.slot result.tick result.stage }
    ensures alone { (result.stage == 0) ≡ is_alone (side_of K.CODE) engine.now window.now result }
{
    bounds(engine);
    sooner_word(
        Busy {
            tick: last,
            stage: 0,
        },
        had,
        engine,
        window,
    )
}

// Does what `look_ahead` does, once the first tick of the frame is over. Before the sync slot only
// what is said in the window, and its end, can be next. It is the short cut "look within a window"
// of docs/PERFORMANCE.md.
#[inline(always)]
pub(crate) fn look_on<K: Kind>(engine: &Engine<K>, ahead: &mut Ahead, had: u64)
    requires index { engine.now.index < 16 }
    requires epoch { engine.now.state.epoch < had }
    requires had { had ≤ 2 ^ 31 }
    requires window { IsWindowOf (side_of K.CODE) engine.now had ahead.old.window }
    ensures { LooksAhead (side_of K.CODE) engine.now had ahead.new }
{
    bounds(engine);
    let last = engine.epoch() + ahead.window.last;
    if ahead.window.slot >= engine.plan().shape().sync_slot()
        || last >= MOST_TICKS
        || engine.new_epoch().is_some()
    {
        look_anew(engine, ahead, had);
        return;
    }
    let busy = word_or_end(engine, &ahead.window, had, last);
    ahead.want = want_ahead(engine, &ahead.window, busy);
    ahead.alone = busy.stage == 0;
    ahead.busy = busy;
}

// What is ahead of a node in this window, as far as it has not been looked for.
pub(crate) fn not_looked(window: Window) -> Ahead
    ensures { result.window ≡ window }
{
    Ahead {
        busy: Busy { tick: 0, stage: 0 },
        window,
        want: Want::Nothing,
        alone: false,
    }
}
