//! The parts of a tick, in their order.
ghost use Rattle.std.specs.Prelude.{◌≡◌, ◌+◌, ◌<◌, ◌≤◌, ◌^◌, false, Some, None, option_and_then, option_map, IfSome, if◌then◌else◌};
ghost use Rattle.rb_base.specs.Nodes.{other, side_of};
ghost use Rattle.rb_base.specs.Sizes.{sync_slot_of};
ghost use Rattle.rb_eligible.specs.Inboxes.{StampsUpTo};
ghost use Rattle.rb_rules.specs.Core.{epoch_at, state_kept};
ghost use Rattle.rb_rules.specs.declared.closing.Closed.{Closed};
ghost use Rattle.rb_rules.specs.Slots.{count_of};
ghost use Rattle.rb_rules.specs.Spelling.{spelling_of};
ghost use Rattle.rb_slot.specs.Closable.{IsOfFrame};
ghost use Rattle.rb_rules.specs.Windows.{window_at};
ghost use Rattle.rb_node.specs.Acts.{IsSendable, span_in};
ghost use Rattle.rb_node.specs.Aheads.{SaysIn, ShowsTick, seated_at};
ghost use Rattle.rb_node.specs.Closes.{ClosesAtLast};
ghost use Rattle.rb_node.specs.Saids.{said_in, span_if};

use crate::act::{Span, Step};
use crate::ahead::{Ahead, bounds, is_tick, window_of};
use arrayvec::ArrayVec;
use rb_base::{Delivery, Kind, NodeSet, Place, Shape};
use rb_eligible::Inbox;
use rb_frame::encode;
use rb_plan::{Feasible, Window};
use rb_rules::{Closed, Epoch, Message, Version};
use rb_slot::{Engine, Shown};

// The node turns, if this is the tick of its next epoch. Then the tick's window is the first of a
// frame, and nothing is said in it.
#[inline(always)]
pub(crate) fn turn_at<K: Kind>(engine: &mut Engine<K>, ahead: &mut Ahead, now: u64)
    requires now { now < 2 ^ 31 }
    requires frame { engine.old.state.frame < 2 ^ 31 }
    requires epoch { engine.old.state.epoch ≤ now }
    requires ahead { ShowsTick (side_of K.CODE) engine.old now ahead.old }
    ensures state { engine.new ≡ seated_at (side_of K.CODE) engine.old now }
    ensures ahead { ShowsTick (side_of K.CODE) engine.new now ahead.new }
{
    if is_tick(engine.new_epoch(), now) {
        engine.turn();
        bounds(engine);
        ahead.window = window_of(engine, now);
        ahead.busy.stage = 0;
    }
}

/// The frame, if it begins with this tick.
pub fn epoch_at<K: Kind>(engine: &Engine<K>, now: u64) -> Option<Epoch>
    ensures { result ≡ epoch_at engine.now.sizes (side_of K.CODE) engine.now.state now }
{
    if engine.epoch() != now {
        return None;
    }
    let shape = engine.plan().shape();
    Some(Epoch {
        frame: engine.frame(),
        tick: now,
        biu: NodeSet::first(shape.biu())
            .difference(engine.trusted_biu())
            .bits(),
        rmu: NodeSet::first(shape.rmu())
            .difference(engine.trusted_rmu())
            .bits(),
    })
}

// The node says its message of a stage of the slot, if this is the tick of one; else the stage is
// 0.
#[inline(always)]
pub(crate) fn say_at<K: Kind>(
    engine: &mut Engine<K>,
    slot: u16,
    stage: u8,
    now: u64,
    word: u32,
) -> Option<Message>
    requires index { engine.old.index < 16 }
    requires slot { slot ≤ sync_slot_of engine.old.sizes }
    requires stage { SaysIn (side_of K.CODE) engine.old slot now stage }
    ensures message { result ≡ said_in (side_of K.CODE) engine.old slot now word }
    ensures keeps { engine.new ≡ record engine.old {
      state = state_kept engine.old.sizes (side_of K.CODE) engine.old.index engine.old.state word
          result;
    } }
    ensures sendable { IfSome result IsSendable }
{
    if stage == 0 {
        None
    } else {
        engine.outgoing(slot, stage, word)
    }
}

/// The node closes the window, if this is its last tick.
#[inline(always)]
pub fn close_at<K: Kind>(
    engine: &mut Engine<K>,
    inbox: &mut Inbox<K::Other>,
    shown: &mut Shown,
    window: &Window,
    now: u64,
) -> bool
    requires window { IsOfFrame engine.old.sizes engine.old.plan window.now }
    requires fits { engine.old.state.epoch + window.now.last < 2 ^ 64 }
    requires stamps { StampsUpTo (2 ^ 32) inbox.old }
    ensures { ClosesAtLast (side_of K.CODE) window.now
        (record { seat = engine.old; had = now; inbox = inbox.old; shown = shown.old }) result
        (record { seat = engine.new; had = now; inbox = inbox.new; shown = shown.new }) }
{
    let _came = inbox.came();
    if now != engine.epoch() + window.last {
        return false;
    }
    engine.close_into(inbox, window, shown);
    inbox.clear();
    true
}

/// A step in which nothing happens.
pub fn nothing() -> Step
    ensures { result ≡ record { epoch = None; message = None; closed = false } }
{
    Step {
        epoch: None,
        message: None,
        closed: false,
    }
}

// How many nodes there are of the kind other than the one with this code.
pub(crate) fn others(code: u8, shape: &Shape) -> u8
    ensures value { result ≡ count_of (other (side_of code)) shape.now }
    ensures most { result ≤ 16 }
{
    if code == 0 { shape.rmu() } else { shape.biu() }
}

// The first window of a frame.
pub(crate) fn first_window(plan: &Feasible) -> Window
    ensures value { window_at plan.now.sizes plan.now.plan 0 ≡ Some result }
    ensures first { result.first ≡ 0 }
    ensures last { result.last ≤ 1000 }
{
    Window {
        slot: 0,
        stage: 1,
        first: 0,
        last: u64::from(plan.plan().l) - 1,
    }
}

// The window of a frame with this first tick, if the window begins now.
pub(crate) fn span_at(frame: u32, epoch: u64, window: &Window, now: u64) -> Option<Span>
    requires first { epoch + window.now.first < 2 ^ 64 }
    requires last { epoch + window.now.last < 2 ^ 64 }
    ensures { option_map span_in result ≡ span_if frame epoch window.now now }
{
    if epoch + window.first == now {
        Some(Span {
            place: Place {
                frame,
                slot: window.slot,
                stage: window.stage,
            },
            first: now,
            last: epoch + window.last,
        })
    } else {
        None
    }
}

// What is shown, if a window was closed.
pub(crate) fn if_closed(closed: bool, shown: &Shown) -> Option<Closed>
    ensures { result ≡ (if closed then Some shown.now else None) }
{
    if closed { Some(shown.closed()) } else { None }
}

// What is delivered in it.
pub(crate) fn delivered_in(closed: &Option<Closed>) -> Option<Delivery>
    ensures { result ≡ option_and_then (λ (c : Closed). c.delivered) closed.now }
{
    match closed {
        Some(closed) => closed.delivered,
        None => None,
    }
}

// A message as bytes.
pub(crate) fn bytes_of(version: Version, message: Option<Message>) -> Option<ArrayVec<u8, 12>>
    requires { IfSome message IsSendable }
    ensures { option_map (λ bytes. bytes.items) result ≡ option_map (spelling_of version) message }
{
    match message {
        Some(message) => Some(encode(version, &message)),
        None => None,
    }
}
