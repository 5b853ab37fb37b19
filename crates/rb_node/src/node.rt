//! One node core.
ghost use Rattle.std.specs.Prelude.{◌≡◌, ◌+◌, ◌<◌, ◌≤◌, ◌^◌, false, IfSome, option_map, unwrap_or};
ghost use Rattle.rb_base.specs.Nodes.{side_of};
ghost use Rattle.rb_rules.specs.Core.{Core, first_core, is_tick, pass_to};
ghost use Rattle.rb_rules.specs.NodeState.{first_state};
ghost use Rattle.rb_rules.specs.Slots.{count_of};
ghost use Rattle.rb_rules.specs.SyncStage.{new_epoch_of};
ghost use Rattle.rb_rules.specs.WorldStep.{span_from};
ghost use Rattle.rb_slot.specs.Engines.{nothing_shown};
ghost use Rattle.rb_node.specs.Acts.{IsAct, IsSendable, IsWholeAct, span_in};
ghost use Rattle.rb_node.specs.Alone.{EndsWindow, TellsExactEnd};
ghost use Rattle.rb_node.specs.Cores.{IsCore, IsSameNode, Running, arrive_of, next_of, passing_end, tick_of, ticks_of};
ghost use Rattle.rb_node.specs.Events.{EventsComeInParts};
ghost use Rattle.rb_node.specs.Wants.{want_of, want_then};

use crate::act::{Act, Span, Step, Want};
use crate::ahead::{
    Ahead, bounds, following, go_on, is_tick, look_ahead, look_on, not_looked, window_of,
};
use crate::parts::{
    bytes_of, close_at, delivered_in, epoch_at, first_window, if_closed, nothing, others, say_at,
    span_at, turn_at,
};
use rb_base::{Kind, MOST_TICKS, NodeId};
use rb_eligible::Inbox;
use rb_frame::Spelling;
use rb_plan::Feasible;
use rb_rules::Message;
use rb_slot::{Engine, Shown};
use std::marker::Model;

/// One node of a bus, for both kinds by one code: its engine, the ticks that it has had, what came
/// since its last close, what it showed of the window that it closed last, and what is ahead of it.
/// Ticks are those of the node's own clock.
#[derive(Drop)]
pub struct Node<K: Kind> {
    engine: Engine<K>,
    had: u64,
    inbox: Inbox<K::Other>,
    shown: Shown,
    ahead: Ahead,
}

impl<K: Kind> Model for Node<K> {
    ghost use Rattle.rb_base.specs.Nodes.{side_of};
    ghost use Rattle.rb_node.specs.Aheads.{IsRunning};
    ghost use Rattle.rb_node.specs.Cores.{Running};

    ghost Value = { Running };

    ghost view = { λ n. record { seat = n.engine; had = n.had; inbox = n.inbox; shown = n.shown } };

    ghost invariant = { λ n. IsRunning (side_of K.CODE) n.engine n.had n.inbox n.ahead };
}

impl<K: Kind> Node<K> {
    /// A node of the plan's bus, of kind K with this number among those of its kind, before its
    /// first tick.
    pub fn new(plan: &Feasible, index: u8) -> Node<K>
        requires { index < count_of (side_of K.CODE) plan.now.sizes }
        ensures core { IsCore result (first_core plan.now.sizes (side_of K.CODE)) }
        ensures seat { result.seat ≡ record {
          sizes = plan.now.sizes;
          plan = plan.now.plan;
          index = index;
          state = first_state plan.now.sizes (side_of K.CODE);
        } }
        ensures shown { result.shown ≡ nothing_shown }
    {
        let engine = Engine::new(plan, index);
        bounds(&engine);
        let mut ahead = not_looked(window_of(&engine, 0));
        look_ahead(&engine, &mut ahead, 0);
        Node {
            engine,
            had: 0,
            inbox: Inbox::new(),
            shown: Shown::new(),
            ahead,
        }
    }

    /// How many ticks the node has had, which is the number of its next tick. A node stands for
    /// some core, whatever came.
    pub fn had(&self) -> u64
        ensures value { result ≡ self.now.had }
        ensures most { result ≤ 2 ^ 31 }
        ensures stands { (c : Core) × IsCore self.now c }
    {
        let _came = self.inbox.came();
        self.had
    }

    /// The node between windows: its frame and epoch, whom it trusts, the owners of the slots, the
    /// tick of its next epoch.
    pub fn engine(&self) -> &Engine<K>
        ensures { result.now ≡ self.now.seat }
    {
        &self.engine
    }

    /// What the node showed of the window that it closed last, the tail among them. Before its
    /// first close nothing is in it.
    pub fn shown(&self) -> &Shown
        ensures { result.now ≡ self.now.shown }
    {
        &self.shown
    }

    /// The tick with which the next frame begins. None exactly until the close in this frame that
    /// fixes it: at a BIU that of stage 2 of the sync slot, at an RMU that of stage 3.
    pub fn new_epoch(&self) -> Option<u64>
        ensures { result ≡ new_epoch_of self.now.seat.plan (side_of K.CODE) self.now.seat.state }
    {
        self.engine.new_epoch()
    }

    /// The number of the first tick from the next on that is not quiet: a frame begins with it, the
    /// node sends a message, or it closes a window. `None` if and only if that number would not be
    /// below 2^31. It is kept at hand.
    pub fn next_tick(&self) -> Option<u64>
        ensures core { (c : Core) → IsCore self.now c
            → result ≡ next_of (side_of K.CODE) self.now c }
        ensures passing { passing_end (side_of K.CODE) self.now ≡ unwrap_or result (2 ^ 31) }
        ensures later { IfSome result (λ k. self.now.had ≤ k) }
        ensures below { IfSome result (λ k. k < 2 ^ 31) }
    {
        if self.ahead.busy.tick < MOST_TICKS {
            Some(self.ahead.busy.tick)
        } else {
            None
        }
    }

    /// Whether its next tick that is not quiet is the last of a window of a slot before the sync
    /// slot, and no frame begins with it. That is usually known beforehand: this is the short cut
    /// "end known beforehand" of docs/PERFORMANCE.md.
    #[inline(always)]
    pub fn ends_exact_window(&self) -> bool
        ensures { TellsExactEnd (side_of K.CODE) self.now result }
    {
        if self.ahead.alone {
            return true;
        }
        let tick = self.ahead.busy.tick;
        self.ahead.window.slot < self.engine.plan().shape().sync_slot()
            && self.engine.epoch() + self.ahead.window.last == tick
            && !is_tick(self.engine.new_epoch(), tick)
    }

    /// What the node wants to be handed for its next tick.
    pub fn wants(&self) -> Want
        ensures { (c : Core) → IsCore self.now c → result ≡ want_of (side_of K.CODE) self.now c }
    {
        if self.had == self.ahead.busy.tick {
            self.ahead.want
        } else {
            Want::Nothing
        }
    }

    /// What it wants for its next tick that is not quiet, once the ticks before that have passed.
    /// Nothing if there is none.
    pub fn wants_then(&self) -> Want
        ensures { (c : Core) → IsCore self.now c
            → result ≡ want_then (side_of K.CODE) self.now c (next_of (side_of K.CODE) self.now c) }
    {
        self.ahead.want
    }

    /// The window that begins with the next tick. `None` if and only if none does. If a frame
    /// begins with that tick, it is the first window of that frame, which the node has not begun
    /// yet.
    pub fn entering(&self) -> Option<Span>
        ensures { option_map span_in result
            ≡ span_from self.now.seat.sizes self.now.seat.plan (side_of K.CODE) self.now.seat.state
            self.now.had }
    {
        let now = self.had;
        if is_tick(self.engine.new_epoch(), now) {
            span_at(
                self.engine.frame() + 1,
                now,
                &first_window(self.engine.plan()),
                now,
            )
        } else {
            span_at(
                self.engine.frame(),
                self.engine.epoch(),
                &self.ahead.window,
                now,
            )
        }
    }

    /// A message comes, or other bytes: any number of any bytes, with the number of their source
    /// among the nodes of the other kind. They are stamped with the number of the next tick. A
    /// number that no node has changes nothing, and a node that has had 2^31 ticks does not change.
    #[inline(always)]
    pub fn arrive(&mut self, from: u8, bytes: &[u8])
        ensures core { (c : Core) → IsCore self.old c
            → IsCore self.new (arrive_of (side_of K.CODE) self.old c from bytes.now) }
        ensures rest { self.new ≡ record self.old { inbox = self.new.inbox } }
        ensures spent { 2 ^ 31 ≤ self.old.had → self.new ≡ self.old }
    {
        if self.had >= MOST_TICKS {
            return;
        }
        if from >= others(K::CODE, self.engine.plan().shape()) {
            return;
        }
        if let Some(source) = NodeId::new(from) {
            self.inbox.take(source, self.had, bytes);
        }
    }

    /// Does what `arrive` does, with the bytes as numbers.
    #[inline(always)]
    pub fn hear(&mut self, from: u8, bytes: &Spelling)
        ensures core { (c : Core) → IsCore self.old c
            → IsCore self.new (arrive_of (side_of K.CODE) self.old c from bytes.now) }
        ensures rest { self.new ≡ record self.old { inbox = self.new.inbox } }
        ensures spent { 2 ^ 31 ≤ self.old.had → self.new ≡ self.old }
    {
        if self.had >= MOST_TICKS {
            return;
        }
        if from >= others(K::CODE, self.engine.plan().shape()) {
            return;
        }
        if let Some(source) = NodeId::new(from) {
            self.inbox.take_spelled(source, self.had, bytes);
        }
    }

    /// A tick of the node's clock, with the request or the word for the case that one is wanted;
    /// else the word counts for nothing. At the tick of its next epoch the node first turns to the
    /// next frame; then it says its message, if this is the tick of one; then it closes the window,
    /// if this is its last tick, on what came since the last close. What it saw is then `shown`. A
    /// node that has had 2^31 ticks gives nothing and does not change.
    #[inline(always)]
    pub fn step(&mut self, word: u32) -> Step
        ensures core { (c : Core) → IsCore self.old c
            → IsCore self.new (tick_of (side_of K.CODE) self.old c word).core }
        ensures act { (c : Core) → IsCore self.old c
            → IsAct self.new.shown result (tick_of (side_of K.CODE) self.old c word) }
        ensures shown { result.closed ≡ false → self.new.shown ≡ self.old.shown }
        ensures message { IfSome result.message IsSendable }
        ensures same { IsSameNode self.old self.new }
        ensures spent { 2 ^ 31 ≤ self.old.had → self.new ≡ self.old }
    {
        let now = self.had;
        if now >= MOST_TICKS {
            return nothing();
        }
        self.had = now + 1;
        if now < self.ahead.busy.tick {
            return nothing();
        }
        turn_at(&mut self.engine, &mut self.ahead, now);
        let epoch = epoch_at(&self.engine, now);
        let message = say_at(
            &mut self.engine,
            self.ahead.window.slot,
            self.ahead.busy.stage,
            now,
            word,
        );
        let closed = close_at(
            &mut self.engine,
            &mut self.inbox,
            &mut self.shown,
            &self.ahead.window,
            now,
        );
        bounds(&self.engine);
        go_on(&self.engine, &mut self.ahead.window, closed, self.had);
        look_on(&self.engine, &mut self.ahead, self.had);
        Step {
            epoch,
            message,
            closed,
        }
    }

    /// Does what `step` does, and returns the act as a whole: the message as bytes of the plan's
    /// version, 11 or 12, and what was seen of each source if a window was closed.
    pub fn tick(&mut self, word: u32) -> Act
        ensures core { (c : Core) → IsCore self.old c
            → IsCore self.new (tick_of (side_of K.CODE) self.old c word).core }
        ensures act { (c : Core) → IsCore self.old c
            → IsWholeAct self.old.seat.plan.version result
            (tick_of (side_of K.CODE) self.old c word) }
        ensures shown { self.new.shown ≡ unwrap_or result.closed self.old.shown }
        ensures same { IsSameNode self.old self.new }
        ensures spent { 2 ^ 31 ≤ self.old.had → self.new ≡ self.old }
    {
        let version = self.engine.plan().plan().version;
        let step = self.step(word);
        let closed = if_closed(step.closed, &self.shown);
        Act {
            send: bytes_of(version, step.message),
            delivered: delivered_in(&closed),
            closed,
            epoch: step.epoch,
        }
    }

    /// If all that happens at its next tick that is not quiet is that a window of a slot before the
    /// sync slot ends, the node has its quiet ticks and then that tick, and the result is true: it
    /// says nothing, no frame begins, and what it saw is then `shown`. Else nothing changes.
    #[inline(always)]
    pub fn end_window(&mut self) -> bool
        ensures { EndsWindow (side_of K.CODE) self.old self.new result }
    {
        if !self.ahead.alone {
            return false;
        }
        bounds(&self.engine);
        let _came = self.inbox.came();
        self.had = self.ahead.busy.tick + 1;
        self.engine
            .close_into(&self.inbox, &self.ahead.window, &mut self.shown);
        self.inbox.clear();
        self.ahead.window = following(self.engine.plan().plan(), &self.ahead.window);
        look_on(&self.engine, &mut self.ahead, self.had);
        true
    }

    /// Lets `ticks` quiet ticks pass at once: at most up to the tick that `next_tick` gives, which
    /// is not among them, and if it gives none, up to the last that a node can have. It leaves what
    /// as many calls of `tick` leave, which give nothing.
    pub fn pass(&mut self, ticks: u64)
        requires { self.old.had + ticks ≤ passing_end (side_of K.CODE) self.old }
        ensures value { self.new ≡ record self.old { had = self.old.had + ticks } }
        ensures core { (c : Core) → IsCore self.old c
            → IsCore self.new (ticks_of (side_of K.CODE) self.old ticks c) }
        ensures counted { (c : Core) → IsCore self.old c
            → IsCore self.new (pass_to (self.old.had + ticks) c) }
    {
        self.had += ticks;
    }
}

/// A list of events may be given to a node in parts: what the core is after them, and their acts,
/// do not depend on where the list is cut, and each tick that passes is an event with word 0.
/// Whoever feeds a node one event after another has, after each, the core after all of them, and
/// their acts.
pub fn events_come_in_parts()
    ensures { EventsComeInParts }
{}
