//! A listener that follows the bus.
ghost use Rattle.std.specs.Prelude.{ℕ, ◌≡◌, ◌+◌, ◌<◌, ◌≤◌, ◌^◌, false, IfSome, unwrap_or};
ghost use Rattle.rb_rules.specs.Core.{Core, pass_to};
ghost use Rattle.rb_slot.specs.Engines.{nothing_shown};
ghost use Rattle.rb_node.specs.Acts.{IsAct};
ghost use Rattle.rb_node.specs.Cores.{IsCore, IsSameNode};
ghost use Rattle.rb_listen.specs.Following.{arrive_at, core_from, follow_at, follows_at, next_wake_at, passing_end};
ghost use Rattle.rb_listen.specs.Waking.{wakes_at};

use crate::ahead::{Ahead, look_ahead};
use crate::parts::turn_at;
use rb_base::{Biu, MOST_TICKS, NodeId, NodeSet, Rmu};
use rb_eligible::Inbox;
use rb_node::Step;
use rb_node::ahead::bounds;
use rb_node::parts::{close_at, epoch_at, nothing};
use rb_plan::Feasible;
use rb_slot::{Engine, Shown};
use std::marker::Model;

/// A passive listener that follows the bus, as a BIU without a number that says nothing: its
/// passive engine, the ticks that it has had, what came since its last close, what it showed of the
/// window that it closed last, and what is ahead of it. Ticks are those of the listener's own
/// clock.
#[derive(Drop)]
pub struct Follower {
    engine: Engine<Biu>,
    had: u64,
    inbox: Inbox<Rmu>,
    shown: Shown,
    ahead: Ahead,
}

impl Model for Follower {
    ghost use Rattle.rb_node.specs.Cores.{Running};
    ghost use Rattle.rb_listen.specs.Waking.{IsFollowing};

    ghost Value = { Running };

    ghost view = { λ f. record { seat = f.engine; had = f.had; inbox = f.inbox; shown = f.shown } };

    ghost invariant = { λ f. IsFollowing f.engine f.had f.inbox f.ahead };
}

impl Follower {
    /// A listener of the plan's bus that follows from this tick on, with which this frame begins:
    /// it trusts these nodes and accuses nobody, and nothing came. The frame's number is below
    /// 65536 and the tick below 2^31.
    pub fn new(
        plan: &Feasible,
        frame: u32,
        epoch: u64,
        bius: NodeSet<Biu>,
        rmus: NodeSet<Rmu>,
    ) -> Follower
        requires frame { frame < 65536 }
        requires epoch { epoch < 2 ^ 31 }
        ensures core { IsCore result (core_from plan.now.sizes frame epoch bius rmus) }
        ensures sizes { result.seat.sizes ≡ plan.now.sizes }
        ensures plan { result.seat.plan ≡ plan.now.plan }
        ensures had { result.had ≡ epoch }
        ensures shown { result.shown ≡ nothing_shown }
    {
        let engine = Engine::passive(plan, frame, epoch, bius, rmus);
        let ahead = look_ahead(&engine, epoch);
        Follower {
            engine,
            had: epoch,
            inbox: Inbox::new(),
            shown: Shown::new(),
            ahead,
        }
    }

    /// How many ticks the listener has had, which is the number of its next tick. It stands for
    /// some core, whatever came.
    pub fn had(&self) -> u64
        ensures value { result ≡ self.now.had }
        ensures most { result ≤ 2 ^ 31 }
        ensures stands { (c : Core) × IsCore self.now c }
    {
        let _came = self.inbox.came();
        self.had
    }

    /// The number of the current frame.
    pub fn frame(&self) -> u32
        ensures { result ≡ self.now.seat.state.frame }
    {
        self.engine.frame()
    }

    /// What the listener showed of the window that it closed last, the tail among them. Before its
    /// first close nothing is in it.
    pub fn shown(&self) -> &Shown
        ensures { result.now ≡ self.now.shown }
    {
        &self.shown
    }

    /// The number of the first tick from the next on that is not quiet: a frame begins with it, or
    /// the listener closes a window. `None` if and only if that number would not be below 2^31. It
    /// is kept at hand.
    pub fn next_tick(&self) -> Option<u64>
        ensures core { (c : Core) → IsCore self.now c → result ≡ next_wake_at self.now c }
        ensures passing { passing_end self.now ≡ unwrap_or result (2 ^ 31) }
        ensures later { IfSome result (λ k. self.now.had ≤ k) }
        ensures below { IfSome result (λ k. k < 2 ^ 31) }
    {
        if self.ahead.tick < MOST_TICKS {
            Some(self.ahead.tick)
        } else {
            None
        }
    }

    /// A message comes, or other bytes: any number of any bytes, with the number of their source
    /// among the RMUs. They are stamped with the number of the next tick. A number that no RMU has
    /// changes nothing, and a listener that has had 2^31 ticks does not change.
    pub fn arrive(&mut self, from: u8, bytes: &[u8])
        ensures core { (c : Core) → IsCore self.old c
            → IsCore self.new (arrive_at self.old c from bytes.now) }
        ensures rest { self.new ≡ record self.old { inbox = self.new.inbox } }
        ensures spent { 2 ^ 31 ≤ self.old.had → self.new ≡ self.old }
    {
        if self.had >= MOST_TICKS {
            return;
        }
        if from >= self.engine.plan().shape().rmu() {
            return;
        }
        if let Some(source) = NodeId::new(from) {
            self.inbox.take(source, self.had, bytes);
        }
    }

    /// A tick of the listener's clock. At the tick of its next epoch it first turns to the next
    /// frame; then it closes the window, if this is its last tick, on what came since the last
    /// close. What it saw is then `shown`. It never sends a message. A listener that has had 2^31
    /// ticks gives nothing and does not change.
    pub fn step(&mut self) -> Step
        ensures core { (c : Core) → IsCore self.old c
            → IsCore self.new (follow_at self.old c).core }
        ensures act { (c : Core) → IsCore self.old c
            → IsAct self.new.shown result (follow_at self.old c) }
        ensures shown { result.closed ≡ false → self.new.shown ≡ self.old.shown }
        ensures same { IsSameNode self.old self.new }
        ensures spent { 2 ^ 31 ≤ self.old.had → self.new ≡ self.old }
        ensures counted { self.old.had < 2 ^ 31 → self.new.had ≡ self.old.had + 1 }
    {
        let now = self.had;
        if now >= MOST_TICKS {
            return nothing();
        }
        self.had = now + 1;
        if now < self.ahead.tick {
            return nothing();
        }
        let here = turn_at(&mut self.engine, &self.ahead.window, now);
        bounds(&self.engine);
        let _came = self.inbox.came();
        let epoch = epoch_at(&self.engine, now);
        let closed = close_at(
            &mut self.engine,
            &mut self.inbox,
            &mut self.shown,
            &here,
            now,
        );
        self.ahead = look_ahead(&self.engine, self.had);
        Step {
            epoch,
            message: None,
            closed,
        }
    }

    /// Lets `ticks` quiet ticks pass at once: at most up to the tick that `next_tick` gives, which
    /// is not among them, and if it gives none, up to the last that a listener can have. It leaves
    /// what as many calls of `step` leave, which give nothing.
    pub fn pass(&mut self, ticks: u64)
        requires { self.old.had + ticks ≤ passing_end self.old }
        ensures value { self.new ≡ record self.old { had = self.old.had + ticks } }
        ensures core { (c : Core) → IsCore self.old c
            → IsCore self.new (follows_at self.old ticks c) }
        ensures counted { (c : Core) → IsCore self.old c
            → IsCore self.new (pass_to (self.old.had + ticks) c) }
        ensures quiet { (k : ℕ) → self.old.had ≤ k → k < self.old.had + ticks
            → wakes_at self.old.seat k ≡ false }
        ensures most { self.old.had + ticks ≤ 2 ^ 31 }
    {
        self.had += ticks;
    }
}
