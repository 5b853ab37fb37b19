//! One node of a world.
ghost use Rattle.std.specs.Prelude.{◌≡◌, ◌^◌, ◌<◌, ◌≤◌, false, is_some, max, IfSome, IsTrue, option_map, slice_set};
ghost use Rattle.rb_base.specs.Nodes.{side_of};
ghost use Rattle.rb_rules.specs.Clock.{ComesBy};
ghost use Rattle.rb_rules.specs.Core.{Core, pass_to, tick};
ghost use Rattle.rb_rules.specs.Links.{name_of};
ghost use Rattle.rb_rules.specs.Goodness.{Scenario};
ghost use Rattle.rb_rules.specs.Slots.{count_of};
ghost use Rattle.rb_rules.specs.WorldStep.{Site as WorldSite, fresh_site, span_from, stop};
ghost use Rattle.rb_node.specs.Acts.{IsSendable, span_in};
ghost use Rattle.rb_node.specs.Cores.{IsCore, IsSameNode, passing_end};
ghost use Rattle.rb_slot.specs.Engines.{nothing_shown};
ghost use Rattle.rb_world.specs.Sites.{IsSameSite, IsSource, KeptSite, Stands, number_of};
ghost use Rattle.rb_world.specs.Tells.{ClosesNext, EndsNext, HasComeBy, HasTakenIn, IfEndsNext, OnlyHears, TakesTickWith};

use rb_base::{Kind, NodeName};
use rb_clock::Clock;
use rb_frame::Spelling;
use rb_node::{Epoch, Node, Span, Step, Want};
use rb_plan::Feasible;
use rb_rules::{Message, NodeLine};
use std::marker::Model;

/// One node of a world, for both kinds by one code: its core, whether it runs, and for each source
/// the reference time of what came from it last, a message or other bytes. If exactly one thing
/// came from a source since the last close, that is its time.
#[derive(Drop)]
pub struct Site<K: Kind> {
    node: Node<K>,
    runs: bool,
    times: [u64; 16],
}

impl<K: Kind> Model for Site<K> {
    ghost use Rattle.std.specs.Prelude.{◌≡◌, length};
    ghost use Rattle.rb_world.specs.Sites.{KeptSite};

    ghost Value = { KeptSite };

    ghost view = { λ s. record { node = s.node; runs = s.runs; times = s.times } };

    ghost invariant = { λ s. length s.times ≡ 16 };
}

// The quiet ticks before tick k pass.
fn pass_to<K: Kind>(node: &mut Node<K>, k: u64)
    requires { k ≤ passing_end (side_of K.CODE) node.old }
    ensures core { (c : Core) → IsCore node.old c → IsCore node.new (pass_to k c) }
    ensures rest { node.new ≡ record node.old { had = max node.old.had k } }
    ensures stands { (c : Core) × IsCore node.new c }
{
    let had = node.had();
    if had < k {
        node.pass(k - had);
    }
}

// Keeps the time of what came from a source last. No other number is that of a source.
fn keep_time(times: &mut [u64; 16], from: u8, time: u64)
    ensures { times.new ≡ slice_set times.old from time }
{
    if from < 16 {
        times[usize::from(from)] = time;
    }
}

// The node of a kind, by the kind's code, with this number.
fn name_of(code: u8, number: u8) -> NodeName
    ensures { result ≡ name_of (side_of code) number }
{
    if code == 0 {
        NodeName::Biu(number)
    } else {
        NodeName::Rmu(number)
    }
}

impl<K: Kind> Site<K> {
    /// A node of the plan's bus, of kind K with this number among those of its kind, which runs.
    /// Nothing has come to it.
    pub fn new(plan: &Feasible, index: u8) -> Site<K>
        requires { index < count_of (side_of K.CODE) plan.now.sizes }
        ensures stands { (sc : Scenario) → plan.now.sizes ≡ sc.sizes → plan.now.plan ≡ sc.plan
            → Stands sc (side_of K.CODE) result (fresh_site sc.sizes (side_of K.CODE)) }
        ensures number { number_of result ≡ index }
        ensures shown { result.node.shown ≡ nothing_shown }
    {
        Site {
            node: Node::new(plan, index),
            runs: true,
            times: [0; 16],
        }
    }

    /// The node: its next tick and what it wants for it, its engine, and what it showed of the
    /// window that it closed last.
    pub fn node(&self) -> &Node<K>
        ensures { result.now ≡ self.now.node }
    {
        &self.node
    }

    /// For each source the reference time of what came from it last, a message or other bytes.
    pub fn times(&self) -> &[u64; 16]
        ensures { result.now ≡ self.now.times }
    {
        &self.times
    }

    /// The node by its kind and number.
    pub fn name(&self) -> NodeName
        ensures { result ≡ name_of (side_of K.CODE) (number_of self.now) }
    {
        name_of(K::CODE, self.node.engine().index())
    }

    /// The window that begins with the node's next tick. `None` if and only if none does.
    pub fn entering(&self) -> Option<Span>
        ensures { (sc : Scenario) (s : WorldSite) → Stands sc (side_of K.CODE) self.now s
            → option_map span_in result
            ≡ span_from sc.sizes sc.plan (side_of K.CODE) s.core.state s.core.had }
    {
        self.node.entering()
    }

    /// The node is not good any more, and stops.
    pub fn stop(&mut self)
        ensures stands { (sc : Scenario) (s : WorldSite) → Stands sc (side_of K.CODE) self.old s
            → Stands sc (side_of K.CODE) self.new (stop s) }
        ensures rest { self.new ≡ record self.old { runs = false } }
    {
        self.runs = false;
    }

    /// A message or other bytes come to the node from a source at a reference time, no later than
    /// its next busy tick, by the node's clock. The quiet ticks before its stamp pass.
    #[inline(always)]
    pub fn arrive(&mut self, clock: &Clock, time: u64, from: u8, bytes: &Spelling)
        requires in_time { ComesBy (passing_end (side_of K.CODE) self.old.node) clock.now time }
        requires source { IsSource (side_of K.CODE) self.old from }
        ensures stands { HasComeBy (side_of K.CODE) clock.now
            (record { time = time; from = from; bytes = bytes.now }) self.old self.new }
        ensures rest { OnlyHears from time self.old self.new }
        ensures same { IsSameNode self.old.node self.new.node }
    {
        let stamp = clock.first_at(time);
        pass_to(&mut self.node, stamp);
        self.take_in(time, from, bytes);
    }

    /// A message or other bytes come to the node from a source at a reference time, and no tick
    /// passes before them: they have the stamp of its next tick, and not their own. It is for a
    /// node whose next busy tick depends on no stamp.
    #[inline(always)]
    pub fn take_in(&mut self, time: u64, from: u8, bytes: &Spelling)
        requires source { IsSource (side_of K.CODE) self.old from }
        ensures stands { HasTakenIn (side_of K.CODE)
            (record { time = time; from = from; bytes = bytes.now }) self.old self.new }
        ensures rest { self.new ≡ record self.old {
          node = record self.old.node { inbox = self.new.node.inbox };
          times = slice_set self.old.times from time;
        } }
        ensures same { IsSameNode self.old.node self.new.node }
    {
        self.node.hear(from, bytes);
        keep_time(&mut self.times, from, time);
    }

    /// Tick k of the node's clock, at the latest its next busy one, with the word that it wants for
    /// it. The quiet ticks before it pass. What the node then shows of a stage, with `times` in
    /// place of stamps, is what it tells of it.
    pub fn tick(&mut self, k: u64, word: u32) -> Step
        requires { k ≤ passing_end (side_of K.CODE) self.old.node }
        ensures ticked { TakesTickWith (side_of K.CODE) k word self.old self.new result }
        ensures shown { result.closed ≡ false → self.new.node.shown ≡ self.old.node.shown }
        ensures message { IfSome result.message IsSendable }
        ensures epoch { IfSome result.epoch (λ e. e.tick < 2 ^ 31) }
        ensures same { IsSameSite self.old self.new }
    {
        pass_to(&mut self.node, k);
        self.node.step(word)
    }

    /// If all that happens at the node's next busy tick is that a window of a slot before the sync
    /// slot ends, the node has that tick, and the result is true: it sends nothing and begins no
    /// frame. The quiet ticks before it pass. What the node then shows of the stage, with `times`
    /// in place of stamps, is what it tells of it. Else nothing changes.
    #[inline(always)]
    pub fn end_window(&mut self) -> bool
        ensures ticked { IsTrue result → ClosesNext (side_of K.CODE) self.old self.new }
        ensures only { IsTrue result → EndsNext (side_of K.CODE) self.old }
        ensures otherwise { IfEndsNext (side_of K.CODE) self.old (IsTrue result) }
        ensures stays { result ≡ false → self.new ≡ self.old }
        ensures same { IsSameSite self.old self.new }
    {
        self.node.end_window()
    }
}
