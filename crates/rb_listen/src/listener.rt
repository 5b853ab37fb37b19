//! A passive listener.
ghost use Rattle.std.specs.Prelude.{◌≡◌, ◌+◌, ◌<◌, ◌≤◌, ◌^◌, None, IfSome, unwrap_or, if◌then◌else◌};
ghost use Rattle.rb_rules.specs.Core.{Core};
ghost use Rattle.rb_node.specs.Cores.{IsCore, IsSameNode};
ghost use Rattle.rb_listen.specs.Following.{follow_at};
ghost use Rattle.rb_listen.specs.Listeners.{IsListening, IsSameBus, had_at, passing_end};
ghost use Rattle.rb_listen.specs.Listening.{Listening, TellNothing, first_search, frame_of, had_by, hear, heed, heeds, next_heed, no_heed, told};
ghost use Rattle.rb_listen.specs.Listening.Listening.{Searching};
ghost use Rattle.rb_listen.specs.declared.listener.Stage.TheVariants as stage;

use crate::Follower;
use crate::heed::Heed;
use crate::lesson::First;
use crate::search::{Search, arrive, decision, first_search, in_time, search_on};
use rb_base::{Delivery, MOST_TICKS, NodeSet};
use rb_plan::Feasible;
use std::marker::Model;

/// What a listener does: it seeks or learns a frame, it has decided and waits for the first tick of
/// the first frame that it follows, or it follows.
#[derive(Clone, Copy)]
pub enum Stage {
    Searching,
    Waiting(First),
    Following,
}

/// A passive listener: a device that hears what the RMUs send to one BIU, and sends nothing. It
/// starts at any time and knows nothing but the plan of the bus. First it seeks the frame that the
/// bus is in, by the calls to resynchronize of most RMUs; then it learns one whole frame, and from
/// that frame whom the bus trusts and when the next frame begins; then it follows the bus, as a BIU
/// without a number that says nothing. Ticks are those of the listener's own clock.
#[derive(Drop)]
pub struct Listener {
    plan: Feasible,
    stage: Stage,
    // What it heard before it decided. Its ticks are counted here until it follows.
    search: Search,
    // The follower with which the listener follows, once it does.
    follower: Follower,
}

impl Model for Listener {
    ghost use Rattle.rb_listen.specs.Listeners.{Hearer, IsSound};

    ghost Value = { Hearer };

    ghost view = { λ l. record {
      sizes = l.plan.sizes;
      plan = l.plan.plan;
      stage = l.stage;
      search = l.search;
      follower = l.follower;
    } };

    ghost invariant = { λ l. IsSound l.plan.sizes l.plan.plan l.stage l.search l.follower };
}

// What a listener tells if it has nothing to tell.
fn no_heed() -> Heed
    ensures { result ≡ no_heed }
{
    Heed {
        epoch: None,
        delivered: None,
    }
}

// What is delivered in the window, if one was closed.
fn delivered_in(closed: bool, follower: &Follower) -> Option<Delivery>
    ensures { result ≡ (if closed then follower.now.shown.delivered else None) }
{
    if closed {
        follower.shown().delivered()
    } else {
        None
    }
}

// A tick of a listener that follows.
fn follow(follower: &mut Follower) -> Heed
    ensures core { (c : Core) → IsCore follower.old c
        → IsCore follower.new (follow_at follower.old c).core }
    ensures heed { (c : Core) → IsCore follower.old c → result ≡ told (follow_at follower.old c) }
    ensures same { IsSameNode follower.old follower.new }
{
    let step = follower.step();
    Heed {
        epoch: step.epoch,
        delivered: delivered_in(step.closed, follower),
    }
}

impl Listener {
    /// A listener of the plan's bus before its first tick. It seeks.
    pub fn new(plan: &Feasible) -> Listener
        ensures stands { IsListening result (Searching first_search) }
        ensures sizes { result.sizes ≡ plan.now.sizes }
        ensures plan { result.plan ≡ plan.now.plan }
    {
        Listener {
            plan: *plan,
            stage: Stage::Searching,
            search: first_search(),
            follower: Follower::new(plan, 0, 0, NodeSet::empty(), NodeSet::empty()),
        }
    }

    /// The number of the frame that the listener follows. None exactly while it seeks or learns or
    /// waits for its first epoch.
    pub fn frame(&self) -> Option<u32>
        ensures { (l : Listening) → IsListening self.now l → result ≡ frame_of l }
    {
        match self.stage {
            Stage::Searching => None,
            Stage::Waiting(_) => None,
            Stage::Following => Some(self.follower.frame()),
        }
    }

    /// How many ticks the listener has had, which is the number of its next tick. It stands for
    /// some listener of the definitions, whatever came.
    pub fn had(&self) -> u64
        ensures value { result ≡ had_at self.now }
        ensures had { (l : Listening) → IsListening self.now l → result ≡ had_by l }
        ensures most { result ≤ 2 ^ 31 }
        ensures stands { (l : Listening) × IsListening self.now l }
    {
        let followed = self.follower.had();
        match self.stage {
            Stage::Searching => self.search.had,
            Stage::Waiting(_) => self.search.had,
            Stage::Following => followed,
        }
    }

    /// The number of the first tick from the next on that is not quiet: the listener decides at it,
    /// or a frame begins with it, or it closes a window. `None` if and only if that number would
    /// not be below 2^31. It is kept at hand.
    pub fn next_tick(&self) -> Option<u64>
        ensures next { (l : Listening) → IsListening self.now l
            → result ≡ next_heed self.now.sizes self.now.plan l }
        ensures passing { passing_end self.now ≡ unwrap_or result (2 ^ 31) }
        ensures later { IfSome result (λ k. had_at self.now ≤ k) }
        ensures below { IfSome result (λ k. k < 2 ^ 31) }
    {
        match self.stage {
            Stage::Searching => in_time(decision(&self.search)),
            Stage::Waiting(first) => in_time(Some(first.epoch)),
            Stage::Following => self.follower.next_tick(),
        }
    }

    /// A message comes, or other bytes: any number of any bytes, with the number of their source
    /// among the RMUs. While the listener seeks and learns they count by what they say, whenever
    /// they come; between its decision and its first epoch they are dropped; then they are stamped
    /// with the number of the next tick, as at a node. A number that no RMU has changes nothing,
    /// and a listener that has had 2^31 ticks does not change.
    pub fn arrive(&mut self, from: u8, bytes: &[u8])
        ensures stands { (l : Listening) → IsListening self.old l
            → IsListening self.new (hear self.old.sizes self.old.plan from bytes.now l) }
        ensures had { had_at self.new ≡ had_at self.old }
        ensures same { IsSameBus self.old self.new }
    {
        match self.stage {
            Stage::Searching => arrive(&mut self.search, &self.plan, from, bytes),
            Stage::Waiting(_) => {}
            Stage::Following => self.follower.arrive(from, bytes),
        }
    }

    // A tick while the listener seeks or learns.
    fn seek(&mut self) -> Heed
        requires { self.old.stage ≡ stage.Searching }
        ensures stands { (l : Listening) → IsListening self.old l
            → IsListening self.new (heed self.old.sizes self.old.plan l).listening }
        ensures heed { (l : Listening) → IsListening self.old l
            → result ≡ (heed self.old.sizes self.old.plan l).heed }
        ensures same { IsSameBus self.old self.new }
    {
        if self.search.had >= MOST_TICKS {
            return no_heed();
        }
        self.stage = search_on(&mut self.search, &self.plan);
        no_heed()
    }

    // A tick while the listener waits for its first frame.
    fn wait(&mut self, first: First) -> Heed
        requires { self.old.stage ≡ stage.Waiting first }
        ensures stands { (l : Listening) → IsListening self.old l
            → IsListening self.new (heed self.old.sizes self.old.plan l).listening }
        ensures heed { (l : Listening) → IsListening self.old l
            → result ≡ (heed self.old.sizes self.old.plan l).heed }
        ensures same { IsSameBus self.old self.new }
    {
        if self.search.had >= MOST_TICKS {
            return no_heed();
        }
        if first.epoch == self.search.had {
            self.follower = Follower::new(
                &self.plan,
                first.frame,
                first.epoch,
                first.bius,
                first.rmus,
            );
            self.stage = Stage::Following;
            follow(&mut self.follower)
        } else {
            self.search.had += 1;
            no_heed()
        }
    }

    /// A tick of the listener's clock. While it learns it decides at the tick that a pass fixed: it
    /// waits for the first frame after the one that it learned, or learns the next if none can be
    /// known. With its first epoch it begins to follow. It tells of each frame that starts, and of
    /// what it delivers in the window that it closes. A listener that has had 2^31 ticks tells
    /// nothing and does not change.
    pub fn tick(&mut self) -> Heed
        ensures stands { (l : Listening) → IsListening self.old l
            → IsListening self.new (heed self.old.sizes self.old.plan l).listening }
        ensures heed { (l : Listening) → IsListening self.old l
            → result ≡ (heed self.old.sizes self.old.plan l).heed }
        ensures same { IsSameBus self.old self.new }
    {
        match self.stage {
            Stage::Searching => self.seek(),
            Stage::Waiting(first) => self.wait(first),
            Stage::Following => follow(&mut self.follower),
        }
    }

    /// Lets `ticks` quiet ticks pass at once: at most up to the tick that `next_tick` gives, which
    /// is not among them, and if it gives none, up to the last that a listener can have. It leaves
    /// what as many calls of `tick` leave, which tell nothing.
    pub fn pass(&mut self, ticks: u64)
        requires { had_at self.old + ticks ≤ passing_end self.old }
        ensures stands { (l : Listening) → IsListening self.old l
            → IsListening self.new (heeds self.old.sizes self.old.plan ticks l) }
        ensures quiet { (l : Listening) → IsListening self.old l
            → TellNothing self.old.sizes self.old.plan ticks l }
        ensures had { had_at self.new ≡ had_at self.old + ticks }
        ensures same { IsSameBus self.old self.new }
    {
        match self.stage {
            Stage::Searching => self.search.had += ticks,
            Stage::Waiting(_) => self.search.had += ticks,
            Stage::Following => self.follower.pass(ticks),
        }
    }
}
