//! A listener while it seeks and learns.
ghost use Rattle.std.specs.Prelude.{◌≡◌, ◌<◌, ◌≤◌, ◌^◌, ◌&&◌, ◌==◌, nat_lt};
ghost use Rattle.rb_listen.specs.Lessons.{first_of, frame_after};
ghost use Rattle.rb_listen.specs.Listeners.{ComesTo, IsAhead};
ghost use Rattle.rb_listen.specs.Listening.{decided, decision_of, first_search, if_after, in_time, is_deciding, later, learning, newest_with, passing, recorded, search_on, searching, timed, with_message, with_pass};
ghost use Rattle.rb_listen.specs.Stamps.{AreSoon};

use crate::lesson::{First, Lesson, begin, first_of, frame_after, note, nothing_recorded};
use crate::listener::Stage;
use crate::passes::{Call, is_call, pass_of, reach};
use rb_base::{MOST_TICKS, Shape};
use rb_frame::decode;
use rb_plan::Feasible;
use rb_rules::Message;

/// What a listener heard while it seeks and learns: how many ticks it has had, the newest call of
/// each RMU, and what is recorded of the frame that it learns. If it seeks, and learns none, the
/// lesson says nothing.
#[derive(Drop)]
pub struct Search {
    pub had: u64,
    pub newest: [Option<Call>; 16],
    pub learns: bool,
    pub lesson: Lesson,
}

/// A search that has heard nothing.
#[tactic(auto, unfolding(crate::specs::Listening::first_search))]
pub(crate) fn first_search() -> Search
    ensures { result ≡ first_search }
{
    Search {
        had: 0,
        newest: [None; 16],
        learns: false,
        lesson: Lesson {
            frame: 0,
            decides: None,
            records: nothing_recorded(),
        },
    }
}

// The listener begins to learn the frame.
fn learn(search: &mut Search, frame: u16)
    ensures { search.new ≡ learning frame search.old }
{
    search.learns = true;
    begin(&mut search.lesson, frame);
}

// The tick at which the listener decides by the lesson, unless it is fixed already.
fn time(lesson: &mut Lesson, tick: u64)
    ensures { lesson.new ≡ timed tick lesson.old }
{
    match lesson.decides {
        Some(_) => {}
        None => lesson.decides = Some(tick),
    }
}

// Whether the frame is the one that is learned.
fn learns_frame(search: &Search, frame: u16) -> bool
    ensures { result ≡ (search.now.learns && (frame == search.now.lesson.frame)) }
{
    search.learns && frame == search.lesson.frame
}

// There is a pass for the frame.
fn pass(search: &mut Search, plan: &Feasible, frame: u16)
    requires { search.old.had ≤ 2 ^ 31 }
    ensures { search.new ≡ with_pass plan.now.plan frame search.old }
{
    let after = frame_after(frame);
    if learns_frame(search, frame) {
        let tick = search.had + reach(plan);
        time(&mut search.lesson, tick);
    } else if !learns_frame(search, after) {
        learn(search, after);
    }
}

// There may be a pass.
fn if_pass(search: &mut Search, plan: &Feasible)
    requires { search.old.had ≤ 2 ^ 31 }
    ensures { search.new ≡ passing plan.now.sizes plan.now.plan search.old }
{
    if let Some(frame) = pass_of(plan, &search.newest) {
        pass(search, plan, frame);
    }
}

// The newest call of RMU `j` is one of the frame.
fn call(search: &mut Search, j: u8, frame: u16)
    requires { j < 16 }
    ensures { search.new ≡ newest_with j frame search.old }
{
    search.newest[usize::from(j)] = Some(Call {
        frame,
        at: search.had,
    });
}

// A message of RMU `j` is recorded if a frame is learned.
fn record(search: &mut Search, shape: &Shape, j: u8, message: &Message)
    requires { j < 16 }
    ensures { search.new ≡ recorded shape.now j message.now search.old }
{
    if search.learns {
        note(&mut search.lesson, shape, j, search.had, message);
    }
}

// A message of RMU `j` comes.
#[tactic(auto, unfolding(crate::specs::Listening::with_message))]
fn hear(search: &mut Search, plan: &Feasible, j: u8, message: &Message)
    requires rmu { j < 16 }
    requires most { search.old.had ≤ 2 ^ 31 }
    ensures { search.new ≡ with_message plan.now.sizes plan.now.plan j message.now search.old }
{
    record(search, plan.shape(), j, message);
    if is_call(plan.shape(), message) {
        call(search, j, message.frame);
        if_pass(search, plan);
    }
}

/// Bytes come from RMU `from`, if there is one with that number.
pub(crate) fn arrive(search: &mut Search, plan: &Feasible, from: u8, bytes: &[u8])
    requires { search.old.had ≤ 2 ^ 31 }
    ensures { search.new ≡ searching plan.now.sizes plan.now.plan from bytes.now search.old }
{
    if from >= plan.shape().rmu() {
        return;
    }
    if search.had >= MOST_TICKS {
        return;
    }
    if let Some(message) = decode(plan.plan().version, bytes) {
        hear(search, plan, from, &message);
    }
}

// The frame after that of the lesson is learned, after a tick more.
fn learn_next(search: &mut Search)
    requires { search.old.had < 2 ^ 31 }
    ensures { search.new ≡ learning (frame_after search.old.lesson.frame) (later search.old) }
{
    search.had += 1;
    let next = frame_after(search.lesson.frame);
    learn(search, next);
}

// The listener decides by its lesson: it waits for the first frame, if that starts after the
// decision. Otherwise it learns the next one.
fn decide(search: &mut Search, plan: &Feasible) -> Stage
    requires soon { AreSoon search.old.lesson.records }
    requires had { search.old.had < 2 ^ 31 }
    ensures { ComesTo search.old (decided search.old (first_of plan.now.sizes plan.now.plan search.old.lesson)) result search.new }
{
    match first_of(plan, &search.lesson) {
        Some(first) => wait(search, first),
        None => {
            learn_next(search);
            Stage::Searching
        }
    }
}

// The listener waits for the first frame that it follows, if that starts after the decision.
fn wait(search: &mut Search, first: First) -> Stage
    requires soon { AreSoon search.old.lesson.records }
    requires had { search.old.had < 2 ^ 31 }
    requires frame { first.frame < 65536 }
    ensures { ComesTo search.old (if_after search.old first (nat_lt search.old.had first.epoch))
        result search.new }
{
    if search.had < first.epoch {
        search.had += 1;
        Stage::Waiting(first)
    } else {
        learn_next(search);
        Stage::Searching
    }
}

// Whether the next tick is that of the decision.
fn is_deciding(search: &Search) -> bool
    ensures { result ≡ is_deciding search.now }
{
    match search.lesson.decides {
        Some(tick) => search.learns && tick == search.had,
        None => false,
    }
}

/// A tick of a listener that is not spent.
#[tactic(auto, unfolding(crate::specs::Listening::search_on))]
pub(crate) fn search_on(search: &mut Search, plan: &Feasible) -> Stage
    requires soon { AreSoon search.old.lesson.records }
    requires had { search.old.had < 2 ^ 31 }
    requires ahead { IsAhead search.old.had (decision_of search.old) }
    ensures { ComesTo search.old (search_on plan.now.sizes plan.now.plan search.old) result
        search.new }
{
    if is_deciding(search) {
        decide(search, plan)
    } else {
        search.had += 1;
        Stage::Searching
    }
}

/// The tick of the decision, if it is fixed.
pub(crate) fn decision(search: &Search) -> Option<u64>
    ensures { result ≡ decision_of search.now }
{
    if search.learns {
        search.lesson.decides
    } else {
        None
    }
}

/// The tick, if a listener has that many.
pub(crate) fn in_time(tick: Option<u64>) -> Option<u64>
    ensures { result ≡ in_time tick }
{
    match tick {
        Some(tick) if tick < MOST_TICKS => Some(tick),
        _ => None,
    }
}
