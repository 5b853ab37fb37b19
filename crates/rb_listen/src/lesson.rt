//! What is recorded of one frame, and what follows from it.
ghost use Rattle.std.specs.Prelude.{◌≡◌, ℕ, ◌+◌, ◌<◌, ◌≤◌, ◌^◌, ◌++◌, ◌∷◌, [], IfSome, length, slice_set};
ghost use Rattle.rb_base.specs.Nodes.Side.{Biu as TheBiu, Rmu as TheRmu};
ghost use Rattle.rb_diag.specs.Votes.{vector_in};
ghost use Rattle.rb_rules.specs.ExactStage.{present};
ghost use Rattle.rb_rules.specs.Sense.{is_one, stamp_in, tag_suits, value_in, value_of};
ghost use Rattle.rb_rules.specs.Slots.{first_diagnosis_of};
ghost use Rattle.rb_listen.specs.Lessons.{convicted_bius, convicted_rmus, first_by, first_of, frame_after, has_place, lesson_on, middle_in, noted, nothing_recorded, ones_in, record_of, recorded_of, stage_recorded, trusted_bius, trusted_rmus, trusts_biu, trusts_rmu, vote_on, with_message};
ghost use Rattle.rb_listen.specs.Passes.{are_most};
ghost use Rattle.rb_listen.specs.Stamps.{AreSoon, IsSoonSense};

use crate::passes::are_most;
use arrayvec::ArrayVec;
use rb_base::{Biu, Heard, Kind, NodeId, NodeSet, Rmu, Shape};
use rb_diag::Ballot;
use rb_mid::middle;
use rb_plan::Feasible;
use rb_rules::{Message, Role, Sense, Tag};
use rb_slot::role_of;
use rb_vote::majority_taken;

/// What is recorded of a frame: its number, modulo 65536, the tick at which the listener decides by
/// it, if that is known, and what came from each RMU in each slot: the record of RMU `j` in a slot
/// has the number 16 times the slot plus `j`.
#[derive(Drop)]
pub struct Lesson {
    pub frame: u16,
    pub decides: Option<u64>,
    pub records: [Sense; 1808],
}

/// The first frame that a listener follows: its number, its first tick, and whom the listener then
/// trusts.
#[derive(Clone, Copy, Debug, PartialEq, Eq)]
pub struct First {
    pub frame: u32,
    pub epoch: u64,
    pub bius: NodeSet<Biu>,
    pub rmus: NodeSet<Rmu>,
}

// The stage whose messages are recorded in a slot; 0 if none is.
fn stage_recorded(role: Role) -> u8
    ensures { result ≡ stage_recorded role }
{
    match role {
        Role::Schedule(_) => 2,
        Role::Data(_) => 0,
        Role::DiagBiu(_) => 2,
        Role::DiagRmu(_) => 3,
        Role::Sync => 2,
    }
}

// Whether the message has a place in the lesson on this frame.
fn has_place(shape: &Shape, frame: u16, message: &Message) -> bool
    ensures { result ≡ has_place shape.now frame message.now }
{
    message.frame == frame
        && message.slot <= shape.sync_slot()
        && message.stage == stage_recorded(role_of(shape, message.slot))
}

// Nothing is recorded.
#[tactic(auto, unfolding(crate::specs::Lessons::nothing_recorded))]
pub(crate) fn nothing_recorded() -> [Sense; 1808]
    ensures { result ≡ nothing_recorded }
{
    [Sense::Silent; 1808]
}

/// A lesson on this frame, in which nothing is recorded.
pub(crate) fn begin(lesson: &mut Lesson, frame: u16)
    ensures { lesson.new ≡ lesson_on frame }
{
    lesson.frame = frame;
    lesson.decides = None;
    lesson.records = nothing_recorded();
}

// Whether the tag belongs in the slot.
fn tag_suits(in_sync: bool, tag: Tag) -> bool
    ensures { result ≡ tag_suits in_sync tag }
{
    match tag {
        Tag::Word => !in_sync,
        Tag::Fault => !in_sync,
        Tag::Sync => in_sync,
    }
}

// A record with one message more.
fn with_message(in_sync: bool, at: u64, message: &Message, before: Sense) -> Sense
    ensures { result ≡ with_message in_sync at message.now before }
{
    match before {
        Sense::Silent => {
            if tag_suits(in_sync, message.tag) {
                Sense::One {
                    at,
                    message: *message,
                }
            } else {
                Sense::Bad
            }
        }
        Sense::One { .. } => Sense::Bad,
        Sense::Bad => Sense::Bad,
    }
}

// What is recorded of RMU `j` in a slot.
fn record_of(records: &[Sense; 1808], slot: u16, j: u8) -> Sense
    requires slot { slot ≤ 112 }
    requires rmu { j < 16 }
    ensures { result ≡ record_of records.now slot j }
{
    records[16 * usize::from(slot) + usize::from(j)]
}

/// A message of RMU `j` comes at a tick. It is recorded if it has a place.
pub(crate) fn note(lesson: &mut Lesson, shape: &Shape, j: u8, at: u64, message: &Message)
    requires { j < 16 }
    ensures { lesson.new ≡ noted shape.now j at message.now lesson.old }
{
    let calls = shape.sync_slot();
    if has_place(shape, lesson.frame, message) {
        let slot = message.slot;
        let before = record_of(&lesson.records, slot, j);
        lesson.records[16 * usize::from(slot) + usize::from(j)] = with_message(
            slot == calls,
            at,
            message,
            before,
        );
    }
}

// Whether one message is recorded.
fn is_one(sense: Sense) -> bool
    ensures { result ≡ is_one sense }
{
    match sense {
        Sense::Silent => false,
        Sense::One { .. } => true,
        Sense::Bad => false,
    }
}

// The RMUs of which one message is recorded in a slot.
fn ones_in(records: &[Sense; 1808], slot: u16) -> NodeSet<Rmu>
    requires { slot ≤ 112 }
    ensures { result ≡ ones_in records.now slot }
{
    let mut ones = NodeSet::empty();
    for j in 0..16 {
        if is_one(record_of(records, slot, j)) {
            ones.insert(NodeId::of(j));
        }
    }
    ones
}

// The first diagnosis slot of the BIUs.
fn first_of_bius(shape: &Shape) -> u16
    ensures value { result ≡ first_diagnosis_of TheBiu shape.now }
    ensures small { result ≤ 96 }
{
    u16::from(shape.biu()) + shape.slots()
}

// The first diagnosis slot of the RMUs.
fn first_of_rmus(shape: &Shape) -> u16
    ensures value { result ≡ first_diagnosis_of TheRmu shape.now }
    ensures small { result ≤ 96 }
{
    2 * u16::from(shape.biu()) + shape.slots()
}

// Whether of more than half of all RMUs one message is recorded in a slot.
fn most_in(shape: &Shape, records: &[Sense; 1808], slot: u16) -> bool
    requires { slot ≤ 112 }
    ensures { result ≡ are_most shape.now (ones_in records.now slot) }
{
    are_most(shape, ones_in(records, slot))
}

// Whether BIU `i` is trusted by what is recorded.
fn trusts_biu(shape: &Shape, records: &[Sense; 1808], i: u8) -> bool
    requires { i < 16 }
    ensures { result ≡ trusts_biu shape.now records.now i }
{
    i < shape.biu() && most_in(shape, records, u16::from(i))
}

// Whether RMU `j` is trusted.
fn trusts_rmu(shape: &Shape, records: &[Sense; 1808], j: u8) -> bool
    requires { j < 16 }
    ensures { result ≡ trusts_rmu shape.now records.now j }
{
    j < shape.rmu() && most_in(shape, records, first_of_rmus(shape) + u16::from(j))
}

// The BIUs that are trusted.
fn trusted_bius(shape: &Shape, records: &[Sense; 1808]) -> NodeSet<Biu>
    ensures { result ≡ trusted_bius shape.now records.now }
{
    let mut trusted = NodeSet::empty();
    for i in 0..16 {
        if trusts_biu(shape, records, i) {
            trusted.insert(NodeId::of(i));
        }
    }
    trusted
}

// The RMUs that are trusted.
fn trusted_rmus(shape: &Shape, records: &[Sense; 1808]) -> NodeSet<Rmu>
    ensures { result ≡ trusted_rmus shape.now records.now }
{
    let mut trusted = NodeSet::empty();
    for j in 0..16 {
        if trusts_rmu(shape, records, j) {
            trusted.insert(NodeId::of(j));
        }
    }
    trusted
}

// The value that a message carries.
fn value_of(message: Message) -> Option<Heard>
    ensures { result ≡ value_of message.tag message.value }
{
    match message.tag {
        Tag::Word => Some(Heard::Word(message.value)),
        Tag::Fault => Some(Heard::Fault),
        Tag::Sync => None,
    }
}

// The value that is recorded.
fn value_in(sense: Sense) -> Option<Heard>
    ensures { result ≡ value_in sense }
{
    match sense {
        Sense::Silent => None,
        Sense::One { message, .. } => value_of(message),
        Sense::Bad => None,
    }
}

// The stamp that is recorded.
fn stamp_in(sense: Sense) -> Option<u64>
    ensures { result ≡ stamp_in sense }
{
    match sense {
        Sense::Silent => None,
        Sense::One { at, .. } => Some(at),
        Sense::Bad => None,
    }
}

// The value that is recorded in a slot of RMU `j`, if it is in the set.
fn recorded_value(records: &[Sense; 1808], rmus: NodeSet<Rmu>, slot: u16, j: u8) -> Option<Heard>
    requires slot { slot ≤ 112 }
    requires rmu { j < 16 }
    ensures { result ≡ recorded_of value_in records.now rmus slot j }
{
    if rmus.has(j) {
        value_in(record_of(records, slot, j))
    } else {
        None
    }
}

// The stamp that is recorded of a trusted RMU.
fn recorded_stamp(records: &[Sense; 1808], rmus: NodeSet<Rmu>, slot: u16, j: u8) -> Option<u64>
    requires slot { slot ≤ 112 }
    requires rmu { j < 16 }
    ensures { result ≡ recorded_of stamp_in records.now rmus slot j }
{
    if rmus.has(j) {
        stamp_in(record_of(records, slot, j))
    } else {
        None
    }
}

// The vote over the values of a slot.
fn vote_on(records: &[Sense; 1808], rmus: NodeSet<Rmu>, slot: u16) -> Heard
    requires { slot ≤ 112 }
    ensures { result ≡ vote_on records.now rmus slot }
{
    let mut taken = [None; 16];
    for j in 0..16u8 {
        taken[usize::from(j)] = recorded_value(records, rmus, slot, j);
    }
    majority_taken(&taken)
}

// Enters the vote on the vector of the sender with this number.
fn enter<S: Kind>(ballot: &mut Ballot<S>, index: u8, voted: Heard)
    requires { index < 16 }
    ensures { ballot.new
        ≡ record ballot.old { vectors = slice_set ballot.old.vectors index voted } }
{
    ballot.enter(NodeId::of(index), voted);
}

// The votes on the vectors of the nodes of kind S, `first` being their first diagnosis slot.
fn ballot_of<S: Kind>(
    records: &[Sense; 1808],
    rmus: NodeSet<Rmu>,
    first: u16,
    others: u8,
) -> Ballot<S>
    requires first { first ≤ 96 }
    requires others { others ≤ 16 }
    ensures others { result.others ≡ others }
    ensures vectors { (i : ℕ) → i < 16
        → vector_in result.vectors i ≡ vote_on records.now rmus (first + i) }
{
    let mut ballot = Ballot::new(others);
    for i in 0..16u8 {
        enter(&mut ballot, i, vote_on(records, rmus, first + u16::from(i)));
    }
    ballot
}

// The BIUs that the votes convict.
fn convicted_bius(
    shape: &Shape,
    records: &[Sense; 1808],
    bius: NodeSet<Biu>,
    rmus: NodeSet<Rmu>,
) -> NodeSet<Biu>
    ensures { result ≡ convicted_bius shape.now records.now bius rmus }
{
    let ballot: Ballot<Rmu> = ballot_of(records, rmus, first_of_rmus(shape), shape.biu());
    ballot.convicted(rmus, bius)
}

// The RMUs that the votes convict.
fn convicted_rmus(
    shape: &Shape,
    records: &[Sense; 1808],
    bius: NodeSet<Biu>,
    rmus: NodeSet<Rmu>,
) -> NodeSet<Rmu>
    ensures { result ≡ convicted_rmus shape.now records.now bius rmus }
{
    let ballot: Ballot<Biu> = ballot_of(records, rmus, first_of_bius(shape), shape.rmu());
    ballot.convicted(bius, rmus)
}

// Adds the stamp, if there is one.
fn add(stamps: &mut ArrayVec<u64, 16>, taken: Option<u64>)
    requires { length stamps.old.items < 16 }
    ensures { stamps.new.items ≡ stamps.old.items ++ present (taken ∷ []) }
{
    if let Some(stamp) = taken {
        stamps.push(stamp);
    }
}

// The middle of the stamps of the calls.
fn middle_in(shape: &Shape, records: &[Sense; 1808], rmus: NodeSet<Rmu>) -> Option<u64>
    requires { AreSoon records.now }
    ensures value { result ≡ middle_in shape.now records.now rmus }
    ensures soon { IfSome result (λ k2. k2 ≤ 2 ^ 31) }
{
    let slot = shape.sync_slot();
    let mut taken = [None; 16];
    let mut stamps = ArrayVec::new();
    for j in 0..16u8 {
        let stamp = recorded_stamp(records, rmus, slot, j);
        taken[usize::from(j)] = stamp;
        add(&mut stamps, stamp);
    }
    middle(&stamps)
}

// The number of the frame after this one, as messages have it.
pub(crate) fn frame_after(frame: u16) -> u16
    ensures { result ≡ frame_after frame }
{
    frame.wrapping_add(1)
}

// The first frame, by whom the lesson trusts and by the middle of the calls.
fn first_by(
    plan: &Feasible,
    lesson: &Lesson,
    bius: NodeSet<Biu>,
    rmus: NodeSet<Rmu>,
    k2: u64,
) -> First
    requires { k2 ≤ 2 ^ 31 }
    ensures { result ≡ first_by plan.now.sizes plan.now.plan lesson.now bius rmus k2 }
{
    let shape = plan.shape();
    let numbers = plan.plan();
    First {
        frame: u32::from(frame_after(lesson.frame)),
        epoch: k2 + u64::from(numbers.v) + u64::from(numbers.z) + u64::from(numbers.c),
        bius: bius.difference(convicted_bius(shape, &lesson.records, bius, rmus)),
        rmus: rmus.difference(convicted_rmus(shape, &lesson.records, bius, rmus)),
    }
}

/// The first frame, if a call is recorded of a trusted RMU.
pub(crate) fn first_of(plan: &Feasible, lesson: &Lesson) -> Option<First>
    requires { AreSoon lesson.now.records }
    ensures { result ≡ first_of plan.now.sizes plan.now.plan lesson.now }
{
    let shape = plan.shape();
    let bius = trusted_bius(shape, &lesson.records);
    let rmus = trusted_rmus(shape, &lesson.records);
    match middle_in(shape, &lesson.records, rmus) {
        Some(k2) => Some(first_by(plan, lesson, bius, rmus, k2)),
        None => None,
    }
}
