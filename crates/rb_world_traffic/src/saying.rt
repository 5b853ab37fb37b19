//! What nodes that are not good say.
ghost use Rattle.std.specs.Prelude.{◌≡◌, ◌+◌, ◌-◌, ◌<◌, ◌≤◌, ◌^◌, ◌∷◌, [], IfOk, length};
ghost use Rattle.std.specs.List.{fold};
ghost use Rattle.rb_rules.specs.Clock.{time_of};
ghost use Rattle.rb_rules.specs.Goodness.{Scenario};
ghost use Rattle.rb_rules.specs.Entries.{bytes_of, message_at};
ghost use Rattle.rb_rules.specs.Lawful.{IsNodeOf};
ghost use Rattle.rb_rules.specs.Spelling.{IsZeroUnlessWord, spelling_of};
ghost use Rattle.rb_queue.specs.Waiting.{HasLane, lane_of, spare_of};
ghost use Rattle.rb_world_onset.specs.Faults.{faults_of};
ghost use Rattle.rb_world_traffic.specs.Arriving.{number_of};
ghost use Rattle.rb_world_traffic.specs.Saying.{AreFor, Brings, SaysTo, entries_at, entries_for, first_frame, is_said_in, last_frame, later_frame, most_to, senders_to, sooner_frame};
ghost use Rattle.rb_world_traffic.specs.Spans.{span_of};

use crate::arriving::number_of;
use crate::entries::{Numbers, covers, lists_for};
use arrayvec::ArrayVec;
use rb_base::{NodeName, OutOfMemory, Place, Shape};
use rb_clock::Clock;
use rb_frame::encode;
use rb_rules::{Content, Message, Say, Tag, Version};
use rb_scenario::SayList;
use rb_world_agenda::Agenda;
use rb_world_onset::Onsets;
use std::alloc::Global;
use std::marker::Model;

/// A window as a node goes through it: its place, and its first and last tick.
#[derive(Clone, Copy, Debug, PartialEq, Eq)]
pub struct Span {
    pub place: Place,
    pub first: u64,
    pub last: u64,
}

// Which nodes are good in which slot, how messages are spelled, and what is said.
#[derive(Drop)]
struct Said {
    faults: Onsets,
    version: Version,
    says: SayList,
}

/// What nodes that are not good say, by receiver.
#[derive(Drop)]
pub struct Sayings {
    said: Said,
    to_bius: Vec<Numbers>,
    to_rmus: Vec<Numbers>,
}

impl Model for Sayings {
    ghost use Rattle.rb_world_traffic.specs.Saying.{AreIndexed, KeptSayings};

    ghost Value = { KeptSayings };

    ghost view = { λ s. s.said };

    ghost invariant = { λ s. AreIndexed s.said.faults.sizes s.said.says s.to_bius.items
        s.to_rmus.items };
}

// The bytes with room for as many as an arrival may have.
fn copied(bytes: &[u8]) -> ArrayVec<u8, 32>
    requires { length bytes.now ≤ 32 }
    ensures { result.items ≡ bytes.now }
{
    let mut copy = ArrayVec::new();
    let _ = copy.try_extend_from_slice(bytes);
    copy
}

// A message with the header of a place, as bytes. The tail has no stage of its own in messages.
fn spelled(version: Version, place: Place, tag: Tag, value: u32) -> ArrayVec<u8, 32>
    requires stage { 1 ≤ place.stage }
    requires value { IsZeroUnlessWord tag value }
    ensures { result.items ≡ spelling_of version (message_at place tag value) }
{
    let message = Message {
        tag,
        frame: (place.frame % 65536) as u16,
        slot: place.slot,
        stage: place.stage.min(3),
        value,
    };
    copied(&encode(version, &message))
}

// What an entry says in a window of this place, as bytes.
fn bytes_said(version: Version, place: Place, content: &Content) -> ArrayVec<u8, 32>
    requires { 1 ≤ place.stage }
    ensures { result.items ≡ bytes_of version place content.now }
{
    match content {
        Content::Word(word) => spelled(version, place, Tag::Word, *word),
        Content::Fault => spelled(version, place, Tag::Fault, 0),
        Content::Sync => spelled(version, place, Tag::Sync, 0),
        Content::Raw(bytes) => copied(bytes),
    }
}

// Whether the entry is said by its sender in a window.
fn is_said_in(onsets: &Onsets, span: &Span, say: &Say) -> bool
    requires { span.now.first ≤ 2 ^ 31 }
    ensures { (sc : Scenario) → onsets.now ≡ faults_of sc
        → result ≡ is_said_in sc (span_of span.now) say.now }
{
    covers(say, span.place)
        && span.first + u64::from(say.offset) <= span.last
        && !onsets.is_good(say.from, span.place.frame, span.place.slot)
}

// When an entry comes to a node with this clock: at a tick of the window, or early before it.
fn time_said(clock: &Clock, span: &Span, say: &Say) -> u64
    requires { span.now.first ≤ 2 ^ 31 }
    ensures { result ≡ time_of clock.now (span.now.first + say.now.offset) - say.now.early }
{
    let at = clock.late_at(span.first + u64::from(say.offset));
    at.saturating_sub(u64::from(say.early))
}

// What an entry brings to a node in a window comes to it.
fn say_one(agenda: &mut Agenda, said: &Said, say: &Say, clock: &Clock, to: NodeName, span: &Span)
    requires lane { HasLane agenda.old to }
    requires spare { 1 ≤ spare_of (lane_of agenda.old to) }
    requires stage { 1 ≤ span.now.place.stage }
    requires first { span.now.first ≤ 2 ^ 31 }
    ensures lanes { Brings said.now (say.now ∷ []) clock.now to (span_of span.now) agenda.old
        agenda.new }
    ensures lane { HasLane agenda.new to }
    ensures spare { spare_of (lane_of agenda.old to) ≤ spare_of (lane_of agenda.new to) + 1 }
{
    if is_said_in(&said.faults, span, say) {
        let time = time_said(clock, span, say);
        let from = number_of(say.from);
        let bytes = bytes_said(said.version, span.place, &say.content);
        agenda.push_arrival(to, time, from, bytes);
    }
}

// What the entries with these numbers bring.
#[inline(never)]
fn say_each(
    agenda: &mut Agenda,
    said: &Said,
    places: &[u16],
    clock: &Clock,
    to: NodeName,
    span: &Span,
)
    requires lane { HasLane agenda.old to }
    requires spare { length places.now ≤ spare_of (lane_of agenda.old to) }
    requires stage { 1 ≤ span.now.place.stage }
    requires first { span.now.first ≤ 2 ^ 31 }
    ensures { Brings said.now (entries_at said.now.says places.now) clock.now to (span_of span.now)
        agenda.old agenda.new }
{
    for number in places {
        let number = usize::from(*number);
        if number < said.says.len() {
            say_one(agenda, said, said.says.get(number), clock, to, span);
        }
    }
}

// The frames from the first to the last, once those of the entry with this number, if there is one,
// are among them.
fn with_frames_of(says: &SayList, number: u16, first: u64, last: u64) -> (u64, u64)
    ensures first { result.0 ≡ fold sooner_frame first (entries_at says.now (number ∷ [])) }
    ensures last { result.1 ≡ fold later_frame last (entries_at says.now (number ∷ [])) }
{
    let number = usize::from(number);
    if number < says.len() {
        let frames = says.get(number).frames;
        (
            first.min(u64::from(frames.0)),
            last.max(u64::from(frames.1)),
        )
    } else {
        (first, last)
    }
}

// The frames from the first to the last of which the entries with these numbers speak.
fn frames_of(says: &SayList, places: &[u16]) -> (u64, u64)
    ensures first { result.0 ≡ first_frame (entries_at says.now places.now) }
    ensures last { result.1 ≡ last_frame (entries_at says.now places.now) }
{
    let (mut first, mut last) = (1 << 32, 0);
    for number in places {
        (first, last) = with_frames_of(says, *number, first, last);
    }
    (first, last)
}

impl Sayings {
    /// What the entries say on a bus of this shape, whose nodes have these onsets. `says` are at
    /// most 65536 entries. All memory is taken here.
    pub fn new(
        alloc: Global,
        shape: &Shape,
        onsets: Onsets,
        version: Version,
        says: SayList,
    ) -> Result<Sayings, OutOfMemory>
        requires sizes { onsets.sizes ≡ shape.now }
        requires few { length says ≤ 65536 }
        ensures { IfOk result (λ s. s
            ≡ record { faults = onsets; version = version; says = says }) }
    {
        let to_bius = lists_for(alloc, &says, NodeName::Rmu(0), shape.biu(), shape.rmu())?;
        let to_rmus = lists_for(alloc, &says, NodeName::Biu(0), shape.rmu(), shape.biu())?;
        let said = Said {
            faults: onsets,
            version,
            says,
        };
        Ok(Sayings {
            said,
            to_bius,
            to_rmus,
        })
    }

    #[inline(always)]
    fn places(&self, to: NodeName) -> &[u16]
        requires { IsNodeOf self.now.faults.sizes to }
        ensures { AreFor self.now.says to (senders_to self.now.faults.sizes to) result.now }
    {
        match to {
            NodeName::Biu(i) => &self.to_bius[usize::from(i)].items,
            NodeName::Rmu(i) => &self.to_rmus[usize::from(i)].items,
        }
    }

    /// How much is said to the node in a window at most: the number of entries for it.
    pub fn most(&self, to: NodeName) -> usize
        requires node { IsNodeOf self.now.faults.sizes to }
        ensures value { result ≡ most_to self.now to }
    {
        self.places(to).len()
    }

    /// The first and the last of the frames of which the entries for the node speak. If there are
    /// no entries these are 2^32 and 0.
    pub fn frames(&self, to: NodeName) -> (u64, u64)
        requires node { IsNodeOf self.now.faults.sizes to }
        ensures first { result.0 ≡ first_frame (entries_for self.now to) }
        ensures last { result.1 ≡ last_frame (entries_for self.now to) }
    {
        frames_of(&self.said.says, self.places(to))
    }

    /// What nodes that are not good say to the node in a window comes to it: by sender, and then in
    /// the order of the entries. `clock` is the node's. There is room for as much as is said to it
    /// in a window at most.
    #[inline(always)]
    pub fn say(&self, agenda: &mut Agenda, clock: &Clock, to: NodeName, span: &Span)
        requires node { IsNodeOf self.now.faults.sizes to }
        requires in_shape { HasLane agenda.old to }
        requires room { most_to self.now to ≤ spare_of (lane_of agenda.old to) }
        requires stage { 1 ≤ span.now.place.stage }
        requires first { span.now.first ≤ 2 ^ 31 }
        ensures { SaysTo self.now clock.now to (span_of span.now) agenda.old agenda.new }
    {
        let places = self.places(to);
        say_each(agenda, &self.said, places, clock, to, span);
    }
}
