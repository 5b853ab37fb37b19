//! Say entries: what nodes that are not good say.
ghost use Rattle.std.specs.Prelude.{◌≡◌, ◌++◌, ◌≤◌, ◌<◌, ◌+◌, ◌-◌, ◌^◌, true, map, not, ◌||◌, nat_lt, IfOk, OnOk, Some, option_map, option_to_list};
ghost use Rattle.std.specs.List.{list_all};
ghost use Rattle.hex.specs.Hex.{decode_of};
ghost use Rattle.toml.specs.Data.{as_table};
ghost use Rattle.toml.specs.View.{view, table_view, array_view};
ghost use Rattle.rb_scenario_document.specs.Walk.{entries_in, tables_in};
ghost use Rattle.rb_scenario_entries.specs.Says.{content_in, content_there, has_ranges, has_times, is_say, is_sync_alone, lies_in_all, lies_in_stage, marked, raw_in, say_of, short_bytes, word_content};
ghost use Rattle.rb_rules.specs.Lawful.{ticks_in_sync};

use crate::bus::{Bus, last_frame, sync_slot};
use crate::links::{are_apart, pattern_of};
use arrayvec::ArrayVec;
use rb_base::NodeName;
use rb_rules::{Content, Pattern, Plan, Say};
use rb_scenario_document::names::{node_at, pattern_at};
use rb_scenario_document::values::{
    Within, has_range, may_have_number, number_else, number_or, pair_at, range_there,
};
use rb_scenario_document::walk::{EntryTest, Test, absent_or, has_key, member};
use std::alloc::{AllocError, Global};
use toml::value::Array;
use toml::{Table, Value};

fn has_ranges(bus: &Bus, entry: &Table) -> bool
    ensures { result ≡ has_ranges bus.now (table_view entry.now) }
{
    has_range(entry, "frames", 0, last_frame(bus))
        && has_range(entry, "slots", 0, sync_slot(bus))
        && has_range(entry, "stages", 1, 4)
}

/// Whether the range is the sync slot alone.
fn is_sync_alone(sync: u64, slots: (u64, u64)) -> bool
    ensures { result ≡ is_sync_alone sync slots }
{
    slots.0 == sync && slots.1 == sync
}

/// How many ticks a stage of the sync slot has at least.
fn ticks_in_sync(plan: &Plan, stage: u64) -> u64
    ensures { result ≡ ticks_in_sync plan.now stage }
{
    let (v, z, c) = (u64::from(plan.v), u64::from(plan.z), u64::from(plan.c));
    if stage == 1 {
        plan.l.into()
    } else if stage == 2 {
        v
    } else if stage == 3 {
        z
    } else {
        v + z + c
    }
}

/// Whether the offset is in the window of this stage of the sync slot, if the range has the stage.
fn lies_in_stage(plan: &Plan, stages: (u64, u64), offset: u64, stage: u64) -> bool
    ensures { result ≡ lies_in_stage plan.now stages offset stage }
{
    !(stages.0 <= stage && stage <= stages.1) || offset < ticks_in_sync(plan, stage)
}

/// Whether the offset lies in every window of the ranges.
fn lies_in_all(plan: &Plan, sync: u64, slots: (u64, u64), stages: (u64, u64), offset: u64) -> bool
    ensures { result ≡ lies_in_all plan.now sync slots stages offset }
{
    (sync <= slots.0 || offset < plan.l.into())
        && (slots.1 < sync
            || lies_in_stage(plan, stages, offset, 1)
                && lies_in_stage(plan, stages, offset, 2)
                && lies_in_stage(plan, stages, offset, 3)
                && lies_in_stage(plan, stages, offset, 4))
}

/// The offsets that lie in every window of these ranges.
#[derive(Clone, Copy)]
struct IsOffset {
    plan: Plan,
    sync: u64,
    slots: (u64, u64),
    stages: (u64, u64),
}

impl Test for IsOffset {
    ghost use Rattle.rb_scenario_entries.specs.Says.{is_offset};

    ghost holds = { λ o. is_offset o.plan o.sync o.slots o.stages };

    fn test(&self, value: &Value) -> bool {
        let within = Within {
            low: 0,
            high: 4294967295,
        };
        within.test(value)
            && lies_in_all(
                &self.plan,
                self.sync,
                self.slots,
                self.stages,
                number_or(Some(value), 0),
            )
    }
}

/// By how much the arrival of an entry may be early.
fn most_early(bus: &Bus) -> u64
    ensures value { result ≡ bus.now.plan.u - bus.now.plan.r - 1 }
    ensures small { result < 2 ^ 32 }
{
    u64::from(bus.plan.u.saturating_sub(bus.plan.r).saturating_sub(1))
}

/// Whether it comes in the tail or early only in the sync slot, and at an offset that its windows
/// have.
fn has_times(bus: &Bus, entry: &Table) -> bool
    ensures { result ≡ has_times bus.now (table_view entry.now) }
{
    let sync = sync_slot(bus);
    let slots = pair_at(entry, "slots");
    let stages = pair_at(entry, "stages");
    let offsets = IsOffset {
        plan: bus.plan,
        sync,
        slots,
        stages,
    };
    (stages.1 <= 3 || is_sync_alone(sync, slots))
        && absent_or(&offsets, member(entry, "offset"))
        && may_have_number(entry, "early", 0, most_early(bus))
        && (number_or(member(entry, "early"), 0) == 0 || is_sync_alone(sync, slots))
}

/// A word below 2^32.
fn word_content(value: &Value) -> Option<Content>
    ensures { result ≡ word_content (view value.now) }
{
    match value.as_integer() {
        Some(number) => match u32::try_from(number) {
            Ok(word) => Some(Content::Word(word)),
            Err(_) => None,
        },
        None => None,
    }
}

/// What the mark `true` means.
fn marked(content: Content, value: &Value) -> Option<Content>
    ensures { result ≡ marked content (view value.now) }
{
    match value.as_bool() {
        Some(true) => Some(content),
        Some(false) => None,
        None => None,
    }
}

/// Bytes in hexadecimal, of which there are 1 to 32.
fn raw_bytes(text: &str) -> Option<ArrayVec<u8, 32>>
    ensures { option_map (λ v. v.items) result ≡ short_bytes (decode_of text.now) }
{
    let mut buffer = [0u8; 32];
    let len = text.len() / 2;
    if len == 0 || len > 32 {
        return None;
    }
    match hex::decode_to_slice(text, &mut buffer[..len]) {
        Ok(()) => ArrayVec::try_from(&buffer[..len]).ok(),
        Err(_) => None,
    }
}

fn raw_in(value: &Value) -> Option<Content>
    ensures { result ≡ raw_in (view value.now) }
{
    match value.as_str() {
        Some(text) => match raw_bytes(text) {
            Some(bytes) => Some(Content::Raw(bytes)),
            None => None,
        },
        None => None,
    }
}

/// What the first of the four that is there means.
fn content_there(entry: &Table) -> Option<Content>
    ensures { result ≡ content_there (table_view entry.now) }
{
    if let Some(value) = member(entry, "word") {
        return word_content(value);
    }
    if let Some(value) = member(entry, "fault") {
        return marked(Content::Fault, value);
    }
    if let Some(value) = member(entry, "sync") {
        return marked(Content::Sync, value);
    }
    match member(entry, "raw") {
        Some(value) => raw_in(value),
        None => None,
    }
}

/// What an entry says: exactly one of the four.
#[tactic(auto, unfolding(crate::specs::Says::content_in))]
fn content_in(entry: &Table) -> Option<Content>
    ensures { result ≡ content_in (table_view entry.now) }
{
    let count = u8::from(has_key(entry, "word"))
        + u8::from(has_key(entry, "fault"))
        + u8::from(has_key(entry, "sync"))
        + u8::from(has_key(entry, "raw"));
    if count == 1 {
        content_there(entry)
    } else {
        None
    }
}

/// Whether the values of a say entry are in range.
#[tactic(auto, unfolding(crate::specs::Says::is_say))]
fn is_say(bus: &Bus, entry: &Table) -> bool
    ensures { result ≡ is_say bus.now (table_view entry.now) }
{
    are_apart(
        node_at(&bus.shape, entry, "from").map(Pattern::One),
        pattern_at(&bus.shape, entry, "to"),
    ) && has_ranges(bus, entry)
        && has_times(bus, entry)
        && content_in(entry).is_some()
}

/// Say entries whose values are in range.
#[derive(Clone, Copy)]
pub struct IsSay {
    pub bus: Bus,
}

impl EntryTest for IsSay {
    ghost use Rattle.rb_scenario_entries.specs.Says.{is_say};

    ghost holds = { λ s. is_say s.bus };

    fn test(&self, entry: &Table) -> bool {
        is_say(&self.bus, entry)
    }
}

/// What an entry says, and when.
#[tactic(auto, unfolding(crate::specs::Says::say_of))]
fn say_of(bus: &Bus, entry: &Table) -> Say
    requires bus { bus.now.plan.h < 2 ^ 32 }
    requires say { is_say bus.now (table_view entry.now) ≡ true }
    ensures { result ≡ say_of bus.now (table_view entry.now) }
{
    let frames = range_there(entry, "frames", 0, last_frame(bus));
    let slots = range_there(entry, "slots", 0, sync_slot(bus));
    let stages = range_there(entry, "stages", 1, 4);
    Say {
        from: node_at(&bus.shape, entry, "from").unwrap_or(NodeName::Biu(0)),
        to: pattern_of(bus, "to", entry),
        frames: (frames.0 as u32, frames.1 as u32),
        slots: (slots.0 as u16, slots.1 as u16),
        stages: (stages.0 as u8, stages.1 as u8),
        offset: number_else(entry, "offset", bus.plan.h.into(), 0, 4294967295) as u32,
        early: number_else(entry, "early", 0, 0, most_early(bus)) as u32,
        content: content_in(entry).unwrap_or(Content::Fault),
    }
}

/// Takes what an entry says, if the value is one.
fn take_say(bus: &Bus, value: &Value, says: &mut Vec<Say>) -> Result<(), AllocError>
    requires bus { bus.now.plan.h < 2 ^ 32 }
    requires says { list_all (is_say bus.now) (option_to_list (as_table (view value.now))) ≡ true }
    ensures { OnOk result (says.new.items
        ≡ says.old.items ++ map (say_of bus.now) (option_to_list (as_table (view value.now)))) }
{
    if let Some(entry) = value.as_table() {
        says.push(say_of(bus, entry))?;
    }
    Ok(())
}

fn says_among(alloc: Global, bus: &Bus, values: &Array) -> Result<Vec<Say>, AllocError>
    requires bus { bus.now.plan.h < 2 ^ 32 }
    requires says { list_all (is_say bus.now) (tables_in (array_view values.now)) ≡ true }
    ensures { IfOk result (λ v. v.items
        ≡ map (say_of bus.now) (tables_in (array_view values.now))) }
{
    let mut says = Vec::new(alloc);
    for value in values {
        take_say(bus, value, &mut says)?;
    }
    Ok(says)
}

/// What the entries in range say.
pub fn says_in(alloc: Global, bus: &Bus, value: Option<&Value>) -> Result<Vec<Say>, AllocError>
    requires bus { bus.now.plan.h < 2 ^ 32 }
    requires says { list_all (is_say bus.now) (entries_in (option_map (λ x. view x.now) value))
        ≡ true }
    ensures { IfOk result (λ v. v.items
        ≡ map (say_of bus.now) (entries_in (option_map (λ x. view x.now) value.entry))) }
{
    match value {
        Some(value) => match value.as_array() {
            Some(values) => says_among(alloc, bus, values),
            None => Ok(Vec::new(alloc)),
        },
        None => Ok(Vec::new(alloc)),
    }
}
