//! Clock entries: the clocks of some nodes.
ghost use Rattle.std.specs.Prelude.{◌≡◌, [], ◌∷◌, ◌++◌, ◌⊎◌, ◌≤◌, true, false, codes, map, IfErr, IfOk, OnOk, option_map};
ghost use Rattle.std.specs.List.{list_all};
ghost use Rattle.toml.specs.Data.{no_members};
ghost use Rattle.toml.specs.View.{view, table_view, array_view};
ghost use Rattle.rb_base.specs.Nodes.{side_of};
ghost use Rattle.rb_base.specs.Sizes.{IsShape};
ghost use Rattle.rb_rules.specs.Plan.{IsPlan};
ghost use Rattle.rb_scenario_document.specs.Forms.{is_array_of};
ghost use Rattle.rb_scenario_document.specs.Values.{pair_of};
ghost use Rattle.rb_scenario_document.specs.Walk.{absent_or, entries_at, every_item};
ghost use Rattle.rb_scenario_entries.specs.Clocks.{clock_for, clocks_of, has_clocks, is_clock, is_segment, kind_clocks, pairs_of, pairs_or, timeline_of};
ghost use Rattle.rb_scenario_entries.specs.Outcome.{IsRefusalBy};
ghost use Rattle.rb_scenario_entries.specs.Clocks.{keeps_time};

use crate::bus::Bus;
use crate::entries::{are_distinct, entry_for, name_of};
use crate::refusal::Refusal;
use rb_base::{Biu, Kind, NodeName, Rmu};
use rb_clock::{Clock, ClockRefusal};
use rb_scenario_document::forms::is_array_of;
use rb_scenario_document::names::node_at;
use rb_scenario_document::values::{Within, may_have_number, number_else, pair};
use rb_scenario_document::walk::{EntryTest, Test, absent_or, every_entry, member, passes};
use std::alloc::{AllocError, Global};
use toml::value::Array;
use toml::{Table, Value};

/// Pairs of a first tick and a length.
#[derive(Clone, Copy)]
struct IsSegment;

impl Test for IsSegment {
    ghost use Rattle.rb_scenario_entries.specs.Clocks.{is_segment};

    ghost holds = { λ _. is_segment };

    fn test(&self, value: &Value) -> bool {
        let ticks = Within {
            low: 0,
            high: 2147483648,
        };
        let lengths = Within {
            low: 1,
            high: 2000000,
        };
        passes(&ticks, value.get(0)) && passes(&lengths, value.get(1))
    }
}

/// Arrays of such pairs.
#[derive(Clone, Copy)]
struct AreSegments;

impl Test for AreSegments {
    ghost use Rattle.rb_scenario_entries.specs.Clocks.{is_segment};
    ghost use Rattle.rb_scenario_document.specs.Forms.{is_array_of};

    ghost holds = { λ _. is_array_of is_segment };

    fn test(&self, value: &Value) -> bool {
        is_array_of(&IsSegment, value)
    }
}

/// Clock entries for a node of the bus, with numbers in range.
#[derive(Clone, Copy)]
pub(crate) struct IsClock {
    pub(crate) bus: Bus,
}

impl EntryTest for IsClock {
    ghost use Rattle.rb_scenario_entries.specs.Clocks.{is_clock};

    ghost holds = { λ c. is_clock c.bus.shape };

    fn test(&self, entry: &Table) -> bool {
        node_at(&self.bus.shape, entry, "node").is_some()
            && may_have_number(entry, "start", 0, 1000000000000)
            && absent_or(&AreSegments, member(entry, "ticks"))
    }
}

/// Whether the clock entries are in range, and no two are for one node.
pub fn has_clocks(bus: &Bus, table: &Table) -> bool
    requires { IsShape bus.now.shape }
    ensures { result ≡ has_clocks bus.now (table_view table.now) }
{
    every_entry(&IsClock { bus: *bus }, member(table, "clock"))
        && are_distinct(&bus.shape, member(table, "clock"))
}

/// A first tick and a length.
fn segment_of(value: &Value) -> (u64, u32)
    requires { is_segment (view value.now) ≡ true }
    ensures { result ≡ pair_of (view value.now) }
{
    let (tick, length) = pair(value);
    (tick, length as u32)
}

fn segments_among(alloc: Global, values: &Array) -> Result<Vec<(u64, u32)>, AllocError>
    requires { every_item is_segment (array_view values.now) ≡ true }
    ensures { IfOk result (λ v. v.items ≡ pairs_of (array_view values.now)) }
{
    let mut segments = Vec::new(alloc);
    for value in values {
        segments.push(segment_of(value))?;
    }
    Ok(segments)
}

/// The segments of an array, or else one with ticks of length `unit`.
fn segments_in(
    alloc: Global,
    unit: u32,
    value: Option<&Value>,
) -> Result<Vec<(u64, u32)>, AllocError>
    requires { absent_or (is_array_of is_segment) (option_map (λ x. view x.now) value) ≡ true }
    ensures { IfOk result (λ v. v.items
        ≡ pairs_or ((0, unit) ∷ []) (option_map (λ x. view x.now) value.entry)) }
{
    match value {
        Some(value) => match value.as_array() {
            Some(values) => segments_among(alloc, values),
            None => whole_run(alloc, unit),
        },
        None => whole_run(alloc, unit),
    }
}

/// One segment with ticks of length `unit`.
fn whole_run(alloc: Global, unit: u32) -> Result<Vec<(u64, u32)>, AllocError>
    ensures { IfOk result (λ v. v.items ≡ (0, unit) ∷ []) }
{
    let mut segments = Vec::new(alloc);
    segments.push((0, unit))?;
    Ok(segments)
}

/// The clock with these segments. `ClockBounds` is the answer only if it does not keep the plan's
/// time, and `Ok` only if it does. `OutOfMemory` may be the answer too.
fn make_clock(
    alloc: Global,
    bus: &Bus,
    start: u64,
    segments: &[(u64, u32)],
) -> Result<Clock, Refusal>
    requires start { start ≤ 1000000000000 }
    requires plan { IsPlan bus.now.plan }
    ensures clock { IfOk result (λ c. c ≡ record { start = start; segments = segments.now }) }
    ensures kept { IfOk result (λ c. keeps_time bus.now.plan c ≡ true) }
    ensures refused { IfErr result (IsRefusalBy Refusal.ClockBounds
        (keeps_time bus.now.plan (record { start = start; segments = segments.now }))) }
{
    match Clock::new(alloc, start, segments, bus.plan.u, bus.plan.r) {
        Ok(clock) => Ok(clock),
        Err(ClockRefusal::NotRising) => Err(Refusal::ClockBounds),
        Err(ClockRefusal::TickOutOfBounds) => Err(Refusal::ClockBounds),
        Err(ClockRefusal::OutOfMemory) => Err(Refusal::OutOfMemory),
    }
}

/// The clock of an entry.
fn clock_of(alloc: Global, bus: &Bus, entry: &Table) -> Result<Clock, Refusal>
    requires plan { IsPlan bus.now.plan }
    requires entry { is_clock bus.now.shape (table_view entry.now) ≡ true }
    ensures clock { IfOk result (λ c. c ≡ timeline_of bus.now.plan.u (table_view entry.now)) }
    ensures kept { IfOk result (λ c. keeps_time bus.now.plan c ≡ true) }
    ensures refused { IfErr result (IsRefusalBy Refusal.ClockBounds
        (keeps_time bus.now.plan (timeline_of bus.now.plan.u (table_view entry.now)))) }
{
    let start = number_else(entry, "start", 0, 0, 1000000000000);
    let segments = segments_in(alloc, bus.plan.u, member(entry, "ticks"))?;
    make_clock(alloc, bus, start, &segments)
}

/// The clock of a node that has no entry.
fn plain_clock(alloc: Global, bus: &Bus) -> Result<Clock, Refusal>
    requires { IsPlan bus.now.plan }
    ensures clock { IfOk result (λ c. c ≡ timeline_of bus.now.plan.u no_members) }
    ensures kept { IfOk result (λ c. keeps_time bus.now.plan c ≡ true) }
    ensures refused { IfErr result (IsRefusalBy Refusal.ClockBounds
        (keeps_time bus.now.plan (timeline_of bus.now.plan.u no_members))) }
{
    let segments = whole_run(alloc, bus.plan.u)?;
    make_clock(alloc, bus, 0, &segments)
}

/// The clock of a node.
fn clock_for(alloc: Global, bus: &Bus, table: &Table, name: NodeName) -> Result<Clock, Refusal>
    requires plan { IsPlan bus.now.plan }
    requires entries { list_all (is_clock bus.now.shape) (entries_at (codes "clock") (table_view table.now)) ≡ true }
    ensures clock { IfOk result (λ c. c ≡ clock_for bus.now (table_view table.now) name) }
    ensures kept { IfOk result (λ c. keeps_time bus.now.plan c ≡ true) }
    ensures refused { IfErr result (IsRefusalBy Refusal.ClockBounds
        (keeps_time bus.now.plan (clock_for bus.now (table_view table.now) name))) }
{
    match entry_for(&bus.shape, member(table, "clock"), name) {
        Some(entry) => clock_of(alloc, bus, entry),
        None => plain_clock(alloc, bus),
    }
}

fn push_clock(clocks: &mut Vec<Clock>, clock: Clock) -> Result<(), AllocError>
    ensures { OnOk result (clocks.new.items ≡ clocks.old.items ++ clock ∷ []) }
{
    clocks.push(clock)?;
    Ok(())
}

/// Adds the clocks of the first nodes of a kind.
fn add_clocks<K: Kind>(
    alloc: Global,
    bus: &Bus,
    table: &Table,
    count: u8,
    clocks: &mut Vec<Clock>,
) -> Result<(), Refusal>
    requires plan { IsPlan bus.now.plan }
    requires entries { list_all (is_clock bus.now.shape) (entries_at (codes "clock") (table_view table.now)) ≡ true }
    ensures clocks { OnOk result (clocks.new.items
        ≡ clocks.old.items ++ kind_clocks (side_of K.CODE) count bus.now (table_view table.now)) }
    ensures kept { OnOk result (list_all (keeps_time bus.now.plan)
        (kind_clocks (side_of K.CODE) count bus.now (table_view table.now)) ≡ true) }
    ensures refused { IfErr result (IsRefusalBy Refusal.ClockBounds (list_all (keeps_time bus.now.plan)
        (kind_clocks (side_of K.CODE) count bus.now (table_view table.now)))) }
{
    for index in 0..count {
        match clock_for(alloc, bus, table, name_of::<K>(index)) {
            Ok(clock) => push_clock(clocks, clock)?,
            Err(refusal) => return Err(refusal),
        }
    }
    Ok(())
}

/// The clocks of all nodes, BIUs first. `ClockBounds` is the answer only if one does not keep the
/// plan's time, and `Ok` only if all do. `OutOfMemory` may be the answer in both cases.
#[tactic(auto, unfolding(crate::specs::Clocks::clocks_of))]
pub fn clocks_of(alloc: Global, bus: &Bus, table: &Table) -> Result<Vec<Clock>, Refusal>
    requires plan { IsPlan bus.now.plan }
    requires entries { list_all (is_clock bus.now.shape) (entries_at (codes "clock") (table_view table.now)) ≡ true }
    ensures clocks { IfOk result (λ v. v.items ≡ clocks_of bus.now (table_view table.now)) }
    ensures kept { IfOk result (λ _. list_all (keeps_time bus.now.plan) (clocks_of bus.now (table_view table.now)) ≡ true) }
    ensures refused { IfErr result (IsRefusalBy Refusal.ClockBounds
        (list_all (keeps_time bus.now.plan) (clocks_of bus.now (table_view table.now)))) }
{
    let mut clocks = Vec::new(alloc);
    add_clocks::<Biu>(alloc, bus, table, bus.shape.biu(), &mut clocks)?;
    add_clocks::<Rmu>(alloc, bus, table, bus.shape.rmu(), &mut clocks)?;
    Ok(clocks)
}
