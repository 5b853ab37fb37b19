//! What the root of a document says of the bus: its size, its number of frames and its plan.
ghost use Rattle.std.specs.Prelude.{◌≡◌, ◌≤◌, ◌<◌, ◌-◌, ◌^◌, true, option_map, IfSome};
ghost use Rattle.rb_base.specs.Sizes.{IsShape, sync_slot_of};
ghost use Rattle.rb_rules.specs.Plan.{IsPlan};
ghost use Rattle.toml.specs.View.{view, table_view};
ghost use Rattle.rb_scenario_entries.specs.Bus.{IsBus, bus_in, bus_of, has_bus, has_plan, has_sizes, has_units, has_version, has_windows, in_plan, may_plan, plan_of, planned, sizes_of, version_of};

use rb_base::Shape;
use rb_rules::{Plan, Version};
use rb_scenario_document::values::{
    Within, has_number, may_have_number, number_at, number_else, number_or, number_within,
};
use rb_scenario_document::walk::{absent_or, member};
use toml::{Table, Value};

/// A bus: its size, its plan, and for how many frames it runs.
#[derive(Clone, Copy, Debug, PartialEq, Eq)]
pub struct Bus {
    pub shape: Shape,
    pub frames: u32,
    pub plan: Plan,
}

/// The number of the last frame.
pub(crate) fn last_frame(bus: &Bus) -> u64
    ensures value { result ≡ bus.now.frames - 1 }
    ensures small { result < 2 ^ 32 }
{
    u64::from(bus.frames.saturating_sub(1))
}

/// The number of the sync slot.
pub(crate) fn sync_slot(bus: &Bus) -> u64
    ensures value { result ≡ sync_slot_of bus.now.shape }
    ensures small { result < 2 ^ 16 }
{
    u64::from(bus.shape.sync_slot())
}

/// The value at a key of the plan.
fn in_plan<'a>(table: &'a Table, key: &str) -> Option<&'a Value>
    ensures { option_map (λ x. view x.now) result ≡ in_plan key.now (table_view table.now) }
{
    match member(table, "plan") {
        Some(plan) => plan.get(key),
        None => None,
    }
}

/// Whether the key has an integer within the bounds, or is not there.
fn may_plan(table: &Table, key: &str, low: u64, high: u64) -> bool
    ensures { result ≡ may_plan key.now low high (table_view table.now) }
{
    absent_or(&Within { low, high }, in_plan(table, key))
}

/// The number at the key, or the default if the key is not there.
fn planned(table: &Table, key: &str, default: u64, low: u64, high: u64) -> u64
    requires stands { may_plan key.now low high (table_view table.now) ≡ true }
    requires low { low ≤ default }
    requires high { default ≤ high }
    ensures value { result ≡ planned key.now default (table_view table.now) }
    ensures low { low ≤ result }
    ensures high { result ≤ high }
{
    number_within(in_plan(table, key), default, low, high)
}

fn has_sizes(table: &Table) -> bool
    ensures { result ≡ has_sizes (table_view table.now) }
{
    has_number(table, "biu", 1, 16)
        && has_number(table, "rmu", 1, 16)
        && has_number(table, "slots", 1, 64)
}

fn has_version(table: &Table) -> bool
    ensures { result ≡ has_version (table_view table.now) }
{
    may_have_number(table, "version", 1, 2)
        && may_have_number(table, "bus", 0, 255)
        && (number_or(member(table, "version"), 1) == 2 || number_or(member(table, "bus"), 0) == 0)
}

fn has_units(table: &Table) -> bool
    ensures { result ≡ has_units (table_view table.now) }
{
    let unit = number_or(in_plan(table, "u"), 10000);
    may_plan(table, "u", 2, 1000000)
        && may_plan(table, "r", 0, unit.saturating_sub(1))
        && may_plan(table, "dmin", 1, 1000000000)
        && may_plan(table, "dmax", 1, 1000000000)
        && number_or(in_plan(table, "dmin"), 5000) <= number_or(in_plan(table, "dmax"), 15000)
}

fn has_windows(table: &Table) -> bool
    ensures { result ≡ has_windows (table_view table.now) }
{
    may_plan(table, "l", 1, 1000)
        && may_plan(table, "h", 1, 1000)
        && may_plan(table, "v", 1, 1000)
        && may_plan(table, "z", 1, 1000)
        && may_plan(table, "c", 0, 1000)
        && may_plan(table, "p", 0, 1000000000)
}

fn has_plan(table: &Table) -> bool
    ensures { result ≡ has_plan (table_view table.now) }
{
    has_units(table)
        && has_windows(table)
        && has_version(table)
        && may_have_number(table, "probation", 0, 4096)
}

/// How messages are spelled.
#[tactic(auto, unfolding(crate::specs::Bus::version_of))]
fn version_of(table: &Table) -> Version
    requires { has_version (table_view table.now) ≡ true }
    ensures { result ≡ version_of (table_view table.now) }
{
    if number_else(table, "version", 1, 1, 2) == 2 {
        Version::Two {
            bus: number_else(table, "bus", 0, 0, 255) as u8,
        }
    } else {
        Version::One
    }
}

/// The size of the bus.
#[tactic(auto, unfolding(crate::specs::Bus::sizes_of))]
fn shape_of(table: &Table) -> Shape
    requires { has_sizes (table_view table.now) ≡ true }
    ensures value { result ≡ sizes_of (table_view table.now) }
    ensures shape { IsShape result }
{
    let biu = number_at(table, "biu", 1, 16) as u8;
    let rmu = number_at(table, "rmu", 1, 16) as u8;
    let slots = number_at(table, "slots", 1, 64) as u16;
    match Shape::new(biu, rmu, slots) {
        Some(shape) => shape,
        None => unreachable!(),
    }
}

/// The plan of the bus.
#[tactic(auto, unfolding(crate::specs::Bus::plan_of))]
fn plan_of(table: &Table) -> Plan
    requires { has_plan (table_view table.now) ≡ true }
    ensures value { result ≡ plan_of (table_view table.now) }
    ensures plan { IsPlan result }
{
    let u = planned(table, "u", 10000, 2, 1000000);
    Plan {
        u: u as u32,
        r: planned(table, "r", 1, 0, u - 1) as u32,
        dmin: planned(table, "dmin", 5000, 1, 1000000000) as u32,
        dmax: planned(table, "dmax", 15000, 1, 1000000000) as u32,
        l: planned(table, "l", 15, 1, 1000) as u32,
        h: planned(table, "h", 6, 1, 1000) as u32,
        v: planned(table, "v", 18, 1, 1000) as u32,
        z: planned(table, "z", 20, 1, 1000) as u32,
        c: planned(table, "c", 1, 0, 1000) as u32,
        p: planned(table, "p", 60200, 0, 1000000000) as u32,
        version: version_of(table),
        probation: number_else(table, "probation", 0, 0, 4096) as u16,
    }
}

#[tactic(auto, unfolding(crate::specs::Bus::has_bus))]
fn has_bus(table: &Table) -> bool
    ensures { result ≡ has_bus (table_view table.now) }
{
    has_sizes(table) && has_number(table, "frames", 1, 4096) && has_plan(table)
}

/// The bus that a document is for. `None` if and only if a number is out of range.
pub fn bus_in(table: &Table) -> Option<Bus>
    ensures value { result ≡ bus_in (table_view table.now) }
    ensures bus { IfSome result IsBus }
{
    if has_bus(table) {
        Some(Bus {
            shape: shape_of(table),
            frames: number_at(table, "frames", 1, 4096) as u32,
            plan: plan_of(table),
        })
    } else {
        None
    }
}
