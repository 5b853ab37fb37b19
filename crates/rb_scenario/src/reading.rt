//! From a document to the scenario that it says, or the first rule that it breaks.
ghost use Rattle.std.specs.Prelude.{◌≡◌, ◌&&◌, ◌==◌, ◌≤◌, ◌/◌, ◌+◌, true, false, not, codes, IfErr, IfOk, IfSome, is_none};
ghost use Rattle.std.specs.List.{list_all, list_any};
ghost use Rattle.toml.specs.View.{table_view};
ghost use Rattle.rb_base.specs.Sizes.{IsShape};
ghost use Rattle.rb_rules.specs.Plan.{IsPlan};
ghost use Rattle.rb_scenario_document.specs.Values.{may_have_number};
ghost use Rattle.rb_scenario_document.specs.Walk.{entries_at};
ghost use Rattle.rb_scenario_entries.specs.Bus.{IsBus};
ghost use Rattle.rb_scenario_entries.specs.Faults.{onsets_of};
ghost use Rattle.rb_scenario_entries.specs.Links.{is_link, rules_of};
ghost use Rattle.rb_scenario.specs.Onsets.{is_good_by};
ghost use Rattle.rb_scenario_entries.specs.Outcome.{IsRefusalBy};
ghost use Rattle.rb_scenario.specs.Reading.{base_delay_of, delays_on, fits_bus};
ghost use Rattle.rb_scenario.specs.Rules.{are_delays};
ghost use Rattle.rb_scenario_entries.specs.Says.{is_say, says_of};

use crate::hosts::has_lists;
use crate::rules::{are_delays, are_sayers_faulty};
use rb_rules::{Rule, Say};
use rb_scenario_document::values::{may_have_number, number_else};
use rb_scenario_document::walk::{every_entry, member};
use rb_scenario_entries::bus::Bus;
use rb_scenario_entries::clocks::has_clocks;
use rb_scenario_entries::faults::has_faults;
use rb_scenario_entries::links::{IsLink, rules_in};
use rb_scenario_entries::refusal::Refusal;
use rb_scenario_entries::says::{IsSay, says_in};
use std::alloc::{AllocError, Global};
use toml::Table;

/// Whether the values of the entries, and those at the root that depend on the bus, are in range.
#[tactic(auto, unfolding(crate::specs::Reading::fits_bus))]
pub(crate) fn fits_bus(bus: &Bus, table: &Table) -> bool
    requires { IsBus bus.now }
    ensures { result ≡ fits_bus bus.now (table_view table.now) }
{
    has_lists(bus.shape.biu(), table)
        && may_have_number(table, "delay", 1, 1000000000)
        && has_clocks(bus, table)
        && every_entry(&IsLink { bus: *bus }, member(table, "link"))
        && has_faults(bus, table)
        && every_entry(&IsSay { bus: *bus }, member(table, "say"))
}

/// The rules of a document's link entries.
fn rules_of(alloc: Global, bus: &Bus, table: &Table) -> Result<Vec<Rule>, AllocError>
    requires { list_all (is_link bus.now) (entries_at (codes "link") (table_view table.now))
        ≡ true }
    ensures { IfOk result (λ v. v.items ≡ rules_of bus.now (table_view table.now)) }
{
    rules_in(alloc, bus, member(table, "link"))
}

/// What a document's say entries say.
fn says_of(alloc: Global, bus: &Bus, table: &Table) -> Result<Vec<Say>, AllocError>
    requires bus { IsBus bus.now }
    requires says { list_all (is_say bus.now) (entries_at (codes "say") (table_view table.now))
        ≡ true }
    ensures { IfOk result (λ v. v.items ≡ says_of bus.now (table_view table.now)) }
{
    says_in(alloc, bus, member(table, "say"))
}

/// The delay of a message for which there is no rule.
fn base_delay_of(bus: &Bus, table: &Table) -> u32
    requires bus { IsBus bus.now }
    requires delay { may_have_number (codes "delay") 1 1000000000 (table_view table.now) ≡ true }
    ensures { result ≡ base_delay_of bus.now.plan (table_view table.now) }
{
    let midway = (u64::from(bus.plan.dmin) + u64::from(bus.plan.dmax)) / 2;
    number_else(table, "delay", midway, 1, 1000000000) as u32
}

/// The delays of a document. `DelayBounds` is the answer only if one is outside the plan's bounds,
/// and `Ok` only if none is. `OutOfMemory` may be the answer in both cases.
pub(crate) fn delays_of(
    alloc: Global,
    bus: &Bus,
    table: &Table,
) -> Result<(u32, Vec<Rule>), Refusal>
    requires bus { IsBus bus.now }
    requires delay { may_have_number (codes "delay") 1 1000000000 (table_view table.now) ≡ true }
    requires links { list_all (is_link bus.now) (entries_at (codes "link") (table_view table.now))
        ≡ true }
    ensures delays { IfOk result (λ d. record { base = d.0; rules = d.1.items }
        ≡ delays_on bus.now (table_view table.now)) }
    ensures kept { IfOk result (λ _. are_delays bus.now.plan (delays_on bus.now (table_view table.now)) ≡ true) }
    ensures refused { IfErr result (IsRefusalBy Refusal.DelayBounds
        (are_delays bus.now.plan (delays_on bus.now (table_view table.now)))) }
{
    let base = base_delay_of(bus, table);
    let rules = rules_of(alloc, bus, table)?;
    if are_delays(&bus.plan, base, &rules) {
        Ok((base, rules))
    } else {
        Err(Refusal::DelayBounds)
    }
}

/// What a document's say entries say. `SayOfGood` is the answer only if a node says something that
/// is good at its first place, and `Ok` only if none does. `OutOfMemory` may be the answer in both
/// cases.
pub(crate) fn sayings_of(
    alloc: Global,
    bus: &Bus,
    table: &Table,
    biu: &[Option<(u32, u16)>; 16],
    rmu: &[Option<(u32, u16)>; 16],
) -> Result<Vec<Say>, Refusal>
    requires bus { IsBus bus.now }
    requires says { list_all (is_say bus.now) (entries_at (codes "say") (table_view table.now))
        ≡ true }
    ensures says { IfOk result (λ v. v.items ≡ says_of bus.now (table_view table.now)) }
    ensures kept { IfOk result (λ _. list_all (λ say. not (is_good_by bus.now.shape biu.now rmu.now say.from say.frames.0 say.slots.0))
        (says_of bus.now (table_view table.now)) ≡ true) }
    ensures refused { IfErr result (IsRefusalBy Refusal.SayOfGood
        (list_all (λ say. not (is_good_by bus.now.shape biu.now rmu.now say.from say.frames.0 say.slots.0))
        (says_of bus.now (table_view table.now)))) }
{
    let says = says_of(alloc, bus, table)?;
    if are_sayers_faulty(&bus.shape, biu, rmu, &says) {
        Ok(says)
    } else {
        Err(Refusal::SayOfGood)
    }
}
