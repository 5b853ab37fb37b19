//! Link entries: the delays of some messages.
ghost use Rattle.std.specs.Prelude.{◌≡◌, ◌++◌, ◌≤◌, ◌+◌, true, map, IfOk, OnOk, option_map, option_to_list};
ghost use Rattle.std.specs.List.{list_all};
ghost use Rattle.toml.specs.Data.{as_table};
ghost use Rattle.toml.specs.View.{view, table_view, array_view};
ghost use Rattle.rb_scenario_document.specs.Walk.{entries_in, tables_in};
ghost use Rattle.rb_scenario_entries.specs.Links.{are_apart, is_link, pattern_of, rule_of};

use crate::bus::{Bus, last_frame, sync_slot};
use rb_rules::{Pattern, Rule};
use rb_scenario_document::names::{is_of_bius, pattern_at};
use rb_scenario_document::values::{has_number, may_have_range, number_at, range_at};
use rb_scenario_document::walk::EntryTest;
use std::alloc::{AllocError, Global};
use toml::value::Array;
use toml::{Table, Value};

/// Whether both are nodes of the bus, and of different kinds.
pub(crate) fn are_apart(from: Option<Pattern>, to: Option<Pattern>) -> bool
    ensures { result ≡ are_apart from to }
{
    match from {
        Some(from) => match to {
            Some(to) => is_of_bius(&from) != is_of_bius(&to),
            None => false,
        },
        None => false,
    }
}

/// Whether the numbers of a link entry are in range.
fn is_link(bus: &Bus, entry: &Table) -> bool
    ensures { result ≡ is_link bus.now (table_view entry.now) }
{
    are_apart(
        pattern_at(&bus.shape, entry, "from"),
        pattern_at(&bus.shape, entry, "to"),
    ) && has_number(entry, "delay", 1, 1000000000)
        && may_have_range(entry, "frames", 0, last_frame(bus))
        && may_have_range(entry, "slots", 0, sync_slot(bus))
        && may_have_range(entry, "stages", 1, 3)
}

/// Link entries whose numbers are in range.
#[derive(Clone, Copy)]
pub struct IsLink {
    pub bus: Bus,
}

impl EntryTest for IsLink {
    ghost use Rattle.rb_scenario_entries.specs.Links.{is_link};

    ghost holds = { λ l. is_link l.bus };

    fn test(&self, entry: &Table) -> bool {
        is_link(&self.bus, entry)
    }
}

/// The nodes that are named at a key of an entry in range.
pub(crate) fn pattern_of(bus: &Bus, key: &str, entry: &Table) -> Pattern
    ensures { result ≡ pattern_of bus.now key.now (table_view entry.now) }
{
    pattern_at(&bus.shape, entry, key).unwrap_or(Pattern::AllBiu)
}

/// The rule of an entry.
#[tactic(auto, unfolding(crate::specs::Links::rule_of))]
fn rule_of(bus: &Bus, entry: &Table) -> Rule
    requires { is_link bus.now (table_view entry.now) ≡ true }
    ensures { result ≡ rule_of bus.now (table_view entry.now) }
{
    let frames = range_at(entry, "frames", 0, last_frame(bus));
    let slots = range_at(entry, "slots", 0, sync_slot(bus));
    let stages = range_at(entry, "stages", 1, 3);
    Rule {
        from: pattern_of(bus, "from", entry),
        to: pattern_of(bus, "to", entry),
        frames: (frames.0 as u32, frames.1 as u32),
        slots: (slots.0 as u16, slots.1 as u16),
        stages: (stages.0 as u8, stages.1 as u8),
        delay: number_at(entry, "delay", 1, 1000000000) as u32,
    }
}

/// Takes the rule of an entry, if the value is one.
fn take_rule(bus: &Bus, value: &Value, rules: &mut Vec<Rule>) -> Result<(), AllocError>
    requires { list_all (is_link bus.now) (option_to_list (as_table (view value.now))) ≡ true }
    ensures { OnOk result (rules.new.items
        ≡ rules.old.items ++ map (rule_of bus.now) (option_to_list (as_table (view value.now)))) }
{
    if let Some(entry) = value.as_table() {
        rules.push(rule_of(bus, entry))?;
    }
    Ok(())
}

fn rules_among(alloc: Global, bus: &Bus, values: &Array) -> Result<Vec<Rule>, AllocError>
    requires { list_all (is_link bus.now) (tables_in (array_view values.now)) ≡ true }
    ensures { IfOk result (λ v. v.items
        ≡ map (rule_of bus.now) (tables_in (array_view values.now))) }
{
    let mut rules = Vec::new(alloc);
    for value in values {
        take_rule(bus, value, &mut rules)?;
    }
    Ok(rules)
}

/// The rules of the entries in range.
pub fn rules_in(alloc: Global, bus: &Bus, value: Option<&Value>) -> Result<Vec<Rule>, AllocError>
    requires { list_all (is_link bus.now) (entries_in (option_map (λ x. view x.now) value)) ≡ true }
    ensures { IfOk result (λ v. v.items
        ≡ map (rule_of bus.now) (entries_in (option_map (λ x. view x.now) value.entry))) }
{
    match value {
        Some(value) => match value.as_array() {
            Some(values) => rules_among(alloc, bus, values),
            None => Ok(Vec::new(alloc)),
        },
        None => Ok(Vec::new(alloc)),
    }
}
