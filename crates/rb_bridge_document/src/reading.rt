//! Reading a bridge.
ghost use Rattle.std.specs.Prelude.{◌≡◌, ◌≤◌, ◌⊎◌, false, true, IfErr, IfOk, IfSome, None, option_map};
ghost use Rattle.toml.specs.View.{table_view, view};
ghost use Rattle.rb_rules.specs.Entries.{IsListed};
ghost use Rattle.rb_rules.specs.Lawful.{IsLawful};
ghost use Rattle.rb_scenario_document.specs.Values.{number_at, number_or};
ghost use Rattle.rb_scenario_document.specs.Walk.{every_item, length_of};
ghost use Rattle.rb_scenario_entries.specs.declared.refusal.Refusal.{Refusal};
ghost use Rattle.rb_scenario.specs.Acceptance.{IsAccepted, IsRefused, as_scenario};
ghost use Rattle.rb_rules_bridge.specs.Bridges.{IsBridge};
ghost use Rattle.rb_bridge_document.specs.declared.refusal.BridgeRefusal.{BridgeRefusal};
ghost use Rattle.rb_bridge_document.specs.Acceptance.{AreListed, IsBridgeAccepted, IsBridgeRefused, IsFirstBroken, SaysBridge, as_bridge, left_refusal, right_refusal};
ghost use Rattle.rb_bridge_document.specs.Documents.{bridge_of, has_bridge_form, has_slot, is_below, is_in_range, joins, pair_items, pairs_in, slot_key, text_at, when};

use crate::bridge::Bridge;
use crate::forms::{has_bridge_form, text_at};
use crate::ranges::{are_apart, pairs_among};
use crate::refusal::BridgeRefusal;
use arrayvec::ArrayVec;
use rb_rules_bridge::{Bank, Pair};
use rb_scenario::{Refusal, Scenario, read};
use rb_scenario_document::walk::member;
use std::alloc::Global;
use toml::{Table, Value};

// The number that the value is, if it is one below the count.
fn slot_below(count: u16, value: Option<&Value>) -> Option<u16>
    ensures { result ≡ when (is_below count (option_map (λ x. view x.now) value.entry))
        (number_or 0 (option_map (λ x. view x.now) value.entry)) }
{
    match value {
        Some(value) => match value.as_integer() {
            Some(number) => match u16::try_from(number) {
                Ok(number) => { if number < count { Some(number) } else { None } }
                Err(_) => None,
            },
            None => None,
        },
        None => None,
    }
}

// The key of a bus's slot.
fn slot_key(bank: Bank) -> &'static str
    ensures { result.now ≡ slot_key bank }
{
    match bank {
        Bank::Left => "slot_left",
        Bank::Right => "slot_right",
    }
}

// The slot of a bus that is carried over, if the bus has it.
fn slot_at(bank: Bank, scenario: &Scenario, table: &Table) -> Option<u16>
    ensures { result ≡ when (has_slot bank (as_scenario scenario.now) (table_view table.now))
        (number_at (slot_key bank) 0 (table_view table.now)) }
{
    slot_below(scenario.plan.shape().slots(), member(table, slot_key(bank)))
}

// The pairs, if each joins the two buses.
fn pairs_at(left: &Scenario, right: &Scenario, table: &Table) -> Option<ArrayVec<Pair, 16>>
    requires { length_of (pair_items (table_view table.now)) ≤ 16 }
    ensures { option_map (λ v. v.items) result
        ≡ when (every_item (joins (as_scenario left.now) (as_scenario right.now)) (pair_items (table_view table.now))) (pairs_in (pair_items (table_view table.now))) }
{
    match member(table, "bridges") {
        Some(value) => match value.as_array() {
            Some(values) => pairs_among(left, right, values),
            None => Some(ArrayVec::new()),
        },
        None => Some(ArrayVec::new()),
    }
}

// The bridge of two buses that the document says, if it fits them.
fn join(left: Scenario, right: Scenario, table: &Table) -> Option<Bridge>
    requires { length_of (pair_items (table_view table.now)) ≤ 16 }
    ensures fits { IfSome result (λ b. (is_in_range (as_scenario left) (as_scenario right) (table_view table.now) ≡ true)
        × (as_bridge b ≡ bridge_of (as_scenario left) (as_scenario right) (table_view table.now))) }
    ensures none { result ≡ None
        → is_in_range (as_scenario left) (as_scenario right) (table_view table.now) ≡ false }
{
    let Some(pairs) = pairs_at(&left, &right, table) else {
        return None;
    };
    if !are_apart(Bank::Left, pairs.as_slice()) {
        return None;
    }
    if !are_apart(Bank::Right, pairs.as_slice()) {
        return None;
    }
    let Some(left_slot) = slot_at(Bank::Left, &left, table) else {
        return None;
    };
    let Some(right_slot) = slot_at(Bank::Right, &right, table) else {
        return None;
    };
    if left.frames != right.frames {
        return None;
    }
    Some(Bridge {
        left,
        right,
        pairs,
        left_slot,
        right_slot,
    })
}

// The scenario that the text at a key says, or why it says none.
fn bus_at(alloc: Global, table: &Table, key: &str) -> Result<Scenario, Refusal>
    ensures accepted { IfOk result (IsAccepted (text_at key.now (table_view table.now))) }
    ensures lawful { IfOk result (λ s. IsLawful (as_scenario s)) }
    ensures listed { IfOk result (λ s. IsListed (as_scenario s)) }
    ensures refused { IfErr result (IsRefused (text_at key.now (table_view table.now))) }
{
    read(alloc, text_at(table, key).as_bytes())
}

fn left_refused(why: Refusal) -> BridgeRefusal
    ensures { result ≡ left_refusal why }
{
    match why {
        Refusal::OutOfMemory => BridgeRefusal::OutOfMemory,
        why => BridgeRefusal::LeftRefused(why),
    }
}

fn right_refused(why: Refusal) -> BridgeRefusal
    ensures { result ≡ right_refusal why }
{
    match why {
        Refusal::OutOfMemory => BridgeRefusal::OutOfMemory,
        why => BridgeRefusal::RightRefused(why),
    }
}

// The bridge that a document says, or the first rule that it breaks.
fn read_table(alloc: Global, table: &Table) -> Result<Bridge, BridgeRefusal>
    ensures says { IfOk result (λ b. SaysBridge (table_view table.now) (as_bridge b)) }
    ensures bridge { IfOk result (λ b. IsBridge (as_bridge b)) }
    ensures listed { IfOk result (λ b. AreListed (as_bridge b)) }
    ensures refused { IfErr result (λ e. (e ≡ BridgeRefusal.OutOfMemory)
        ⊎ IsFirstBroken (table_view table.now) e) }
{
    if !has_bridge_form(table) {
        return Err(BridgeRefusal::BridgeForm);
    }
    let left = match bus_at(alloc, table, "left") {
        Ok(left) => left,
        Err(why) => return Err(left_refused(why)),
    };
    let right = match bus_at(alloc, table, "right") {
        Ok(right) => right,
        Err(why) => return Err(right_refused(why)),
    };
    match join(left, right, table) {
        Some(bridge) => Ok(bridge),
        None => Err(BridgeRefusal::BridgeRange),
    }
}

/// The bridge that the bytes of a TOML document say, or why there is none: the first rule of
/// `BridgeRefusal` that it breaks. The document has the keys `left` and `right`, each with the text
/// of a scenario, `bridges` with 1 to 16 pairs of BIUs, and `slot_left` and `slot_right`. Want of
/// memory may come at any time. The form is this project's own.
pub fn read_bridge(alloc: Global, bytes: &[u8]) -> Result<Bridge, BridgeRefusal>
    ensures accepted { IfOk result (λ b. IsBridgeAccepted bytes.now (as_bridge b)) }
    ensures bridge { IfOk result (λ b. IsBridge (as_bridge b)) }
    ensures listed { IfOk result (λ b. AreListed (as_bridge b)) }
    ensures refused { IfErr result (IsBridgeRefused bytes.now) }
{
    let table = match toml::table_from_slice(alloc, bytes) {
        Ok(table) => table,
        Err(error) => {
            return Err(if error.is_memory() {
                BridgeRefusal::OutOfMemory
            } else {
                BridgeRefusal::BridgeToml
            });
        }
    };
    read_table(alloc, &table)
}
