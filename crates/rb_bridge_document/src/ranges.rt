//! Whether what a document says of a bridge fits its two buses, and the pairs that it says.
ghost use Rattle.std.specs.Prelude.{◌≡◌, ◌≤◌, ◌==◌, ◌&&◌, get_or, option_map};
ghost use Rattle.std.specs.List.{list_any};
ghost use Rattle.toml.specs.View.{array_view, table_view, view};
ghost use Rattle.rb_scenario_document.specs.Values.{number_or};
ghost use Rattle.rb_scenario_document.specs.Walk.{every_item, length_of};
ghost use Rattle.rb_scenario.specs.Acceptance.{as_scenario};
ghost use Rattle.rb_rules_bridge.specs.Bridges.{biu_on};
ghost use Rattle.rb_bridge_document.specs.Documents.{are_apart, is_below, is_head, joins, pair_in, pairs_in, when};

use arrayvec::ArrayVec;
use rb_rules_bridge::{Bank, Pair};
use rb_scenario::Scenario;
use toml::Value;
use toml::value::Array;

// The number that the value is, if it is one below the count.
pub(crate) fn below(count: u8, value: Option<&Value>) -> Option<u8>
    ensures { result ≡ when (is_below count (option_map (λ x. view x.now) value.entry))
        (number_or 0 (option_map (λ x. view x.now) value.entry)) }
{
    match value {
        Some(value) => match value.as_integer() {
            Some(number) => match u8::try_from(number) {
                Ok(number) => { if number < count { Some(number) } else { None } }
                Err(_) => None,
            },
            None => None,
        },
        None => None,
    }
}

// Whether the application of a BIU is a table.
fn has_table(apps: &[u8; 16], biu: u8) -> bool
    ensures { result ≡ (get_or apps.now biu 0 == 0) }
{
    match apps.get(usize::from(biu)) {
        Some(app) => *app == 0,
        None => true,
    }
}

// The BIU that the value names, if it is one with a table.
fn head_in(scenario: &Scenario, value: Option<&Value>) -> Option<u8>
    ensures { result
        ≡ when (is_head (as_scenario scenario.now) (option_map (λ x. view x.now) value.entry))
        (number_or 0 (option_map (λ x. view x.now) value.entry)) }
{
    match below(scenario.plan.shape().biu(), value) {
        Some(biu) => {
            if has_table(&scenario.apps, biu) {
                Some(biu)
            } else {
                None
            }
        }
        None => None,
    }
}

// The pair that the value is, if it joins the two buses.
fn joined(left: &Scenario, right: &Scenario, value: &Value) -> Option<Pair>
    ensures { result ≡ when (joins (as_scenario left.now) (as_scenario right.now) (view value.now))
        (pair_in (view value.now)) }
{
    match head_in(left, value.get(0)) {
        Some(near) => match head_in(right, value.get(1)) {
            Some(far) => Some(Pair {
                left: near,
                right: far,
            }),
            None => None,
        },
        None => None,
    }
}

// The pairs that the values are, if each joins the two buses.
pub(crate) fn pairs_among(
    left: &Scenario,
    right: &Scenario,
    values: &Array,
) -> Option<ArrayVec<Pair, 16>>
    requires { length_of (array_view values.now) ≤ 16 }
    ensures { option_map (λ v. v.items) result
        ≡ when (every_item (joins (as_scenario left.now) (as_scenario right.now)) (array_view values.now)) (pairs_in (array_view values.now)) }
{
    let mut pairs = ArrayVec::new();
    for value in values {
        match joined(left, right, value) {
            Some(pair) => pairs.push(pair),
            None => return None,
        }
    }
    Some(pairs)
}

// The BIU of a pair on a bank.
fn biu_on(bank: Bank, pair: &Pair) -> u8
    ensures { result ≡ biu_on bank pair.now }
{
    match bank {
        Bank::Left => pair.left,
        Bank::Right => pair.right,
    }
}

// Whether the BIU is one of a pair on the bank.
fn is_met(bank: Bank, biu: u8, pairs: &[Pair]) -> bool
    ensures { result ≡ list_any (λ q. biu == biu_on bank q) pairs.now }
{
    for pair in pairs {
        if biu == biu_on(bank, pair) {
            return true;
        }
    }
    false
}

// Whether no two pairs share a BIU on the bank.
pub(crate) fn are_apart(bank: Bank, pairs: &[Pair]) -> bool
    ensures { result ≡ are_apart bank pairs.now }
{
    for i in 0..pairs.len() {
        if is_met(bank, biu_on(bank, &pairs[i]), &pairs[i + 1..]) {
            return false;
        }
    }
    true
}
