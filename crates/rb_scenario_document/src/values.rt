//! Numbers, pairs and lists of numbers in a document.
ghost use Rattle.std.specs.Prelude.{◌≡◌, ◌≤◌, true, option_map};
ghost use Rattle.toml.specs.View.{view, table_view};
ghost use Rattle.rb_scenario_document.specs.Walk.{absent_or};
ghost use Rattle.rb_scenario_document.specs.Values.{has_number, has_range, is_list, is_range, is_within, item_at, may_have_list, may_have_number, may_have_range, number_at, number_or, pair_of, range_at};

use crate::forms::{has_length, is_array_of};
use crate::walk::{Test, absent_or, member, passes};
use toml::{Table, Value};

/// The integers from `low` to `high`, both included.
#[derive(Clone, Copy)]
pub struct Within {
    pub low: u64,
    pub high: u64,
}

impl Test for Within {
    ghost holds = { λ w. is_within w.low w.high };

    fn test(&self, value: &Value) -> bool {
        match value.as_integer() {
            Some(number) => match u64::try_from(number) {
                Ok(number) => self.low <= number && number <= self.high,
                Err(_) => false,
            },
            None => false,
        }
    }
}

/// Whether the key has an integer within the bounds, both included.
pub fn has_number(table: &Table, key: &str, low: u64, high: u64) -> bool
    ensures { result ≡ has_number key.now low high (table_view table.now) }
{
    passes(&Within { low, high }, member(table, key))
}

/// Whether the key has an integer within the bounds, both included, or is not there.
pub fn may_have_number(table: &Table, key: &str, low: u64, high: u64) -> bool
    ensures { result ≡ may_have_number key.now low high (table_view table.now) }
{
    absent_or(&Within { low, high }, member(table, key))
}

/// The number that a value is, or else the default.
pub fn number_or(value: Option<&Value>, default: u64) -> u64
    ensures { result ≡ number_or default (option_map (λ x. view x.now) value.entry) }
{
    match value {
        Some(value) => match value.as_integer() {
            Some(number) => u64::try_from(number).unwrap_or(default),
            None => default,
        },
        None => default,
    }
}

/// The number that a value is, or else the default. Both lie within the bounds.
pub fn number_within(value: Option<&Value>, default: u64, low: u64, high: u64) -> u64
    requires stands { absent_or (is_within low high) (option_map (λ x. view x.now) value) ≡ true }
    requires low { low ≤ default }
    requires high { default ≤ high }
    ensures value { result ≡ number_or default (option_map (λ x. view x.now) value.entry) }
    ensures low { low ≤ result }
    ensures high { result ≤ high }
{
    number_or(value, default)
}

/// The number at a key that is there.
pub fn number_at(table: &Table, key: &str, low: u64, high: u64) -> u64
    requires { has_number key.now low high (table_view table.now) ≡ true }
    ensures value { result ≡ number_at key.now 0 (table_view table.now) }
    ensures low { low ≤ result }
    ensures high { result ≤ high }
{
    number_or(member(table, key), 0)
}

/// The number at a key, or the default if the key is not there.
pub fn number_else(table: &Table, key: &str, default: u64, low: u64, high: u64) -> u64
    requires stands { may_have_number key.now low high (table_view table.now) ≡ true }
    requires low { low ≤ default }
    requires high { default ≤ high }
    ensures value { result ≡ number_at key.now default (table_view table.now) }
    ensures low { low ≤ result }
    ensures high { result ≤ high }
{
    number_or(member(table, key), default)
}

/// The pairs of numbers from `low` to `high`, both included, of which the first is at most the
/// second.
#[derive(Clone, Copy)]
pub struct Range {
    pub low: u64,
    pub high: u64,
}

impl Test for Range {
    ghost holds = { λ r. is_range r.low r.high };

    fn test(&self, value: &Value) -> bool {
        let within = Within {
            low: self.low,
            high: self.high,
        };
        let (first, last) = pair(value);
        passes(&within, value.get(0)) && passes(&within, value.get(1)) && first <= last
    }
}

/// The two numbers of a pair; 0 if there is none.
pub fn pair(value: &Value) -> (u64, u64)
    ensures { result ≡ pair_of (view value.now) }
{
    (number_or(value.get(0), 0), number_or(value.get(1), 0))
}

/// Whether the key has such a pair.
pub fn has_range(table: &Table, key: &str, low: u64, high: u64) -> bool
    ensures { result ≡ has_range key.now low high (table_view table.now) }
{
    passes(&Range { low, high }, member(table, key))
}

/// Whether the key has such a pair, or is not there.
pub fn may_have_range(table: &Table, key: &str, low: u64, high: u64) -> bool
    ensures { result ≡ may_have_range key.now low high (table_view table.now) }
{
    absent_or(&Range { low, high }, member(table, key))
}

/// The pair at a key, within the bounds; the bounds if the key is not there.
pub fn range_at(table: &Table, key: &str, low: u64, high: u64) -> (u64, u64)
    requires stands { may_have_range key.now low high (table_view table.now) ≡ true }
    requires order { low ≤ high }
    ensures value { result ≡ range_at key.now (low, high) (table_view table.now) }
    ensures first { (low ≤ result.0) × (result.0 ≤ result.1) }
    ensures last { result.1 ≤ high }
{
    match member(table, key) {
        Some(value) => pair(value),
        None => (low, high),
    }
}

/// The pair at a key; zeros if the key is not there.
pub fn pair_at(table: &Table, key: &str) -> (u64, u64)
    ensures { result ≡ range_at key.now (0, 0) (table_view table.now) }
{
    match member(table, key) {
        Some(value) => pair(value),
        None => (0, 0),
    }
}

/// The pair at a key that is there, within the bounds.
pub fn range_there(table: &Table, key: &str, low: u64, high: u64) -> (u64, u64)
    requires { has_range key.now low high (table_view table.now) ≡ true }
    ensures value { result ≡ range_at key.now (0, 0) (table_view table.now) }
    ensures first { (low ≤ result.0) × (result.0 ≤ result.1) }
    ensures last { result.1 ≤ high }
{
    pair_at(table, key)
}

/// Whether the key has an array of `count` items that pass, or is not there.
pub fn may_have_list<T: Test>(table: &Table, key: &str, count: u8, test: &T) -> bool
    ensures { result ≡ may_have_list key.now count (T.holds test.now) (table_view table.now) }
{
    match member(table, key) {
        Some(value) => has_length(count.into(), value) && is_array_of(test, value),
        None => true,
    }
}

/// The item at place `index` of the array at a key.
pub fn item_at<'a>(table: &'a Table, key: &str, index: usize) -> Option<&'a Value>
    ensures { option_map (λ x. view x.now) result ≡ item_at key.now index (table_view table.now) }
{
    match member(table, key) {
        Some(value) => value.get(index),
        None => None,
    }
}

/// The number at place `index` of the array at a key, none above `high`; 0 if there is none.
pub fn listed_number(table: &Table, key: &str, count: u8, index: usize, high: u64) -> u64
    requires { may_have_list key.now count (is_within 0 high) (table_view table.now) ≡ true }
    ensures value { result ≡ number_or 0 (item_at key.now index (table_view table.now)) }
    ensures high { result ≤ high }
{
    number_or(item_at(table, key, index), 0)
}
