//! Steps through a TOML document.
ghost use Rattle.std.specs.Prelude.{◌≡◌, Bool, option_map, option_to_list};
ghost use Rattle.std.specs.List.{list_all, list_any};
ghost use Rattle.toml.specs.Data.{Data, Members, as_table, get_member};
ghost use Rattle.toml.specs.View.{view, table_view, array_view};
ghost use Rattle.rb_scenario_document.specs.Walk.{absent_or, entries_in, every_item, has_key, length_of, on_table, passes, tables_in};

use toml::value::Array;
use toml::{Table, Value};

/// A test of one value.
pub trait Test {
    ghost holds: { Self → Data → Bool };

    fn test(&self, value: &Value) -> bool
        ensures { result ≡ holds self.now (view value.now) };
}

/// A test of one table.
pub trait EntryTest {
    ghost holds: { Self → Members → Bool };

    fn test(&self, entry: &Table) -> bool
        ensures { result ≡ holds self.now (table_view entry.now) };
}

/// The value at a key.
pub fn member<'a>(table: &'a Table, key: &str) -> Option<&'a Value>
    ensures { option_map (λ x. view x.now) result ≡ get_member key.now (table_view table.now) }
{
    table.get(key)
}

/// Whether there is a value at a key.
pub fn has_key(table: &Table, key: &str) -> bool
    ensures { result ≡ has_key key.now (table_view table.now) }
{
    member(table, key).is_some()
}

/// Whether each item of an array passes the test.
pub fn every_item<T: Test>(test: &T, values: &Array) -> bool
    ensures { result ≡ every_item (T.holds test.now) (array_view values.now) }
{
    for value in values {
        if !test.test(value) {
            return false;
        }
    }
    true
}

/// Whether a value is there and passes the test.
pub fn passes<T: Test>(test: &T, value: Option<&Value>) -> bool
    ensures { result ≡ passes (T.holds test.now) (option_map (λ x. view x.now) value.entry) }
{
    match value {
        Some(value) => test.test(value),
        None => false,
    }
}

/// Whether a value is not there, or passes the test.
pub fn absent_or<T: Test>(test: &T, value: Option<&Value>) -> bool
    ensures { result ≡ absent_or (T.holds test.now) (option_map (λ x. view x.now) value.entry) }
{
    match value {
        Some(value) => test.test(value),
        None => true,
    }
}

/// How many items an array has.
pub fn length_of(values: &Array) -> usize
    ensures { result ≡ length_of (array_view values.now) }
{
    values.len()
}

/// Whether a value is a table that passes the test.
pub fn on_table<T: EntryTest>(test: &T, value: &Value) -> bool
    ensures { result ≡ on_table (T.holds test.now) (view value.now) }
{
    match value.as_table() {
        Some(entry) => test.test(entry),
        None => false,
    }
}

// Whether some table of an array passes the test.
fn any_table<T: EntryTest>(test: &T, values: &Array) -> bool
    ensures { result ≡ list_any (T.holds test.now) (tables_in (array_view values.now)) }
{
    for value in values {
        if on_table(test, value) {
            return true;
        }
    }
    false
}

/// Whether some entry passes the test: a table of the array that the value is.
pub fn any_entry<T: EntryTest>(test: &T, value: Option<&Value>) -> bool
    ensures { result ≡ list_any (T.holds test.now)
        (entries_in (option_map (λ x. view x.now) value.entry)) }
{
    match value {
        Some(value) => match value.as_array() {
            Some(values) => any_table(test, values),
            None => false,
        },
        None => false,
    }
}

// Whether a value is no table, or passes the test.
fn unless_table<T: EntryTest>(test: &T, value: &Value) -> bool
    ensures { result ≡ list_all (T.holds test.now) (option_to_list (as_table (view value.now))) }
{
    match value.as_table() {
        Some(entry) => test.test(entry),
        None => true,
    }
}

// Whether each table of an array passes the test.
fn every_table<T: EntryTest>(test: &T, values: &Array) -> bool
    ensures { result ≡ list_all (T.holds test.now) (tables_in (array_view values.now)) }
{
    for value in values {
        if !unless_table(test, value) {
            return false;
        }
    }
    true
}

/// Whether each entry passes the test: each table of the array that the value is.
pub fn every_entry<T: EntryTest>(test: &T, value: Option<&Value>) -> bool
    ensures { result ≡ list_all (T.holds test.now)
        (entries_in (option_map (λ x. view x.now) value.entry)) }
{
    match value {
        Some(value) => match value.as_array() {
            Some(values) => every_table(test, values),
            None => true,
        },
        None => true,
    }
}
