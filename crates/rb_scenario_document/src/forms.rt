//! The rules on keys and forms: each is looked at over the whole document.
ghost use Rattle.std.specs.Prelude.{◌≡◌, List, ℕ, Bool, not, option_map, string_bytes};
ghost use Rattle.std.specs.List.{list_any};
ghost use Rattle.std.specs.BTreeMap.{keys as keys_in};
ghost use Rattle.toml.specs.Data.{Members, get_member};
ghost use Rattle.toml.specs.View.{view, table_view};
ghost use Rattle.rb_scenario_document.specs.Fields.{Entry, plan_fields};
ghost use Rattle.rb_scenario_document.specs.Forms.{has_form, has_length, has_unknown, has_unknown_key, has_wrong, has_wrong_form, in_entries, is_array_of, is_known, is_pair, lacks, lacks_key, says_something, somewhere};
ghost use Rattle.rb_scenario_document.specs.Shown.{fields_shown};
ghost use Rattle.rb_scenario_document.specs.Walk.{absent_or, entries_at, on_table, passes};

use crate::fields::{
    Field, Form, clock_fields, fault_fields, link_fields, plan_fields, root_fields, say_fields,
};
use crate::walk::{EntryTest, Test, any_entry, every_item, has_key, length_of, member, on_table};
use toml::{Table, Value};

#[derive(Clone, Copy)]
struct IsInteger;

impl Test for IsInteger {
    ghost use Rattle.rb_scenario_document.specs.Forms.{is_integer};

    ghost holds = { λ _. is_integer };

    fn test(&self, value: &Value) -> bool {
        value.as_integer().is_some()
    }
}

#[derive(Clone, Copy)]
struct IsText;

impl Test for IsText {
    ghost use Rattle.rb_scenario_document.specs.Forms.{is_text};

    ghost holds = { λ _. is_text };

    fn test(&self, value: &Value) -> bool {
        value.as_str().is_some()
    }
}

#[derive(Clone, Copy)]
struct IsFlag;

impl Test for IsFlag {
    ghost use Rattle.rb_scenario_document.specs.Forms.{is_flag};

    ghost holds = { λ _. is_flag };

    fn test(&self, value: &Value) -> bool {
        value.as_bool().is_some()
    }
}

#[derive(Clone, Copy)]
struct IsTable;

impl Test for IsTable {
    ghost use Rattle.rb_scenario_document.specs.Forms.{is_table};

    ghost holds = { λ _. is_table };

    fn test(&self, value: &Value) -> bool {
        value.as_table().is_some()
    }
}

#[derive(Clone, Copy)]
struct IsPair;

impl Test for IsPair {
    ghost use Rattle.rb_scenario_document.specs.Forms.{is_pair};

    ghost holds = { λ _. is_pair };

    fn test(&self, value: &Value) -> bool {
        is_array_of(&IsInteger, value) && has_length(2, value)
    }
}

/// Whether the value is an array of items that pass.
pub fn is_array_of<T: Test>(test: &T, value: &Value) -> bool
    ensures { result ≡ is_array_of (T.holds test.now) (view value.now) }
{
    match value.as_array() {
        Some(values) => every_item(test, values),
        None => false,
    }
}

/// Whether the value is an array of `count` items.
pub fn has_length(count: usize, value: &Value) -> bool
    ensures { result ≡ has_length count (view value.now) }
{
    match value.as_array() {
        Some(values) => length_of(values) == count,
        None => false,
    }
}

/// Whether the value is of the form.
pub fn has_form(form: Form, value: &Value) -> bool
    ensures { result ≡ has_form form (view value.now) }
{
    match form {
        Form::Integer => IsInteger.test(value),
        Form::Text => IsText.test(value),
        Form::Flag => IsFlag.test(value),
        Form::Pair => IsPair.test(value),
        Form::Table => IsTable.test(value),
        Form::Integers => is_array_of(&IsInteger, value),
        Form::Texts => is_array_of(&IsText, value),
        Form::Pairs => is_array_of(&IsPair, value),
        Form::Tables => is_array_of(&IsTable, value),
    }
}

/// Whether a value is there and of another form.
fn is_wrong(form: Form, value: Option<&Value>) -> bool
    ensures { result ≡ not (absent_or (has_form form) (option_map (λ x. view x.now) value.entry)) }
{
    match value {
        Some(value) => !has_form(form, value),
        None => false,
    }
}

/// Whether a field that must be there is not.
fn lacks(fields: &[Field], table: &Table) -> bool
    ensures { result ≡ lacks (fields_shown fields.now) (table_view table.now) }
{
    for field in fields {
        if field.needed && !has_key(table, field.key) {
            return true;
        }
    }
    false
}

/// Whether the key is of one of the fields.
fn is_known(fields: &[Field], key: &str) -> bool
    ensures { result ≡ is_known (fields_shown fields.now) key.now }
{
    for field in fields {
        if key == field.key {
            return true;
        }
    }
    false
}

fn any_key_unknown(fields: &[Field], table: &Table) -> bool
    ensures { result ≡ list_any (λ k. not (is_known (fields_shown fields.now) (string_bytes k)))
        (keys_in table.now) }
{
    table.keys().any(|key| !is_known(fields, key.as_str()))
}

/// Whether some key is of none of the fields.
fn has_unknown(fields: &[Field], table: &Table) -> bool
    ensures { result ≡ has_unknown (fields_shown fields.now) (table_view table.now) }
{
    any_key_unknown(fields, table)
}

/// Whether the value of some field is of another form.
fn has_wrong(fields: &[Field], table: &Table) -> bool
    ensures { result ≡ has_wrong (fields_shown fields.now) (table_view table.now) }
{
    for field in fields {
        if is_wrong(field.form, member(table, field.key)) {
            return true;
        }
    }
    false
}

/// A rule on one table, by the fields that it may have.
trait Rule: Copy {
    ghost breaks: { Self → List Entry → Members → Bool };

    fn breaks(&self, fields: &[Field], table: &Table) -> bool
        ensures { result ≡ breaks self.now (fields_shown fields.now) (table_view table.now) };
}

#[derive(Clone, Copy)]
struct Missing;

impl Rule for Missing {
    ghost use Rattle.rb_scenario_document.specs.Forms.{lacks};

    ghost breaks = { λ _. lacks };

    fn breaks(&self, fields: &[Field], table: &Table) -> bool {
        lacks(fields, table)
    }
}

#[derive(Clone, Copy)]
struct Unknown;

impl Rule for Unknown {
    ghost use Rattle.rb_scenario_document.specs.Forms.{has_unknown};

    ghost breaks = { λ _. has_unknown };

    fn breaks(&self, fields: &[Field], table: &Table) -> bool {
        has_unknown(fields, table)
    }
}

#[derive(Clone, Copy)]
struct WrongForm;

impl Rule for WrongForm {
    ghost use Rattle.rb_scenario_document.specs.Forms.{has_wrong};

    ghost breaks = { λ _. has_wrong };

    fn breaks(&self, fields: &[Field], table: &Table) -> bool {
        has_wrong(fields, table)
    }
}

/// Tables that break the rule, by the fields that they may have.
#[derive(Clone, Copy)]
struct Breaks<R: Rule> {
    rule: R,
    fields: &'static [Field],
}

impl<R: Rule> EntryTest for Breaks<R> {
    ghost holds = { λ b. R.breaks b.rule (fields_shown b.fields.now) };

    fn test(&self, entry: &Table) -> bool {
        self.rule.breaks(self.fields, entry)
    }
}

/// Whether the table at a key breaks the rule.
fn breaks_plan<R: Rule>(rule: R, value: Option<&Value>) -> bool
    ensures { result ≡ passes (on_table (R.breaks rule plan_fields))
        (option_map (λ x. view x.now) value.entry) }
{
    match value {
        Some(value) => on_table(
            &Breaks {
                rule,
                fields: plan_fields(),
            },
            value,
        ),
        None => false,
    }
}

/// Whether some entry at a key breaks the rule.
fn breaks_at<R: Rule>(rule: R, fields: &'static [Field], table: &Table, key: &str) -> bool
    ensures { result ≡ list_any (R.breaks rule (fields_shown fields.now))
        (entries_at key.now (table_view table.now)) }
{
    any_entry(&Breaks { rule, fields }, member(table, key))
}

/// Whether the rule is broken at some entry.
fn in_entries<R: Rule>(rule: R, table: &Table) -> bool
    ensures { result ≡ in_entries (R.breaks rule) (table_view table.now) }
{
    breaks_at(rule, clock_fields(), table, "clock")
        || breaks_at(rule, link_fields(), table, "link")
        || breaks_at(rule, fault_fields(), table, "fault")
        || breaks_at(rule, say_fields(), table, "say")
}

/// Whether the rule is broken at the root, at the plan or at some entry.
fn somewhere<R: Rule>(rule: R, table: &Table) -> bool
    ensures { result ≡ somewhere (R.breaks rule) (table_view table.now) }
{
    rule.breaks(root_fields(), table)
        || breaks_plan(rule, member(table, "plan"))
        || in_entries(rule, table)
}

/// A say entry that says nothing.
#[derive(Clone, Copy)]
struct SaysNothing;

impl EntryTest for SaysNothing {
    ghost use Rattle.rb_scenario_document.specs.Forms.{says_something};

    ghost holds = { λ _ e. not (says_something e) };

    fn test(&self, entry: &Table) -> bool {
        !(has_key(entry, "word")
            || has_key(entry, "fault")
            || has_key(entry, "sync")
            || has_key(entry, "raw"))
    }
}

/// Whether a key that must be there is not: at the root, or in a table that is at a place where a
/// table belongs. A say entry must have one of the keys that say something.
#[tactic(auto, unfolding(crate::specs::Forms::lacks_key))]
pub fn lacks_key(table: &Table) -> bool
    ensures { result ≡ lacks_key (table_view table.now) }
{
    somewhere(Missing, table) || any_entry(&SaysNothing, member(table, "say"))
}

/// Whether such a table has a key that is not known for it.
#[tactic(auto, unfolding(crate::specs::Forms::has_unknown_key))]
pub fn has_unknown_key(table: &Table) -> bool
    ensures { result ≡ has_unknown_key (table_view table.now) }
{
    somewhere(Unknown, table)
}

/// Whether a value is of another form than is asked for.
#[tactic(auto, unfolding(crate::specs::Forms::has_wrong_form))]
pub fn has_wrong_form(table: &Table) -> bool
    ensures { result ≡ has_wrong_form (table_view table.now) }
{
    somewhere(WrongForm, table)
}
