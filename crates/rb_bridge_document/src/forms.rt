//! Whether a document has the keys of a bridge and no others, and values of their forms; and the
//! values at its keys.
ghost use Rattle.std.specs.Prelude.{◌≡◌, ◌&&◌, nat_le, not, option_map, string_bytes};
ghost use Rattle.std.specs.List.{list_any};
ghost use Rattle.std.specs.BTreeMap.{keys as keys_in};
ghost use Rattle.toml.specs.Data.{get_member};
ghost use Rattle.toml.specs.View.{array_view, table_view, view};
ghost use Rattle.rb_scenario_document.specs.Forms.{has_form, has_unknown, has_wrong, is_known, lacks};
ghost use Rattle.rb_scenario_document.specs.Shown.{fields_shown};
ghost use Rattle.rb_scenario_document.specs.Walk.{absent_or, length_of};
ghost use Rattle.rb_bridge_document.specs.Documents.{bridge_fields, has_bridge_form, items_in, pair_in, pair_items, pairs_in, text_at, text_in};

use arrayvec::ArrayVec;
use rb_rules_bridge::Pair;
use rb_scenario_document::fields::{Field, Form};
use rb_scenario_document::forms::has_form;
use rb_scenario_document::values::pair;
use rb_scenario_document::walk::{has_key, length_of, member};
use toml::value::Array;
use toml::{Table, Value};

const FIELDS: [Field; 5] = [
    Field {
        key: "left",
        needed: true,
        form: Form::Text,
    },
    Field {
        key: "right",
        needed: true,
        form: Form::Text,
    },
    Field {
        key: "bridges",
        needed: true,
        form: Form::Pairs,
    },
    Field {
        key: "slot_left",
        needed: true,
        form: Form::Integer,
    },
    Field {
        key: "slot_right",
        needed: true,
        form: Form::Integer,
    },
];

#[tactic(auto, unfolding(crate::specs::Documents::bridge_fields))]
fn bridge_fields() -> &'static [Field]
    ensures { fields_shown result.now ≡ bridge_fields }
{
    &FIELDS
}

// Whether a key that must be there is not.
fn lacks(fields: &[Field], table: &Table) -> bool
    ensures { result ≡ lacks (fields_shown fields.now) (table_view table.now) }
{
    for field in fields {
        if field.needed && !has_key(table, field.key) {
            return true;
        }
    }
    false
}

// Whether the key is of one of the fields.
fn is_known(fields: &[Field], key: &str) -> bool
    ensures { result ≡ is_known (fields_shown fields.now) key.now }
{
    for field in fields {
        if key == field.key {
            return true;
        }
    }
    false
}

fn any_key_unknown(fields: &[Field], table: &Table) -> bool
    ensures { result ≡ list_any (λ k. not (is_known (fields_shown fields.now) (string_bytes k)))
        (keys_in table.now) }
{
    table.keys().any(|key| !is_known(fields, key.as_str()))
}

// Whether some key is of none of the fields.
fn has_unknown(fields: &[Field], table: &Table) -> bool
    ensures { result ≡ has_unknown (fields_shown fields.now) (table_view table.now) }
{
    any_key_unknown(fields, table)
}

// Whether a value is there and of another form.
fn is_wrong(form: Form, value: Option<&Value>) -> bool
    ensures { result ≡ not (absent_or (has_form form) (option_map (λ x. view x.now) value.entry)) }
{
    match value {
        Some(value) => !has_form(form, value),
        None => false,
    }
}

// Whether the value of some field is of another form.
fn has_wrong(fields: &[Field], table: &Table) -> bool
    ensures { result ≡ has_wrong (fields_shown fields.now) (table_view table.now) }
{
    for field in fields {
        if is_wrong(field.form, member(table, field.key)) {
            return true;
        }
    }
    false
}

// How many items a value has.
fn count_in(value: Option<&Value>) -> usize
    ensures { result ≡ length_of (items_in (option_map (λ x. view x.now) value.entry)) }
{
    match value {
        Some(value) => match value.as_array() {
            Some(values) => length_of(values),
            None => 0,
        },
        None => 0,
    }
}

// Whether there are 1 to 16 pairs.
fn has_few_pairs(table: &Table) -> bool
    ensures { result ≡ (nat_le 1 (length_of (pair_items (table_view table.now)))
        && nat_le (length_of (pair_items (table_view table.now))) 16) }
{
    let count = count_in(member(table, "bridges"));
    1 <= count && count <= 16
}

// Whether the document has the keys of a bridge and no others, each value is of its form, and there
// are 1 to 16 pairs.
pub(crate) fn has_bridge_form(table: &Table) -> bool
    ensures { result ≡ has_bridge_form (table_view table.now) }
{
    let fields = bridge_fields();
    !lacks(fields, table)
        && !has_unknown(fields, table)
        && !has_wrong(fields, table)
        && has_few_pairs(table)
}

// The text at a key.
pub(crate) fn text_at<'a>(table: &'a Table, key: &str) -> &'a str
    ensures { result.now ≡ text_at key.now (table_view table.now) }
{
    match member(table, key) {
        Some(value) => match value.as_str() {
            Some(text) => text,
            None => "",
        },
        None => "",
    }
}
