//! Entries that are for one node each.
ghost use Rattle.std.specs.Prelude.{◌≡◌, ◌++◌, ◌&&◌, ◌||◌, not, List, All, option_map, option_to_list};
ghost use Rattle.std.specs.List.{find};
ghost use Rattle.toml.specs.Data.{as_table};
ghost use Rattle.toml.specs.View.{view, table_view, array_view};
ghost use Rattle.rb_base.specs.Nodes.{side_of};
ghost use Rattle.rb_base.specs.Sizes.{IsShape};
ghost use Rattle.rb_base.specs.declared.node.NodeName.{NodeName};
ghost use Rattle.rb_rules.specs.Links.{name_of, same_node};
ghost use Rattle.rb_scenario_document.specs.Names.{IsNumbered};
ghost use Rattle.rb_scenario_document.specs.Walk.{entries_in, tables_in};
ghost use Rattle.rb_scenario_entries.specs.Entries.{are_distinct, entry_for, is_node, nodes_in};
ghost use Rattle.rb_scenario_entries.specs.Seen.{are_new, was_seen};

use rb_base::{Biu, Kind, NodeId, NodeName, NodeSet, Rmu, Shape};
use rb_scenario_document::names::node_at;
use toml::value::Array;
use toml::{Table, Value};

/// The nodes that entries were for.
#[derive(Clone, Copy)]
struct Seen {
    biu: NodeSet<Biu>,
    rmu: NodeSet<Rmu>,
}

/// Notes the node. Whether it is new.
fn note_node(seen: &mut Seen, name: NodeName) -> bool
    requires { IsNumbered name }
    ensures new { result ≡ not (was_seen seen.old name) }
    ensures noted { (n : NodeName) → IsNumbered n
        → was_seen seen.new n ≡ (was_seen seen.old n || same_node name n) }
{
    match name {
        NodeName::Biu(index) => match NodeId::new(index) {
            Some(id) => {
                let is_new = !seen.biu.contains(id);
                seen.biu.insert(id);
                is_new
            }
            None => unreachable!(),
        },
        NodeName::Rmu(index) => match NodeId::new(index) {
            Some(id) => {
                let is_new = !seen.rmu.contains(id);
                seen.rmu.insert(id);
                is_new
            }
            None => unreachable!(),
        },
    }
}

/// Notes the node that an entry is for, if the value is one. Whether no node that was seen is named
/// again.
fn note_entry(shape: &Shape, value: &Value, seen: &mut Seen) -> bool
    ensures { (names : List NodeName) → All IsNumbered names
        → are_new seen.old (nodes_in shape.now (option_to_list (as_table (view value.now)))
        ++ names)
        ≡ (result && are_new seen.new names) }
{
    match value.as_table() {
        Some(entry) => match node_at(shape, entry, "node") {
            Some(name) => note_node(seen, name),
            None => true,
        },
        None => true,
    }
}

fn are_distinct_among(shape: &Shape, values: &Array) -> bool
    requires { IsShape shape.now }
    ensures { result ≡ are_distinct (nodes_in shape.now (tables_in (array_view values.now))) }
{
    let mut seen = Seen {
        biu: NodeSet::empty(),
        rmu: NodeSet::empty(),
    };
    for value in values {
        if !note_entry(shape, value, &mut seen) {
            return false;
        }
    }
    true
}

/// Whether no node is named by two entries.
pub(crate) fn are_distinct(shape: &Shape, value: Option<&Value>) -> bool
    requires { IsShape shape.now }
    ensures { result
        ≡ are_distinct (nodes_in shape.now (entries_in (option_map (λ x. view x.now) value.entry))) }
{
    match value {
        Some(value) => match value.as_array() {
            Some(values) => are_distinct_among(shape, values),
            None => true,
        },
        None => true,
    }
}

/// Whether the node that is named, if any, is this one.
fn is_node(name: NodeName, other: Option<NodeName>) -> bool
    ensures { result ≡ is_node name other }
{
    match other {
        Some(NodeName::Biu(i)) => match name {
            NodeName::Biu(j) => i == j,
            NodeName::Rmu(_) => false,
        },
        Some(NodeName::Rmu(i)) => match name {
            NodeName::Biu(_) => false,
            NodeName::Rmu(j) => i == j,
        },
        None => false,
    }
}

/// The entry that the value is, if it is one and is for the node.
fn entry_if<'a>(shape: &Shape, value: &'a Value, name: NodeName) -> Option<&'a Table>
    ensures { option_map (λ x. table_view x.now) result
        ≡ entry_for shape.now (option_to_list (as_table (view value.now))) name }
{
    match value.as_table() {
        Some(entry) => {
            if is_node(name, node_at(shape, entry, "node")) {
                Some(entry)
            } else {
                None
            }
        }
        None => None,
    }
}

fn entry_among<'a>(shape: &Shape, values: &'a Array, name: NodeName) -> Option<&'a Table>
    ensures { option_map (λ x. table_view x.now) result
        ≡ entry_for shape.now (tables_in (array_view values.now)) name }
{
    for value in values {
        if let Some(entry) = entry_if(shape, value, name) {
            return Some(entry);
        }
    }
    None
}

/// The entry that is for the node.
pub(crate) fn entry_for<'a>(
    shape: &Shape,
    value: Option<&'a Value>,
    name: NodeName,
) -> Option<&'a Table>
    ensures { option_map (λ x. table_view x.now) result
        ≡ entry_for shape.now (entries_in (option_map (λ x. view x.now) value.entry)) name }
{
    match value {
        Some(value) => match value.as_array() {
            Some(values) => entry_among(shape, values, name),
            None => None,
        },
        None => None,
    }
}

/// The node of this kind with this number.
pub(crate) fn name_of<K: Kind>(index: u8) -> NodeName
    ensures { result ≡ name_of (side_of K.CODE) index }
{
    if K::CODE == 0 {
        NodeName::Biu(index)
    } else {
        NodeName::Rmu(index)
    }
}
