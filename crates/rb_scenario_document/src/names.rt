//! Names of nodes: B for a BIU or R for an RMU, and the node's number in decimal without leading
//! zero.
ghost use Rattle.std.specs.Prelude.{ℕ, ◌≡◌, ◌≢◌, ◌<◌, ◌≤◌, IfNone, IfSome, decimal};
ghost use Rattle.toml.specs.View.{table_view};
ghost use Rattle.rb_scenario_document.specs.Names.{IsNumbered, is_of_bius, named, node_at, node_named, pattern_at, pattern_named};

use crate::walk::member;
use rb_base::{NodeName, Shape};
use rb_rules::Pattern;
use toml::Table;

/// The number below 16 that the digits spell.
fn index_spelled(digits: &[u8]) -> Option<u8>
    ensures some { IfSome result (λ i. (i < 16) × (digits.now ≡ decimal i)) }
    ensures none { IfNone result ((i : ℕ) → i < 16 → digits.now ≢ decimal i) }
{
    match digits {
        [ones @ b'0'..=b'9'] => Some(*ones - b'0'),
        [b'1', ones @ b'0'..=b'5'] => Some(10 + (*ones - b'0')),
        _ => None,
    }
}

/// The number below the count that the digits spell.
fn spelled_below(count: u8, digits: &[u8]) -> Option<u8>
    requires { count ≤ 16 }
    ensures some { IfSome result (λ i. (i < count) × (digits.now ≡ decimal i)) }
    ensures none { IfNone result ((i : ℕ) → i < count → digits.now ≢ decimal i) }
{
    match index_spelled(digits) {
        Some(index) if index < count => Some(index),
        _ => None,
    }
}

/// The number that follows the letter in the text, if it is below `count`.
fn named(letter: u8, count: u8, text: &str) -> Option<u8>
    requires { count ≤ 16 }
    ensures value { result ≡ named letter count text.now }
    ensures below { IfSome result (λ i. i < count) }
{
    match text.as_bytes() {
        [first, digits @ ..] if *first == letter => spelled_below(count, digits),
        _ => None,
    }
}

/// The node of the bus that the text names. None if it names none.
pub fn node_named(shape: &Shape, text: &str) -> Option<NodeName>
    ensures value { result ≡ node_named shape.now text.now }
    ensures numbered { IfSome result IsNumbered }
{
    match named(b'B', shape.biu(), text) {
        Some(index) => Some(NodeName::Biu(index)),
        None => named(b'R', shape.rmu(), text).map(NodeName::Rmu),
    }
}

/// The nodes that the text names: one, all BIUs or all RMUs. None if it names none.
pub fn pattern_named(shape: &Shape, text: &str) -> Option<Pattern>
    ensures { result ≡ pattern_named shape.now text.now }
{
    if text == "B" {
        Some(Pattern::AllBiu)
    } else if text == "R" {
        Some(Pattern::AllRmu)
    } else {
        node_named(shape, text).map(Pattern::One)
    }
}

/// The node that the text at a key names.
pub fn node_at(shape: &Shape, table: &Table, key: &str) -> Option<NodeName>
    ensures value { result ≡ node_at shape.now key.now (table_view table.now) }
    ensures numbered { IfSome result IsNumbered }
{
    match member(table, key) {
        Some(value) => match value.as_str() {
            Some(text) => node_named(shape, text),
            None => None,
        },
        None => None,
    }
}

/// The nodes that the text at a key names.
pub fn pattern_at(shape: &Shape, table: &Table, key: &str) -> Option<Pattern>
    ensures { result ≡ pattern_at shape.now key.now (table_view table.now) }
{
    match member(table, key) {
        Some(value) => match value.as_str() {
            Some(text) => pattern_named(shape, text),
            None => None,
        },
        None => None,
    }
}

/// Whether the pattern stands for BIUs.
pub fn is_of_bius(pattern: &Pattern) -> bool
    ensures { result ≡ is_of_bius pattern.now }
{
    match pattern {
        Pattern::One(NodeName::Biu(_)) => true,
        Pattern::One(NodeName::Rmu(_)) => false,
        Pattern::AllBiu => true,
        Pattern::AllRmu => false,
    }
}
