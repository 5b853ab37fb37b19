//! How long each message of a bus is on its way. Rules on delays are this project's own.
#![tactic(auto)]

ghost use Rattle.std.specs.Prelude.{◌≡◌, ℕ, List, ◌+◌, ◌<◌, ◌≤◌, ◌++◌, ◌∷◌, [], ◌%◌, cond, IfOk, IfSome, IsTrue, if◌then◌else◌, length, reverse, slice_get, true};
ghost use Rattle.rb_rules.specs.declared.link.Rule.{Rule as KeptRule};
ghost use Rattle.std.specs.List.{filter, filter_map, find};
ghost use Rattle.rb_rules.specs.Links.{applies, covers, delay_after, delay_of, is_in_range, same_node, stands_for};
ghost use Rattle.rb_link.specs.Pairs.{AreLatest, IsIndex, delay_or, is_between, is_from, is_to, places_from, places_of, places_sent, receiver_of, rule_or_base, sender_of};
ghost use Rattle.rb_link.specs.Rows.{IsRow, has_row};

mod rows;

use crate::rows::{Ranges, flat_delays, row_at, sender_number, shared_ranges};
use rb_base::{NodeName, OutOfMemory, Place};
pub use rb_rules::{Pattern, Rule};
use std::alloc::Global;
use std::marker::Model;

// The number of pairs of a sender and a receiver of unlike kinds.
const PAIRS: u16 = 512;

// As many rules can be numbered. A bus has far fewer.
const NUMBERED: usize = 65536;

/// The delays of a bus, in reference units: the one of a message for which there is no rule, and
/// the rules. Beside them it is kept which rules are for each pair of nodes, and which is the
/// latest of these, since each message is looked up, and for each sender which places its latest
/// rules all have, and the delays of these.
#[derive(Drop)]
pub struct Delays {
    base: u32,
    rules: Vec<Rule>,
    latest: Vec<Rule>,
    index: Index,
    shared: Vec<Ranges>,
    flat: Vec<u32>,
}

impl Model for Delays {
    ghost use Rattle.rb_rules.specs.Links.{DelayRules};

    ghost Value = { DelayRules };

    ghost use Rattle.rb_link.specs.Prepared.{ArePrepared};

    ghost view = { λ d. record { base = d.base; rules = d.rules.items } };

    ghost invariant = { λ d. ArePrepared d.base d.rules.items d.latest.items d.index.starts.items
        d.index.places.items d.shared.items d.flat.items };
}

/// Which rules are for each pair of nodes: `places` holds the numbers of the rules, pair by pair,
/// and `starts` the places at which those of each pair begin and the last end. If there are too
/// many rules to be numbered, both are empty.
#[derive(Drop)]
struct Index {
    starts: Vec<usize>,
    places: Vec<u16>,
}

impl Index {
    fn new(alloc: Global, rules: &[Rule]) -> Result<Index, OutOfMemory>
        ensures { IfOk result (λ x. IsIndex rules.now x.starts.items x.places.items) }
    {
        let mut starts = Vec::new(alloc);
        let mut places = Vec::new(alloc);
        if rules.len() > NUMBERED {
            return Ok(Index { starts, places });
        }
        let mut sent = Vec::new(alloc);
        for pair in 0..PAIRS {
            sent = sent_by(alloc, sent, rules, pair)?;
            add_start(&mut starts, &places)?;
            add_places(&mut places, rules, &sent, receiver_of(pair))?;
        }
        add_start(&mut starts, &places)?;
        Ok(Index { starts, places })
    }
}

// The numbers of the rules for messages from the pair's sender. The pairs of a sender are together,
// so only the first of them looks for these rules.
fn sent_by(
    alloc: Global,
    sent: Vec<u16>,
    rules: &[Rule],
    pair: u16,
) -> Result<Vec<u16>, OutOfMemory>
    requires few { length rules.now ≤ NUMBERED }
    requires pair { pair < PAIRS }
    requires kept { (pair % 16 ≡ 0 → ⊥) → sent.items ≡ places_sent pair rules.now }
    ensures { IfOk result (λ sent. sent.items ≡ places_sent pair rules.now) }
{
    if pair % 16 == 0 {
        places_from(alloc, rules, sender_of(pair))
    } else {
        Ok(sent)
    }
}

// The numbers of the rules for messages from the node.
fn places_from(alloc: Global, rules: &[Rule], from: NodeName) -> Result<Vec<u16>, OutOfMemory>
    requires { length rules.now ≤ NUMBERED }
    ensures { IfOk result (λ sent. sent.items ≡ places_from 0 (is_from from) rules.now) }
{
    let mut sent = Vec::new(alloc);
    let mut number: usize = 0;
    for rule in rules {
        add_if(&mut sent, stands_for(rule.from, from), number as u16)?;
        number += 1;
    }
    Ok(sent)
}

// The numbers of the sender's rules that are for messages to the node come behind those that are
// there.
fn add_places(
    places: &mut Vec<u16>,
    rules: &[Rule],
    sent: &[u16],
    to: NodeName,
) -> Result<(), OutOfMemory>
    ensures { IfOk result (λ _. places.new.items
        ≡ places.old.items ++ filter (λ number. is_to to (slice_get rules.now number)) sent.now) }
{
    for number in sent {
        add_if(places, is_to(rule_at(rules, *number), to), *number)?;
    }
    Ok(())
}

// Whether it is a rule for messages to the node.
fn is_to(rule: Option<Rule>, to: NodeName) -> bool
    ensures { result ≡ is_to to rule }
{
    match rule {
        Some(rule) => stands_for(rule.to, to),
        None => false,
    }
}

// The next pair begins at the end of the places that are there.
fn add_start(starts: &mut Vec<usize>, places: &[u16]) -> Result<(), OutOfMemory>
    ensures { IfOk result (λ _. starts.new.items ≡ starts.old.items ++ length places.now ∷ []) }
{
    add(starts, places.len())
}

fn add<T: Copy>(list: &mut Vec<T>, item: T) -> Result<(), OutOfMemory>
    ensures { IfOk result (λ _. list.new.items ≡ list.old.items ++ item ∷ []) }
{
    list.push(item).map_err(|_| OutOfMemory)
}

// The number comes behind those that are there, if its rule passes.
fn add_if(places: &mut Vec<u16>, passes: bool, number: u16) -> Result<(), OutOfMemory>
    ensures { IfOk result (λ _. places.new.items
        ≡ places.old.items ++ cond passes (number ∷ []) []) }
{
    if passes { add(places, number) } else { Ok(()) }
}

// The numbers of the rules of a pair, if it has a number and the rules have.
fn places_of<'a>(starts: &[usize], places: &'a [u16], pair: u16) -> Option<&'a [u16]>
    ensures starts { IfSome result (λ _. pair + 1 < length starts.now) }
    ensures places { IfSome result (λ found. found.now ≡ places_of starts.now places.now pair) }
{
    let start = starts.get(usize::from(pair))?;
    let end = starts.get(usize::from(pair) + 1)?;
    places.get(*start..*end)
}

// The last of the rules with these numbers that has this place.
fn last_at(rules: &[Rule], places: &[u16], place: Place) -> Option<Rule>
    ensures { result ≡ find (λ rule. covers rule.frames rule.slots rule.stages place)
        (filter_map (slice_get rules.now) (reverse places.now)) }
{
    places
        .iter()
        .rev()
        .copied()
        .filter_map(|number| rule_at(rules, number))
        .find(|rule| covers(rule, place))
}

// The rule with this number, if there is one.
fn rule_at(rules: &[Rule], number: u16) -> Option<Rule>
    ensures { result ≡ slice_get rules.now number }
{
    rules.get(usize::from(number)).copied()
}

impl Delays {
    /// The delays with these rules, in reference units. If several are for one message the last of
    /// them counts, and if none is, `base`.
    pub fn new(alloc: Global, base: u32, rules: &[Rule]) -> Result<Delays, OutOfMemory>
        ensures { IfOk result (λ d. d ≡ record { base = base; rules = rules.now }) }
    {
        let index = Index::new(alloc, rules)?;
        let latest = latest_rules(alloc, base, rules, &index)?;
        let shared = shared_ranges(alloc, &latest)?;
        let flat = flat_delays(alloc, &latest)?;
        let rules = Vec::from_slice(alloc, rules)?;
        Ok(Delays {
            base,
            rules,
            latest,
            index,
            shared,
            flat,
        })
    }

    /// How long a message of this place from one node to another is on its way, in reference units.
    /// The place is the one that the message's header names. Only the rules for these two nodes are
    /// looked at, the latest first.
    #[inline]
    pub fn delay(&self, from: NodeName, to: NodeName, place: Place) -> u32
        ensures { result ≡ delay_of self.now from to place }
    {
        if is_empty(&self.rules) {
            return self.base;
        }
        let Some(pair) = pair_of(from, to) else {
            return self.looked_up(from, to, place);
        };
        match latest_delay(&self.latest, pair, place) {
            Some(delay) => delay,
            None => self.looked_up(from, to, place),
        }
    }

    /// The delays, in reference units, of a message of this place from the node to the nodes of the
    /// other kind, at their numbers. There are 16 if the node's number is below 16 and the place is
    /// one that, for each of these 16 nodes, the latest of the rules for messages from the one to
    /// the other has, if there are any for them. Otherwise the row is empty.
    #[inline]
    pub fn row(&self, from: NodeName, place: Place) -> &[u32]
        ensures delays { IsRow self.now from place result.now }
        ensures there { length result.now ≡ (if has_row self.now from place then 16 else 0) }
    {
        match sender_number(from) {
            Some(sender) => row_at(&self.shared, &self.flat, sender, place),
            None => &[],
        }
    }

    // The delay by all rules that may be for this message.
    fn looked_up(&self, from: NodeName, to: NodeName, place: Place) -> u32
        ensures { result ≡ delay_of self.now from to place }
    {
        match self.last(from, to, place) {
            Some(rule) => rule.delay,
            None => self.base,
        }
    }

    // The last of the rules that is for this message.
    fn last(&self, from: NodeName, to: NodeName, place: Place) -> Option<Rule>
        ensures { delay_or self.now.base result ≡ delay_of self.now from to place }
    {
        let Some(pair) = pair_of(from, to) else {
            return last_rule(&self.rules, from, to, place);
        };
        match places_of(&self.index.starts, &self.index.places, pair) {
            Some(places) => last_at(&self.rules, places, place),
            None => last_rule(&self.rules, from, to, place),
        }
    }
}

// The delay of the pair's latest rule, if this rule has the place.
#[inline]
#[tactic(auto, using(crate::proofs::Latest::by_latest))]
fn latest_delay(latest: &[Rule], pair: u16, place: Place) -> Option<u32>
    ensures { IfSome result (λ delay. (base : ℕ) → (rules : List KeptRule)
        → AreLatest base rules latest.now
        → delay ≡ delay_after base rules (sender_of pair) (receiver_of pair) place) }
{
    let Some(rule) = rule_at(latest, pair) else {
        return None;
    };
    if covers(&rule, place) {
        Some(rule.delay)
    } else {
        None
    }
}

#[inline]
#[tactic(auto, using(crate::proofs::Latest::none_there))]
fn is_empty(rules: &[Rule]) -> bool
    ensures { IsTrue result → rules.now ≡ [] }
{
    rules.is_empty()
}

// The latest rule of each pair.
fn latest_rules(
    alloc: Global,
    base: u32,
    rules: &[Rule],
    index: &Index,
) -> Result<Vec<Rule>, OutOfMemory>
    requires { IsIndex rules.now index.now.starts.items index.now.places.items }
    ensures latest { IfOk result (λ latest. AreLatest base rules.now latest.items) }
    ensures many { IfOk result (λ latest. length latest.items ≡ PAIRS) }
{
    let mut latest = Vec::with_capacity(alloc, usize::from(PAIRS))?;
    for pair in 0..PAIRS {
        let found = last_of(rules, &index.starts, &index.places, pair);
        let rule = latest_rule(base, found, pair);
        add(&mut latest, rule)?;
    }
    Ok(latest)
}

// The rule that was found for the pair, else one for all places with the base as its delay.
fn latest_rule(base: u32, found: Option<Rule>, pair: u16) -> Rule
    requires { pair < PAIRS }
    ensures { result ≡ rule_or_base base (sender_of pair) (receiver_of pair) found }
{
    match found {
        Some(rule) => rule,
        None => Rule {
            from: Pattern::One(sender_of(pair)),
            to: Pattern::One(receiver_of(pair)),
            frames: (0, u32::MAX),
            slots: (0, u16::MAX),
            stages: (0, u8::MAX),
            delay: base,
        },
    }
}

// The last of the rules of the pair.
fn last_of(rules: &[Rule], starts: &[usize], places: &[u16], pair: u16) -> Option<Rule>
    requires pair { pair < PAIRS }
    requires index { IsIndex rules.now starts.now places.now }
    ensures { result ≡ find (is_between (sender_of pair) (receiver_of pair)) (reverse rules.now) }
{
    match places_of(starts, places, pair) {
        Some(places) => last_among(rules, places),
        None => last_between(rules, sender_of(pair), receiver_of(pair)),
    }
}

// The last of the rules with these numbers.
fn last_among(rules: &[Rule], places: &[u16]) -> Option<Rule>
    ensures { result ≡ find (λ _. true) (filter_map (slice_get rules.now) (reverse places.now)) }
{
    places
        .iter()
        .rev()
        .copied()
        .filter_map(|number| rule_at(rules, number))
        .find(|_| true)
}

fn last_between(rules: &[Rule], from: NodeName, to: NodeName) -> Option<Rule>
    ensures { result ≡ find (is_between from to) (reverse rules.now) }
{
    rules
        .iter()
        .rev()
        .copied()
        .find(|rule| is_between(rule, from, to))
}

// The last of the rules that applies.
fn last_rule(rules: &[Rule], from: NodeName, to: NodeName, place: Place) -> Option<Rule>
    ensures { result ≡ find (λ rule. applies rule from to place) (reverse rules.now) }
{
    rules
        .iter()
        .rev()
        .copied()
        .find(|rule| is_between(rule, from, to) && covers(rule, place))
}

// The number of the pair. None for nodes of one kind and for numbers that no node has.
#[inline]
fn pair_of(from: NodeName, to: NodeName) -> Option<u16>
    ensures { IfSome result (λ pair. (pair < PAIRS) × (sender_of pair ≡ from)
        × (receiver_of pair ≡ to)) }
{
    match (from, to) {
        (NodeName::Biu(i), NodeName::Rmu(j)) if i < 16 && j < 16 => {
            Some(16 * u16::from(i) + u16::from(j))
        }
        (NodeName::Rmu(i), NodeName::Biu(j)) if i < 16 && j < 16 => {
            Some(256 + 16 * u16::from(i) + u16::from(j))
        }
        _ => None,
    }
}

fn sender_of(pair: u16) -> NodeName
    requires { pair < PAIRS }
    ensures { result ≡ sender_of pair }
{
    let i = pair / 16;
    if pair < 256 {
        NodeName::Biu(i as u8)
    } else {
        NodeName::Rmu((i - 16) as u8)
    }
}

fn receiver_of(pair: u16) -> NodeName
    requires { pair < PAIRS }
    ensures { result ≡ receiver_of pair }
{
    let j = (pair % 16) as u8;
    if pair < 256 {
        NodeName::Rmu(j)
    } else {
        NodeName::Biu(j)
    }
}

// Whether the rule is for messages from the one node to the other.
fn is_between(rule: &Rule, from: NodeName, to: NodeName) -> bool
    ensures { result ≡ is_between from to rule.now }
{
    stands_for(rule.from, from) && stands_for(rule.to, to)
}

// Whether the pattern stands for this node.
fn stands_for(pattern: Pattern, node: NodeName) -> bool
    ensures { result ≡ stands_for pattern node }
{
    match pattern {
        Pattern::One(name) => same_node(name, node),
        Pattern::AllBiu => matches!(node, NodeName::Biu(_)),
        Pattern::AllRmu => matches!(node, NodeName::Rmu(_)),
    }
}

fn same_node(name: NodeName, node: NodeName) -> bool
    ensures { result ≡ same_node name node }
{
    match (name, node) {
        (NodeName::Biu(i), NodeName::Biu(j)) => i == j,
        (NodeName::Rmu(i), NodeName::Rmu(j)) => i == j,
        _ => false,
    }
}

// Whether the rule's ranges of frames, slots and stages have this place.
#[inline]
fn covers(rule: &Rule, place: Place) -> bool
    ensures { result ≡ covers rule.now.frames rule.now.slots rule.now.stages place }
{
    rule.frames.0 <= place.frame
        && place.frame <= rule.frames.1
        && rule.slots.0 <= place.slot
        && place.slot <= rule.slots.1
        && rule.stages.0 <= place.stage
        && place.stage <= rule.stages.1
}
