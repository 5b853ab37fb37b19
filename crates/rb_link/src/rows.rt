//! The delays of the messages from each node, one a receiver. At the places that the latest rules
//! for these messages all have, they are read with no look at the rules.
ghost use Rattle.std.specs.Prelude.{◌≡◌, ℕ, List, ◌+◌, ◌<◌, ◌≤◌, ◌&&◌, IfNone, IfOk, IfSome, if◌then◌else◌, is_some, length, map, slice_get};
ghost use Rattle.std.specs.List.{slice_range};
ghost use Rattle.rb_base.specs.declared.values.Place.{Place as KeptPlace};
ghost use Rattle.rb_rules.specs.declared.link.Rule.{Rule as KeptRule};
ghost use Rattle.rb_rules.specs.Links.{covers, is_in_range};
ghost use Rattle.rb_link.specs.Rows.{AreRows, AreShared, IsRowOf, IsSender, IsShared, PlaceFits, all_latest_have, delay_of_rule, is_numbered, rule_has};

use crate::{PAIRS, add, rule_at};
use rb_base::{NodeName, OutOfMemory, Place};
use rb_rules::Rule;
use std::alloc::Global;

// The number of senders: 16 of each kind.
const SENDERS: u16 = 32;

/// Frames, slots and stages, each from the least to the greatest.
#[derive(Clone, Copy)]
pub(crate) struct Ranges {
    frames: (u32, u32),
    slots: (u32, u32),
    stages: (u32, u32),
}

// The places that a sender's latest rules all have.
pub(crate) fn shared_ranges(alloc: Global, latest: &[Rule]) -> Result<Vec<Ranges>, OutOfMemory>
    ensures shared { IfOk result (λ shared. AreShared latest.now shared.items) }
    ensures many { IfOk result (λ shared. length shared.items ≡ SENDERS) }
{
    let mut shared = Vec::with_capacity(alloc, usize::from(SENDERS))?;
    for sender in 0..SENDERS {
        let ranges = shared_by(latest, sender);
        add(&mut shared, ranges)?;
    }
    Ok(shared)
}

// The places that the sender's latest rules all have.
fn shared_by(latest: &[Rule], sender: u16) -> Ranges
    requires { sender < SENDERS }
    ensures { IsShared latest.now sender 16 result }
{
    let mut ranges = Ranges {
        frames: (0, u32::MAX),
        slots: (0, u32::MAX),
        stages: (0, u32::MAX),
    };
    for i in 0..16 {
        ranges = narrowed(ranges, rule_at(latest, 16 * sender + i));
    }
    ranges
}

// The places that are in the ranges and that the rule has, if there is one.
#[tactic(auto, using(crate::proofs::NodeRows::narrowing))]
fn narrowed(ranges: Ranges, rule: Option<Rule>) -> Ranges
    ensures { (place : KeptPlace) → covers result.frames result.slots result.stages place
        ≡ (covers ranges.frames ranges.slots ranges.stages place && rule_has rule place) }
{
    let Some(rule) = rule else {
        return ranges;
    };
    Ranges {
        frames: both(ranges.frames, rule.frames),
        slots: both(
            ranges.slots,
            (u32::from(rule.slots.0), u32::from(rule.slots.1)),
        ),
        stages: both(
            ranges.stages,
            (u32::from(rule.stages.0), u32::from(rule.stages.1)),
        ),
    }
}

// The numbers that are in both ranges.
#[tactic(auto, using(crate::proofs::NodeRows::in_both))]
fn both(range: (u32, u32), other: (u32, u32)) -> (u32, u32)
    ensures { (n : ℕ) → is_in_range result n ≡ (is_in_range range n && is_in_range other n) }
{
    (range.0.max(other.0), range.1.min(other.1))
}

// The delays of the rules.
pub(crate) fn flat_delays(alloc: Global, latest: &[Rule]) -> Result<Vec<u32>, OutOfMemory>
    ensures { IfOk result (λ flat. flat.items ≡ map delay_of_rule latest.now) }
{
    let mut flat = Vec::with_capacity(alloc, usize::from(PAIRS))?;
    for rule in latest {
        add(&mut flat, rule.delay)?;
    }
    Ok(flat)
}

// The number of a node among the senders. None for a number that no node has.
#[inline]
#[tactic(auto, using(crate::proofs::NodeRows::senders))]
pub(crate) fn sender_number(from: NodeName) -> Option<u16>
    ensures there { is_some result ≡ is_numbered from }
    ensures few { IfSome result (λ sender. sender < SENDERS) }
    ensures is { IfSome result (λ sender. IsSender sender from) }
{
    match from {
        NodeName::Biu(i) if i < 16 => Some(u16::from(i)),
        NodeName::Rmu(i) if i < 16 => Some(16 + u16::from(i)),
        _ => None,
    }
}

// The delays of the sender's messages of this place. The row is empty if the latest of its rules do
// not all have the place.
#[inline]
#[tactic(auto, using(crate::proofs::NodeRows::row_found))]
pub(crate) fn row_at<'a>(shared: &[Ranges], flat: &'a [u32], sender: u16, place: Place) -> &'a [u32]
    requires { sender < SENDERS }
    ensures delays { (base : ℕ) → (rules : List KeptRule) → AreRows base rules shared.now flat.now
        → IsRowOf base rules sender place result.now }
    ensures there { (base : ℕ) → (rules : List KeptRule) → AreRows base rules shared.now flat.now
        → length result.now ≡ (if all_latest_have rules sender place then 16 else 0) }
{
    let Some(ranges) = ranges_at(shared, sender) else {
        return &[];
    };
    if has_place(ranges, place) {
        match sixteen_from(flat, 16 * sender) {
            Some(row) => row,
            None => &[],
        }
    } else {
        &[]
    }
}

// The ranges of the sender with this number, if there is one.
#[inline]
fn ranges_at(shared: &[Ranges], sender: u16) -> Option<Ranges>
    ensures { result ≡ slice_get shared.now sender }
{
    shared.get(usize::from(sender)).copied()
}

// The sixteen delays from this one on.
#[inline]
fn sixteen_from(flat: &[u32], first: u16) -> Option<&[u32]>
    requires { first ≤ PAIRS }
    ensures found { IfSome result (λ row. row.now ≡ slice_range flat.now first (first + 16)) }
    ensures none { IfNone result (length flat.now < first + 16) }
{
    flat.get(usize::from(first)..usize::from(first) + 16)
}

// Whether the place is in the ranges.
#[inline]
fn has_place(ranges: Ranges, place: Place) -> bool
    ensures is { result ≡ covers ranges.frames ranges.slots ranges.stages place }
    ensures fits { PlaceFits place }
{
    let slot = u32::from(place.slot);
    let stage = u32::from(place.stage);
    ranges.frames.0 <= place.frame
        && place.frame <= ranges.frames.1
        && ranges.slots.0 <= slot
        && slot <= ranges.slots.1
        && ranges.stages.0 <= stage
        && stage <= ranges.stages.1
}
