//! The rules on what a document says.
ghost use Rattle.std.specs.Prelude.{◌≡◌, ◌-◌, ◌≤◌, ◌&&◌, not, nat_le, nat_lt, None, get_or, length};
ghost use Rattle.std.specs.List.{list_all};
ghost use Rattle.rb_base.specs.Sizes.{IsShape};
ghost use Rattle.rb_rules.specs.Goodness.{is_before};
ghost use Rattle.rb_scenario.specs.Onsets.{is_good_by};
ghost use Rattle.rb_scenario.specs.Rules.{are_delays, are_few, is_delay, start_together};
ghost use Rattle.rb_rules.specs.Lawful.{segments_of_all};

use rb_base::{NodeName, Shape};
use rb_clock::Clock;
use rb_rules::{Plan, Rule, Say};

/// Whether the delay is within the plan's bounds.
fn is_delay(plan: &Plan, delay: u32) -> bool
    ensures { result ≡ is_delay plan.now delay }
{
    plan.dmin <= delay && delay <= plan.dmax
}

fn are_rules_delays(plan: &Plan, rules: &[Rule]) -> bool
    ensures { result ≡ list_all (λ r. is_delay plan.now r.delay) rules.now }
{
    for rule in rules {
        if !is_delay(plan, rule.delay) {
            return false;
        }
    }
    true
}

/// Whether every delay is within the plan's bounds.
pub(crate) fn are_delays(plan: &Plan, base: u32, rules: &[Rule]) -> bool
    ensures { result ≡ are_delays plan.now (record { base = base; rules = rules.now }) }
{
    is_delay(plan, base) && are_rules_delays(plan, rules)
}

/// Whether the clock starts later than none of the others by more than the bound.
fn starts_with(bound: u32, clock: &Clock, others: &[Clock]) -> bool
    ensures { result ≡ list_all (λ b. nat_le (clock.now.start - b.start) bound) others.now }
{
    for other in others {
        if clock.start().saturating_sub(other.start()) > bound.into() {
            return false;
        }
    }
    true
}

/// Whether no clock starts later than another by more than the bound.
#[tactic(auto, unfolding(crate::specs::Rules::start_together))]
pub(crate) fn start_together(bound: u32, clocks: &[Clock]) -> bool
    ensures { result ≡ start_together bound clocks.now }
{
    for clock in clocks {
        if !starts_with(bound, clock, clocks) {
            return false;
        }
    }
    true
}

/// Whether a slot of a frame comes before the onset, if there is one.
fn is_before(onset: Option<(u32, u16)>, frame: u32, slot: u16) -> bool
    ensures { result ≡ is_before onset frame slot }
{
    match onset {
        Some(onset) => frame < onset.0 || (frame == onset.0 && slot < onset.1),
        None => true,
    }
}

/// Whether node `index` of a kind with `count` nodes is good in this slot of this frame.
fn is_good(count: u8, onsets: &[Option<(u32, u16)>; 16], index: u8, frame: u32, slot: u16) -> bool
    requires { count ≤ 16 }
    ensures { result ≡ (nat_lt index count && is_before (get_or onsets.now index None) frame slot) }
{
    index < count && is_before(onsets[usize::from(index)], frame, slot)
}

/// Whether the node is good in this slot of this frame.
fn is_node_good(
    shape: &Shape,
    biu: &[Option<(u32, u16)>; 16],
    rmu: &[Option<(u32, u16)>; 16],
    name: NodeName,
    frame: u32,
    slot: u16,
) -> bool
    ensures { result ≡ is_good_by shape.now biu.now rmu.now name frame slot }
{
    match name {
        NodeName::Biu(index) => is_good(shape.biu(), biu, index, frame, slot),
        NodeName::Rmu(index) => is_good(shape.rmu(), rmu, index, frame, slot),
    }
}

/// Whether whoever says something is not good at its first place.
pub(crate) fn are_sayers_faulty(
    shape: &Shape,
    biu: &[Option<(u32, u16)>; 16],
    rmu: &[Option<(u32, u16)>; 16],
    says: &[Say],
) -> bool
    ensures { result
        ≡ list_all (λ say. not (is_good_by shape.now biu.now rmu.now say.from say.frames.0 say.slots.0)) says.now }
{
    for say in says {
        if is_node_good(shape, biu, rmu, say.from, say.frames.0, say.slots.0) {
            return false;
        }
    }
    true
}

/// Whether the clocks have at most 4096 segments.
fn are_segments_few(clocks: &[Clock]) -> bool
    ensures { result ≡ nat_le (segments_of_all clocks.now) 4096 }
{
    let mut left = 4096;
    for clock in clocks {
        let more = clock.segments().len();
        if more > left {
            return false;
        }
        left -= more;
    }
    true
}

/// Whether there are not too many say entries, link entries, and segments of all clocks.
pub(crate) fn are_few(says: &[Say], rules: &[Rule], clocks: &[Clock]) -> bool
    ensures { result ≡ are_few (length says.now) (length rules.now) clocks.now }
{
    says.len() <= 1024 && rules.len() <= 4096 && are_segments_few(clocks)
}
