//! The timing plan of a bus, and whether it is feasible.
#![tactic(auto)]

ghost use Rattle.std.specs.Prelude.{◌≡◌, ◌≤◌, ◌<◌, ◌*◌, ◌^◌, ◌↔◌, Some, None, IfOk, IfErr, IsNone, int_lt};
ghost use Rattle.rb_base.specs.Sizes.{sync_slot_of};
ghost use Rattle.rb_rules.specs.Windows.{exact_window, send_offset_of, window_at, window_of};
ghost use Rattle.rb_rules.specs.Plan.{IsFeasible, IsPlan, drift_in, f0_of, first_failing, next_skew_of, rest_of, sides_of, skew_of, tail_start_of};

use rb_base::Shape;
pub use rb_rules::{Plan, Window};
use std::marker::Model;

// The offset of the sync slot.
fn f0(shape: &Shape, plan: &Plan) -> u64
    ensures value { result ≡ f0_of shape.now plan.now }
    ensures small { result ≤ 336 * plan.now.l }
{
    let l = u64::from(plan.l);
    3 * u64::from(shape.sync_slot()) * l
}

// How far two good clocks drift apart in `ticks` ticks, at most.
fn drift(plan: &Plan, ticks: u64) -> u128
    ensures value { result ≡ drift_in plan.now ticks }
    ensures small { result < 2 ^ 97 }
{
    2 * u128::from(plan.r) * u128::from(ticks)
}

// The skew that is allowed inside a frame.
fn skew(shape: &Shape, plan: &Plan) -> u128
    ensures value { result ≡ skew_of shape.now plan.now }
    ensures small { result < 2 ^ 98 }
{
    u128::from(plan.p) + drift(plan, f0(shape, plan) + u64::from(plan.h))
}

// How long the ticks of a window after the sending tick take at least.
fn rest(plan: &Plan, ticks: u32) -> i128
    ensures { result ≡ rest_of plan.now ticks }
{
    let before = 1 + u64::from(plan.h);
    (i128::from(ticks) - i128::from(before)) * i128::from(plan.u.saturating_sub(plan.r))
}

// How far apart the next epochs may come.
fn next_skew(plan: &Plan) -> u128
    ensures value { result ≡ next_skew_of plan.now }
    ensures small { result < 2 ^ 98 }
{
    let longest = u128::from(plan.u) + u128::from(plan.r);
    let shortest = u128::from(plan.u.saturating_sub(plan.r));
    let ticks = u64::from(plan.l) + u64::from(plan.v) + u64::from(plan.z);
    let (c, dmin, dmax) = (
        u128::from(plan.c),
        u128::from(plan.dmin),
        u128::from(plan.dmax),
    );
    let latest = (c * longest).max(dmax + longest);
    let spread = 2 * dmax.saturating_sub(dmin) + 2 * longest + drift(plan, ticks);
    (spread + latest).saturating_sub((c * shortest).min(dmin))
}

// Whether an inequality with these sides fails.
fn fails(left: i128, right: i128) -> bool
    ensures { result ≡ int_lt left right }
{
    left < right
}

/// The left and the right side of an inequality of the plan, from 1 to 7, in reference units. The
/// inequality fails if the left side is below the right one.
pub fn sides(shape: &Shape, plan: &Plan, n: u8) -> (i128, i128)
    requires first { 1 ≤ n }
    requires last { n ≤ 7 }
    ensures { sides_of shape.now plan.now n ≡ Some (record { left = result.0; right = result.1 }) }
{
    let shortest = u128::from(plan.u.saturating_sub(plan.r));
    let longest = u128::from(plan.u) + u128::from(plan.r);
    let (h, dmin, dmax) = (
        u128::from(plan.h),
        u128::from(plan.dmin),
        u128::from(plan.dmax),
    );
    let skew = skew(shape, plan);
    let to_second = drift(plan, u64::from(plan.l));
    let to_third = drift(plan, u64::from(plan.l) + u64::from(plan.v));
    match n {
        1 => ((h * shortest + dmin) as i128, skew as i128),
        2 => (rest(plan, plan.l), (skew + dmax) as i128),
        3 => ((h * longest + 2 * dmin) as i128, (skew + to_second) as i128),
        4 => (
            rest(plan, plan.v),
            (skew + 2 * dmax + longest + to_second) as i128,
        ),
        5 => ((h * longest + 3 * dmin) as i128, (skew + to_third) as i128),
        6 => (
            rest(plan, plan.z),
            (skew + 3 * dmax + 2 * longest + to_third) as i128,
        ),
        _ => (i128::from(plan.p), next_skew(plan) as i128),
    }
}

// The window of `ticks` ticks from the offset `first` on.
fn window_of(slot: u16, stage: u8, first: u64, ticks: u32) -> Window
    requires some { 1 ≤ ticks }
    requires first { first ≤ 1000000 }
    ensures { result ≡ window_of slot stage first ticks }
{
    Window {
        slot,
        stage,
        first,
        last: first + u64::from(ticks) - 1,
    }
}

// A window below the sync slot, by its number: three stages a slot.
fn exact_window(plan: &Plan, number: u16) -> Window
    requires plan { IsPlan plan.now }
    requires below { number < 336 }
    ensures { result ≡ exact_window plan.now number }
{
    let first = u64::from(number) * u64::from(plan.l);
    window_of(number / 3, (number % 3) as u8 + 1, first, plan.l)
}

// The window in which an offset lies, found by a division.
fn window(shape: &Shape, plan: &Plan, offset: u64) -> Option<Window>
    requires { IsPlan plan.now }
    ensures value { result ≡ window_at shape.now plan.now offset }
    ensures none { IsNone result ↔ (tail_start_of shape.now plan.now ≤ offset) }
{
    let sync_slot = shape.sync_slot();
    let first = f0(shape, plan);
    let second = first + u64::from(plan.l);
    let third = second + u64::from(plan.v);
    if offset < first {
        Some(exact_window(plan, (offset / u64::from(plan.l)) as u16))
    } else if offset < second {
        Some(window_of(sync_slot, 1, first, plan.l))
    } else if offset < third {
        Some(window_of(sync_slot, 2, second, plan.v))
    } else if offset < third + u64::from(plan.z) {
        Some(window_of(sync_slot, 3, third, plan.z))
    } else {
        None
    }
}

/// A shape with a plan that is feasible for it.
#[derive(Clone, Copy)]
pub struct Feasible {
    shape: Shape,
    plan: Plan,
}

impl Model for Feasible {
    ghost use Rattle.rb_rules.specs.Plan.{IsPlan, IsFeasible};
    ghost use Rattle.rb_plan.specs.Timetable.{Timetable};

    ghost Value = { Timetable };

    ghost view = { λ f. record { sizes = f.shape; plan = f.plan } };

    ghost invariant = { λ f. IsPlan f.plan × IsFeasible f.shape f.plan };

    ghost inverse = { λ t. record { shape = t.sizes; plan = t.plan } };
}

impl Feasible {
    /// The shape with the plan, if all seven inequalities hold, or else the number of the first
    /// that fails.
    pub fn new(shape: &Shape, plan: &Plan) -> Result<Feasible, u8>
        requires { IsPlan plan.now }
        ensures value { IfOk result (λ f. f ≡ record { sizes = shape.now; plan = plan.now }) }
        ensures feasible { IfOk result (λ _. first_failing shape.now plan.now ≡ None) }
        ensures first { IfErr result (λ n. first_failing shape.now plan.now ≡ Some n) }
    {
        for n in 1..8 {
            let (left, right) = sides(shape, plan, n);
            if fails(left, right) {
                return Err(n);
            }
        }
        Ok(Feasible {
            shape: *shape,
            plan: *plan,
        })
    }

    /// The shape of the bus.
    pub fn shape(&self) -> &Shape
        ensures { result.now ≡ self.now.sizes }
    {
        &self.shape
    }

    /// The plan of the bus.
    pub fn plan(&self) -> &Plan
        ensures value { result.now ≡ self.now.plan }
        ensures plan { IsPlan self.now.plan }
        ensures feasible { IsFeasible self.now.sizes self.now.plan }
    {
        &self.plan
    }

    /// The offset of the sync slot, in ticks.
    pub fn f0(&self) -> u64
        ensures value { result ≡ f0_of self.now.sizes self.now.plan }
        ensures small { result ≤ 336000 }
    {
        f0(&self.shape, &self.plan)
    }

    /// The window in which an offset lies. None exactly from the tail on, after the sync slot's
    /// third stage.
    pub fn window(&self, offset: u64) -> Option<Window>
        ensures value { result ≡ window_at self.now.sizes self.now.plan offset }
        ensures none { IsNone result ↔ (tail_start_of self.now.sizes self.now.plan ≤ offset) }
    {
        window(&self.shape, &self.plan, offset)
    }

    /// The offset at which the message of a stage is sent, for a slot below the sync slot and a
    /// stage from 1 to 3.
    pub fn send_offset(&self, slot: u16, stage: u8) -> u64
        requires slot { slot < sync_slot_of self.now.sizes }
        requires first { 1 ≤ stage }
        requires last { stage ≤ 3 }
        ensures { result ≡ send_offset_of self.now.plan slot stage }
    {
        (3 * u64::from(slot) + u64::from(stage) - 1) * u64::from(self.plan.l)
            + u64::from(self.plan.h)
    }
}
