//! Clocks: at which time a tick begins, and which tick comes next at a time.
//!
//! Times are whole reference units. Tick 0 begins at the clock's start, and each tick takes the
//! length of the last segment that begins at or before it.
#![tactic(auto)]

ghost use Rattle.std.specs.Prelude.{◌≡◌, ◌≤◌, ◌<◌, ◌+◌, ◌-◌, ◌^◌, ◌↔◌, true, false, IfOk};
ghost use Rattle.rb_rules.specs.Clock.{ComesBy, IsClock, IsStamp, are_rising, are_within, stamp_of, time_of};

use std::alloc::{AllocError, Global};
use std::marker::Model;
use thiserror::Error;

// No run has as many ticks.
const LAST_TICK: u64 = 1 << 31;

/// Why there is no such clock.
#[derive(Clone, Copy, Debug, PartialEq, Eq, Error)]
pub enum ClockRefusal {
    /// There is no segment, the first does not begin at tick 0, or one does not begin after the one
    /// before it.
    #[error("the segments do not begin at tick 0 and rise")]
    NotRising,
    /// A length is shorter or longer than a tick may be.
    #[error("a tick is too short or too long")]
    TickOutOfBounds,
    /// An allocation failed.
    #[error("there is not enough memory")]
    OutOfMemory,
}

impl From<AllocError> for ClockRefusal {
    ghost use Rattle.std.specs.Prelude.{◌≡◌};
    ghost use Rattle.rb_clock.specs.declared.ClockRefusal.TheVariants.{OutOfMemory};

    ghost from_gives = { λ _ e. e ≡ OutOfMemory };

    fn from(_error: AllocError) -> ClockRefusal {
        ClockRefusal::OutOfMemory
    }
}

/// A clock: its start, and the segments of its ticks, each with its first tick and the length of
/// its ticks.
#[derive(Drop)]
pub struct Clock {
    start: u64,
    segments: Vec<(u64, u32)>,
}

impl Model for Clock {
    ghost use Rattle.rb_rules.specs.Clock.{IsClock, Timeline};

    ghost Value = { Timeline };

    ghost view = { λ c. record { start = c.start; segments = c.segments.items } };

    ghost invariant = { λ c. IsClock 1 2000000 (record { start = c.start; segments = c.segments.items }) };
}

// Whether the segments begin at tick 0 and rise.
fn are_rising(segments: &[(u64, u32)]) -> bool
    ensures { result ≡ are_rising segments.now }
{
    let [first, rest @ ..] = segments else {
        return false;
    };
    if first.0 != 0 {
        return false;
    }
    let mut before = 0;
    for (tick, _) in rest {
        if *tick <= before {
            return false;
        }
        before = *tick;
    }
    true
}

// Whether each length is within the bounds.
fn are_within(shortest: u32, longest: u32, segments: &[(u64, u32)]) -> bool
    ensures { result ≡ are_within shortest longest segments.now }
{
    for (_, length) in segments {
        if *length < shortest || longest < *length {
            return false;
        }
    }
    true
}

impl Clock {
    /// A clock whose tick 0 begins at `start`. A segment is a first tick and the length of the
    /// ticks from there on, `unit` give or take `drift`. Times and lengths are in reference units.
    ///
    /// `NotRising` is the answer if and only if there is no segment, the first does not begin at
    /// tick 0, or one does not begin after the one before it; else `TickOutOfBounds` if and only if
    /// a length is not within the bounds.
    pub fn new(
        alloc: Global,
        start: u64,
        segments: &[(u64, u32)],
        unit: u32,
        drift: u32,
    ) -> Result<Clock, ClockRefusal>
        requires start { start ≤ 1000000000000 }
        requires some_unit { 2 ≤ unit }
        requires most_units { unit ≤ 1000000 }
        requires drift { drift < unit }
        ensures value { IfOk result (λ c. c ≡ record { start = start; segments = segments.now }) }
        ensures clock { IfOk result (IsClock (unit - drift) (unit + drift)) }
        ensures not_rising { (result ≡ Err ClockRefusal.NotRising)
            ↔ (are_rising segments.now ≡ false) }
        ensures out_of_bounds { (result ≡ Err ClockRefusal.TickOutOfBounds)
            ↔ ((are_rising segments.now ≡ true)
            × (are_within (unit - drift) (unit + drift) segments.now ≡ false)) }
    {
        if !are_rising(segments) {
            return Err(ClockRefusal::NotRising);
        }
        if !are_within(unit - drift, unit + drift, segments) {
            return Err(ClockRefusal::TickOutOfBounds);
        }
        let segments = Vec::from_slice(alloc, segments)?;
        Ok(Clock { start, segments })
    }

    /// The time at which tick 0 begins, in reference units.
    pub fn start(&self) -> u64
        ensures { result ≡ self.now.start }
    {
        self.start
    }

    /// The segments in order, each a first tick and the length of the ticks from there on, in
    /// reference units.
    pub fn segments(&self) -> &[(u64, u32)]
        ensures { result.now ≡ self.now.segments }
    {
        &self.segments
    }

    /// The time at which the tick begins, in reference units, of ticks up to 2^31.
    pub fn at(&self, tick: u64) -> u64
        requires { tick ≤ 2 ^ 31 }
        ensures time { result ≡ time_of self.now tick }
        ensures small { result < 2 ^ 53 }
        ensures clock { IsClock 1 2000000 self.now }
    {
        self.late_at(tick)
    }

    /// The time at which the tick begins, in reference units, of ticks up to 2^33, which is more
    /// than a node can have. This is the short cut "clock of one length" of docs/PERFORMANCE.md.
    #[inline(always)]
    pub fn late_at(&self, tick: u64) -> u64
        requires { tick ≤ 2 ^ 33 }
        ensures time { result ≡ time_of self.now tick }
        ensures clock { IsClock 1 2000000 self.now }
    {
        let [(_, first), rest @ ..] = self.segments.as_slice() else {
            return self.start;
        };
        if rest.is_empty() {
            return self.start + tick * u64::from(*first);
        }
        self.walked_to(tick)
    }

    // The time of a tick as `late_at` gives it, found by walking from segment to segment.
    #[inline(never)]
    fn walked_to(&self, tick: u64) -> u64
        requires { tick ≤ 2 ^ 33 }
        ensures time { result ≡ time_of self.now tick }
        ensures clock { IsClock 1 2000000 self.now }
    {
        let [(_, first), rest @ ..] = self.segments.as_slice() else {
            return self.start;
        };
        let mut now = self.start;
        let mut from = 0;
        let mut length = u64::from(*first);
        for (next, changed) in rest {
            if tick <= *next {
                break;
            }
            now += (*next - from) * length;
            from = *next;
            length = u64::from(*changed);
        }
        now + (tick - from) * length
    }

    /// The stamp of a time in reference units: the least tick that does not begin before it. An
    /// arrival at that time is given to a node before this tick. The time has come by tick 2^31.
    #[inline(never)]
    pub fn first_at(&self, time: u64) -> u64
        requires { ComesBy (2 ^ 31) self.now time }
        ensures stamp { IsStamp self.now time result }
        ensures value { result ≡ stamp_of self.now time }
        ensures most { result ≤ 2 ^ 31 }
    {
        let [(_, first), rest @ ..] = self.segments.as_slice() else {
            return 0;
        };
        let mut now = self.start;
        let mut from = 0;
        let mut length = u64::from(*first);
        for (next, changed) in rest {
            if LAST_TICK <= *next {
                break;
            }
            let end = now + (*next - from) * length;
            if time <= end {
                break;
            }
            now = end;
            from = *next;
            length = u64::from(*changed);
        }
        if time <= now {
            from
        } else {
            from + (time - now).div_ceil(length)
        }
    }
}
