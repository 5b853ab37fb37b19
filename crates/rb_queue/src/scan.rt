//! What is looked up among the arrivals of one lane.
ghost use Rattle.std.specs.Prelude.{◌≡◌, ℕ, ◌+◌, ◌<◌, ◌≤◌, ◌++◌, ◌∷◌, [], length, map, nat_lt, MatchResult, Option, option_to_list};
ghost use Rattle.rb_base.specs.Counting.{count_if};
ghost use Rattle.rb_rules.specs.WorldStep.{least};
ghost use Rattle.rb_queue.specs.Waiting.{arrivals_at, coming_at, comes, tick_at, unless_any};
ghost use Rattle.rb_queue.specs.Scanning.{AreBy, HasFirst, StandsAt, is_between, is_sooner};

use crate::arrival::Arrival;

// The place of the first arrival, with one more behind the others.
#[inline(always)]
pub(crate) fn first_with(arrivals: &[Arrival], first: usize, arrival: &Arrival) -> usize
    requires { HasFirst arrivals.now first }
    ensures { HasFirst (arrivals.now ++ arrival.now ∷ []) result }
{
    let _source = arrival.source();
    if first >= arrivals.len() {
        return arrivals.len();
    }
    if arrival.comes_before(&arrivals[first]) {
        arrivals.len()
    } else {
        first
    }
}

// The place of the first arrival.
#[inline(always)]
pub(crate) fn first_of(arrivals: &[Arrival]) -> usize
    ensures { HasFirst arrivals.now result }
{
    let mut first = 0;
    for (place, arrival) in arrivals.iter().enumerate() {
        first = first_with(&arrivals[..place], first, arrival);
    }
    first
}

// A time by which they all are due, with one more behind them.
#[inline(always)]
pub(crate) fn latest_with(arrivals: &[Arrival], latest: u64, arrival: &Arrival) -> u64
    requires { AreBy latest arrivals.now }
    ensures { AreBy result (arrivals.now ++ arrival.now ∷ []) }
{
    latest.max(arrival.time())
}

// Whether the tick comes before a time.
#[inline(always)]
pub(crate) fn is_sooner(tick: Option<u64>, time: u64) -> bool
    ensures { result ≡ is_sooner tick time }
{
    match tick {
        None => false,
        Some(ahead) => ahead < time,
    }
}

// The least time, if the first arrival is at this place.
pub(crate) fn least_time(arrivals: &[Arrival], first: usize, tick: Option<u64>) -> Option<u64>
    requires { HasFirst arrivals.now first }
    ensures { result ≡ least (option_to_list tick ++ map (λ c. c.time) arrivals.now) }
{
    if first >= arrivals.len() {
        return tick;
    }
    let time = arrivals[first].time();
    if is_sooner(tick, time) {
        return tick;
    }
    Some(time)
}

// How many ticks there are at a time.
pub(crate) fn count_tick(tick: Option<u64>, time: u64) -> usize
    ensures value { result ≡ length (tick_at time tick) }
    ensures few { result ≤ 1 }
{
    match tick {
        None => 0,
        Some(ahead) => if ahead == time { 1 } else { 0 },
    }
}

// How many are ready at a time.
pub(crate) fn count_ready(arrivals: &[Arrival], tick: Option<u64>, time: u64) -> usize
    ensures value { result
        ≡ length (unless_any (arrivals_at time arrivals.now) (tick_at time tick)) }
    ensures few { result ≤ length arrivals.now + 1 }
{
    let arriving = count(arrivals, time, 0, 256);
    if arriving > 0 {
        return arriving;
    }
    count_tick(tick, time)
}

fn is_between(arrival: &Arrival, time: u64, first: u16, end: u16) -> bool
    ensures { result ≡ is_between time first end arrival.now }
{
    let source = arrival.source();
    first <= source && source < end && arrival.time() == time
}

// How many arrivals come at a time from the sources from `first` on and before `end`.
pub(crate) fn count(arrivals: &[Arrival], time: u64, first: u16, end: u16) -> usize
    ensures value { result ≡ count_if (is_between time first end) arrivals.now }
    ensures few { result ≤ length arrivals.now }
{
    let mut count = 0;
    for arrival in arrivals {
        count += usize::from(is_between(arrival, time, first, end));
    }
    count
}

// The lowest source, from this one on, of which something comes at a time. 256, if there is none.
fn lowest_source(arrivals: &[Arrival], time: u64, first: u16) -> u16
    requires { first ≤ 256 }
    ensures low { first ≤ result }
    ensures high { result ≤ 256 }
    ensures none { (j : ℕ) → first ≤ j → j < result → count_if (comes time j) arrivals.now ≡ 0 }
{
    let mut lowest = 256;
    for arrival in arrivals {
        if is_between(arrival, time, first, lowest) {
            lowest = arrival.source();
        }
    }
    lowest
}

// The place of the arrival that comes from a source at a time, after `others` such arrivals. If
// there is none, how many of those others are still to be found elsewhere.
pub(crate) fn place_among(
    arrivals: &[Arrival],
    time: u64,
    source: u16,
    others: usize,
) -> Result<usize, usize>
    ensures { MatchResult result (λ place. StandsAt (coming_at time arrivals.now source) others arrivals.now place)
        (λ left. left + length (coming_at time arrivals.now source) ≡ others) }
{
    let mut left = others;
    for (place, arrival) in arrivals.iter().enumerate() {
        if arrival.comes(time, source) {
            if left == 0 {
                return Ok(place);
            }
            left -= 1;
        }
    }
    Err(left)
}

// The place of the i-th arrival of a time, by sender and then in the order of pushing.
pub(crate) fn place_of(arrivals: &[Arrival], time: u64, i: usize) -> usize
    requires { i < length (arrivals_at time arrivals.now) }
    ensures { StandsAt (arrivals_at time arrivals.now) i arrivals.now result }
{
    let mut first = 0;
    let mut left = i;
    'sources: loop {
        let source = lowest_source(arrivals, time, first);
        match place_among(arrivals, time, source, left) {
            Ok(place) => return place,
            Err(others) => {
                left = others;
                first = source + 1;
            }
        }
    }
}
