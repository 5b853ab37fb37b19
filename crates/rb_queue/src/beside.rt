//! What is looked up among all that is pending at one node, if something is kept beside the lane.
ghost use Rattle.std.specs.Prelude.{◌≡◌, ◌+◌, ◌<◌, ◌≤◌, ◌++◌, length, map, MatchResult, Option, option_to_list, Some};
ghost use Rattle.rb_base.specs.Counting.{count_if};
ghost use Rattle.rb_rules.specs.WorldStep.{least};
ghost use Rattle.rb_queue.specs.Queued.{IsBeside, beside_at, is_sent_between, senders_at, sent_at, sooner_of, takeable_at, ticks_at};
ghost use Rattle.rb_queue.specs.Spots.{IsSpot};

use crate::lane::Lane;
use crate::pending::Pending;
use crate::scan::{count, count_tick, place_among};

/// Where something that is pending is: at a place among the arrivals, in the place of the tick, or
/// at a place of what is kept beside.
pub enum Spot {
    Arrival(usize),
    Tick,
    Kept(usize),
}

fn sooner(ahead: Option<u64>, time: u64) -> u64
    ensures { result ≡ sooner_of ahead time }
{
    match ahead {
        None => time,
        Some(first) => first.min(time),
    }
}

// The least time of all.
pub(crate) fn least_time(lane: &Lane, more: &[Pending]) -> Option<u64>
    ensures { result ≡ least ((option_to_list lane.now.tick ++ map (λ c. c.time) lane.now.arrivals)
        ++ map (λ p. p.time) more.now) }
{
    let mut first = lane.head();
    for pending in more {
        first = Some(sooner(first, pending.time));
    }
    first
}

// How many are kept beside the lane that come at a time from the sources from `first` on and before
// `end`.
fn count_beside(more: &[Pending], time: u64, first: u16, end: u16) -> usize
    ensures value { result ≡ count_if (is_sent_between time first end) more.now }
    ensures few { result ≤ length more.now }
{
    let mut count = 0;
    for pending in more {
        count += usize::from(pending.is_between(time, first, end));
    }
    count
}

// How many may be taken at a time.
pub(crate) fn count_takeable(lane: &Lane, more: &[Pending], time: u64) -> usize
    requires { length lane.now.arrivals + length more.now ≤ lane.now.room }
    ensures value { result ≡ length (takeable_at time lane.now more.now) }
    ensures few { result ≤ lane.now.room + 1 }
{
    let arriving = count(lane.waiting(), time, 0, 256) + count_beside(more, time, 0, 256);
    if arriving > 0 {
        return arriving;
    }
    count_tick(lane.tick(), time) + count_beside(more, time, 256, 257)
}

// The place, among what is kept beside the lane, of what comes from a source at a time, after
// `others` such arrivals. If there is none, how many of those others are still to be found
// elsewhere.
fn beside_among(more: &[Pending], time: u64, source: u16, others: usize) -> Result<usize, usize>
    ensures { MatchResult result (λ place. IsBeside (beside_at time more.now source) others more.now place)
        (λ left. left + length (beside_at time more.now source) ≡ others) }
{
    let mut left = others;
    for (place, pending) in more.iter().enumerate() {
        if pending.is_of(time, source) {
            if left == 0 {
                return Ok(place);
            }
            left -= 1;
        }
    }
    Err(left)
}

// The spot of what comes from a sender at a time, after `others` such arrivals.
fn spot_among(
    lane: &Lane,
    more: &[Pending],
    time: u64,
    source: u16,
    others: usize,
) -> Result<Spot, usize>
    ensures { MatchResult result (λ spot. IsSpot (sent_at time lane.now more.now source) others lane.now more.now spot)
        (λ left. left + length (sent_at time lane.now more.now source) ≡ others) }
{
    match place_among(lane.waiting(), time, source, others) {
        Ok(place) => Ok(Spot::Arrival(place)),
        Err(left) => match beside_among(more, time, source, left) {
            Ok(place) => Ok(Spot::Kept(place)),
            Err(rest) => Err(rest),
        },
    }
}

// The spot of the i-th arrival of a time, by sender and then in the order of pushing. If there is
// none, how many places are left.
fn spot_by_sender(lane: &Lane, more: &[Pending], time: u64, i: usize) -> Result<Spot, usize>
    ensures { MatchResult result (λ spot. IsSpot (senders_at time lane.now more.now) i lane.now more.now spot)
        (λ left. left + length (senders_at time lane.now more.now) ≡ i) }
{
    let mut left = i;
    for source in 0..256 {
        match spot_among(lane, more, time, source, left) {
            Ok(spot) => return Ok(spot),
            Err(others) => left = others,
        }
    }
    Err(left)
}

// The spot of the i-th tick of a time.
fn spot_of_tick(lane: &Lane, more: &[Pending], time: u64, i: usize) -> Spot
    requires { i < length (ticks_at time lane.now more.now) }
    ensures { IsSpot (ticks_at time lane.now more.now) i lane.now more.now result }
{
    let ticks = count_tick(lane.tick(), time);
    if i < ticks {
        return Spot::Tick;
    }
    match beside_among(more, time, 256, i - ticks) {
        Ok(place) => Spot::Kept(place),
        Err(_) => Spot::Tick,
    }
}

// The spot of the i-th that may be taken at a time.
pub(crate) fn spot_at(lane: &Lane, more: &[Pending], time: u64, i: usize) -> Spot
    requires { i < length (takeable_at time lane.now more.now) }
    ensures { IsSpot (takeable_at time lane.now more.now) i lane.now more.now result }
{
    match spot_by_sender(lane, more, time, i) {
        Ok(spot) => spot,
        Err(left) => spot_of_tick(lane, more, time, left),
    }
}
