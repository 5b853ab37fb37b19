//! The middle of the stamps that a node took in a stage.
#![tactic(auto)]

ghost use Rattle.std.specs.Prelude.{◌≡◌, ◌≤◌, ◌↔◌, [], IsNone, IfSome, IsTrue, length};
ghost use Rattle.rb_rules.specs.Middle.{IsMiddle, below, middle_of, up_to};
ghost use Rattle.rb_mid.specs.Ranges.{IsWithin};

use arrayvec::ArrayVec;

/// The middle of the stamps that a node took in a stage: of n stamps in ascending order the one at
/// place (n - 1) / 2, counted from 0 and rounded down, so the lower of two. A stamp is a number of
/// ticks. The answer is `None` if and only if there is no stamp.
///
/// This is the middle value that the unified protocol of Miner, Geser, Pike and Maddalon (FORMATS
/// 2004) selects where good sources may differ a little, as the times of their messages do, and an
/// exact vote would find no majority: if more than half of the stamps come from good sources, the
/// middle lies between the least and the greatest of theirs.
pub fn middle(stamps: &ArrayVec<u64, 16>) -> Option<u64>
    ensures is { result ≡ middle_of stamps.now.items }
    ensures counted { IfSome result (λ m. IsMiddle m stamps.now.items) }
    ensures none { IsNone result ↔ (stamps.now.items ≡ []) }
{
    let taken = stamps.as_slice();
    if taken.is_empty() {
        return None;
    }
    let mut range = Range {
        low: 0,
        high: u64::MAX,
    };
    let central = taken[(taken.len() - 1) / 2];
    if is_found(taken, central, &mut range) {
        return Some(central);
    }
    for stamp in taken {
        if is_found(taken, *stamp, &mut range) {
            return Some(*stamp);
        }
    }
    None
}

// The numbers among which the middle must be.
#[derive(Clone, Copy)]
struct Range {
    low: u64,
    high: u64,
}

// How many stamps are below a number, and how many are at most it.
#[derive(Clone, Copy)]
struct Ranks {
    below: usize,
    up_to: usize,
}

fn ranks_of(stamp: u64, stamps: &[u64]) -> Ranks
    requires { length stamps.now ≤ 16 }
    ensures below { result.below ≡ below stamp stamps.now }
    ensures up_to { result.up_to ≡ up_to stamp stamps.now }
    ensures below_most { result.below ≤ 16 }
    ensures up_to_most { result.up_to ≤ 16 }
{
    let mut below: usize = 0;
    let mut up_to: usize = 0;
    for other in stamps {
        below += usize::from(*other < stamp);
        up_to += usize::from(*other <= stamp);
    }
    Ranks { below, up_to }
}

// If the stamp is not the middle, it tells on which side of it the middle is. Sources with higher
// numbers are mostly heard later, and all stamps of one stage are near one another, so few stamps
// are tried: counting is quicker than sorting.
fn is_middle(stamps: &[u64], stamp: u64, range: &mut Range) -> bool
    requires { length stamps.now ≤ 16 }
    ensures middle { IsTrue result ↔ IsMiddle stamp stamps.now }
    ensures range { IsWithin stamps.now range.old → IsWithin stamps.now range.new }
{
    let Ranks { below, up_to } = ranks_of(stamp, stamps);
    if 2 * up_to < stamps.len() {
        range.low = stamp.saturating_add(1);
        return false;
    }
    if stamps.len() <= 2 * below {
        range.high = stamp.saturating_sub(1);
        return false;
    }
    true
}

// Whether the stamp is the middle. A stamp outside the range is not counted.
fn is_found(stamps: &[u64], stamp: u64, range: &mut Range) -> bool
    requires few { length stamps.now ≤ 16 }
    requires range { IsWithin stamps.now range.old }
    ensures middle { IsTrue result ↔ IsMiddle stamp stamps.now }
    ensures range { IsWithin stamps.now range.new }
{
    if stamp < range.low {
        return false;
    }
    if range.high < stamp {
        return false;
    }
    is_middle(stamps, stamp, range)
}
