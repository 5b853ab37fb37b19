//! The close of a stage, in place.
ghost use Rattle.rb_eligible.specs.Standings.{standing_of};
ghost use Rattle.rb_eligible.specs.Takings.{AccusesBy};
ghost use Rattle.rb_round.specs.Closes.{ClosesBy};

use crate::close_busy;
use rb_base::{Heard, NodeSet};
use rb_eligible::{Inbox, Standing, is_quiet};
use rb_rules::{Closing, Expect};

/// Closes a stage as `close_stage` does, in place: its closing is written over that of an earlier
/// stage. This is the short cut "quiet window" of docs/PERFORMANCE.md.
#[inline(always)]
pub fn close_in_place<K: Copy>(
    inbox: &Inbox<K>,
    standing: &mut Standing<K>,
    expect: &Expect,
    expected: NodeSet<K>,
    closing: &mut Closing,
)
    ensures closing { ClosesBy inbox.now (standing_of standing.old) expect.now expected
        closing.new }
    ensures accused { AccusesBy inbox.now (standing_of standing.old) expect.now expected
        (standing_of standing.new) }
{
    if is_quiet(inbox, standing, expected) {
        closing.taken = [None; 16];
        closing.voted = Heard::Fault;
    } else {
        close_busy(inbox, standing, expect, expected, closing);
    }
}
