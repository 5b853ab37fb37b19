//! A stage below the sync slot: what a node makes of what came in it.
#![tactic(auto)]

ghost use Rattle.std.specs.Prelude.{◌≡◌, ◌<◌, unwrap_or, IsTrue};
ghost use Rattle.rb_base.specs.declared.values.Heard.{Heard};
ghost use Rattle.rb_eligible.specs.Standings.{standing_of};
ghost use Rattle.rb_eligible.specs.Takings.{AccusesBy};
ghost use Rattle.rb_round.specs.Closes.{ClosesBy};
ghost use Rattle.rb_rules.specs.ExactStage.{at_source, present, with_unlike};
ghost use Rattle.rb_rules.specs.Majority.{majority_of};
ghost use Rattle.rb_rules.specs.Standing.{is_unlike};

pub use close::close_in_place;
use rb_base::{Heard, NodeSet};
use rb_eligible::{Inbox, Standing, take_with_evidence, with_node_if};
pub use rb_rules::Closing;
use rb_rules::Expect;
use rb_vote::majority_taken;

pub mod close;

// The vote over what was taken. If more than half of it is known to be alike, the vote is that
// value: this is the short cut "known majority" of docs/PERFORMANCE.md.
fn vote(taken: &[Option<Heard>; 16], alike: bool, value: Heard) -> Heard
    requires { IsTrue alike → majority_of (present taken.now) ≡ value }
    ensures { result ≡ majority_of (present taken.now) }
{
    if alike { value } else { majority_taken(taken) }
}

/// Closes a stage below the sync slot. The value from each source that is expected and eligible is
/// accepted if exactly one message came from it and that is meant for the window; a relayed Fault
/// is a value too. Then each trusted source is accused that was expected but did not send exactly
/// this one message, or that was not expected but sent something. The vote is the majority of the
/// accepted values, and Fault if there are none. A mismatch accusation changes nothing in any of
/// this.
///
/// This is the receiving end of a communication stage of the unified protocol of Miner, Geser, Pike
/// and Maddalon (FORMATS 2004): local error detection, then the hybrid majority. The rules of
/// evidence are this project's own.
pub fn close_stage<K: Copy>(
    inbox: &Inbox<K>,
    standing: &mut Standing<K>,
    expect: &Expect,
    expected: NodeSet<K>,
) -> Closing
    ensures closing { ClosesBy inbox.now (standing_of standing.old) expect.now expected result }
    ensures accused { AccusesBy inbox.now (standing_of standing.old) expect.now expected
        (standing_of standing.new) }
{
    let mut closing = Closing {
        taken: [None; 16],
        voted: Heard::Fault,
    };
    close_in_place(inbox, standing, expect, expected, &mut closing);
    closing
}

// The close of a stage in which something came or somebody is expected.
#[inline(never)]
fn close_busy<K: Copy>(
    inbox: &Inbox<K>,
    standing: &mut Standing<K>,
    expect: &Expect,
    expected: NodeSet<K>,
    closing: &mut Closing,
)
    ensures closing { ClosesBy inbox.now (standing_of standing.old) expect.now expected
        closing.new }
    ensures accused { AccusesBy inbox.now (standing_of standing.old) expect.now expected
        (standing_of standing.new) }
{
    let taking = take_with_evidence(inbox, standing, expect, expected, &mut closing.taken);
    closing.voted = vote(&closing.taken, taking.alike, taking.value);
}

// Whether something other than the value was taken.
fn is_unlike(value: Heard, taken: Option<Heard>) -> bool
    ensures { result ≡ is_unlike value taken }
{
    match taken {
        Some(heard) => value != heard,
        None => false,
    }
}

/// Accuses by mismatch each source of which something other than the value was taken. They stay
/// eligible.
pub fn accuse_unlike<K: Copy>(closing: &Closing, value: Heard, standing: &mut Standing<K>)
    ensures { standing_of standing.new
        ≡ with_unlike value closing.now.taken (standing_of standing.old) }
{
    let mut differing = NodeSet::empty();
    for source in 0..16u8 {
        let taken = closing.taken[usize::from(source)];
        differing = with_node_if(differing, source, is_unlike(value, taken));
    }
    standing.accuse_differing(differing);
}

/// What a node says as a relay that took this of the slot's sender in stage 1: Fault if it took
/// nothing.
pub fn relay_of(taken: Option<Heard>) -> Heard
    ensures { result ≡ unwrap_or taken Heard.Fault }
{
    taken.unwrap_or(Heard::Fault)
}

/// What a node says as a relay of the slot's sender, a node below 16: what it accepted from it in
/// stage 1, and Fault if it accepted nothing.
pub fn relay(closing: &Closing, sender: u8) -> Heard
    requires { sender < 16 }
    ensures { result ≡ unwrap_or (at_source closing.now.taken sender) Heard.Fault }
{
    relay_of(closing.taken[usize::from(sender)])
}
