//! The sync slot: what a node makes of the calls to resynchronize, and when its next frame begins.
#![tactic(auto)]

ghost use Rattle.std.specs.Prelude.{◌≡◌, ℕ, ◌+◌, ◌<◌, ◌≤◌, ◌^◌, ◌++◌, ◌∷◌, [], List, if◌then◌else◌, Some, None, length};
ghost use Rattle.rb_base.specs.Nodes.{has};
ghost use Rattle.rb_base.specs.Nodes.Side.{Biu, Rmu};
ghost use Rattle.rb_eligible.specs.Inboxes.{Received, HoldsArrivals, StampsUpTo, sense_in, sole_at};
ghost use Rattle.rb_eligible.specs.Standings.{standing_of};
ghost use Rattle.rb_eligible.specs.Takings.{AccusesBy};
ghost use Rattle.rb_rules.specs.ExactStage.{present};
ghost use Rattle.rb_rules.specs.NodeState.{NodeState};
ghost use Rattle.rb_rules.specs.SyncStage.{new_epoch_of, sync_closing_of};

use arrayvec::ArrayVec;
use rb_base::{NodeId, NodeSet};
use rb_eligible::{Inbox, Standing, take_with_evidence};
use rb_mid::middle;
use rb_plan::Feasible;
use rb_rules::Expect;
pub use rb_rules::SyncClosing;

// What is accepted from a source: its stamp, if a message is accepted from it.
fn taken<K: Copy>(inbox: &Inbox<K>, takers: NodeSet<K>, source: u8) -> Option<u64>
    requires { source < 16 }
    ensures { result ≡ (if has takers source then Some (sole_at inbox.now.soles source).at
        else None) }
{
    let id = NodeId::of(source);
    if takers.contains(id) {
        Some(inbox.sole_at(id).at)
    } else {
        None
    }
}

// Adds the stamp, if there is one.
fn add(stamps: &mut ArrayVec<u64, 16>, taken: Option<u64>)
    requires { length stamps.old.items < 16 }
    ensures { stamps.new.items ≡ stamps.old.items ++ present (taken ∷ []) }
{
    if let Some(stamp) = taken {
        stamps.push(stamp);
    }
}

/// Closes a stage of the sync slot, or the tail. Of each source that is expected and eligible the
/// stamp is taken with which its call came, if exactly one message came and it is meant for the
/// window. Then each trusted source is accused that was expected and of which not exactly that
/// came, or that was not expected and of which something came. The middle is that of the stamps,
/// the lower of two, and `first`, the window's first tick, if none was taken. So it is at most the
/// greatest of `first` and the stamps. Stamps, the middle and `first` are ticks of the node's own
/// clock.
///
/// This is the receiving end of a stage of clock synchronization by the unified protocol of Miner,
/// Geser, Pike and Maddalon (FORMATS 2004): local error detection, then the middle value. The rules
/// of evidence are this project's own.
pub fn close_sync<K: Copy>(
    inbox: &Inbox<K>,
    standing: &mut Standing<K>,
    expect: &Expect,
    expected: NodeSet<K>,
    first: u64,
) -> SyncClosing
    ensures closing { (received : List Received) → HoldsArrivals inbox.now received
        → result ≡ sync_closing_of (standing_of standing.old) (has expected)
        (sense_in expect.now received) first }
    ensures accused { AccusesBy inbox.now (standing_of standing.old) expect.now expected
        (standing_of standing.new) }
    ensures soon { (n : ℕ) → StampsUpTo n inbox.now → first ≤ n → result.middle ≤ n }
{
    let mut values = [None; 16];
    let taking = take_with_evidence(inbox, standing, expect, expected, &mut values);
    let takers = taking.ones.intersection(inbox.soles());
    let mut taken_of = [None; 16];
    let mut stamps = ArrayVec::new();
    for source in 0..16u8 {
        let stamp = taken(inbox, takers, source);
        taken_of[usize::from(source)] = stamp;
        add(&mut stamps, stamp);
    }
    SyncClosing {
        taken: taken_of,
        middle: middle(&stamps).unwrap_or(first),
    }
}

/// The tick with which a BIU's next frame begins, by the middle of stage 2 of the sync slot, a tick
/// of at most 2^32: the lengths of stages 2 and 3 later, and `c` ticks. The lengths are this
/// project's own.
pub fn epoch_biu(plan: &Feasible, k2: u64) -> u64
    requires { k2 ≤ 2 ^ 32 }
    ensures sum { result ≡ k2 + plan.now.plan.v + plan.now.plan.z + plan.now.plan.c }
    ensures epoch { (st : NodeState) → st.k2 ≡ Some k2
        → new_epoch_of plan.now.plan Biu st ≡ Some result }
{
    let plan = plan.plan();
    k2 + u64::from(plan.v) + u64::from(plan.z) + u64::from(plan.c)
}

/// The tick with which an RMU's next frame begins, by the middle of stage 3 of the sync slot, a
/// tick of at most 2^32: the length of that stage later. The lengths are this project's own.
pub fn epoch_rmu(plan: &Feasible, k3: u64) -> u64
    requires { k3 ≤ 2 ^ 32 }
    ensures sum { result ≡ k3 + plan.now.plan.z }
    ensures epoch { (st : NodeState) → st.k3 ≡ Some k3
        → new_epoch_of plan.now.plan Rmu st ≡ Some result }
{
    k3 + u64::from(plan.plan().z)
}
