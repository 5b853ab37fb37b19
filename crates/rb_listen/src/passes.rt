//! When a frame of the bus comes to its end, by the newest calls to resynchronize of the RMUs.
ghost use Rattle.std.specs.Prelude.{◌≡◌, ◌<◌, ◌≤◌, None, get_or};
ghost use Rattle.rb_listen.specs.Passes.{are_most, begins_pass, calling, falls_in, frame_in, is_call, is_sync, pass_of, reach_of};

use rb_base::{NodeId, NodeSet, Rmu, Shape};
use rb_plan::Feasible;
use rb_rules::{Message, Tag};

/// A call to resynchronize that an RMU sent to the BIUs: the number of its frame, modulo 65536, and
/// the stamp with which it came.
#[derive(Clone, Copy, Debug, PartialEq, Eq)]
pub struct Call {
    pub frame: u16,
    pub at: u64,
}

// Whether more than half of all RMUs are in the set.
pub(crate) fn are_most(shape: &Shape, set: NodeSet<Rmu>) -> bool
    ensures { result ≡ are_most shape.now set }
{
    shape.rmu() < 2 * set.count()
}

// Whether the tag is that of a call.
fn is_sync(tag: Tag) -> bool
    ensures { result ≡ is_sync tag }
{
    match tag {
        Tag::Word => false,
        Tag::Fault => false,
        Tag::Sync => true,
    }
}

// Whether the message is a call of an RMU to the BIUs.
pub(crate) fn is_call(shape: &Shape, message: &Message) -> bool
    ensures { result ≡ is_call shape.now message.now }
{
    is_sync(message.tag) && message.slot == shape.sync_slot() && message.stage == 2
}

// How many ticks the calls of a pass may lie apart.
pub(crate) fn reach(plan: &Feasible) -> u64
    ensures value { result ≡ reach_of plan.now.plan }
    ensures most { result ≤ 1000 }
{
    let plan = plan.plan();
    u64::from(plan.v.min(plan.z))
}

// Whether the call is one of the frame and came in these ticks.
fn falls_in(reach: u64, frame: u16, from: u64, call: Option<Call>) -> bool
    ensures { result ≡ falls_in reach frame from call }
{
    match call {
        None => false,
        Some(call) => {
            call.frame == frame && from <= call.at && call.at.saturating_sub(from) <= reach
        }
    }
}

// The newest call of an RMU.
fn newest_of(newest: &[Option<Call>; 16], index: u8) -> Option<Call>
    requires { index < 16 }
    ensures { result ≡ get_or newest.now index None }
{
    newest[usize::from(index)]
}

// The RMUs whose newest call is such a one.
fn calling(reach: u64, frame: u16, from: u64, newest: &[Option<Call>; 16]) -> NodeSet<Rmu>
    ensures { result ≡ calling reach frame from newest.now }
{
    let mut calling = NodeSet::empty();
    for j in 0..16 {
        if falls_in(reach, frame, from, newest_of(newest, j)) {
            calling.insert(NodeId::of(j));
        }
    }
    calling
}

// Whether a pass begins with the call.
fn begins_pass(plan: &Feasible, newest: &[Option<Call>; 16], call: Option<Call>) -> bool
    ensures { result ≡ begins_pass plan.now.sizes plan.now.plan newest.now call }
{
    match call {
        None => false,
        Some(call) => are_most(
            plan.shape(),
            calling(reach(plan), call.frame, call.at, newest),
        ),
    }
}

// The call's frame.
fn frame_in(call: Option<Call>) -> Option<u16>
    ensures { result ≡ frame_in call }
{
    match call {
        None => None,
        Some(call) => Some(call.frame),
    }
}

// The frame for which this is the moment of a pass.
pub(crate) fn pass_of(plan: &Feasible, newest: &[Option<Call>; 16]) -> Option<u16>
    ensures { result ≡ pass_of plan.now.sizes plan.now.plan newest.now }
{
    for j in 0..16 {
        let call = newest_of(newest, j);
        if begins_pass(plan, newest, call) {
            return frame_in(call);
        }
    }
    None
}
