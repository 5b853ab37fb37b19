//! The calls of a node core, over a handle of the host.
ghost use Rattle.std.specs.Prelude.{◌≡◌, ◌^◌, IfErr, IfSome, IsSomeAnd, None, OnErr, OnOk, is_some};
ghost use Rattle.rb_host.specs.Calls.{Becomes, IsAnswered, IsHostWant, Ticks, number_of};
ghost use Rattle.rb_host.specs.Handles.{node_in};
ghost use Rattle.rb_host.specs.Nodes.{Arrives, IsFirst, IsNextTick, Passes};
ghost use Rattle.rb_host.specs.Seats.{IsAccepted, IsRefused, name_of, timetable_of};

use crate::act::{HostAct, HostWant, act_shown, want_shown};
use crate::any_node::AnyNode;
use crate::handle::{Handle, put, take};
use crate::seat::{NoNode, Seat};
use std::alloc::Global;

// The number of an answer.
fn number_of(made: Result<(), NoNode>) -> u32
    ensures { result ≡ number_of made }
{
    match made {
        Ok(()) => 0,
        Err(NoNode::OutOfMemory) => 7,
        Err(NoNode::Sizes) => 11,
        Err(NoNode::Node) => 12,
        Err(NoNode::Plan) => 13,
        Err(NoNode::Inequality(n)) => 20 + u32::from(n),
    }
}

// Puts the node of this seat into a handle, before its first tick.
fn make(alloc: Global, node: &mut Handle, seat: &Seat) -> Result<(), NoNode>
    requires { node_in node.old ≡ None }
    ensures node { OnOk result (IsSomeAnd (node_in node.new) (IsFirst (timetable_of seat.now) (name_of seat.now))) }
    ensures accepted { OnOk result (IsAccepted seat.now) }
    ensures refused { IfErr result (IsRefused seat.now) }
    ensures none { OnErr result (node_in node.new ≡ None) }
{
    let (plan, name) = match seat.seated() {
        Ok(seated) => seated,
        Err(no_node) => return Err(no_node),
    };
    match Box::new(alloc, AnyNode::new(&plan, name)) {
        Ok(whole) => {
            put(node, whole);
            Ok(())
        }
        Err(_) => Err(NoNode::OutOfMemory),
    }
}

/// Frees the node that is there, if one is, and puts the node of this seat into the handle, before
/// its first tick. The answer is 0, or says why there is none: 7 no memory, 11 the sizes, 12 no
/// such node, 13 a number of the plan, 21 to 27 the inequality that fails first.
pub fn new(alloc: Global, node: &mut Handle, seat: &Seat) -> u32
    ensures { IsAnswered seat.now (node_in node.new) result }
{
    let _ = take(node, alloc);
    number_of(make(alloc, node, seat))
}

/// A message comes, or other bytes, with the number of their source among the nodes of the other
/// kind. Whether there is a node.
pub fn arrive(alloc: Global, node: &mut Handle, from: u8, bytes: &[u8]) -> bool
    ensures there { result ≡ is_some (node_in node.old) }
    ensures arrives { Becomes (λ n m. Arrives n from bytes.now m) (node_in node.old)
        (node_in node.new) }
{
    let Some(mut whole) = take(node, alloc) else {
        return false;
    };
    whole.arrive(from, bytes);
    put(node, whole);
    true
}

/// What the node wants to be handed for its next tick. Nothing if there is no node.
pub fn wants(alloc: Global, node: &mut Handle) -> HostWant
    ensures wants { IfSome (node_in node.old) (λ n. IsHostWant n result) }
    ensures none { node_in node.old ≡ None → result ≡ record { what = 0; slot = 0 } }
    ensures stays { node_in node.new ≡ node_in node.old }
{
    let Some(whole) = take(node, alloc) else {
        return HostWant { what: 0, slot: 0 };
    };
    let want = want_shown(whole.wants());
    put(node, whole);
    want
}

/// A tick of the node's clock, with the request or the word for the case that one is wanted, and
/// what the node gives. Whether there is a node; if there is none, `act` is as it was.
pub fn tick(alloc: Global, node: &mut Handle, word: u32, act: &mut HostAct) -> bool
    ensures there { result ≡ is_some (node_in node.old) }
    ensures ticks { Becomes (λ n m. Ticks n word m act.new) (node_in node.old) (node_in node.new) }
    ensures none { node_in node.old ≡ None → act.new ≡ act.old }
{
    let Some(mut whole) = take(node, alloc) else {
        return false;
    };
    *act = act_shown(&whole.tick(word));
    put(node, whole);
    true
}

/// The number of the first tick from the next on that is not quiet; 2^31 if that would not be below
/// 2^31, or if there is no node.
pub fn next_tick(alloc: Global, node: &mut Handle) -> u64
    ensures next { IfSome (node_in node.old) (λ n. IsNextTick n result) }
    ensures none { node_in node.old ≡ None → result ≡ 2 ^ 31 }
    ensures stays { node_in node.new ≡ node_in node.old }
{
    let Some(whole) = take(node, alloc) else {
        return 2_147_483_648;
    };
    let tick = whole.next_tick();
    put(node, whole);
    tick
}

/// Lets quiet ticks pass: as many as there are before the next that is not quiet, and at most
/// `ticks`. Gives how many did; 0 if there is no node.
pub fn pass(alloc: Global, node: &mut Handle, ticks: u64) -> u64
    ensures passes { Becomes (λ n m. Passes n ticks result m) (node_in node.old)
        (node_in node.new) }
    ensures none { node_in node.old ≡ None → result ≡ 0 }
{
    let Some(mut whole) = take(node, alloc) else {
        return 0;
    };
    let passed = whole.pass(ticks);
    put(node, whole);
    passed
}

/// Frees the node, and leaves none. Whether there was one.
pub fn free(alloc: Global, node: &mut Handle) -> bool
    ensures there { result ≡ is_some (node_in node.old) }
    ensures gone { node_in node.new ≡ None }
{
    take(node, alloc).is_some()
}
