//! A node core as calls for C, over a handle of the host.
ghost use Rattle.std.specs.Prelude.{◌≡◌, ◌^◌, IfSome, None, is_some};
ghost use Rattle.rb_host.specs.Calls.{Becomes, IsAnswered, IsHostWant, Ticks};
ghost use Rattle.rb_host.specs.Handles.{node_in};
ghost use Rattle.rb_host.specs.Nodes.{Arrives, IsNextTick, Passes};

use rb_host::act::{HostAct, HostWant};
use rb_host::calls;
use rb_host::handle::Handle;
use rb_host::seat::Seat;
use std::alloc::Global;

/// Frees the node that is there, if one is, and puts the node of this seat into the handle, before
/// its first tick. The answer is 0, or says why there is none: 7 no memory, 11 the sizes, 12 no
/// such node, 13 a number of the plan, 21 to 27 the inequality that fails first.
#[unsafe(no_mangle)]
pub extern "C" fn robus_node_new(alloc: Global, node: &mut Handle, seat: &Seat) -> u32
    ensures { IsAnswered seat.now (node_in node.new) result }
{
    calls::new(alloc, node, seat)
}

/// A message comes, or other bytes, with the number of their source among the nodes of the other
/// kind. Whether there is a node.
#[unsafe(no_mangle)]
pub extern "C" fn robus_node_arrive(
    alloc: Global,
    node: &mut Handle,
    from: u8,
    bytes: &[u8],
) -> bool
    ensures there { result ≡ is_some (node_in node.old) }
    ensures arrives { Becomes (λ n m. Arrives n from bytes.now m) (node_in node.old)
        (node_in node.new) }
{
    calls::arrive(alloc, node, from, bytes)
}

/// What the node wants to be handed for its next tick. Nothing if there is no node.
#[unsafe(no_mangle)]
pub extern "C" fn robus_node_wants(alloc: Global, node: &mut Handle) -> HostWant
    ensures wants { IfSome (node_in node.old) (λ n. IsHostWant n result) }
    ensures none { node_in node.old ≡ None → result ≡ record { what = 0; slot = 0 } }
    ensures stays { node_in node.new ≡ node_in node.old }
{
    calls::wants(alloc, node)
}

/// A tick of the node's clock, with the request or the word for the case that one is wanted, and
/// what the node gives. Whether there is a node; if there is none, `act` is as it was.
#[unsafe(no_mangle)]
pub extern "C" fn robus_node_tick(
    alloc: Global,
    node: &mut Handle,
    word: u32,
    act: &mut HostAct,
) -> bool
    ensures there { result ≡ is_some (node_in node.old) }
    ensures ticks { Becomes (λ n m. Ticks n word m act.new) (node_in node.old) (node_in node.new) }
    ensures none { node_in node.old ≡ None → act.new ≡ act.old }
{
    calls::tick(alloc, node, word, act)
}

/// The number of the first tick from the next on that is not quiet; 2^31 if that would not be below
/// 2^31, or if there is no node.
#[unsafe(no_mangle)]
pub extern "C" fn robus_node_next_tick(alloc: Global, node: &mut Handle) -> u64
    ensures next { IfSome (node_in node.old) (λ n. IsNextTick n result) }
    ensures none { node_in node.old ≡ None → result ≡ 2 ^ 31 }
    ensures stays { node_in node.new ≡ node_in node.old }
{
    calls::next_tick(alloc, node)
}

/// Lets quiet ticks pass: as many as there are before the next that is not quiet, and at most
/// `ticks`. Gives how many did; 0 if there is no node.
#[unsafe(no_mangle)]
pub extern "C" fn robus_node_pass(alloc: Global, node: &mut Handle, ticks: u64) -> u64
    ensures passes { Becomes (λ n m. Passes n ticks result m) (node_in node.old)
        (node_in node.new) }
    ensures none { node_in node.old ≡ None → result ≡ 0 }
{
    calls::pass(alloc, node, ticks)
}

/// Frees the node, and leaves none. Whether there was one.
#[unsafe(no_mangle)]
pub extern "C" fn robus_node_free(alloc: Global, node: &mut Handle) -> bool
    ensures there { result ≡ is_some (node_in node.old) }
    ensures gone { node_in node.new ≡ None }
{
    calls::free(alloc, node)
}
